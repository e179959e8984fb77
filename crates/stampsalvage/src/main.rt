// The program `stampsalvage` (RULES 16): it writes the good lines of a damaged book of stamps to a file or
// to standard output. The lines that are dropped are reported on standard error.
//
// Which lines are good, and what the report on the others is, is said in the contract of
// `salvage::salvage_with`. What is said of each line that is dropped is in the contract of
// `messages::put_message`. The rest of this crate only reads and writes. No contract can say which bytes
// are read or written.
//
// The exit status is always 0. A call of the system that fails is reported on standard error.
#![tactic(auto)]

mod help;
mod messages;
mod salvaging;

use streams::{MAX_ARGUMENT, Reported, Tool, is_option};

// Whatever fails has been reported when `run` returns.
fn main(rt: HostRuntime) {
    let _ = run(&Tool::new(&rt, b"stampsalvage"));
}

// Only the first argument may be an option.
fn run(tool: &Tool) -> Result<(), Reported> {
    let mut room = [0u8; MAX_ARGUMENT];
    let Some(n) = tool.argument(1, &mut room)? else {
        return Err(tool.complain(b"BOOK and OUT are missing"));
    };
    let word = &room[..n];
    if tool.answers(word, help::TEXT, b"stampsalvage 0.1.0\n")? {
        return Ok(());
    }
    if is_option(word) {
        return Err(tool.complain_of(b"unknown option", word));
    }
    salvage_book(tool, word)
}

// Salvages a book to the file that the second argument names.
fn salvage_book(tool: &Tool, book: &[u8]) -> Result<(), Reported> {
    if tool.has_argument(3) {
        return Err(tool.complain(b"more than BOOK and OUT"));
    }
    let mut room = [0u8; MAX_ARGUMENT];
    let Some(n) = tool.argument(2, &mut room)? else {
        return Err(tool.complain(b"OUT is missing"));
    };
    let out = &room[..n];
    if is_option(out) {
        return Err(tool.complain_of(b"option behind BOOK", out));
    }
    salvaging::salvage_to(tool, book, out)
}
