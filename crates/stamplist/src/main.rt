// The program `stamplist` (RULES 13): it reads a book of stamps from a file or from standard input and
// writes its listing to standard output.
//
// What the listing is, and which line of a book is the first bad one, is said in the contract of
// `stamps::book::list_with`; this crate only reads and writes. No contract can say which bytes are
// read or written.
//
// The exit status is always 0. A bad book, and a read or a write that fails, is reported on standard
// error.
#![tactic(auto)]

mod help;
mod listing;

use streams::{MAX_ARGUMENT, Reported, Tool, is_option};

// Whatever fails has been reported when `run` returns.
fn main(rt: HostRuntime) {
    let _ = run(&Tool::new(&rt, b"stamplist"));
}

// Only the first argument may be an option.
fn run(tool: &Tool) -> Result<(), Reported> {
    let mut room = [0u8; MAX_ARGUMENT];
    let Some(n) = tool.argument(1, &mut room)? else {
        return listing::list_file(tool, b"-");
    };
    let word = &room[..n];
    if tool.answers(word, help::TEXT, b"stamplist 0.1.0\n")? {
        return Ok(());
    }
    if is_option(word) {
        return Err(tool.complain_of(b"unknown option", word));
    }
    if tool.has_argument(2) {
        return Err(tool.complain(b"more than one book"));
    }
    listing::list_file(tool, word)
}
