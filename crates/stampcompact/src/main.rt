// The program `stampcompact` (RULES 13.18): it compacts a book of stamps in place, or writes the
// compacted book to another file or to standard output.
//
// What the compacted book is, and which line of a book is the first bad one, is said in the contract of
// `compact::compact_with`; this crate only reads and writes. No contract can say which bytes are read or
// written.
//
// The exit status is always 0. A bad book, and a call of the system that fails, is reported on standard
// error.
#![tactic(auto)]

mod compacting;
mod help;

use streams::{MAX_ARGUMENT, Reported, Tool, is_option, is_standard};

// Whatever fails has been reported when `run` returns.
fn main(rt: HostRuntime) {
    let _ = run(&Tool::new(&rt, b"stampcompact"));
}

// Only the first argument may be an option.
//
// `stampmerge` and `stampsalvage` begin alike. One function for the three would take the room, three texts
// and what to go on with: no plainer than these lines.
fn run(tool: &Tool) -> Result<(), Reported> {
    let mut room = [0u8; MAX_ARGUMENT];
    let Some(n) = tool.argument(1, &mut room)? else {
        return Err(tool.complain(b"no book"));
    };
    let word = &room[..n];
    if tool.answers(word, help::TEXT, b"stampcompact 0.1.0\n")? {
        return Ok(());
    }
    if is_option(word) {
        return Err(tool.complain_of(b"unknown option", word));
    }
    compact_book(tool, word)
}

// Compacts the book in a file, or on standard input if its name is `-`, to the file that the second
// argument names. If there is no second argument, the book is replaced.
fn compact_book(tool: &Tool, book: &[u8]) -> Result<(), Reported> {
    if tool.has_argument(3) {
        return Err(tool.complain(b"more than BOOK and OUT"));
    }
    let mut room = [0u8; MAX_ARGUMENT];
    let Some(n) = tool.argument(2, &mut room)? else {
        if is_standard(book) {
            return Err(tool.complain(b"OUT is missing: standard input cannot be replaced"));
        }
        return compacting::compact_in_place(tool, book);
    };
    let out = &room[..n];
    if is_option(out) {
        return Err(tool.complain_of(b"option behind BOOK", out));
    }
    compacting::compact_to(tool, book, out)
}
