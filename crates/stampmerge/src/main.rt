// The program `stampmerge` (RULES 15): it makes one book of stamps from the lists of two build machines
// and writes it to a file or to standard output. The paths whose keys differ go to standard error.
//
// What the merged book and the report on keys are, and what is wrong with a list, is said in the
// contract of `merge::merge`. What is said of a list that is at fault is in the contract of
// `messages::put_message`. The rest of this crate only reads and writes. No contract can say which bytes
// are read or written.
//
// The exit status is always 0. A list that is at fault, and a call of the system that fails, is reported
// on standard error.
#![tactic(auto)]

mod help;
mod merging;
mod messages;

use streams::{MAX_ARGUMENT, Reported, Tool, is_option, is_standard};

// Whatever fails has been reported when `run` returns.
fn main(rt: HostRuntime) {
    let _ = run(&Tool::new(&rt, b"stampmerge"));
}

// Only the first argument may be an option.
fn run(tool: &Tool) -> Result<(), Reported> {
    let mut room = [0u8; MAX_ARGUMENT];
    let Some(n) = tool.argument(1, &mut room)? else {
        return Err(tool.complain(b"FIRST, SECOND and OUT are missing"));
    };
    let word = &room[..n];
    if tool.answers(word, help::TEXT, b"stampmerge 0.1.0\n")? {
        return Ok(());
    }
    if is_option(word) {
        return Err(tool.complain_of(b"unknown option", word));
    }
    take_second(tool, word)
}

// Goes on with both lists, if there are two more arguments. Standard input can be read only once.
fn take_second(tool: &Tool, first: &[u8]) -> Result<(), Reported> {
    if !tool.has_argument(2) {
        return Err(tool.complain(b"SECOND and OUT are missing"));
    }
    if !tool.has_argument(3) {
        return Err(tool.complain(b"OUT is missing"));
    }
    if tool.has_argument(4) {
        return Err(tool.complain(b"more than FIRST, SECOND and OUT"));
    }
    let mut room = [0u8; MAX_ARGUMENT];
    // The argument is there, as `has_argument` said, so the branch of `else` is not taken.
    let Some(n) = tool.argument(2, &mut room)? else {
        return Err(tool.complain(b"argument of more than 4,096 bytes"));
    };
    let second = &room[..n];
    if is_option(second) {
        return Err(tool.complain_of(b"option behind FIRST", second));
    }
    if is_standard(first) & is_standard(second) {
        return Err(tool.complain(b"FIRST and SECOND cannot both be standard input"));
    }
    take_out(tool, first, second)
}

// Merges two lists to the file that the third argument names.
fn take_out(tool: &Tool, first: &[u8], second: &[u8]) -> Result<(), Reported> {
    let mut room = [0u8; MAX_ARGUMENT];
    // The argument is there, as `has_argument` said, so the branch of `else` is not taken.
    let Some(n) = tool.argument(3, &mut room)? else {
        return Err(tool.complain(b"argument of more than 4,096 bytes"));
    };
    let out = &room[..n];
    if is_option(out) {
        return Err(tool.complain_of(b"option behind FIRST", out));
    }
    merging::merge_to(tool, first, second, out)
}
