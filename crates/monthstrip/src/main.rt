// The program `monthstrip` (RULES 14.8): it prints a month, a row for each week with its ISO week number
// in front and Monday first.
//
// What the page is, and which months have one, is said in the contract of `page::write_page`. The rest
// of this crate reads the arguments and writes the page or a message. No contract can say which bytes
// are written.
//
// The exit status is always 0. Arguments that are refused, and a write that fails, are reported on
// standard error.
#![tactic(auto)]

mod help;
mod page;

use streams::{MAX_ARGUMENT, Reported, Tool};
use text::number::Width;
use text::scan::Digit;
use text::{number, places, scan};

// Room for a page.
const PAGE: usize = 4096;

// Whatever fails has been reported when `run` returns.
fn main(rt: HostRuntime) {
    let _ = run(&Tool::new(&rt, b"monthstrip"));
}

// Answers an option, or prints a month if the first argument is a year. Only the first argument may be an
// option.
fn run(tool: &Tool) -> Result<(), Reported> {
    let mut room = [0u8; MAX_ARGUMENT];
    let Some(n) = tool.argument(1, &mut room)? else {
        return Err(tool.complain(b"YEAR and MONTH are missing"));
    };
    let word = &room[..n];
    if tool.answers(word, help::TEXT, b"monthstrip 0.1.0\n")? {
        return Ok(());
    }
    if is_option(word) {
        return Err(tool.complain_of(b"unknown option", word));
    }
    if !tool.has_argument(2) {
        return Err(tool.complain(b"MONTH is missing"));
    }
    if tool.has_argument(3) {
        return Err(tool.complain(b"more than YEAR and MONTH"));
    }
    print_of_year(tool, word)
}

// Whether an argument is an option: it begins with `-` and has anything but digits after it, or nothing.
// So `-5` is a year.
fn is_option(word: &[u8]) -> bool {
    match word {
        [b'-'] => true,
        [b'-', ..] => scan::past::<Digit>(word, 1) < word.len(),
        _ => false,
    }
}

// Prints the month that the second argument is, of the year that `word` is.
fn print_of_year(tool: &Tool, word: &[u8]) -> Result<(), Reported> {
    let year = number_of(tool, word)?;
    let mut room = [0u8; MAX_ARGUMENT];
    let Some(n) = tool.argument(2, &mut room)? else {
        return Err(tool.complain(b"MONTH is missing"));
    };
    let month = number_of(tool, &room[..n])?;
    print_month(tool, year, month)
}

fn number_of(tool: &Tool, word: &[u8]) -> Result<i64, Reported> {
    number::signed_number(word, Width::Bits64).ok_or_else(|| tool.complain_of(
        b"not a number:",
        word,
    ))
}

// Prints a month. No page is longer than 199 bytes (`length-page_bytes-le`) and the buffer is, so a page is
// refused only if there is no such month.
fn print_month(tool: &Tool, year: i64, month: i64) -> Result<(), Reported> {
    let mut room = [0u8; PAGE];
    match page::write_page(year, month, &mut room) {
        Ok(n) => tool.write_out(places::up_to(&room, n)),
        Err(_) => Err(tool.report(b"no such month: YEAR is -9999 to 9999, MONTH is 1 to 12")),
    }
}
