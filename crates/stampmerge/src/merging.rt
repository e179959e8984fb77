// Both lists are read whole and merged in memory. Only then is anything written, so lists that are not
// good change no file, and OUT may be one of the lists. A list of more than 32,768 bytes is not read to
// its end: the room for it has one byte more than a list may have, and that byte shows that it is too
// long.
use crate::messages;
use merge::MergeError;
use merge::lists::{ListError, MAX_LIST};
use streams::{Reported, Tool};
use text::places;

const ROOM: usize = MAX_LIST + 1;

// Enough for every merged book: twice the longest list.
const BOOK: usize = 2 * MAX_LIST;

// Enough for every report: nine eighths of the longest list. A line has at least 31 bytes beside its
// path, and a path at least one byte; the path's row in the report has 35 bytes beside it.
const REPORT: usize = 36864;

// Merges the lists in two files and writes the book to a third. `-` is standard input or output.
pub fn merge_to(tool: &Tool, first: &[u8], second: &[u8], out: &[u8]) -> Result<(), Reported> {
    let mut room = [0u8; ROOM];
    let n = tool.read(first, &mut room)?;
    let mut other = [0u8; ROOM];
    let k = tool.read(second, &mut other)?;
    merge_lists(
        tool,
        first,
        places::up_to(&room, n),
        second,
        places::up_to(&other, k),
        out,
    )
}

// Merges two lists. Both rooms are long enough for any two good lists (`good_lists_fit` of `merge`), so the
// last case does not occur.
fn merge_lists(
    tool: &Tool,
    path: &[u8],
    first: &[u8],
    other_path: &[u8],
    second: &[u8],
    out: &[u8],
) -> Result<(), Reported> {
    let mut book = [0u8; BOOK];
    let mut report = [0u8; REPORT];
    match merge::merge(first, second, &mut book, &mut report) {
        // If the book cannot be written, there is no report.
        Ok(lengths) => {
            tool.write(out, places::up_to(&book, lengths.book))?;
            tool.write_error(places::up_to(&report, lengths.report))
        }
        Err(MergeError::Lists(error)) => Err(say_fault(tool, error, path, other_path)),
        Err(MergeError::NoRoom) => Err(tool.report(b"no room for the merged book")),
    }
}

// Says on standard error which list is at fault, and how.
fn say_fault(tool: &Tool, error: ListError, first: &[u8], second: &[u8]) -> Reported {
    let mut room = messages::empty_message();
    let at = messages::put_message(error, first, second, &mut room);
    tool.say(places::from(&room, at));
    Reported
}
