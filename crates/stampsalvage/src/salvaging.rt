// A book is read whole and salvaged in memory. Only then is anything written. A book of more than 65,536
// bytes is not read to its end: the room for it has one byte more than a book may have, and that byte
// shows that it is too long.
//
// The damaged book is kept: no other file has the bytes that are dropped.
ghost use Rattle.std.specs.Prelude.{◌≡◌, ◌+◌, ◌≤◌, length};

use crate::messages;
use calendar::MonthTable;
use stamps::book;
use streams::{Reported, Tool, is_standard, name_of};
use text::{bytes, places};

const ROOM: usize = book::MAX_BOOK + 1;

// Enough for every report.
const REPORT: usize = salvage::REPORT_PER_BYTE * book::MAX_BOOK;

// How many bytes of messages are written at once.
const MESSAGES: usize = 65536;

// Writes the good lines of the book in a file to another file. `-` is standard input or output.
pub fn salvage_to(tool: &Tool, path: &[u8], out: &[u8]) -> Result<(), Reported> {
    if !is_kept_by(tool, path, out) {
        return Err(tool.report(b"OUT is BOOK; name another file"));
    }
    let mut room = [0u8; ROOM];
    let n = tool.read(path, &mut room)?;
    let name = name_of(path, b"standard input");
    write_salvaged(tool, name, places::up_to(&room, n), out)
}

// Whether writing to OUT leaves BOOK as it is.
fn is_kept_by(tool: &Tool, path: &[u8], out: &[u8]) -> bool {
    if is_standard(out) {
        true
    } else if is_standard(path) {
        !tool.is_input(out)
    } else {
        !(bytes::same(path, out) || tool.is_same_file(path, out))
    }
}

fn report_room() -> [u8; REPORT]
    ensures { 524288 ≡ length result }
{
    zeros::<REPORT>()
}

// An array of zeros. It has any length, because a proof about so many zeros would count them one by one.
fn zeros<const N: usize>() -> [u8; N]
    ensures { N ≡ length result }
{
    [0; N]
}

// Writes the good lines, and then the report: if the lines cannot be written, there is no report. Both
// rooms are long enough for every book, so a refusal says that the book is too long.
fn write_salvaged(tool: &Tool, name: &[u8], book: &[u8], out: &[u8]) -> Result<(), Reported> {
    let mut kept = [0u8; book::MAX_BOOK];
    let mut report = report_room();
    let Ok(salvaged) = salvage::salvage_with(MonthTable::whole(), book, &mut kept, &mut report)
    else {
        return Err(tool.bad_book(name, 0));
    };
    tool.write(out, places::up_to(&kept, salvaged.length))?;
    say_dropped(tool, name, places::up_to(&report, salvaged.report_length));
    Ok(())
}

// Says on standard error which lines were dropped.
fn say_dropped(tool: &Tool, name: &[u8], report: &[u8]) {
    let mut room = [0u8; MESSAGES];
    say_rows(tool, name, report, &mut room);
}

// Says one message for each row of the report. The messages are gathered in `room`, and many are written
// at once: a book may have 65,536 bad lines. No row is longer than `MAX_ROW`, so none is cut.
fn say_rows(tool: &Tool, name: &[u8], report: &[u8], room: &mut [u8])
    requires { 4178 ≤ length room.old }
{
    let mut held: usize = 0;
    for line in report.split_inclusive(|&b| b == b'\n') {
        let next = make_room(tool, held, room);
        let row = places::up_to(places::before(line, b'\n'), messages::MAX_ROW);
        held = messages::put_message(name, row, next, room);
    }
    write_messages(tool, held, room);
}

// The place for the next message: behind those that are gathered, or the front if they had to be written
// first.
fn make_room(tool: &Tool, held: usize, room: &[u8]) -> usize
    requires { (held ≤ length room.now) × (4178 ≤ length room.now) }
    ensures { result + 4178 ≤ length room.now }
{
    if room.len() - held < messages::MESSAGE {
        write_messages(tool, held, room);
        0
    } else {
        held
    }
}

// If they cannot be written, the messages after them are tried all the same.
fn write_messages(tool: &Tool, held: usize, room: &[u8]) {
    let _ = tool.write_error(places::up_to(room, held));
}
