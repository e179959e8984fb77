// A line of a book, judged alone (RULES 13.2 to 13.7): a hull with a path, a key and a time, or a
// cut-off; a bad line is None. A field is scanned once, up to its end, and nothing is copied: a path, a
// key or a text is answered as its bounds in the line, for `text::words::within`, as the definition
// `line_of` has it.
ghost use Rattle.std.specs.Prelude.{◌≡◌, true, ◌+◌, ◌^◌, ◌≤◌, ◌<◌, length};
ghost use Rattle.text.specs.Number.{fit_signed};
ghost use Rattle.relative.specs.Relative.{max_pairs};
ghost use Rattle.stamps.specs.Stamps.{stamp_of};
ghost use Rattle.stamps.specs.Lines.{is_path, hull_at, since_with, line_of};
ghost use Rattle.stamps.specs.Held.{first_of, first_hull_of, first_from, part_from, left_at, hull_left, key_left, since_left, current_left};

use crate::scan::{Hex, Path, Text};
use crate::{scan, stamp};
use calendar::MonthTable;
use text::number::Width;
use text::scan::past;
use text::words::Span;
use time::Time;

// Where the path of a `hull` line and the text of a `since` line begin.
pub const PATH_START: usize = 5;

const TEXT_START: usize = 6;

// The most bytes of a path, and the bytes of a key.
pub(crate) const MAX_PATH: usize = 255;

pub const KEY: usize = 16;

// A hull: where its path and its key are in the line, and its time.
#[derive(Clone, Copy)]
pub struct Hull {
    pub path: Span,
    pub key: Span,
    pub time: Time,
}

// A cut-off: where its text is in the line, the current time beside it, and the time that the text
// means at that current time.
#[derive(Clone, Copy)]
pub struct Since {
    pub text: Span,
    pub current: Time,
    pub cut_off: Time,
}

// A good line.
#[derive(Clone, Copy)]
pub enum Line {
    Hull(Hull),
    Since(Since),
}

// Reads a line, which is given without its newline.
pub fn read(line: &[u8]) -> Option<Line>
    ensures { result ≡ line_of max_pairs line.now }
{
    read_with(MonthTable::none(), line)
}

// The same with a table of months, for many calls: the whole table, or any leading part of it.
pub fn read_with(months: MonthTable, line: &[u8]) -> Option<Line>
    ensures { result ≡ line_of max_pairs line.now }
{
    let first = first_line(months, line)?;
    if first.length == line.len() {
        Some(first.line)
    } else {
        None
    }
}

// The first line of a text, which is good, and how many bytes it has before its newline.
#[derive(Clone, Copy)]
pub struct First {
    pub line: Line,
    pub length: usize,
}

// Reads the line in front of the first newline of `s`, or all of `s` if it holds none.
pub(crate) fn first_line(months: MonthTable, s: &[u8]) -> Option<First>
    ensures { result ≡ first_of max_pairs s.now }
{
    if s.starts_with(b"hull\t") {
        first_hull(s)
    } else if s.starts_with(b"since\t") {
        first_since(months, s)
    } else {
        None
    }
}

// The same where only a `hull` line is good.
pub fn read_first_hull(s: &[u8]) -> Option<First>
    ensures { result ≡ first_hull_of max_pairs s.now }
{
    if s.starts_with(b"hull\t") {
        first_hull(s)
    } else {
        None
    }
}

// Reads the first line of a text that opens with `hull` and a tab, from its path on.
fn first_hull(s: &[u8]) -> Option<First>
    ensures { result ≡ first_from s.now 5 (hull_left (left_at s.now 5)) }
{
    let path_end = past::<Path>(s, PATH_START);
    let path = path_end - PATH_START;
    if (path == 0) | (MAX_PATH < path) {
        return None;
    }
    if scan::is_at(s, path_end, b'\t') {
        keyed_hull(s, path_end)
    } else {
        None
    }
}

// The same from its key on: the path ends at a tab.
fn keyed_hull(s: &[u8], path_end: usize) -> Option<First>
    requires { (5 ≤ path_end) × (path_end < length s.now) × (is_path (part_from s.now 5 path_end) ≡ true) }
    ensures { result ≡ first_from s.now (path_end + 1) (key_left (part_from s.now 5 path_end) (left_at s.now (path_end + 1))) }
{
    let key_start = path_end + 1;
    let key_end = past::<Hex>(s, key_start);
    if key_end - key_start != KEY {
        return None;
    }
    if scan::is_at(s, key_end, b'\t') {
        stamped_hull(s, path_end, key_end)
    } else {
        None
    }
}

// The same from its time on: the key ends at a tab too.
fn stamped_hull(s: &[u8], path_end: usize, key_end: usize) -> Option<First>
    requires { (5 ≤ path_end) × (path_end < key_end) × (key_end < length s.now) }
    ensures { result ≡ first_from s.now (key_end + 1) (hull_at (part_from s.now 5 path_end) (part_from s.now (path_end + 1) key_end) (stamp_of (left_at s.now (key_end + 1)))) }
{
    let time = stamp::stamp_at(s, key_end + 1)?;
    let path = Span {
        start: PATH_START,
        end: path_end,
    };
    let key = Span {
        start: path_end + 1,
        end: key_end,
    };
    Some(First {
        line: Line::Hull(Hull { path, key, time }),
        length: key_end + 1 + time.size(),
    })
}

// Reads the first line of a text that opens with `since` and a tab, from its text on.
fn first_since(months: MonthTable, s: &[u8]) -> Option<First>
    ensures { result ≡ first_from s.now 6 (since_left max_pairs (left_at s.now 6)) }
{
    let text_end = past::<Text>(s, TEXT_START);
    if scan::is_at(s, text_end, b'\t') {
        dated_since(months, s, text_end)
    } else {
        None
    }
}

// The same from its current seconds on: the text ends at a tab.
fn dated_since(months: MonthTable, s: &[u8], text_end: usize) -> Option<First>
    requires le_text_end { (6 ≤ text_end) × (text_end < length s.now) }
    ensures { result ≡ first_from s.now (text_end + 1) (current_left max_pairs (part_from s.now 6 text_end) (left_at s.now (text_end + 1))) }
{
    let seconds = stamp::printed_at(s, text_end + 1, Width::Bits64);
    if !scan::is_at(s, seconds.end, b'\t') {
        return None;
    }
    let offset = stamp::printed_at(s, seconds.end + 1, Width::Bits32);
    if !scan::ends_at(s, offset.end) {
        return None;
    }
    let line = since_with(months, s, text_end, seconds.number, offset.number)?;
    Some(First {
        line,
        length: offset.end,
    })
}

// The line whose text ends at a place, with these numbers. 32 bits hold the offset.
fn since_with(
    months: MonthTable,
    s: &[u8],
    text_end: usize,
    seconds: Option<i64>,
    offset: Option<i64>,
) -> Option<Line>
    requires le_text_end { (6 ≤ text_end) × (text_end ≤ length s.now) × (fit_signed (2 ^ 31) offset ≡ offset) }
    ensures { result ≡ since_with max_pairs (part_from s.now 6 text_end) seconds offset }
{
    let z = seconds?;
    let o = offset?;
    let current = Time::new(z, o as i32);
    let text = &s[TEXT_START..text_end];
    let cut_off = relative::parse_with(months, text, Some(current)).ok()?;
    let text = Span {
        start: TEXT_START,
        end: text_end,
    };
    Some(Line::Since(Since {
        text,
        current,
        cut_off,
    }))
}
