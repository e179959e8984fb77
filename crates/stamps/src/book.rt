// A whole book (RULES 13.8 to 13.11). A check is one pass over it. A listing takes two: the first
// judges every line, adds up the length of the listing and marks the lines that belong to it; the
// second copies them. Nothing is written before the last line is known to be good and the room to be
// long enough.
ghost use Rattle.std.specs.Prelude.{◌≡◌, cond, [], ◌++◌, ◌≤◌, eqb, length, drop, get_or, set, None};
ghost use Rattle.std.proofs.lemmas.List.Edits.{sets};
ghost use Rattle.relative.specs.Relative.{max_pairs};
ghost use Rattle.text.specs.Lines.{ended_lines, taken_by, left};
ghost use Rattle.text.specs.Room.{room_after};
ghost use Rattle.time.specs.declared.Refusal.TheVariants.{Book};
ghost use Rattle.stamps.specs.Book.{lines_in, first_bad, good_front, check_of};
ghost use Rattle.stamps.specs.Copies.{joined, is_written};
ghost use Rattle.stamps.specs.Listing.{is_at_or_after, listing, list_of};
ghost use Rattle.stamps.specs.Held.{survey_of, next_of, mark_of, marks_of, picked};

use crate::line;
use crate::line::Line;
use calendar::MonthTable;
use text::{copy, places};
use time::Refusal;

// The most bytes that a book has.
pub const MAX_BOOK: usize = 65536;

// The fewest bytes that a good line takes: 10 and its newline.
const LEAST_LINE: usize = 11;

// The most lines that a good book can have: 65,536 / 11. A listing has a mark for each, in an array, since
// no call uses a heap.
pub const MAX_LINES: usize = MAX_BOOK / LEAST_LINE;

// The mark of a line that is listed. Any other line has the mark 0. A mark is no bool: `picked` reads it as
// a number, and the laws of a compacted book stand on `picked` too.
const LISTED: u8 = 1;

// Why a book is refused, or why its lines are not copied, and the number of its first bad line, from 1.
// The number is 0 if the book is too long or the room too short: it is no `Option`, since C gets this
// number, and the definition `checked_line` has 0.
#[derive(Clone, Copy)]
pub struct BookError {
    pub refusal: Refusal,
    pub line: usize,
}

// The first bad line of a book: its number, from 1, and where it begins.
#[derive(Clone, Copy)]
struct BadLine {
    number: usize,
    start: usize,
}

impl From<BadLine> for BookError {
    ghost from_gives = { λ b e. e ≡ record { refusal = Book; line = b.number } };

    fn from(bad: BadLine) -> BookError {
        BookError {
            refusal: Refusal::Book,
            line: bad.number,
        }
    }
}

// Whether a book is good. The empty book is.
pub fn check(book: &[u8]) -> Result<(), BookError>
    ensures { result ≡ check_of max_pairs book.now }
{
    check_with(MonthTable::none(), book)
}

// The same with a table of months, for many calls: the whole table, or any leading part of it.
pub fn check_with(months: MonthTable, book: &[u8]) -> Result<(), BookError>
    ensures { result ≡ check_of max_pairs book.now }
{
    if MAX_BOOK < book.len() {
        return Err(BookError {
            refusal: Refusal::Book,
            line: 0,
        });
    }
    judge_lines(months, book, &mut [])?;
    Ok(())
}

// Writes the listing of a book to the front of `room` and returns its length. The bytes beyond it stay
// as they were. A book that is not good is refused by 10, then a room that is shorter than the listing
// by 8. A refusal changes nothing in the room.
pub fn list(book: &[u8], room: &mut [u8]) -> Result<usize, BookError>
    ensures value { result ≡ list_of max_pairs book.now room.old }
    ensures room_after { room.new ≡ room_after (is_written (list_of max_pairs book.now room.old)) (listing max_pairs book.now) room.old }
{
    list_with(MonthTable::none(), book, room)
}

// The same with a table of months, for many calls: the whole table, or any leading part of it.
pub fn list_with(months: MonthTable, book: &[u8], room: &mut [u8]) -> Result<usize, BookError>
    ensures value { result ≡ list_of max_pairs book.now room.old }
    ensures room_after { room.new ≡ room_after (is_written (list_of max_pairs book.now room.old)) (listing max_pairs book.now) room.old }
{
    if MAX_BOOK < book.len() {
        return Err(BookError {
            refusal: Refusal::Book,
            line: 0,
        });
    }
    let mut marks = [0; MAX_LINES];
    let length = judge_lines(months, book, &mut marks)?;
    if room.len() < length {
        return Err(BookError {
            refusal: Refusal::Room,
            line: 0,
        });
    }
    copy_marked(book, &marks, room);
    Ok(length)
}

// The good lines at the front of a text: the number, from 1, of the bad line behind them, if there is
// one, and the place where they end.
#[derive(Clone, Copy)]
pub struct Run {
    pub bad: Option<usize>,
    pub end: usize,
}

// Judges the lines of a text up to the first bad one, with a table of months as `check_with` has it.
pub fn good_run_with(months: MonthTable, s: &[u8]) -> Run
    ensures { (result.bad ≡ first_bad 1 (lines_in max_pairs s.now)) × (result.end ≡ taken_by (good_front max_pairs (ended_lines s.now))) }
{
    match judge_lines(months, s, &mut []) {
        Ok(_) => Run {
            bad: None,
            end: s.len(),
        },
        Err(bad) => Run {
            bad: Some(bad.number),
            end: bad.start,
        },
    }
}

// Judges every line of a book up to the first bad one, and marks those that are listed. Returns the
// length of the listing. The loop is no `for`: where a line ends is known only when it is judged, so
// `split_inclusive` would read each byte twice.
fn judge_lines(months: MonthTable, book: &[u8], marks: &mut [u8]) -> Result<usize, BadLine>
    ensures value { result ≡ survey_of max_pairs book.now }
    ensures marks_after { first_bad 1 (lines_in max_pairs book.now) ≡ None → marks.new ≡ sets marks.old 0 (marks_of max_pairs None (ended_lines book.now)) }
{
    let mut at: usize = 0;
    let mut n: usize = 0;
    let mut length: usize = 0;
    let mut cut_off = None;
    while at < book.len() {
        let Some(next) = next_line(months, places::from(book, at), cut_off) else {
            return Err(BadLine {
                number: n + 1,
                start: at,
            });
        };
        put_mark(next.listed, n, marks);
        cut_off = next.cut_off.or(cut_off);
        if next.listed {
            length += next.size;
        }
        at += next.size;
        n += 1;
    }
    Ok(length)
}

// What the next line of a book is: how many bytes it has with its newline; whether it is listed; and the
// cut-off that it gives. A listed line has no value that another lacks, so `listed` is a flag.
#[derive(Clone, Copy)]
struct Next {
    size: usize,
    listed: bool,
    cut_off: Option<i64>,
}

// Judges the first line of `s`, under the cut-off of the last `since` line above it. A line without a
// newline is bad.
fn next_line(months: MonthTable, s: &[u8], cut_off: Option<i64>) -> Option<Next>
    ensures { result ≡ next_of max_pairs s.now cut_off }
{
    let first = line::first_line(months, s)?;
    if s.len() <= first.length {
        return None;
    }
    let size = first.length + 1;
    match first.line {
        Line::Hull(hull) => Some(Next {
            size,
            listed: is_at_or_after(cut_off, hull.time.seconds),
            cut_off: None,
        }),
        Line::Since(since) => Some(Next {
            size,
            listed: false,
            cut_off: Some(since.cut_off.seconds),
        }),
    }
}

// Whether seconds are at or after a cut-off. Without a cut-off all are.
pub fn is_at_or_after(cut_off: Option<i64>, seconds: i64) -> bool
    ensures { result ≡ is_at_or_after cut_off seconds }
{
    match cut_off {
        Some(c) => c <= seconds,
        None => true,
    }
}

// How many bytes a line adds to the listing: its size if it is listed, else none.
pub fn size_if(listed: bool, size: usize) -> usize
    ensures { result ≡ cond listed size 0 }
{
    if listed { size } else { 0 }
}

// Marks line n, counted from 0, if there is a place for its mark.
fn put_mark(listed: bool, n: usize, marks: &mut [u8])
    ensures { marks.new ≡ set marks.old n (mark_of listed) }
{
    if n < marks.len() {
        marks[n] = mark_of(listed);
    }
}

fn mark_of(listed: bool) -> u8
    ensures { result ≡ mark_of listed }
{
    if listed { LISTED } else { 0 }
}

// Copies the marked lines of a book, each with its newline, to the front of a room that is long enough
// for them. Tried as a `for` over the lines (`split_inclusive`) beside their marks: the proof that its
// pieces are `ended_lines` did not close.
fn copy_marked(book: &[u8], marks: &[u8], room: &mut [u8])
    requires book_value { left book.now ≡ [] }
    requires book_in_bounds { length (joined (picked marks.now (ended_lines book.now))) ≤ length room.old }
    ensures { room.new ≡ joined (picked marks.now (ended_lines book.now)) ++ drop (length (joined (picked marks.now (ended_lines book.now)))) room.old }
{
    let mut at: usize = 0;
    let mut n: usize = 0;
    let mut written: usize = 0;
    while at < book.len() {
        let rest = places::from(book, at);
        let size = places::first_place(rest, b'\n') + 1;
        // Of a line that is not marked no byte is copied.
        let line = places::up_to(rest, size_if(is_marked(marks, n), size));
        written = copy::put_part(line, written, room);
        at += size;
        n += 1;
    }
}

// Whether line n, counted from 0, is marked.
fn is_marked(marks: &[u8], n: usize) -> bool
    ensures { result ≡ eqb (get_or marks.now n 0) 1 }
{
    n < marks.len() && marks[n] == LISTED
}
