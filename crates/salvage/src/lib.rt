// Salvages a damaged book (RULES 16): the good lines are copied to one room, and another one gets a report
// on the bad lines. Each line is judged alone, as in a check. Nothing is written before both rooms are known
// to be long enough.
#![tactic(auto)]

mod lines;
mod rows;

ghost use Rattle.std.specs.Prelude.{◌≡◌, ◌&&◌, ◌≤◌, leb, length};
ghost use Rattle.relative.specs.Relative.{max_pairs};
ghost use Rattle.text.specs.Room.{room_after};
ghost use Rattle.stamps.specs.Book.{max_book};
ghost use Rattle.salvage.specs.Salvage.{salvaged, report as report_of, salvage_of, is_written};

use calendar::MonthTable;
use stamps::book as stamped;
use time::Refusal;

// The most bytes that the report takes for each byte of a book: the row of an empty line, which is one
// byte with its newline, has a number of at most five digits, a tab, `0` and a newline.
pub const REPORT_PER_BYTE: usize = 8;

// What a salvage wrote: how many bytes to the room and to the report, and the number, from 1, of the last
// bad line. If no line is bad the number is 0: the definition `last_bad` has 0 then, and C gets it.
#[derive(Clone, Copy)]
pub struct Salvaged {
    pub length: usize,
    pub report_length: usize,
    pub last_bad: usize,
}

// Writes the good lines of a book to the front of `room`, and the report on its bad lines to the front of
// `report`. The bytes beyond them stay as they were. A book that is too long is refused by 10, then rooms
// of which either is too short by 8. A refusal changes nothing in either room.
pub fn salvage(book: &[u8], room: &mut [u8], report: &mut [u8]) -> Result<Salvaged, Refusal>
    ensures value { result ≡ salvage_of max_pairs book.now room.old report.old }
    ensures room_after { room.new ≡ room_after (is_written (salvage_of max_pairs book.now room.old report.old)) (salvaged max_pairs book.now) room.old }
    ensures report_after { report.new ≡ room_after (is_written (salvage_of max_pairs book.now room.old report.old)) (report_of max_pairs book.now) report.old }
{
    salvage_with(MonthTable::none(), book, room, report)
}

// The same with a table of months, for many calls: the whole table, or any leading part of it.
pub fn salvage_with(
    months: MonthTable,
    book: &[u8],
    room: &mut [u8],
    report: &mut [u8],
) -> Result<Salvaged, Refusal>
    ensures value { result ≡ salvage_of max_pairs book.now room.old report.old }
    ensures room_after { room.new ≡ room_after (is_written (salvage_of max_pairs book.now room.old report.old)) (salvaged max_pairs book.now) room.old }
    ensures report_after { report.new ≡ room_after (is_written (salvage_of max_pairs book.now room.old report.old)) (report_of max_pairs book.now) report.old }
{
    if stamped::MAX_BOOK < book.len() {
        return Err(Refusal::Book);
    }
    if !are_long_enough(months, book, room.len(), report.len()) {
        return Err(Refusal::Room);
    }
    Ok(lines::take_lines(months, book, room, report))
}

// Whether two rooms of these lengths are long enough. If they are for any book as long as this one, no
// line needs to be judged for that.
fn are_long_enough(months: MonthTable, book: &[u8], room: usize, report: usize) -> bool
    requires book_len_bound { length book.now ≤ max_book }
    ensures { result ≡ (leb (length (salvaged max_pairs book.now)) room && leb (length (report_of max_pairs book.now)) report) }
{
    if (book.len() <= room) & (REPORT_PER_BYTE * book.len() <= report) {
        return true;
    }
    let found = lines::take_lines(months, book, &mut [], &mut []);
    (found.length <= room) & (found.report_length <= report)
}
