// The lines of a book, taken in runs: the good lines in front of a bad one are copied as one part, and the
// bad one gets a row in the report.
ghost use Rattle.std.specs.Prelude.{◌≡◌, ◌++◌, ◌+◌, ◌≤◌, length, drop};
ghost use Rattle.relative.specs.Relative.{max_pairs};
ghost use Rattle.stamps.specs.Book.{max_book};
ghost use Rattle.salvage.specs.Salvage.{salvaged, dropped, last_number, report as report_of};
ghost use Rattle.salvage.specs.Held.{put_if_room};

use crate::{Salvaged, rows};
use calendar::MonthTable;
use stamps::book as stamped;
use text::{copy, places};

// Takes the lines of a book. A room that is long enough gets what is to be written to it. With empty rooms
// nothing is written, and the book is only measured.
pub fn take_lines(months: MonthTable, book: &[u8], room: &mut [u8], report: &mut [u8]) -> Salvaged
    requires book_len_bound { length book.now ≤ max_book }
    ensures length_value { (result.length ≡ length (salvaged max_pairs book.now)) × (result.report_length ≡ length (report_of max_pairs book.now)) × (result.last_bad ≡ last_number 0 (dropped max_pairs book.now)) }
    ensures room_after { length (salvaged max_pairs book.now) ≤ length room.old → room.new ≡ salvaged max_pairs book.now ++ drop (length (salvaged max_pairs book.now)) room.old }
    ensures report_after { length (report_of max_pairs book.now) ≤ length report.old → report.new ≡ report_of max_pairs book.now ++ drop (length (report_of max_pairs book.now)) report.old }
{
    let mut at: usize = 0;
    // The number of the line that begins at `at`.
    let mut number: usize = 1;
    let mut length: usize = 0;
    let mut report_length: usize = 0;
    let mut last_bad: usize = 0;
    // Not a `for`: a turn passes a run of good lines and the bad line behind it. Where a line ends is known
    // only when it is judged, so `split_inclusive` would read each byte twice.
    while at < book.len() {
        let rest = places::from(book, at);
        let run = stamped::good_run_with(months, rest);
        let size = places::first_place(places::from(rest, run.end), b'\n');
        let next = run.end + size + 1;
        length = put_if_room(places::up_to(rest, run.end), length, room);
        let Some(bad) = run.bad else {
            return Salvaged {
                length,
                report_length,
                last_bad,
            };
        };
        number += bad - 1;
        last_bad = number;
        report_length = rows::put_row_if_room(number, size, report_length, report);
        number += 1;
        at += next;
    }
    Salvaged {
        length,
        report_length,
        last_bad,
    }
}

// Puts the bytes of `part` from place `at` on if there is room for them, and returns the place past them.
fn put_if_room(part: &[u8], at: usize, room: &mut [u8]) -> usize
    requires { at + length part.now ≤ max_book }
    ensures value { result ≡ at + length part.now }
    ensures room_after { room.new ≡ put_if_room part.now at room.old }
{
    let end = at + part.len();
    if room.len() < end {
        end
    } else {
        copy::put_part(part, at, room)
    }
}
