// The lines of two good lists, taken one after the other: of the two that are next, the earlier one.
// Each is copied to the book as it is taken, and the row of its path to the report, if one waits.
ghost use Rattle.std.specs.Prelude.{◌≡◌, ◌++◌, ◌≤◌, length, drop};
ghost use Rattle.relative.specs.Relative.{max_pairs};
ghost use Rattle.merge.specs.Merge.{merged, report as report_of};
ghost use Rattle.merge.specs.Held.{AllWait, front_from};

use crate::indexed::IndexedList;
use crate::{fronts, keys};
use compact::table;
use stamps::book as stamped;
use text::{bytes, copy, places as cut};

// Writes the merged book and the report to rooms that are long enough for them.
pub fn take_lines<'a>(
    first: &IndexedList<'a>,
    second: &IndexedList<'a>,
    waiting: &mut [u16],
    book: &mut [u8],
    report: &mut [u8],
)
    requires all_wait { AllWait max_pairs first.now.list.now first.now.table.now.places second.now.list.now second.now.table.now.places first.now.count waiting.old }
    requires book_fits { length (merged max_pairs first.now.list.now second.now.list.now) ≤ length book.old }
    requires report_fits { length (report_of max_pairs first.now.list.now second.now.list.now) ≤ length report.old }
    ensures book_after { book.new ≡ merged max_pairs first.now.list.now second.now.list.now ++ drop (length (merged max_pairs first.now.list.now second.now.list.now)) book.old }
    ensures report_after { report.new ≡ report_of max_pairs first.now.list.now second.now.list.now ++ drop (length (report_of max_pairs first.now.list.now second.now.list.now)) report.old }
{
    let mut i: usize = 0;
    let mut j: usize = 0;
    let mut written: usize = 0;
    let mut told: usize = 0;
    // This is no `for`: each turn takes a whole line, from either list.
    while (i < first.list.len()) | (j < second.list.len()) {
        let front = front_at(first.list, i);
        let other = front_at(second.list, j);
        let line = fronts::earlier(front, other);
        written = copy::put_part(line, written, book);
        let number = first.table.find(first.list, table::path_at(line));
        told = keys::put_row_if_waiting(line, number, first, second, waiting, told, report);
        // A line of the second machine is taken only if its seconds are smaller, so it is not the same
        // as the first machine's front line.
        let from_first = bytes::same(line, front);
        i += stamped::size_if(from_first, line.len());
        j += stamped::size_if(!from_first, line.len());
    }
}

// The front line of what is left of a list from place `at` on, with its newline.
fn front_at(list: &[u8], at: usize) -> &[u8]
    ensures { result.now ≡ front_from list.now at }
{
    let rest = cut::from(list, at);
    let end = cut::first_place(rest, b'\n');
    cut::up_to(rest, end + 1)
}
