// One book from the lists of two build machines (RULES 15). Each list has `hull` lines only, whose
// seconds never fall. `fronts` tells which of two front lines is the earlier, `lists` checks both lists,
// `merge` writes the merged book and a report on the paths whose keys differ. Nothing is written before
// both lists are known to be good and both rooms to be long enough.
#![tactic(auto)]

pub mod fronts;
mod indexed;
mod keys;
pub mod lists;
mod taking;

ghost use Rattle.std.specs.Prelude.{◌≡◌, Ok};
ghost use Rattle.relative.specs.Relative.{max_pairs};
ghost use Rattle.text.specs.Room.{room_after};
ghost use Rattle.merge.specs.Lists.{lists_of};
ghost use Rattle.merge.specs.Merge.{merged, report as report_of, merged_at, merge_of, is_written};
ghost use Rattle.merge.specs.declared.MergeError.TheVariants.{Lists};

use compact::table::Table;
use compact::{lines, table};
use indexed::IndexedList;
use lists::ListError;

// How many bytes a merge wrote to the book and to the report.
#[derive(Clone, Copy)]
pub struct Lengths {
    pub book: usize,
    pub report: usize,
}

// Why a merge is refused: a list is not good, by 12, or a room is too short, by 8.
#[derive(Clone, Copy)]
pub enum MergeError {
    Lists(ListError),
    NoRoom,
}

impl From<ListError> for MergeError {
    ghost from_gives = { λ error refused. refused ≡ Lists error };

    fn from(error: ListError) -> MergeError {
        MergeError::Lists(error)
    }
}

// Writes the merged book to the front of `book` and the report to the front of `report`, and returns
// both lengths. The rooms are the caller's, and their lengths stand beside them, for C and because nothing
// here is on the heap. The bytes beyond them stay as they were. Lists that are not good are refused by 12,
// then rooms of which either is too short by 8. A refusal changes nothing in either room.
pub fn merge(
    first: &[u8],
    second: &[u8],
    book: &mut [u8],
    report: &mut [u8],
) -> Result<Lengths, MergeError>
    ensures value { result ≡ merge_of max_pairs first.now second.now book.old report.old }
    ensures book_after { book.new ≡ room_after (is_written (merge_of max_pairs first.now second.now book.old report.old)) (merged max_pairs first.now second.now) book.old }
    ensures report_after { report.new ≡ room_after (is_written (merge_of max_pairs first.now second.now book.old report.old)) (report_of max_pairs first.now second.now) report.old }
{
    lists::check(first, second)?;
    merge_good(first, second, book, report)
}

// Merges two lists that are good. The last line of each path is found first, in each list; with them the
// length of the report. That of the book is known.
fn merge_good(
    first: &[u8],
    second: &[u8],
    book: &mut [u8],
    report: &mut [u8],
) -> Result<Lengths, MergeError>
    requires { lists_of max_pairs first.now second.now ≡ Ok tt }
    ensures value { result ≡ merged_at (Ok tt) (merged max_pairs first.now second.now) book.old (report_of max_pairs first.now second.now) report.old }
    ensures book_after { book.new ≡ room_after (is_written (merged_at (Ok tt) (merged max_pairs first.now second.now) book.old (report_of max_pairs first.now second.now) report.old)) (merged max_pairs first.now second.now) book.old }
    ensures report_after { report.new ≡ room_after (is_written (merged_at (Ok tt) (merged max_pairs first.now second.now) book.old (report_of max_pairs first.now second.now) report.old)) (report_of max_pairs first.now second.now) report.old }
{
    let mut table = Table::new();
    let kept = lines::keep_lines(first, &mut table);
    let mut other_table = Table::new();
    let other_kept = lines::keep_lines(second, &mut other_table);
    let first = IndexedList {
        list: first,
        table: &table,
        count: kept.count,
    };
    let second = IndexedList {
        list: second,
        table: &other_table,
        count: other_kept.count,
    };
    let mut waiting = table::no_numbers();
    let report_length = keys::find_rows(&first, &second, &mut waiting);
    let book_length = first.list.len() + second.list.len();
    if (book.len() < book_length) | (report.len() < report_length) {
        return Err(MergeError::NoRoom);
    }
    taking::take_lines(&first, &second, &mut waiting, book, report);
    Ok(Lengths {
        book: book_length,
        report: report_length,
    })
}
