// The paths that are in both lists with different keys. The last line of each path is known, in each
// list: these are the lines that compacting would keep (`indexed`). For each of them in the first list
// `waiting` holds the number of the second list's line that is to be reported with it, or 0. A row that
// was put into the report waits no more, so each is put once. Numbers have 0 for none, and no Option, as
// the table's own have (`compact::table`): they are stored in 16 bits, in arrays, because nothing here is
// on the heap.
ghost use Rattle.std.specs.Prelude.{◌≡◌, cond, ◌+◌, ◌≤◌, eqb, length, drop};
ghost use Rattle.relative.specs.Relative.{max_pairs};
ghost use Rattle.text.specs.Room.{put_at};
ghost use Rattle.merge.specs.Merge.{report as report_of};
ghost use Rattle.merge.specs.Held.{key_at, row_with, other_of, AllWait, row_for, stored_for, without};

use crate::indexed::IndexedList;
use compact::table;
use stamps::line;
use text::{bytes, copy, places as cut};

// How many bytes a row of the report has beside its path: two keys, a tab in front of each, and a
// newline.
const AROUND_PATH: usize = 2 * (1 + line::KEY) + 1;

// Finds the rows of the report, and returns how long it is.
pub fn find_rows(first: &IndexedList, second: &IndexedList, waiting: &mut [u16]) -> usize
    requires { first.now.count ≤ length waiting.old }
    ensures value { result ≡ length (report_of max_pairs first.now.list.now second.now.list.now) }
    ensures all_wait { AllWait max_pairs first.now.list.now first.now.table.now.places second.now.list.now second.now.table.now.places first.now.count waiting.new }
{
    let mut length: usize = 0;
    for k in 0..first.count {
        let line = cut::from(first.list, usize::from(first.table.places[k]));
        let other = other_of(line, second);
        waiting[k] = other as u16;
        length += row_length(table::path_at(line), other);
    }
    length
}

// The length of a path's row, if a line of the second list is reported with it.
fn row_length(path: &[u8], other: usize) -> usize
    ensures { result ≡ cond (eqb other 0) 0 (length path.now + 35) }
{
    if other == 0 {
        0
    } else {
        path.len() + AROUND_PATH
    }
}

// The number of the second list's line that is reported with the line at the front of `s`, or 0: no
// line has its path, or the last one that has it has the same key.
fn other_of(s: &[u8], second: &IndexedList) -> usize
    ensures value { result ≡ other_of s.now second.now.list.now second.now.table.now.heads second.now.table.now.links second.now.table.now.places }
    ensures upper_bound { result ≤ length second.now.table.now.places }
{
    let n = second.table.find(second.list, table::path_at(s));
    if n == 0 {
        return 0;
    }
    let other_key = key_at(second.list, usize::from(second.table.places[n - 1]));
    if bytes::same(key_at(s, 0), other_key) {
        0
    } else {
        n
    }
}

// The key of the `hull` line at a place of a text: it follows the tab behind the path.
fn key_at(text: &[u8], at: usize) -> &[u8]
    ensures { result.now ≡ key_at (drop at text.now) }
{
    let s = cut::from(text, at);
    let path = table::path_at(s);
    cut::up_to(cut::from(s, line::PATH_START + (path.len() + 1)), line::KEY)
}

// Puts the row of a line's path into the report if it waits, from place `at` on, and returns the place
// past it. The path has this number among the kept lines of the first list, or 0.
pub fn put_row_if_waiting(
    taken: &[u8],
    number: usize,
    first: &IndexedList,
    second: &IndexedList,
    waiting: &mut [u16],
    at: usize,
    report: &mut [u8],
) -> usize
    requires number_in_bounds { (number ≤ length first.now.table.now.places) × (number ≤ length waiting.old) × (stored_for waiting.old number ≤ length second.now.table.now.places) }
    requires row_in_bounds { at + length (row_for taken.now first.now.list.now first.now.table.now.places second.now.list.now second.now.table.now.places number (stored_for waiting.old number)) ≤ length report.old }
    ensures value { result ≡ at + length (row_for taken.now first.now.list.now first.now.table.now.places second.now.list.now second.now.table.now.places number (stored_for waiting.old number)) }
    ensures report_after { report.new ≡ put_at (row_for taken.now first.now.list.now first.now.table.now.places second.now.list.now second.now.table.now.places number (stored_for waiting.old number)) at report.old }
    ensures waiting_after { waiting.new ≡ without waiting.old number }
{
    if number == 0 {
        return at;
    }
    let other = usize::from(waiting[number - 1]);
    waiting[number - 1] = 0;
    if other == 0 {
        return at;
    }
    let key = key_at(first.list, usize::from(first.table.places[number - 1]));
    let other_key = key_at(second.list, usize::from(second.table.places[other - 1]));
    put_row(table::path_at(taken), key, other_key, at, report)
}

// Puts a row from place `at` on.
fn put_row(path: &[u8], key: &[u8], other_key: &[u8], at: usize, report: &mut [u8]) -> usize
    requires { at + length (row_with path.now key.now other_key.now) ≤ length report.old }
    ensures value { result ≡ at + length (row_with path.now key.now other_key.now) }
    ensures report_after { report.new ≡ put_at (row_with path.now key.now other_key.now) at report.old }
{
    let next = copy::put_part(path, at, report);
    let next = copy::put_field(key, next, report);
    let next = copy::put_field(other_key, next, report);
    copy::put_part(b"\n", next, report)
}
