// The lines of a good book, from the last to the first, and those that are kept, copied from the first to
// the last.
ghost use Rattle.std.specs.Prelude.{◌≡◌, ◌++◌, ℕ, ◌≤◌, length, get_or, drop, Ok};
ghost use Rattle.relative.specs.Relative.{max_pairs};
ghost use Rattle.text.specs.Lines.{ended_lines, taken_by};
ghost use Rattle.stamps.specs.Book.{check_of};
ghost use Rattle.stamps.specs.Copies.{joined};
ghost use Rattle.compact.specs.Compact.{compacted};
ghost use Rattle.compact.specs.Held.{lines_down, IsTable};

use crate::table;
use crate::table::Table;
use text::{copy, places as cut};

// The lines that are kept: how many there are, and how many bytes they have with their newlines.
#[derive(Clone, Copy)]
pub struct Kept {
    pub count: usize,
    pub length: usize,
}

// Finds the lines that are kept and stores where they begin, from the last to the first. The buckets of
// the table are empty at first.
pub fn keep_lines(book: &[u8], table: &mut Table) -> Kept
    requires book_value { check_of max_pairs book.now ≡ Ok tt }
    requires empty { (b : ℕ) → get_or table.old.heads b 0 ≡ 0 }
    ensures table { IsTable max_pairs book.now table.new.heads table.new.links table.new.places result.count }
    ensures length_value { result.length ≡ length (compacted max_pairs book.now) }
{
    let mut at = book.len();
    let mut count: usize = 0;
    let mut length: usize = 0;
    // No `for` over std's `split_inclusive` from the back: the table holds where a line begins, which the
    // pieces do not say.
    while 0 < at {
        let start = last_start(cut::up_to(book, at - 1));
        let path = table::path_at(cut::from(book, start));
        let bucket = table::bucket_of(path);
        if !table::is_overtaken(book, path, table.heads[bucket], &table.links, &table.places) {
            table::enter(
                start,
                bucket,
                count,
                &mut table.heads,
                &mut table.links,
                &mut table.places,
            );
            length += at - start;
            count += 1;
        }
        at = start;
    }
    Kept { count, length }
}

// Where the last line of `s` begins, which lacks its newline: past the last newline of `s`, or at 0.
fn last_start(s: &[u8]) -> usize
    ensures { result ≡ taken_by (ended_lines s.now) }
{
    for i in (0..s.len()).rev() {
        if s[i] == b'\n' {
            return i + 1;
        }
    }
    0
}

// Copies the lines that begin at these places, from the last place to the first, each with its newline,
// to the front of a room that is long enough for them.
pub fn copy_lines(book: &[u8], places: &[u16], room: &mut [u8])
    requires { length (joined (lines_down book.now places.now (length places.now))) ≤ length room.old }
    ensures { room.new ≡ joined (lines_down book.now places.now (length places.now)) ++ drop (length (joined (lines_down book.now places.now (length places.now)))) room.old }
{
    let mut written: usize = 0;
    for k in (0..places.len()).rev() {
        let line = cut::before(cut::from(book, usize::from(places[k])), b'\n');
        written = copy::put_part(line, written, room);
        written = copy::put_part(b"\n", written, room);
    }
}
