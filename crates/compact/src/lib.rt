// Compacts a book of stamps (RULES 13.15 and 13.16): of the `hull` lines with one path the last stays,
// and `since` lines all stay. The book is checked first. Then its lines are taken from the last to the
// first: a line is kept unless its path is already that of a kept line. Last, the kept lines are copied.
// Nothing is written before the book is known to be good and the room to be long enough.
#![tactic(auto)]

pub mod lines;
pub mod table;

ghost use Rattle.std.specs.Prelude.{◌≡◌, length, Ok};
ghost use Rattle.relative.specs.Relative.{max_pairs};
ghost use Rattle.text.specs.Room.{room_after};
ghost use Rattle.stamps.specs.Book.{check_of};
ghost use Rattle.stamps.specs.Copies.{copied_at, is_written};
ghost use Rattle.compact.specs.Compact.{compacted, compact_of};

use calendar::MonthTable;
use stamps::book;
use stamps::book::BookError;
use table::Table;
use time::Refusal;

// Writes the compacted book to the front of `room` and returns its length. The bytes beyond it stay as
// they were. A book that is not good is refused by 10, then a room that is shorter than the compacted
// book by 8. A refusal changes nothing in the room.
pub fn compact(book: &[u8], room: &mut [u8]) -> Result<usize, BookError>
    ensures value { result ≡ compact_of max_pairs book.now room.old }
    ensures room_after { room.new ≡ room_after (is_written (compact_of max_pairs book.now room.old)) (compacted max_pairs book.now) room.old }
{
    compact_with(MonthTable::none(), book, room)
}

// The same with a table of months, for many calls: the whole table, or any leading part of it.
pub fn compact_with(months: MonthTable, book: &[u8], room: &mut [u8]) -> Result<usize, BookError>
    ensures value { result ≡ compact_of max_pairs book.now room.old }
    ensures room_after { room.new ≡ room_after (is_written (compact_of max_pairs book.now room.old)) (compacted max_pairs book.now) room.old }
{
    book::check_with(months, book)?;
    compact_good(book, room)
}

// Compacts a book that is good.
fn compact_good(book: &[u8], room: &mut [u8]) -> Result<usize, BookError>
    requires { check_of max_pairs book.now ≡ Ok tt }
    ensures value { result ≡ copied_at (Ok tt) (compacted max_pairs book.now) room.old }
    ensures room_after { room.new ≡ room_after (is_written (copied_at (Ok tt) (compacted max_pairs book.now) room.old)) (compacted max_pairs book.now) room.old }
{
    let mut table = Table::new();
    let kept = lines::keep_lines(book, &mut table);
    if room.len() < kept.length {
        return Err(BookError {
            refusal: Refusal::Room,
            line: 0,
        });
    }
    lines::copy_lines(book, &table.places[..kept.count], room);
    Ok(kept.length)
}
