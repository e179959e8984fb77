// The entries for a book of stamps (RULES 13 and 16): one checks a book, one lists the hulls that its
// cut-offs keep, one compacts it, and one salvages a damaged book. C passes a slice as a pointer and a
// length, and a result as a pointer to where it is to be stored. Each entry returns 0, 8 or 10 (RULES 2).
// They keep no pointer and no state.
// `include/chowderbell.h` is the manual for callers.
ghost use Rattle.std.specs.Prelude.{◌≡◌};
ghost use Rattle.text.specs.Room.{room_after};
ghost use Rattle.relative.specs.Relative.{max_pairs};
ghost use Rattle.stamps.specs.Book.{check_of};
ghost use Rattle.stamps.specs.Copies.{is_written};
ghost use Rattle.stamps.specs.Listing.{listing, list_of};
ghost use Rattle.compact.specs.Compact.{compacted, compact_of};
ghost use Rattle.salvage.specs.Salvage.{salvaged, report as report_of, salvage_of, is_written as is_salvaged};
ghost use Rattle.chowderbell.specs.Entries.{HandedCheck, HandedCopy, HandedSalvage};

use crate::times::SUCCESS;
use salvage::Salvaged;
use stamps::book;
use stamps::book::BookError;
use time::Refusal;

#[unsafe(no_mangle)]
pub extern "C" fn chowderbell_book_check(book: &[u8], line: &mut usize) -> u8
    ensures { HandedCheck (check_of max_pairs book.now) result line.new }
{
    hand_check(book::check(book), line)
}

#[unsafe(no_mangle)]
pub extern "C" fn chowderbell_book_list(
    book: &[u8],
    room: &mut [u8],
    length: &mut usize,
    line: &mut usize,
) -> u8
    ensures answer { HandedCopy (list_of max_pairs book.now room.old) result length.new line.new }
    ensures room { room.new ≡ room_after (is_written (list_of max_pairs book.now room.old)) (listing max_pairs book.now) room.old }
{
    hand_copy(book::list(book, room), length, line)
}

#[unsafe(no_mangle)]
pub extern "C" fn chowderbell_book_compact(
    book: &[u8],
    room: &mut [u8],
    length: &mut usize,
    line: &mut usize,
) -> u8
    ensures answer { HandedCopy (compact_of max_pairs book.now room.old) result length.new line.new }
    ensures room { room.new ≡ room_after (is_written (compact_of max_pairs book.now room.old)) (compacted max_pairs book.now) room.old }
{
    hand_copy(compact::compact(book, room), length, line)
}

#[unsafe(no_mangle)]
pub extern "C" fn chowderbell_book_salvage(
    book: &[u8],
    room: &mut [u8],
    report: &mut [u8],
    length: &mut usize,
    report_length: &mut usize,
    last_bad: &mut usize,
) -> u8
    ensures answer { HandedSalvage (salvage_of max_pairs book.now room.old report.old) result length.new report_length.new last_bad.new }
    ensures room { room.new ≡ room_after (is_salvaged (salvage_of max_pairs book.now room.old report.old)) (salvaged max_pairs book.now) room.old }
    ensures report { report.new ≡ room_after (is_salvaged (salvage_of max_pairs book.now room.old report.old)) (report_of max_pairs book.now) report.old }
{
    let answer = salvage::salvage(book, room, report);
    hand_salvage(answer, length, report_length, last_bad)
}

// Returns the number of a check and stores the number of the first bad line. It is 0 for a good book,
// and for one that is too long.
fn hand_check(checked: Result<(), BookError>, line: &mut usize) -> u8
    ensures { HandedCheck checked result line.new }
{
    match checked {
        Ok(()) => {
            *line = 0;
            SUCCESS
        }
        Err(error) => {
            *line = error.line;
            u8::from(error.refusal)
        }
    }
}

// Returns the number of a copy and stores its length, which is 0 for a refusal, and the number of the
// first bad line, as a check does.
fn hand_copy(copied: Result<usize, BookError>, length: &mut usize, line: &mut usize) -> u8
    ensures { HandedCopy copied result length.new line.new }
{
    match copied {
        Ok(n) => {
            *length = n;
            hand_check(Ok(()), line)
        }
        Err(error) => {
            *length = 0;
            hand_check(Err(error), line)
        }
    }
}

// Returns the number of a salvage and stores both lengths and the number of the last bad line, which are
// all 0 for a refusal.
fn hand_salvage(
    answer: Result<Salvaged, Refusal>,
    length: &mut usize,
    report_length: &mut usize,
    last_bad: &mut usize,
) -> u8
    ensures { HandedSalvage answer result length.new report_length.new last_bad.new }
{
    match answer {
        Ok(salvaged) => {
            *length = salvaged.length;
            *report_length = salvaged.report_length;
            *last_bad = salvaged.last_bad;
            SUCCESS
        }
        Err(refusal) => {
            *length = 0;
            *report_length = 0;
            *last_bad = 0;
            u8::from(refusal)
        }
    }
}
