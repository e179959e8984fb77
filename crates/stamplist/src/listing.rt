// A book is read whole, and then listed. A book of more than 65,536 bytes is not read to its end: the
// room for it has one byte more than a book may have, and that byte shows that it is too long.
use calendar::MonthTable;
use stamps::book;
use stamps::book::BookError;
use streams::{Reported, Tool, name_of};
use text::places;

const ROOM: usize = book::MAX_BOOK + 1;

// Lists the book in a file; `-` is standard input.
pub fn list_file(tool: &Tool, path: &[u8]) -> Result<(), Reported> {
    let mut room = [0u8; ROOM];
    let n = tool.read(path, &mut room)?;
    list(
        tool,
        name_of(path, b"standard input"),
        places::up_to(&room, n),
    )
}

// Writes the listing of a book. A bad book is reported by its name. No listing is longer than its book
// (`length-listing-le`), so a buffer of 65,536 bytes has room for it, and a refusal at line 0 says that
// the book is too long.
fn list(tool: &Tool, name: &[u8], book: &[u8]) -> Result<(), Reported> {
    let mut out = [0u8; book::MAX_BOOK];
    match book::list_with(MonthTable::whole(), book, &mut out) {
        Ok(n) => tool.write_out(places::up_to(&out, n)),
        Err(BookError { line, .. }) => Err(tool.bad_book(name, line)),
    }
}
