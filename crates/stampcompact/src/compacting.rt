// A book is read whole and compacted in memory. Only then is anything written, so a bad book changes no
// file. A book of more than 65,536 bytes is not read to its end: the room for it has one byte more than a
// book may have, and that byte shows that it is too long.
use calendar::MonthTable;
use stamps::book;
use streams::{Reported, Tool, name_of};
use text::places;

const ROOM: usize = book::MAX_BOOK + 1;

// Replaces the book in a file by its compacted book. A book that is compact already is left as it is: no
// line is changed, so a compacted book that is as long as the book is the book.
pub fn compact_in_place(tool: &Tool, path: &[u8]) -> Result<(), Reported> {
    let mut room = [0u8; ROOM];
    let n = tool.read_regular(path, &mut room)?;
    let book = places::up_to(&room, n);
    let mut out = [0u8; book::MAX_BOOK];
    let n = compact_into(tool, path, book, &mut out)?;
    let compacted = places::up_to(&out, n);
    if compacted.len() != book.len() {
        tool.replace_file(path, compacted)?;
    }
    report(tool, path, book, compacted);
    Ok(())
}

// Writes the compacted book of the book in a file to another file. `-` is standard input or output.
pub fn compact_to(tool: &Tool, path: &[u8], out: &[u8]) -> Result<(), Reported> {
    let mut room = [0u8; ROOM];
    let n = tool.read(path, &mut room)?;
    let name = name_of(path, b"standard input");
    write_compacted(tool, name, places::up_to(&room, n), out)
}

fn write_compacted(tool: &Tool, name: &[u8], book: &[u8], path: &[u8]) -> Result<(), Reported> {
    let mut out = [0u8; book::MAX_BOOK];
    let n = compact_into(tool, name, book, &mut out)?;
    let compacted = places::up_to(&out, n);
    tool.write(path, compacted)?;
    report(tool, name, book, compacted);
    Ok(())
}

// Compacts a book into `out` and returns the length of the compacted book. A bad book is reported by its
// name. No compacted book is longer than its book (`length-compacted-le`), so a buffer of 65,536 bytes has
// room for it, and a refusal at line 0 says that the book is too long.
fn compact_into(tool: &Tool, name: &[u8], book: &[u8], out: &mut [u8]) -> Result<usize, Reported> {
    compact::compact_with(MonthTable::whole(), book, out).map_err(|error| tool.bad_book(
        name, error.line,
    ))
}

// Says on standard error how many lines and bytes there were before and after.
fn report(tool: &Tool, name: &[u8], book: &[u8], compacted: &[u8]) {
    tool.say_name();
    tool.say(name);
    tool.say(b": ");
    say_size(tool, book);
    tool.say(b" before; ");
    say_size(tool, compacted);
    tool.say(b" after\n");
}

fn say_size(tool: &Tool, book: &[u8]) {
    let lines = count_lines(book);
    tool.say_number(lines);
    tool.say(if lines == 1 { b" line, " } else { b" lines, " });
    tool.say_number(book.len());
    tool.say(b" bytes");
}

// How many newlines a book has. Each line of a good book ends in one.
fn count_lines(book: &[u8]) -> usize {
    book.iter().filter(|&&b| b == b'\n').count()
}
