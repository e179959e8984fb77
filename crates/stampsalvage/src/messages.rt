// What is said of a line that is dropped, as bytes: the name of the book, the number of the line, and
// how many bytes it has without its newline.
//
// The numbers are those of the report's row, which has them in plain decimal with a tab between. They
// are copied as they are. The place and the room stay two parameters, as in `text::copy`.
ghost use Rattle.std.specs.Prelude.{◌≡◌, ◌++◌, ◌+◌, ◌≤◌, length};
ghost use Rattle.text.specs.Lines.{field, rest};
ghost use Rattle.text.specs.Room.{put_at};
ghost use Rattle.stampsalvage.specs.Messages.{place_words, size_words, message_of};

use text::{bytes, copy, places};

// Enough for every row: a number and a length have at most five digits each, and a tab is between them.
pub const MAX_ROW: usize = 32;

// A name is cut here. No argument is longer.
const MAX_NAME: usize = streams::MAX_ARGUMENT;

// Enough for every message: a name of 4,096 bytes, two numbers that are no longer than a row, and 18
// bytes of words.
pub const MESSAGE: usize = 4178;

// Puts the message on a row of the report from place `at` on, and returns the place past it.
pub fn put_message(name: &[u8], row: &[u8], at: usize, room: &mut [u8]) -> usize
    requires row_len_bound { length row.now ≤ 32 }
    requires at_in_bounds { at + 4178 ≤ length room.old }
    ensures upper_bound { result ≤ at + 4178 }
    ensures value { result ≡ at + length (message_of name.now row.now) }
    ensures room_after { room.new ≡ put_at (message_of name.now row.now) at room.old }
{
    let next = copy::put_part(places::up_to(name, MAX_NAME), at, room);
    put_words(number_of(row), size_of(row), next, room)
}

// The number of the line that a row is about: what comes before the tab.
fn number_of(row: &[u8]) -> &[u8]
    ensures { result.now ≡ field row.now }
{
    places::before(row, b'\t')
}

// How many bytes that line has: what follows the tab.
fn size_of(row: &[u8]) -> &[u8]
    ensures { result.now ≡ rest row.now }
{
    places::from(row, places::first_place(row, b'\t') + 1)
}

// Where the line is, and how many bytes were dropped there.
fn put_words(number: &[u8], size: &[u8], at: usize, room: &mut [u8]) -> usize
    requires { at + length (place_words number.now ++ size_words size.now) ≤ length room.old }
    ensures value { result ≡ at + length (place_words number.now ++ size_words size.now) }
    ensures room_after { room.new ≡ put_at (place_words number.now ++ size_words size.now) at room.old }
{
    let next = put_place(number, at, room);
    put_size(size, next, room)
}

// The number of a line, between a colon and a colon with a blank.
fn put_place(number: &[u8], at: usize, room: &mut [u8]) -> usize
    requires { at + length (place_words number.now) ≤ length room.old }
    ensures value { result ≡ at + length (place_words number.now) }
    ensures room_after { room.new ≡ put_at (place_words number.now) at room.old }
{
    let next = copy::put_part(b":", at, room);
    let next = copy::put_part(number, next, room);
    copy::put_part(b": ", next, room)
}

// How many bytes were dropped: `17 bytes dropped`, but `1 byte dropped`.
fn put_size(size: &[u8], at: usize, room: &mut [u8]) -> usize
    requires { at + length (size_words size.now) ≤ length room.old }
    ensures value { result ≡ at + length (size_words size.now) }
    ensures room_after { room.new ≡ put_at (size_words size.now) at room.old }
{
    let next = copy::put_part(size, at, room);
    if bytes::same(size, b"1") {
        copy::put_part(b" byte dropped\n", next, room)
    } else {
        copy::put_part(b" bytes dropped\n", next, room)
    }
}
