// What is said of a list that is at fault, as bytes: its name, then the line and what is wrong there, or
// that the list is too long.
//
// A message is built in fixed memory, without a String: its longest is known, and none can run out of
// memory. It is written from its end to its front into an array. Each `put_` function writes in front of a
// place and returns the place of its first byte. Its contract says what the array holds from that place
// on. The place and the array stay two parameters, as in `text::decimal`: four short functions pass them
// on.
ghost use Rattle.std.specs.Prelude.{◌≡◌, ◌++◌, ◌+◌, ◌≤◌, length, drop};
ghost use Rattle.text.specs.Decimal.{decimal as decimal_of};
ghost use Rattle.stampmerge.specs.Messages.{path_of, at_line, fault_words, message_of};

use merge::lists::{Fault, ListError, Machine};
use text::{copy, decimal, places};

// Enough for every message: a name of 4,096 bytes, and at most 51 bytes for a line number and what is
// wrong there.
const MESSAGE: usize = 4160;

// A name is cut here. No argument is longer.
const MAX_NAME: usize = streams::MAX_ARGUMENT;

// The array that a message is written into.
pub fn empty_message() -> [u8; 4160]
    ensures { 4160 ≡ length result }
{
    [0; MESSAGE]
}

// Puts the message at the end of `room`. `first` and `second` are the paths of the two lists, as the
// arguments have them.
pub fn put_message(error: ListError, first: &[u8], second: &[u8], room: &mut [u8]) -> usize
    requires { 4160 ≤ length room.old }
    ensures { drop result room.new ≡ message_of error.machine error.fault first.now second.now }
{
    let at = put_fault(error.fault, room.len(), room);
    let name = streams::name_of(path_of(error.machine, first, second), b"standard input");
    put_text(places::up_to(name, MAX_NAME), at, room)
}

// The path of the list that is at fault.
fn path_of<'a>(machine: Machine, first: &'a [u8], second: &'a [u8]) -> &'a [u8]
    ensures { result.now ≡ path_of machine first.now second.now }
{
    match machine {
        Machine::First => first,
        Machine::Second => second,
    }
}

// What is wrong with a list, behind its name.
fn put_fault(fault: Fault, end: usize, room: &mut [u8]) -> usize
    requires { (51 ≤ end) × (end ≤ length room.old) }
    ensures upper_bound { (result ≤ end) × (end ≤ result + 51) }
    ensures room_after { drop result room.new ≡ fault_words fault ++ drop end room.old }
{
    match fault {
        Fault::TooLong => put_text(b": too long: more than 32,768 bytes\n", end, room),
        Fault::BadLine(n) => put_line(n, b": bad line\n", end, room),
        Fault::StepBack(n) => put_line(n, b": earlier than the line above\n", end, room),
    }
}

// The number of a line with a colon in front, and what is wrong there.
fn put_line(n: usize, what: &[u8], end: usize, room: &mut [u8]) -> usize
    requires { (length what.now + 21 ≤ end) × (end ≤ length room.old) }
    ensures upper_bound { (result ≤ end) × (end ≤ result + (length what.now + 21)) }
    ensures room_after { drop result room.new ≡ at_line n what.now ++ drop end room.old }
{
    let at = put_text(what, end, room);
    let at = put_number(n as u64, at, room);
    put_text(b":", at, room)
}

// A number in plain decimal.
fn put_number(n: u64, end: usize, room: &mut [u8]) -> usize
    requires { (20 ≤ end) × (end ≤ length room.old) }
    ensures n_value { (result + length (decimal_of n) ≡ end) × (length (decimal_of n) ≤ 20) }
    ensures room_after { drop result room.new ≡ decimal_of n ++ drop end room.old }
{
    decimal::put_decimal(n, end, room)
}

// A text in front of `end`.
fn put_text(text: &[u8], end: usize, room: &mut [u8]) -> usize
    requires { (length text.now ≤ end) × (end ≤ length room.old) }
    ensures text_value { result + length text.now ≡ end }
    ensures room_after { drop result room.new ≡ text.now ++ drop end room.old }
{
    let at = end - text.len();
    copy::put_part(text, at, room);
    at
}
