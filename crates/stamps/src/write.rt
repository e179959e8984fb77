// A line written from its values (RULES 13.12), with its newline. Values that would not be read back
// from the line that they make are refused by 10, then a room that is too short by 8. A refusal changes
// nothing in the room.
ghost use Rattle.std.specs.Prelude.{◌≡◌, true, ◌&&◌, ◌∷◌, ◌++◌, ◌+◌, ◌≤◌, ◌<◌, ltb, nat_abs, length, drop};
ghost use Rattle.text.specs.Decimal.{signed};
ghost use Rattle.text.specs.Lines.{tab};
ghost use Rattle.text.specs.Room.{room_after, put_at};
ghost use Rattle.time.specs.Answers.{is_written};
ghost use Rattle.time.specs.Header.{header_bytes};
ghost use Rattle.relative.specs.Relative.{max_pairs};
ghost use Rattle.stamps.specs.Writing.{is_hull, is_since, hull_line, since_line, ended, line_written, hull_written, since_written};
ghost use Rattle.stamps.specs.Stamps.{is_whole_minutes};
ghost use Rattle.stamps.specs.Lines.{is_path, is_key};

use crate::line::{KEY, MAX_PATH};
use crate::scan::{Hex, Path, Text};
use crate::stamp::SECONDS_PER_MINUTE;
use crate::{put, scan};
use calendar::MonthTable;
use text::scan::past;
use text::{copy, decimal};
use time::{Refusal, Time};

// 100 hours. The header writer refuses an offset of this size or more.
const OFFSET_LIMIT: u32 = 360000;

// How many bytes a line has beside its values: `hull` or `since`, three tabs and a newline.
const AROUND_HULL: usize = 8;

const AROUND_SINCE: usize = 9;

// Writes the line of a hull to the front of `room` and returns how many bytes that took. The bytes
// beyond them stay as they were.
pub fn write_hull(path: &[u8], key: &[u8], time: Time, room: &mut [u8]) -> Result<usize, Refusal>
    ensures value { result ≡ hull_written path.now key.now time room.old }
    ensures room_after { room.new ≡ room_after (is_written (hull_written path.now key.now time room.old)) (ended (hull_line path.now key.now time)) room.old }
{
    if !is_hull(path, key, time) {
        return Err(Refusal::Book);
    }
    let n = hull_width(path, key, time);
    if room.len() < n {
        return Err(Refusal::Room);
    }
    put_hull(path, key, time, room);
    Ok(n)
}

// Whether the values are read back from their line: a path, a key, and a time whose offset is whole
// minutes under 100 hours. The three are passed one by one, here and below: a struct of them would be made
// only in `write_hull`, for these three calls. A time at offset 30 would be written as one at offset 0.
fn is_hull(path: &[u8], key: &[u8], time: Time) -> bool
    ensures { result ≡ is_hull path.now key.now time }
{
    is_path(path) & is_key(key) & is_whole(time.offset)
}

fn is_path(s: &[u8]) -> bool
    ensures { result ≡ is_path s.now }
{
    (0 < s.len()) & (s.len() <= MAX_PATH) && past::<Path>(s, 0) == s.len()
}

fn is_key(s: &[u8]) -> bool
    ensures { result ≡ is_key s.now }
{
    s.len() == KEY && past::<Hex>(s, 0) == KEY
}

// Whether an offset is whole minutes, and under 100 hours.
fn is_whole(offset: i32) -> bool
    ensures { result ≡ (is_whole_minutes offset && ltb (nat_abs offset) 360000) }
{
    let size = offset.unsigned_abs();
    (size % SECONDS_PER_MINUTE == 0) & (size < OFFSET_LIMIT)
}

// How many bytes the line takes, with its newline.
fn hull_width(path: &[u8], key: &[u8], time: Time) -> usize
    requires { is_hull path.now key.now time ≡ true }
    ensures { result ≡ length (ended (hull_line path.now key.now time)) }
{
    path.len() + (key.len() + (time.size() + AROUND_HULL))
}

// Puts the line at the front of a room that is long enough.
fn put_hull(path: &[u8], key: &[u8], time: Time, room: &mut [u8])
    requires time_value { is_hull path.now key.now time ≡ true }
    requires time_in_bounds { length (ended (hull_line path.now key.now time)) ≤ length room.old }
    ensures { room.new ≡ ended (hull_line path.now key.now time) ++ drop (length (ended (hull_line path.now key.now time))) room.old }
{
    let at = copy::put_part(b"hull", 0, room);
    let at = copy::put_field(path, at, room);
    let at = copy::put_field(key, at, room);
    let at = put_time_field(time, at, room);
    copy::put_part(b"\n", at, room);
}

// Puts a tab and the header of a time from place `at` on. `put_number_field` does so with a number; one
// function for both would need a trait, which is no plainer than two lines twice.
fn put_time_field(time: Time, at: usize, room: &mut [u8]) -> usize
    requires { (nat_abs time.offset < 360000) × (at + length (tab ∷ header_bytes time) ≤ length room.old) }
    ensures value { result ≡ at + length (tab ∷ header_bytes time) }
    ensures room_after { room.new ≡ put_at (tab ∷ header_bytes time) at room.old }
{
    let next = copy::put_part(b"\t", at, room);
    put::put_time(time, next, room)
}

// Writes the line of a cut-off to the front of `room` and returns how many bytes that took. The bytes
// beyond them stay as they were.
pub fn write_since(text: &[u8], current: Time, room: &mut [u8]) -> Result<usize, Refusal>
    ensures value { result ≡ since_written max_pairs text.now current room.old }
    ensures room_after { room.new ≡ room_after (is_written (since_written max_pairs text.now current room.old)) (ended (since_line text.now current)) room.old }
{
    write_since_with(MonthTable::none(), text, current, room)
}

// The same with a table of months, for many calls: the whole table, or any leading part of it.
pub fn write_since_with(
    months: MonthTable,
    text: &[u8],
    current: Time,
    room: &mut [u8],
) -> Result<usize, Refusal>
    ensures value { result ≡ since_written max_pairs text.now current room.old }
    ensures room_after { room.new ≡ room_after (is_written (since_written max_pairs text.now current room.old)) (ended (since_line text.now current)) room.old }
{
    if is_since(months, text, current) {
        put_if_fits(text, current, room)
    } else {
        Err(Refusal::Book)
    }
}

// Writes the line of values that are read back, unless the room is too short. The text is not too
// long to be measured: its length is compared before anything is added to it. The text and the current
// time are passed one by one, for the reason that `is_hull` has.
fn put_if_fits(text: &[u8], current: Time, room: &mut [u8]) -> Result<usize, Refusal>
    ensures value { result ≡ line_written true (since_line text.now current) room.old }
    ensures room_after { room.new ≡ room_after (is_written (line_written true (since_line text.now current) room.old)) (ended (since_line text.now current)) room.old }
{
    if room.len() < text.len() {
        return Err(Refusal::Room);
    }
    let numbers = decimal::signed_width(current.seconds)
        + decimal::signed_width(i64::from(current.offset))
        + AROUND_SINCE;
    if room.len() - text.len() < numbers {
        return Err(Refusal::Room);
    }
    put_since(text, current, room);
    Ok(text.len() + numbers)
}

// Whether the values are read back from their line: a text without tab and newline that is a relative
// date which is read at the current time.
fn is_since(months: MonthTable, text: &[u8], current: Time) -> bool
    ensures { result ≡ is_since max_pairs text.now current }
{
    past::<Text>(text, 0) == text.len() && relative::parse_with(months, text, Some(current)).is_ok()
}

// Puts the line at the front of a room that is long enough.
fn put_since(text: &[u8], current: Time, room: &mut [u8])
    requires { length (ended (since_line text.now current)) ≤ length room.old }
    ensures { room.new ≡ ended (since_line text.now current) ++ drop (length (ended (since_line text.now current))) room.old }
{
    let at = copy::put_part(b"since", 0, room);
    let at = copy::put_field(text, at, room);
    let at = put_number_field(current.seconds, at, room);
    let at = put_number_field(i64::from(current.offset), at, room);
    copy::put_part(b"\n", at, room);
}

// Puts a tab and a number in plain decimal from place `at` on.
fn put_number_field(z: i64, at: usize, room: &mut [u8]) -> usize
    requires { at + length (tab ∷ signed z) ≤ length room.old }
    ensures value { result ≡ at + length (tab ∷ signed z) }
    ensures room_after { room.new ≡ put_at (tab ∷ signed z) at room.old }
{
    let next = copy::put_part(b"\t", at, room);
    put::put_number(z, next, room)
}
