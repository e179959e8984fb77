// A month's strip as bytes in a caller's buffer (RULES 14.7), for callers in C.
ghost use Rattle.std.specs.Prelude.{◌≡◌, ◌++◌, ◌≤◌, length, drop};
ghost use Rattle.text.specs.Room.{room_after};
ghost use Rattle.time.specs.Answers.{is_written};
ghost use Rattle.strip.specs.Strip.{strip_of, strip_bytes, strip_written};

use crate::{Strip, month_of, month_strip};
use calendar::MonthTable;
use text::copy;
use time::Refusal;

// The bytes of a strip.
const STRIP_LENGTH: usize = 50;

// Writes the strip of a month to the front of `room`: its length, the weekday of its first day, six
// weeks and 42 days, a byte for each. The bytes beyond them stay as they were. A year that is not -9999
// to 9999 or a month that is not 1 to 12 is refused by 6, a room that is too short by 8. A refusal
// changes nothing in the room. It reads the whole month table.
pub fn write_month(year: i64, month: i64, room: &mut [u8]) -> Result<usize, Refusal>
    ensures value { result ≡ strip_written year month room.old }
    ensures room_after { room.new ≡ room_after (is_written (strip_written year month room.old)) (strip_bytes (strip_of year month).strip) room.old }
{
    write_month_with(MonthTable::whole(), year, month, room)
}

// The same with a borrowed table of months, for many calls: the whole table, or any leading part of it.
pub fn write_month_with(
    months: MonthTable,
    year: i64,
    month: i64,
    room: &mut [u8],
) -> Result<usize, Refusal>
    ensures value { result ≡ strip_written year month room.old }
    ensures room_after { room.new ≡ room_after (is_written (strip_written year month room.old)) (strip_bytes (strip_of year month).strip) room.old }
{
    let m = month_of(year, month).ok_or(Refusal::Range)?;
    if room.len() < STRIP_LENGTH {
        return Err(Refusal::Room);
    }
    put_strip(month_strip(months, m), room);
    Ok(STRIP_LENGTH)
}

// The bytes of a strip, to the front of a room that is long enough.
#[tactic(auto, unfolding(crate::specs::Strip::strip_bytes))]
fn put_strip(s: Strip, room: &mut [u8])
    requires { 50 ≤ length room.old }
    ensures { room.new ≡ strip_bytes s ++ drop 50 room.old }
{
    let at = copy::put_part(&[s.length, s.weekday], 0, room);
    let at = copy::put_part(&s.weeks, at, room);
    copy::put_part(&s.days, at, room);
}
