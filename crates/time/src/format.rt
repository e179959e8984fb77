// Writes the ISO line of a time, `2008-02-14T20:30:45-05:00`, from its end to its front (RULES 9.4).
// The place and the room stay two parameters, as in `text::decimal`.
ghost use Rattle.std.specs.Prelude.{◌≡◌, ◌++◌, ◌+◌, ◌-◌, ◌≤◌, ◌<◌, ◌/◌, ◌%◌, length, take, drop, nat_abs, IfOk};
ghost use Rattle.text.specs.Room.{room_after};
ghost use Rattle.time.specs.Answers.{is_written};
ghost use Rattle.time.specs.Clock.{clock_of};
ghost use Rattle.time.specs.Header.{cut_to_minutes};
ghost use Rattle.time.specs.Iso.{field_before, date_before, clock_before, offset_before, clock_line, line_instant, written_for};
ghost use Rattle.time.specs.Range.{InRange};

use crate::clock::Clock;
use crate::range::Instant;
use crate::{Refusal, Time, range, write};
use calendar::{MonthTable, SECONDS_PER_DAY};
use text::decimal;

// The bytes of a line.
const LINE_LENGTH: usize = 25;

// 24 hours. An offset of this size or more is refused.
const OFFSET_LIMIT: i32 = 86400;

// Years and months are counted from year -10000: these are year 0 and its January.
const YEAR_0: u64 = 10000;

const MONTH_OF_YEAR_0: u64 = 120000;

// An offset cut toward zero to whole minutes: the one that a line shows.
pub fn cut_to_minutes(offset: i32) -> i32
    ensures { result ≡ cut_to_minutes offset }
{
    offset / 60 * 60
}

// The instant of a time's line, unless the time is refused.
pub fn line_of(t: Time) -> Result<Instant, Refusal>
    ensures is { result ≡ line_instant t }
    ensures range { IfOk result InRange }
{
    if (t.offset <= -OFFSET_LIMIT) | (OFFSET_LIMIT <= t.offset) {
        return Err(Refusal::Offset);
    }
    range::instant_of(t).ok_or(Refusal::Range)
}

// Writes the local clock of an instant, and this offset behind it.
pub fn write_instant(
    months: MonthTable,
    i: Instant,
    offset: i32,
    room: &mut [u8],
) -> Result<usize, Refusal>
    requires range { InRange i }
    requires offset { nat_abs offset < 86400 }
    ensures value { result ≡ written_for (clock_of i) room.old }
    ensures room_after { room.new ≡ room_after (is_written (written_for (clock_of i) room.old)) (clock_line (clock_of i) offset) room.old }
{
    let c = local_clock(months, i);
    if c.date.month < MONTH_OF_YEAR_0 {
        return Err(Refusal::Range);
    }
    if room.len() < LINE_LENGTH {
        return Err(Refusal::Room);
    }
    put_offset(offset, room);
    put_clock(c, room);
    put_date(c, room);
    Ok(LINE_LENGTH)
}

// The local clock of an instant.
fn local_clock(months: MonthTable, i: Instant) -> Clock
    requires range { InRange i }
    ensures is { result ≡ clock_of i }
    ensures months { result.date.month < 240000 }
    ensures days { result.date.day < 31 }
    ensures seconds { result.second < 86400 }
{
    let local = i.seconds + i.offset - range::OFFSET_ZERO;
    Clock {
        date: months.date_of(local / SECONDS_PER_DAY),
        second: local % SECONDS_PER_DAY,
    }
}

// `b` and two digits of n, in front of `end`.
fn put_field(b: u8, n: u64, end: usize, room: &mut [u8])
    requires { (n < 100) × (2 < end) × (end ≤ length room.old) }
    ensures { room.new ≡ take (end - 3) room.old ++ field_before b n (drop end room.old) }
{
    decimal::put_two(n, end, room);
    decimal::put_byte(b, end - 2, room);
}

// `+HH:MM`, the last six bytes of a line.
fn put_offset(offset: i32, room: &mut [u8])
    requires { (nat_abs offset < 86400) × (25 ≤ length room.old) }
    ensures { room.new ≡ take 19 room.old ++ offset_before offset (drop 25 room.old) }
{
    let minutes = write::offset_size(offset) / 60;
    put_field(b':', minutes % 60, 25, room);
    put_field(write::sign_byte(offset), minutes / 60, 22, room);
}

// `THH:MM:SS`, the nine bytes before those.
fn put_clock(c: Clock, room: &mut [u8])
    requires { (c.second < 86400) × (19 ≤ length room.old) }
    ensures { room.new ≡ take 10 room.old ++ clock_before c (drop 19 room.old) }
{
    let second = c.second;
    put_field(b':', second % 60, 19, room);
    put_field(b':', second / 60 % 60, 16, room);
    put_field(b'T', second / 3600, 13, room);
}

// `YYYY-MM-DD`, the first ten bytes, of a year from 0 to 9999.
fn put_date(c: Clock, room: &mut [u8])
    requires { (120000 ≤ c.date.month) × (c.date.month < 240000) × (c.date.day < 31) × (10 ≤ length room.old) }
    ensures { room.new ≡ date_before c (drop 10 room.old) }
{
    let month = c.date.month;
    let year = month / 12 - YEAR_0;
    put_field(b'-', c.date.day + 1, 10, room);
    put_field(b'-', month % 12 + 1, 7, room);
    decimal::put_two(year % 100, 4, room);
    decimal::put_two(year / 100, 2, room);
}
