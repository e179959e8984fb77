// The range of times that the calendar works on (RULES 2.4), and times as numbers from 0: seconds from
// 1 January of year -10000, offsets from -93600. Arithmetic is done on these numbers, so that no sum
// has to look at a sign.
ghost use Rattle.std.specs.Prelude.{◌≡◌};
ghost use Rattle.time.specs.Range.{seconds_in_range, offset_in_range, since1970, moved_of, answer_at, MovedInRange};

use crate::{Refusal, Time};

// The range of seconds and of a current time's offset.
const LEAST_SECONDS: i64 = -377705023201;

const MOST_SECONDS: i64 = 253402207200;

const LEAST_OFFSET: i32 = -93599;

const MOST_OFFSET: i32 = 93599;

// What second 0 of 1970 and offset 0 are, as numbers from 0.
pub const SECOND_OF_1970: i64 = 377736739200;

pub const OFFSET_ZERO: u64 = 93600;

const OFFSET_ZERO_32: i32 = 93600;

// The range as numbers from 0.
const LEAST_SECONDS_FROM_0: u64 = 31715999;

const MOST_SECONDS_FROM_0: u64 = 631138946400;

const LEAST_OFFSET_FROM_0: u64 = 1;

const MOST_OFFSET_FROM_0: u64 = 187199;

// A time as numbers from 0. It holds no proof that it is in range, though `InRange` stands in several
// contracts: `time_of` takes any two numbers and refuses those that are out of range
// (docs/DECISIONS.md).
#[derive(Clone, Copy)]
pub struct Instant {
    pub seconds: u64,
    pub offset: u64,
}

// A time as numbers from 0, if both its seconds and its offset are in range. This and `time_of` are
// functions and no `TryFrom`: None has no refusal of its own, a caller makes 6 or 4 of it.
pub fn instant_of(t: Time) -> Option<Instant>
    ensures value { result ≡ moved_of t }
    ensures ranges { MovedInRange result }
{
    if seconds_in_range(t.seconds) & offset_in_range(t.offset) {
        Some(Instant {
            seconds: (t.seconds + SECOND_OF_1970) as u64,
            offset: (t.offset + OFFSET_ZERO_32) as u64,
        })
    } else {
        None
    }
}

// The time of an instant; refused by 6 if it would be out of range.
pub fn time_of(i: Instant) -> Result<Time, Refusal>
    ensures { result ≡ answer_at i }
{
    if in_range(i.seconds)
        & ((LEAST_OFFSET_FROM_0 <= i.offset) & (i.offset <= MOST_OFFSET_FROM_0))
    {
        Ok(Time::new(
            i.seconds as i64 - SECOND_OF_1970,
            i.offset as i32 - OFFSET_ZERO_32,
        ))
    } else {
        Err(Refusal::Range)
    }
}

// Whether seconds since 1970 are in range.
pub fn seconds_in_range(z: i64) -> bool
    ensures { result ≡ seconds_in_range z }
{
    (LEAST_SECONDS <= z) & (z <= MOST_SECONDS)
}

fn offset_in_range(o: i32) -> bool
    ensures { result ≡ offset_in_range o }
{
    (LEAST_OFFSET <= o) & (o <= MOST_OFFSET)
}

// Whether seconds from 0 are in range.
pub fn in_range(n: u64) -> bool
    ensures { result ≡ seconds_in_range (since1970 n) }
{
    (LEAST_SECONDS_FROM_0 <= n) & (n <= MOST_SECONDS_FROM_0)
}
