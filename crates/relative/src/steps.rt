// Applies pairs in order (RULES 7.8 to 7.10), on times as numbers from 0 (`time::range`). However large
// a count is, nothing overflows: a product of more than 64 bits, or a difference below 0, lands out of
// range. These contracts say that an instant is in range, and its type does not: an `Instant` is any two
// numbers (`time::range`).
ghost use Rattle.std.specs.Prelude.{◌≡◌, ◌*◌, ◌≤◌, pos, ◌-ℤ◌, Ok};
ghost use Rattle.time.specs.Range.{since1970, time_of, InRange, MovedInRange};
ghost use Rattle.relative.specs.Held.{start_of, StartInRange, answer_of};
ghost use Rattle.relative.specs.Steps.{months_earlier, landed, step};

use crate::pair::{Pair, Unit};
use calendar::MonthTable;
use time::range::{Instant, OFFSET_ZERO};
use time::{Refusal, Time};

// Where the steps start: the current time as numbers from 0. Missing is 3, out of range is 4.
#[tactic(auto, unfolding(crate::specs::Held::start_of))]
pub fn start_of(current: Option<Time>) -> Result<Instant, Refusal>
    ensures is { result ≡ start_of current }
    ensures range { StartInRange result }
{
    let time = current.ok_or(Refusal::Missing)?;
    time::range::instant_of(time).ok_or(Refusal::Current)
}

// A landing as the answer: out of range is 6.
pub fn answer(landing: Option<Instant>) -> Result<Time, Refusal>
    requires { MovedInRange landing }
    ensures { result ≡ answer_of landing }
{
    time::range::time_of(landing.ok_or(Refusal::Range)?)
}

// Subtracts one pair from where the one before it landed. Out of range it stays.
#[tactic(auto, unfolding(crate::specs::Steps::step))]
pub fn subtract_from(months: MonthTable, pair: Pair, from: Option<Instant>) -> Option<Instant>
    requires { MovedInRange from }
    ensures is { answer_of result ≡ step pair (answer_of from) }
    ensures range { MovedInRange result }
{
    subtract_pair(months, pair, from?)
}

// Subtracts one pair. An unknown unit is a second. It is inlined because the reader calls it for each
// pair.
#[inline(always)]
pub fn subtract_pair(months: MonthTable, pair: Pair, from: Instant) -> Option<Instant>
    requires { InRange from }
    ensures is { answer_of result ≡ step pair (Ok (time_of from)) }
    ensures range { MovedInRange result }
{
    match pair.unit {
        Unit::Seconds(size) => seconds_back(from, pair.count, size),
        Unit::Months(size) => months_earlier(months, from, pair.count, size),
        Unit::Unknown => seconds_back(from, pair.count, 1),
    }
}

// count * size seconds earlier.
pub fn seconds_back(from: Instant, count: u64, size: u64) -> Option<Instant>
    requires { InRange from }
    ensures is { answer_of result ≡ landed (since1970 from.seconds -ℤ pos (count * size)) (time_of from).offset }
    ensures range { MovedInRange result }
{
    let back = count.checked_mul(size)?;
    let seconds = from.seconds.checked_sub(back)?;
    if_in_range(seconds, from.offset)
}

// count * size months earlier, on the local clock. The landing is tested for range, not the first day of
// its month: at offset 0, January of year -9999 begins out of range.
fn months_earlier(months: MonthTable, from: Instant, count: u64, size: u64) -> Option<Instant>
    requires { InRange from }
    ensures is { answer_of result ≡ landed (months_earlier (time_of from) (count * size)) (time_of from).offset }
    ensures range { MovedInRange result }
{
    let back = count.checked_mul(size)?;
    let local = months.months_back(from.seconds + from.offset - OFFSET_ZERO, back)?;
    let seconds = (local + OFFSET_ZERO).checked_sub(from.offset)?;
    if_in_range(seconds, from.offset)
}

// A landing, if it is in range.
fn if_in_range(seconds: u64, offset: u64) -> Option<Instant>
    requires { (1 ≤ offset) × (offset ≤ 187199) }
    ensures is { answer_of result ≡ landed (since1970 seconds) (pos offset -ℤ pos 93600) }
    ensures range { MovedInRange result }
{
    time::range::in_range(seconds).then_some(Instant { seconds, offset })
}
