// Relative dates (RULES 7): `now`, `yesterday`, `2 weeks 1 day ago`, counted back from a current
// time at a fixed offset.
//
// Every text has an answer: a time, or the first of the refusals 1, 2, 5, 3, 4 and 6 that applies.
// `parse` needs no month table; `parse_with` borrows one.
#![tactic(auto)]

mod pair;
mod pairs;
mod steps;
pub mod words;

ghost use Rattle.std.specs.Prelude.{◌≡◌, ◌∷◌, []};
ghost use Rattle.relative.specs.Relative.{max_pairs, from, named_of, by_pairs, relative_of};

use calendar::{MonthTable, SECONDS_PER_DAY};
pub use pair::{MAX_PAIRS, Pair, Unit, is_known};
use text::bytes;
use time::{Refusal, Time};

// The time that a relative text means, at the current time's offset. It is refused as
//   NotAscii (1) if it has a byte of 128 or more,
//   Form (2)     if it has no pair, or an unknown unit without the mark `ago`,
//   Pairs (5)    if it has more than MAX_PAIRS pairs,
//   Missing (3)  if there is no current time,
//   Current (4)  if the current time is out of range,
//   Range (6)    if a step lands out of range.
// They are tested in this order.
pub fn parse(s: &[u8], current: Option<Time>) -> Result<Time, Refusal>
    ensures { result ≡ relative_of max_pairs s.now current }
{
    parse_with(MonthTable::none(), s, current)
}

// The same with a borrowed month table, whole or any leading part of it, for callers that read many
// texts.
#[tactic(auto, unfolding(crate::specs::Relative::relative_of))]
pub fn parse_with(months: MonthTable, s: &[u8], current: Option<Time>) -> Result<Time, Refusal>
    ensures { result ≡ relative_of max_pairs s.now current }
{
    if !bytes::is_ascii(s) {
        return Err(Refusal::NotAscii);
    }
    match parse_named(s) {
        Some(count) => pair_before(
            current,
            Pair {
                count,
                unit: Unit::Seconds(1),
            },
        ),
        None => parse_pairs(months, s, current),
    }
}

// How many seconds before the current time `now`, `today` or `yesterday` is, trimmed and in any letter
// case. Any other text is None, also `yesterday 1 day`.
// It is put into both readers: as a call, "now" takes almost twice as long (docs/SPEED.md).
#[inline(always)]
#[tactic(auto, unfolding(crate::specs::Relative::named_of))]
pub fn parse_named(s: &[u8]) -> Option<u64>
    ensures { result ≡ named_of s.now }
{
    let name = text::trim::trimmed(s);
    if bytes::same_ignoring_case(name, b"now") || bytes::same_ignoring_case(name, b"today") {
        Some(0)
    } else if bytes::same_ignoring_case(name, b"yesterday") {
        Some(SECONDS_PER_DAY)
    } else {
        None
    }
}

// The time one pair before the current time. It is refused as
//   Missing (3)  if there is no current time,
//   Current (4)  if the current time is out of range,
//   Range (6)    if the pair lands out of range.
// An unknown unit is a second here: whether it is allowed is for a reader to say.
// It is put into both readers: as a call, "now" takes almost twice as long (docs/SPEED.md).
#[inline(always)]
pub fn pair_before(current: Option<Time>, pair: Pair) -> Result<Time, Refusal>
    ensures { result ≡ from current (pair ∷ []) }
{
    let start = steps::start_of(current)?;
    steps::answer(steps::subtract_pair(MonthTable::none(), pair, start))
}

// The answer of a text that is not one of those names (RULES 7.2 to 7.10). Pairs are subtracted while
// they are read; whether the text may be answered at all is asked once it is read.
fn parse_pairs(months: MonthTable, s: &[u8], current: Option<Time>) -> Result<Time, Refusal>
    ensures { result ≡ by_pairs max_pairs s.now current }
{
    let start = steps::start_of(current);
    let scanned = pairs::scan(months, s, start.ok());
    let number = pairs::verdict(scanned.number, scanned.known | scanned.ago).ok_or(Refusal::Form)?;
    if number > MAX_PAIRS {
        return Err(Refusal::Pairs);
    }
    start?;
    steps::answer(scanned.landing)
}
