// Relative dates (RULES 7), read by two functions that take turns. `await_count` waits for a count,
// `await_unit` for its unit, and each hands the rest of the text to the other.
// docs/relative-dates.md explains relative dates by these two.
//
// No pair is stored: each is subtracted when its unit is read. A call goes one level deeper with
// every word, so texts are limited to MAX_LENGTH bytes. `relative::parse` gives the same answers
// without that limit.
#![tactic(auto)]

mod reading;

ghost use Rattle.std.specs.Prelude.{◌≡◌, None, Some};
ghost use Rattle.relative.specs.Relative.{max_pairs, named_of, answer_by_name};
ghost use Rattle.turns.specs.Turns.{turns_of};
ghost use Rattle.turns.specs.Reading.{read_rest};

use reading::Reading;
use relative::{Pair, Unit, words};
use text::scan::{Alphanumeric, Not};
use text::words::Words;
use text::{bytes, places};
use time::{Refusal, Time};

// The most bytes that a text may have, counted before anything is trimmed.
pub const MAX_LENGTH: usize = 4096;

// The time that a relative text means, as `relative::parse` answers it. A text of more than
// MAX_LENGTH bytes is refused as Form (2), unless it has a byte of 128 or more: then it is
// NotAscii (1).
pub fn parse(s: &[u8], current: Option<Time>) -> Result<Time, Refusal>
    ensures { result ≡ turns_of max_pairs s.now current }
{
    if !bytes::is_ascii(s) {
        return Err(Refusal::NotAscii);
    }
    if s.len() > MAX_LENGTH {
        return Err(Refusal::Form);
    }
    parse_ascii(s, current)
}

// The answer of an ASCII text. One of the three names is answered here, and every other text is read in
// turns.
fn parse_ascii(s: &[u8], current: Option<Time>) -> Result<Time, Refusal>
    ensures { result ≡ answer_by_name (named_of s.now) max_pairs s.now current }
{
    match relative::parse_named(s) {
        Some(count) => relative::pair_before(
            current,
            Pair {
                count,
                unit: Unit::Seconds(1),
            },
        ),
        None => await_count(s, Reading::new(current)),
    }
}

// Waits for a count. Any other word is passed over; if it is `ago`, it sets the mark.
#[cycle(awaiting)]
fn await_count(s: &[u8], reading: Reading) -> Result<Time, Refusal>
    ensures { result ≡ read_rest max_pairs reading None s.now }
{
    let Some((span, next)) = Words::new().take::<Not<Alphanumeric>>(s) else {
        return reading.verdict();
    };
    let word = text::words::within(s, span);
    let rest = places::from(s, next.at);
    match words::count(word) {
        Some(count) => await_unit(rest, count, reading),
        None => await_count(rest, reading.pass_over(word)),
    }
}

// Waits for the unit of the count. The very next word is the unit, even if it is `ago` or a number. A
// count at the end of the text is dropped.
#[cycle(awaiting)]
fn await_unit(s: &[u8], count: u64, reading: Reading) -> Result<Time, Refusal>
    ensures { result ≡ read_rest max_pairs reading (Some count) s.now }
{
    let Some((span, next)) = Words::new().take::<Not<Alphanumeric>>(s) else {
        return reading.verdict();
    };
    let rest = places::from(s, next.at);
    let unit = words::unit(text::words::within(s, span));
    await_count(rest, reading.with_pair(Pair { count, unit }))
}
