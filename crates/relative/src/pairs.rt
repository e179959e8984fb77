// Reads the pairs of a text and the mark `ago` (RULES 7.2 to 7.6), and subtracts each pair as soon as
// it is read.
ghost use Rattle.std.specs.Prelude.{◌≡◌, ◌≤◌, length};
ghost use Rattle.time.specs.Range.{MovedInRange};
ghost use Rattle.relative.specs.Held.{counted_of, answer_of};
ghost use Rattle.relative.specs.Pairs.{known, pairs_of, ago_in};
ghost use Rattle.relative.specs.Steps.{steps};
ghost use Rattle.relative.specs.Relative.{max_pairs};

use crate::pair::{MAX_PAIRS, Pair};
use crate::{pair, steps, words};
use calendar::MonthTable;
use text::bytes;
use text::scan::{Alphanumeric, Not};
use text::words::Words;
use time::range::Instant;

// The number of pairs, if there is one and their units are allowed: unknown units are, only in a text
// with the mark.
#[tactic(auto, unfolding(crate::specs::Held::counted_of))]
pub fn verdict(number: usize, allowed: bool) -> Option<usize>
    ensures { result ≡ counted_of number allowed }
{
    (number != 0 && allowed).then_some(number)
}

// How many pairs there are, whether all their units are known, whether the mark was set, and where the
// pairs land.
// Neither flag says whether a value beside it counts: both are asked when the whole text is read.
#[derive(Clone, Copy)]
pub struct Scanned {
    pub number: usize,
    pub known: bool,
    pub ago: bool,
    pub landing: Option<Instant>,
}

// One pass over the words. The whole text is read, however many pairs it has and wherever they land,
// because an unknown unit near its end still decides the answer. Pairs beyond MAX_PAIRS are counted
// and their units looked at, but they are not subtracted.
pub fn scan(months: MonthTable, s: &[u8], start: Option<Instant>) -> Scanned
    requires { MovedInRange start }
    ensures number { result.number ≡ length (pairs_of s.now) }
    ensures known { result.known ≡ known (pairs_of s.now) }
    ensures mark { result.ago ≡ ago_in s.now }
    ensures landing { result.number ≤ max_pairs → answer_of result.landing ≡ steps (pairs_of s.now) (answer_of start) }
    ensures range { MovedInRange result.landing }
{
    let mut number: usize = 0;
    let mut known = true;
    let mut ago = false;
    let mut landing = start;
    let mut reader = Words::new();
    // One or two words are taken in a turn, so this is no `for`.
    while let Some((span, rest)) = reader.take::<Not<Alphanumeric>>(s) {
        reader = rest;
        let word = text::words::within(s, span);
        if bytes::same_ignoring_case(word, b"ago") {
            ago = true;
            continue;
        }
        let Some(count) = words::count(word) else {
            continue;
        };
        // The very next word is the unit, even if it is `ago` or a number (RULES 7.4).
        let Some((unit_span, after)) = reader.take::<Not<Alphanumeric>>(s) else {
            break;
        };
        reader = after;
        let unit = words::unit(text::words::within(s, unit_span));
        known &= pair::is_known(unit);
        if number < MAX_PAIRS {
            landing = steps::subtract_from(months, Pair { count, unit }, landing);
        }
        number += 1;
    }
    Scanned {
        number,
        known,
        ago,
        landing,
    }
}
