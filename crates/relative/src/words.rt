// What a single word means: a count (RULES 7.3), or a unit (RULES 7.5).
ghost use Rattle.std.specs.Prelude.{◌≡◌, None, map};
ghost use Rattle.relative.specs.Words.{spelled as spelled_of, value_among, count_of, singular as singular_of, unit_named, unit_of};

use crate::pair::Unit;
use calendar::SECONDS_PER_DAY;
use text::bytes;

// The largest number of 64 signed bits.
const LARGEST_COUNT: u64 = i64::MAX as u64;

const SECONDS_PER_MINUTE: u64 = 60;

const SECONDS_PER_HOUR: u64 = 3600;

const SECONDS_PER_WEEK: u64 = 604800;

const MONTHS_PER_YEAR: u64 = 12;

// The names of counts. There is no `zero`.
static COUNTS: [(&[u8], u64); 11] = [
    (b"one", 1),
    (b"two", 2),
    (b"three", 3),
    (b"four", 4),
    (b"five", 5),
    (b"six", 6),
    (b"seven", 7),
    (b"eight", 8),
    (b"nine", 9),
    (b"ten", 10),
    (b"last", 1),
];

static UNITS: [(&[u8], Unit); 7] = [
    (b"second", Unit::Seconds(1)),
    (b"minute", Unit::Seconds(SECONDS_PER_MINUTE)),
    (b"hour", Unit::Seconds(SECONDS_PER_HOUR)),
    (b"day", Unit::Seconds(SECONDS_PER_DAY)),
    (b"week", Unit::Seconds(SECONDS_PER_WEEK)),
    (b"month", Unit::Months(1)),
    (b"year", Unit::Months(MONTHS_PER_YEAR)),
];

// The value of the first name that the word is, in any letter case.
fn value_of<T: Copy>(names: &[(&[u8], T)], word: &[u8]) -> Option<T>
    ensures { result ≡ value_among (map (λ n. (n.0.now, n.1)) names.now) word.now }
{
    for (name, value) in names {
        if bytes::same_ignoring_case(word, name) {
            return Some(*value);
        }
    }
    None
}

// A count: digits that fit 64 signed bits, `one` to `ten`, or `last`, which is 1. Digits are tried
// first, because no name begins with a digit.
pub fn count(word: &[u8]) -> Option<u64>
    ensures { result ≡ count_of word.now }
{
    text::number::digits(word, 0, LARGEST_COUNT).or_else(|| spelled(word))
}

#[tactic(auto, unfolding(crate::specs::Words::spelled))]
fn spelled(word: &[u8]) -> Option<u64>
    ensures { result ≡ spelled_of word.now None }
{
    value_of(&COUNTS, word)
}

// The unit that a word names.
#[tactic(auto, unfolding(crate::specs::Words::unit_of))]
pub fn unit(word: &[u8]) -> Unit
    ensures { result ≡ unit_of word.now }
{
    unit_named(singular(word))
}

// The word without one final `s` or `S`. Only one is dropped: `secondss` is not a unit.
fn singular(word: &[u8]) -> &[u8]
    ensures { result.now ≡ singular_of word.now }
{
    let [rest @ .., last] = word else {
        return word;
    };
    if bytes::lower(*last) == b's' {
        rest
    } else {
        word
    }
}

// The unit with exactly this name.
fn unit_named(word: &[u8]) -> Unit
    ensures { result ≡ unit_named word.now }
{
    value_of(&UNITS, word).unwrap_or(Unit::Unknown)
}
