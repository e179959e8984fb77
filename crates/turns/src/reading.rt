// What a reading carries from word to word. Each contract says what the reading answers in the end,
// whatever the rest of the text is.
ghost use Rattle.std.specs.Prelude.{◌≡◌, false, ◌||◌, ◌∷◌, [], length};
ghost use Rattle.relative.specs.Words.{is};
ghost use Rattle.relative.specs.Pairs.{known as are_all_known};
ghost use Rattle.relative.specs.Relative.{max_pairs, from, verdict as verdict_of};
ghost use Rattle.turns.specs.Reading.{subtracted, read_on, AnswersBy};

use relative::{MAX_PAIRS, Pair};
use text::bytes;
use time::{Refusal, Time};

// Neither flag says whether a value beside it counts: both are asked when nothing is left.
#[derive(Clone, Copy)]
pub struct Reading {
    // How many pairs have been read, counted up to MAX_PAIRS + 1.
    pub pairs: usize,
    // Whether all their units are known.
    pub known: bool,
    // Whether the mark was set.
    pub ago: bool,
    // The current time with these pairs subtracted; or why there is none.
    pub answer: Result<Time, Refusal>,
}

impl Reading {
    // Nothing has been read. Whether the current time is in range is tested with the first pair.
    pub fn new(current: Option<Time>) -> Reading
        ensures { AnswersBy max_pairs result (λ ps ago. verdict_of max_pairs (length ps) (are_all_known ps || ago) (from current ps)) }
    {
        Reading {
            pairs: 0,
            known: true,
            ago: false,
            answer: current.ok_or(Refusal::Missing),
        }
    }

    // A word has been read that is no count, where a count was awaited. `ago` sets the mark.
    pub fn pass_over(self, word: &[u8]) -> Reading
        ensures { AnswersBy max_pairs result (λ ps ago. read_on max_pairs self ps (is word.now "ago" || ago)) }
    {
        Reading {
            ago: self.ago | bytes::same_ignoring_case(word, b"ago"),
            ..self
        }
    }

    // A pair has been read. The first pair beyond MAX_PAIRS is counted but not subtracted, and
    // further ones change nothing but `known`.
    pub fn with_pair(self, pair: Pair) -> Reading
        ensures { AnswersBy max_pairs result (λ ps ago. read_on max_pairs self (pair ∷ ps) ago) }
    {
        let known = self.known & relative::is_known(pair.unit);
        if self.pairs < MAX_PAIRS {
            Reading {
                pairs: self.pairs + 1,
                known,
                answer: subtract(pair, self.answer),
                ..self
            }
        } else {
            Reading {
                pairs: MAX_PAIRS + 1,
                known,
                ..self
            }
        }
    }

    // Nothing is left to read.
    pub fn verdict(self) -> Result<Time, Refusal>
        ensures { result ≡ read_on max_pairs self [] false }
    {
        if self.pairs == 0 || !(self.known | self.ago) {
            Err(Refusal::Form)
        } else if self.pairs > MAX_PAIRS {
            Err(Refusal::Pairs)
        } else {
            self.answer
        }
    }
}

// The time one pair before that of an answer. A refusal stays.
fn subtract(pair: Pair, from: Result<Time, Refusal>) -> Result<Time, Refusal>
    ensures { result ≡ subtracted (pair ∷ []) from }
{
    relative::pair_before(Some(from?), pair)
}
