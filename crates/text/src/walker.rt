// A walker of words (RULES 4.5), for tools that keep a text and a place in it in one value. The
// program `monthstrip` takes a month's name by `nth_word`. The readers of dates have the text at hand
// and use the reader `words::Words`, which does the walker's scanning too and gives the same words.
//
// The calls are public (docs/PROMISES.md 4.5) and stay as the definition `next_of` has them; an
// `Iterator` over the words would give `Walker` another meaning. A step is three calls: `next` returns
// the bounds of a word and the reader past it, `word` returns the bytes of the word, and `moved` returns
// the walker past it. The class of bytes that separates words is a type parameter of each step, as it is
// of the reader's steps. `after_words` and `nth_word` take the text itself, for callers that need no
// walker of their own.
ghost use Rattle.std.specs.Prelude.{◌≡◌, [], drop, get_or};
ghost use Rattle.text.specs.Places.{part};
ghost use Rattle.text.specs.Words.{words};
ghost use Rattle.text.specs.Walk.{walker_of, next_of, moved_to, passed};

use crate::places;
use crate::scan::Class;
use crate::words::{Span, Words, within};

// A text, and the place in it from which the next word is looked for.
#[derive(Clone, Copy)]
pub struct Walker<'a> {
    pub text: &'a [u8],
    pub at: usize,
}

impl<'a> Walker<'a> {
    // A walker at the front of a text.
    pub fn start(text: &'a [u8]) -> Walker<'a>
        ensures { result ≡ walker_of text.entry }
    {
        Walker { text, at: 0 }
    }

    // The bounds of the next word and the reader past it; `None` if only separators are left. The
    // walker stays where it is.
    pub fn next<C: Class>(self) -> Option<(Span, Words)>
        ensures { result ≡ next_of self.entry C.holds }
    {
        Words { at: self.at }.take::<C>(self.text)
    }

    // The walker moved to the place of a reader that `next` returned.
    pub fn moved(self, to: Words) -> Walker<'a>
        ensures { result ≡ moved_to self.entry to.at }
    {
        Walker {
            text: self.text,
            at: to.at,
        }
    }

    // The bytes within the bounds, as a part of the walker's text.
    pub fn word(self, p: Span) -> &'a [u8]
        ensures { result.now ≡ part self.entry.text.now p }
    {
        within(self.text, p)
    }

    // The walker past the next n words, or past as many as there are.
    pub fn skipped<C: Class>(self, n: usize) -> Walker<'a>
        ensures { result ≡ moved_to self.entry (passed C.holds n self.entry.text.now self.entry.at) }
    {
        let at = place_after::<C>(self.text, self.at, n);
        Walker {
            text: self.text,
            at,
        }
    }

    // What is left of the text; empty if the walker's place is past the end.
    pub fn left(self) -> &'a [u8]
        ensures { result.now ≡ drop self.entry.at self.entry.text.now }
    {
        places::from(self.text, self.at)
    }
}

// The place past the next n words, or past as many as there are.
fn place_after<C: Class>(text: &[u8], at: usize, n: usize) -> usize
    ensures { result ≡ passed C.holds n text.now at }
{
    let mut i = at;
    for _ in 0..n {
        let Some((_, past)) = Words { at: i }.take::<C>(text) else {
            return i;
        };
        i = past.at;
    }
    i
}

// What comes after the first n words, or after as many as there are.
pub fn after_words<C: Class>(text: &[u8], n: usize) -> &[u8]
    ensures { result.now ≡ drop (passed C.holds n text.now 0) text.now }
{
    Walker::start(text).skipped::<C>(n).left()
}

// The word with n words before it, as a part of the text. It is empty, as no word is, if the text
// has n words or fewer.
pub fn nth_word<C: Class>(text: &[u8], n: usize) -> &[u8]
    ensures { result.now ≡ get_or (words C.holds text.now) n [] }
{
    let rest = after_words::<C>(text, n);
    let Some((word, _)) = Words::new().take::<C>(rest) else {
        return &rest[..0];
    };
    within(rest, word)
}
