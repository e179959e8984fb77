// Words, and a reader of words (RULES 4.5). What separates words is a class of bytes: `Space`; or
// `Not<Alphanumeric>`, so that words are runs of ASCII letters and digits. The reader is passed by
// value: taking a word returns its bounds and the reader moved past it. The caller keeps the text, so
// a reader is one number.
ghost use Rattle.std.specs.Prelude.{◌≡◌};
ghost use Rattle.text.specs.Places.{part};
ghost use Rattle.text.specs.Words.{take_word};

use crate::scan;
use crate::scan::{Class, Not};

// The bounds of a part of a text: from `start` up to `end`, without the byte at `end`. It is no slice:
// `take_word` answers bounds, which theorems are about.
#[derive(Clone, Copy)]
pub struct Span {
    pub start: usize,
    pub end: usize,
}

// The bytes within the bounds. Bounds past the end of the text are cut back to it, so no span is
// refused.
pub fn within(s: &[u8], p: Span) -> &[u8]
    ensures { result.now ≡ part s.now p }
{
    let end = p.end.min(s.len());
    if p.start < end {
        &s[p.start..end]
    } else {
        &s[..0]
    }
}

// A reader of words, at a place in a text.
#[derive(Clone, Copy)]
pub struct Words {
    pub at: usize,
}

impl Words {
    // A reader at the front of a text.
    pub fn new() -> Words
        ensures { result.at ≡ 0 }
    {
        Words { at: 0 }
    }

    // The next word: the first one that begins at the reader's place or after it. The bytes of the
    // class separate words.
    pub fn take<C: Class>(self, s: &[u8]) -> Option<(Span, Words)>
        ensures { result ≡ take_word C.holds s.now self.at }
    {
        let start = scan::past::<C>(s, self.at);
        if start < s.len() {
            let end = scan::past::<Not<C>>(s, start);
            Some((Span { start, end }, Words { at: end }))
        } else {
            None
        }
    }
}
