// Headers and raw dates (RULES 5), the forms in which commits hold dates. `parse_header` reads a
// header, such as `1745582210 +0200`. `raw::parse_raw` reads a raw date, and is stricter. Both
// answer for every text, of any length and any bytes, in one pass from front to end, and copy
// nothing. The usual form (number, space, sign, four digits) is recognised as soon as the number
// ends. Any other text reads those six bytes twice.
#![tactic(auto)]

mod offset;
pub mod raw;
mod walk;

ghost use Rattle.std.specs.Prelude.{◌≡◌};
ghost use Rattle.header.specs.Header.{header_offset, header_time, header_of};
ghost use Rattle.header.specs.Held.{AllSmall, WordsRead, refusal_of};

use crate::offset::{Fields, Signed};
use crate::walk::First;
use text::number::NumberError;
use text::{bytes, words};
use time::{Refusal, Time};

// Reads a header (RULES 5.1 to 5.5). The answer is refusal 1 if the text holds a byte of 128 or
// more, then refusal 2 if it holds a `:`, and then refusal 11 if the number of its first word is too
// large, or 2 if there is none. Without a second word, with one that is no offset, or with a third
// word, the offset is 0. A number alone and the usual form need no scan for words.
pub fn parse_header(s: &[u8]) -> Result<Time, Refusal>
    ensures { result ≡ header_of s.now }
{
    read_header(&*s)
}

// The same, for the C entry that gives the mark. An entry of C is a function of its own, and so is
// what it calls: two entries that shared one function would call it, and both would be slower
// (docs/SPEED.md).
pub fn parse_header_marked(s: &[u8]) -> Result<Time, Refusal>
    ensures { result ≡ header_of s.now }
{
    read_header(&*s)
}

// The steps of both. `&*s` is the same text; passed on so, it comes in registers and not by way of
// memory.
#[inline(always)]
fn read_header(s: &[u8]) -> Result<Time, Refusal>
    ensures { result ≡ header_of s.now }
{
    let opening = walk::open(&*s);
    if opening.end == s.len() {
        return header_time(opening.number, None);
    }
    let Some(f) = walk::usual_tail(&*s, opening) else {
        return parse_words(&*s, walk::read_words(&*s, opening));
    };
    header_time(opening.number, Some(f))
}

// The header in the words of a text of any other form.
fn parse_words(s: &[u8], walked: Option<First>) -> Result<Time, Refusal>
    requires { WordsRead s.now walked }
    ensures { result ≡ header_of s.now }
{
    let first = walked.ok_or(Refusal::NotAscii)?;
    if first.colon {
        return Err(Refusal::Form);
    }
    header_time(
        first.number,
        parse_offset(words::within(&*s, first.offset_word)),
    )
}

// Without a number the answer is refusal 2, with one that is too large refusal 11. Without an offset,
// the offset is 0.
fn header_time(n: Result<i64, NumberError>, p: Option<Fields>) -> Result<Time, Refusal>
    requires { AllSmall p }
    ensures { result ≡ header_time n p }
{
    let z = n.map_err(refusal_of)?;
    match p {
        Some(f) => Ok(offset::read_time(z, f)),
        None => Ok(Time::with_mark(z, 0, false)),
    }
}

// Why a text without a number is refused: by 11 if its number is too large, by 2 if there is none.
fn refusal_of(e: NumberError) -> Refusal
    ensures { result ≡ refusal_of e }
{
    match e {
        NumberError::TooLarge => Refusal::TooLarge,
        NumberError::NoNumber => Refusal::Form,
    }
}

// The word of a header's offset (RULES 5.4): a digit has to follow the sign.
#[tactic(auto, unfolding(crate::specs::Header::header_offset))]
fn parse_offset(w: &[u8]) -> Option<Fields>
    ensures { result ≡ header_offset w.now }
{
    match w {
        [_, b, ..] if bytes::is_digit(*b) => offset::parse_fields::<Signed>(w),
        _ => None,
    }
}
