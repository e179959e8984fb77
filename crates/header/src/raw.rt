// The raw reader (RULES 5.6 and 5.7): exactly two words, a number and an offset, with limits on the
// hours and the minutes. A rule fixes the limits. Anything else is refused.
ghost use Rattle.std.specs.Prelude.{◌≡◌};
ghost use Rattle.header.specs.Raw.{rule1, limits_of, allows as allows_of, raw_time, raw_of};
ghost use Rattle.header.specs.Held.{AllSmall, LeadsWithNumber, WordsRead};

use crate::offset::{Byte, Fields};
use crate::walk::First;
use crate::{offset, refusal_of, walk};
use text::number::{LeadingInteger, NumberError};
use text::words;
use time::{Refusal, Time};

// Which limits hold for hours and minutes: rule 1, which is gix-date's, or rule 2, which is wider. It
// is a value and no type parameter, since callers from C name the rule by a number.
#[derive(Clone, Copy)]
pub enum Rule {
    One,
    Two,
}

// Reads a raw date, by rule 1. The answer is refusal 1 if the text holds a byte of 128 or more, then
// refusal 11 if its first word is a number that is too large, and then refusal 2 if it is anything
// but a number and an offset within the limits. A number alone and the usual form are recognised as
// soon as the number ends, as in `parse_header`.
pub fn parse_raw(s: &[u8]) -> Result<Time, Refusal>
    ensures { result ≡ raw_of rule1 s.now }
{
    read_raw(&*s, Rule::One)
}

// The same, for the entry that gives the mark: as with `header::parse_header_marked`, each entry
// calls a function of its own.
pub fn parse_raw_marked(s: &[u8]) -> Result<Time, Refusal>
    ensures { result ≡ raw_of rule1 s.now }
{
    read_raw(&*s, Rule::One)
}

// Reads a raw date by either rule, and refuses as `parse_raw` does.
pub fn parse_raw_by(s: &[u8], rule: Rule) -> Result<Time, Refusal>
    ensures { result ≡ raw_of (limits_of rule) s.now }
{
    read_raw(&*s, rule)
}

// The steps of all three. They are put into each, so that the two that name rule 1 test no rule at
// the limits (docs/SPEED.md). `&*s` is the same text; passed on so, it comes in registers and not by
// way of memory.
#[inline(always)]
fn read_raw(s: &[u8], rule: Rule) -> Result<Time, Refusal>
    ensures { result ≡ raw_of (limits_of rule) s.now }
{
    let opening = walk::open(&*s);
    if opening.end == s.len() {
        return raw_time(rule, opening.number, None);
    }
    let Some(f) = walk::usual_tail(&*s, opening) else {
        return anew(parse_words(&*s, read_on(&*s, opening), rule));
    };
    raw_time(rule, opening.number, Some(f))
}

// `walk::read_words`, in a function of its own: `parse_raw_by` is not put into its callers, and what it
// passes on itself would be copied to memory for every text. Here that is done for texts of another
// form alone. Without this and `anew`, `parse_raw_by` takes 29 instructions more of some 348.
fn read_on(s: &[u8], opening: LeadingInteger) -> Option<First>
    requires { LeadsWithNumber s.now opening }
    ensures { WordsRead s.now result }
{
    walk::read_words(s, opening)
}

// The same answer, taken apart and made anew. `parse_raw_by` returns it by way of memory; passed on
// whole, it would be copied there in larger pieces than were stored, and that copy waits (docs/SPEED.md).
fn anew(a: Result<Time, Refusal>) -> Result<Time, Refusal>
    ensures { result ≡ a }
{
    match a {
        Ok(t) => Ok(Time::with_mark(t.seconds, t.offset, t.mark)),
        Err(r) => Err(r),
    }
}

// The date in the words of a text of any other form. They are not tested for a `:`, since no number
// and no offset holds one.
fn parse_words(s: &[u8], walked: Option<First>, rule: Rule) -> Result<Time, Refusal>
    requires { WordsRead s.now walked }
    ensures { result ≡ raw_of (limits_of rule) s.now }
{
    let first = walked.ok_or(Refusal::NotAscii)?;
    if !first.whole {
        return Err(Refusal::Form);
    }
    let word = words::within(s, first.offset_word);
    raw_time(rule, first.number, offset::parse_fields::<Byte>(word))
}

// A number that is too large is refusal 11, whatever follows it. Otherwise the answer is refusal 2
// unless there are a number and an offset, and the rule allows the fields.
fn raw_time(rule: Rule, n: Result<i64, NumberError>, p: Option<Fields>) -> Result<Time, Refusal>
    requires { AllSmall p }
    ensures { result ≡ raw_time (limits_of rule) n p }
{
    // One `match`, and no `?`: with it `parse_raw` takes a twentieth to a tenth less (docs/LOOK-BACK.md).
    match n {
        Ok(z) => match p {
            Some(f) if allows(rule, f) => Ok(offset::read_time(z, f)),
            _ => Err(Refusal::Form),
        },
        Err(e) => Err(refusal_of(e)),
    }
}

// Rule 1: hours are at most 14, and minutes are 0, 15, 30 or 45. Rule 2: hours are below 24, and
// minutes are below 60. By both rules seconds are 0. Rule 2 stands first because `parse_raw_by` is
// slower by rule 1 otherwise (docs/SPEED.md).
fn allows(rule: Rule, f: Fields) -> bool
    ensures { result ≡ allows_of (limits_of rule) f }
{
    match rule {
        Rule::Two => (f.hours < 24) & (f.minutes < 60) & (f.seconds == 0),
        Rule::One => (f.hours <= 14) & is_quarter(f.minutes) & (f.seconds == 0),
    }
}

// The minutes of rule 1. The compiler makes one test of bits from these four.
fn is_quarter(m: i64) -> bool
    ensures { result ≡ rule1.minutes m }
{
    matches!(m, 0 | 15 | 30 | 45)
}
