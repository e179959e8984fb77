// Numbers in a text (RULES 4.2 to 4.4 and 4.7). The digits may be of any length, with leading zeros:
// a value above the limit is too large, and nothing overflows on the way. One function reads the
// digits for every width, up to the limit that it is given. Callers that do not tell a number that
// is too large from no number take an `Option`.
ghost use Rattle.std.specs.Prelude.{◌≡◌, cond, ◌+◌, ◌*◌, ◌≤◌, ◌<◌, ◌-◌, ◌^◌, leb, ltb, pos, neg_ℤ, drop, Err, Ok};
ghost use Rattle.std.specs.Result.{result_ok};
ghost use Rattle.text.specs.Bytes.{is_digit};
ghost use Rattle.text.specs.Places.{leading, past};
ghost use Rattle.text.specs.Number.{digits_of, unsigned_of, signed_of, half_of, AtMost, LeadsWith};
ghost use Rattle.text.specs.Number.{fitted, fit, fit_signed};
ghost use Rattle.text.specs.Held.{signed_by};
ghost use Rattle.text.specs.declared.number.NumberError.TheVariants.{NoNumber};

use crate::scan::Digit;
use crate::{bytes, scan};

// The width of a signed number.
#[derive(Clone, Copy)]
pub enum Width {
    Bits32,
    Bits64,
}

// 2^63: 64 signed bits hold -HALF_64 to HALF_64 - 1.
const HALF_64: u64 = 9223372036854775808;

// 2^31: 32 signed bits hold -HALF_32 to HALF_32 - 1.
const HALF_32: u64 = 2147483648;

impl Width {
    fn half(self) -> u64
        ensures { (result ≡ half_of self) × (0 < result) × (result ≤ 2 ^ 63) }
    {
        match self {
            Width::Bits32 => HALF_32,
            Width::Bits64 => HALF_64,
        }
    }
}

// Why there is no number of a width: its value is too large for it, or there is no number at all.
#[derive(Clone, Copy)]
pub enum NumberError {
    TooLarge,
    NoNumber,
}

// The whole text as an unsigned number: an optional `+`, then digits.
#[tactic(auto, using(crate::proofs::Numbers::unsigned_of_plus, crate::proofs::Numbers::unsigned_of_other))]
pub fn unsigned_number(s: &[u8], limit: u64) -> Option<u64>
    ensures { result ≡ fit limit (unsigned_of s.now) }
{
    match s {
        [] => None,
        [b'+', ..] => digits(s, 1, limit),
        _ => digits(s, 0, limit),
    }
}

// The whole text as a signed number of a width: an optional `+` or `-`, then digits.
pub fn signed_number(s: &[u8], width: Width) -> Option<i64>
    ensures { result ≡ fit_signed (half_of width) (signed_of s.now) }
{
    let read = leading_integer(s, 0, width);
    // The place is asked for a number alone: then digits that are too large are not passed to find it.
    match read.number {
        Ok(_) if s.len() <= read.end => read.number.ok(),
        _ => None,
    }
}

// The text from `from` on as digits alone: at least one, with a value up to the limit.
pub fn digits(s: &[u8], from: usize, limit: u64) -> Option<u64>
    ensures { result ≡ fit limit (digits_of (drop from s.now)) }
{
    let read = leading_number(s, from, limit);
    // The place is asked for a number alone: then digits that are too large are not passed to find it.
    match read.number {
        Ok(_) if s.len() <= read.end => read.number.ok(),
        _ => None,
    }
}

// The number that leading digits are, and the place past them.
#[derive(Clone, Copy)]
pub struct Leading {
    pub number: Result<u64, NumberError>,
    pub end: usize,
}

// The leading digits of the text from `from` on. They are too large if their value is above the
// limit, and no number if there is none.
pub fn leading_number(s: &[u8], from: usize, limit: u64) -> Leading
    ensures number_value { result.number ≡ fitted limit (digits_of (leading is_digit (drop from s.now))) }
    ensures end_value { result.end ≡ past is_digit s.now from }
{
    let mut v: u64 = 0;
    for i in from..s.len() {
        let b = s[i];
        if !bytes::is_digit(b) {
            return read_up_to(from, i, v);
        }
        let d = u64::from(b - b'0');
        if !has_room(v, d, limit) {
            return Leading {
                number: Err(NumberError::TooLarge),
                end: scan::past::<Digit>(s, i),
            };
        }
        v = 10 * v + d;
    }
    read_up_to(from, from.max(s.len()), v)
}

// Whether v with the digit d after it is at most the limit. One comparison decides it unless v is a
// tenth of the limit.
fn has_room(v: u64, d: u64, limit: u64) -> bool
    requires { d < 10 }
    ensures { result ≡ leb (10 * v + d) limit }
{
    let tenth = limit / 10;
    v < tenth || (v == tenth && d <= limit - 10 * v)
}

// The answer at `end`: v is the value of the digits from `from` up to there, and is no number if
// there are none.
fn read_up_to(from: usize, end: usize, v: u64) -> Leading
    ensures number_value { result.number ≡ cond (ltb from end) (Ok v) (Err NoNumber) }
    ensures end_value { result.end ≡ end }
{
    let number = if from < end {
        Ok(v)
    } else {
        Err(NumberError::NoNumber)
    };
    Leading { number, end }
}

// The number that an optional sign and the digits after it are, the place past them, and whether the
// sign is there. A text may have a sign and no number, so `signed` stands beside the Result and not in it
// (`LeadsWith`).
#[derive(Clone, Copy)]
pub struct LeadingInteger {
    pub number: Result<i64, NumberError>,
    pub end: usize,
    pub signed: bool,
}

// The optional `+` or `-` and the leading digits of the text from `from` on, as a number of a width.
pub fn leading_integer(s: &[u8], from: usize, width: Width) -> LeadingInteger
    ensures { LeadsWith (half_of width) (drop from s.now) from result }
{
    leading_between(s, from, width.half())
}

// The same, with a value from -half to half - 1.
fn leading_between(s: &[u8], from: usize, half: u64) -> LeadingInteger
    requires { (0 < half) × (half ≤ 2 ^ 63) }
    ensures { LeadsWith half (drop from s.now) from result }
{
    let Some(&b) = s.get(from) else {
        return LeadingInteger {
            number: Err(NumberError::NoNumber),
            end: from,
            signed: false,
        };
    };
    let signed = bytes::is_sign(b);
    let read = leading_number(s, past_sign(from, signed), half);
    LeadingInteger {
        number: with_sign(b == b'-', read.number, half),
        end: read.end,
        signed,
    }
}

// The place where the digits begin.
fn past_sign(at: usize, signed: bool) -> usize
    requires { at + 1 < 2 ^ 64 }
    ensures { result ≡ cond signed (at + 1) at }
{
    if signed { at + 1 } else { at }
}

// n with its sign. `half` itself fits only with a minus sign.
fn with_sign(negative: bool, n: Result<u64, NumberError>, half: u64) -> Result<i64, NumberError>
    requires { AtMost half (result_ok n) × (0 < half) × (half ≤ 2 ^ 63) }
    ensures { result ≡ signed_by half negative n }
{
    let v = n?;
    if negative {
        Ok(minus_i64(v))
    } else if v < half {
        Ok(v as i64)
    } else {
        Err(NumberError::TooLarge)
    }
}

// -v. Negating `v as i64` would overflow at `HALF_64`.
fn minus_i64(v: u64) -> i64
    requires { v ≤ 2 ^ 63 }
    ensures { result ≡ neg_ℤ (pos v) }
{
    if v == 0 { 0 } else { -1 - ((v - 1) as i64) }
}
