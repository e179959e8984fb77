// The word of an offset, for both readers (RULES 5.4 to 5.7): 5 or 7 bytes, of which the first is a
// sign, and then two-byte fields: hours, minutes, and with 7 bytes seconds. The readers differ in
// the numbers that a field may be. The usual word, a sign and four digits, is read in one step.
ghost use Rattle.std.specs.Prelude.{◌≡◌, true, ◌&&◌, ◌+◌, ◌≤◌, pos, length};
ghost use Rattle.text.specs.Bytes.{is_digit};
ghost use Rattle.header.specs.Offset.{Field as Kind, Signed as signed, Byte as byte, five_or_seven, field_of, last_field, fields_of, offset_of, read_time};
ghost use Rattle.header.specs.Held.{Small, two_digits, two_bytes_of, usual_of};

use text::number::Width;
use text::{bytes, number};
use time::Time;

// The largest unsigned 8-bit number.
const LARGEST_8_BIT: u64 = u8::MAX as u64;

// Which numbers a field may be, and how its two bytes are read.
pub trait Field {
    ghost kind: { Kind };

    // The number in two bytes.
    fn number(w: &[u8]) -> Option<i64>
        requires { length w.now ≤ 2 }
        ensures { result ≡ two_bytes_of kind w.now };
}

// In a header a field is a signed number, so `-5` is one.
#[derive(Clone, Copy)]
pub struct Signed;

// In a raw date it is an unsigned 8-bit number, so `+5` is one and `-5` is not.
#[derive(Clone, Copy)]
pub struct Byte;

impl Field for Signed {
    ghost kind = { signed };

    fn number(w: &[u8]) -> Option<i64> {
        number::signed_number(w, Width::Bits32)
    }
}

impl Field for Byte {
    ghost kind = { byte };

    fn number(w: &[u8]) -> Option<i64> {
        let n = number::unsigned_number(w, LARGEST_8_BIT)?;
        Some(n as i64)
    }
}

// The sign of an offset, and the fields after it. The sign stands by itself, since offset 0 behind a
// `-` has the mark. That they are small enough to add up (`Small`) is no ghost field: the definition
// `fields_of` makes fields of any numbers, and has to stay.
#[derive(Clone, Copy)]
pub struct Fields {
    pub minus: bool,
    pub hours: i64,
    pub minutes: i64,
    pub seconds: i64,
}

// The fields of the usual tail, which follows the number of nearly every date: a space, a sign,
// four digits, and nothing more. Both readers read the same from it, since two digits are a field
// of either kind. The six bytes are tested without a branch between them. They are taken by their
// places in the text, as the definition `is_usual` takes them: a pattern would take them from a part of
// the text, which has to be cut off first. There is no offset if the tail is of another form.
pub fn usual_fields(s: &[u8], at: usize) -> Option<Fields>
    requires { at ≤ length s.now }
    ensures { result ≡ usual_of s.now at }
{
    if s.len() - at != 6 {
        return None;
    }
    let space = s[at];
    let sign = s[at + 1];
    let h = s[at + 2];
    let i = s[at + 3];
    let m = s[at + 4];
    let j = s[at + 5];
    if (space == b' ') & bytes::is_sign(sign) & both_digits(h, i) & both_digits(m, j) {
        let hours = two_digits(h, i);
        let minutes = two_digits(m, j);
        Some(Fields {
            minus: sign == b'-',
            hours,
            minutes,
            seconds: 0,
        })
    } else {
        None
    }
}

// The fields of the word w, if it is an offset.
#[tactic(auto, using(crate::proofs::Offsets::le_of_five_or_seven), unfolding(crate::specs::Offset::fields_of))]
pub fn parse_fields<F: Field>(w: &[u8]) -> Option<Fields>
    ensures { result ≡ fields_of F.kind w.now }
{
    if !five_or_seven(w.len()) {
        return None;
    }
    if !bytes::is_sign(w[0]) {
        return None;
    }
    let hours = parse_field::<F>(w, 1)?;
    let minutes = parse_field::<F>(w, 3)?;
    let seconds = last_field::<F>(w)?;
    Some(Fields {
        minus: w[0] == b'-',
        hours,
        minutes,
        seconds,
    })
}

#[tactic(auto, unfolding(crate::specs::Offset::five_or_seven))]
fn five_or_seven(n: usize) -> bool
    ensures { result ≡ five_or_seven n }
{
    (n == 5) | (n == 7)
}

// The field in the two bytes from `at`. Nearly all fields are two digits, which are a number of
// either kind.
fn parse_field<F: Field>(w: &[u8], at: usize) -> Option<i64>
    requires { at + 2 ≤ length w.now }
    ensures { result ≡ field_of F.kind w.now at }
{
    let tens = w[at];
    let ones = w[at + 1];
    if both_digits(tens, ones) {
        Some(two_digits(tens, ones))
    } else {
        F::number(&w[at..at + 2])
    }
}

fn both_digits(tens: u8, ones: u8) -> bool
    ensures { result ≡ (is_digit tens && is_digit ones) }
{
    bytes::is_digit(tens) & bytes::is_digit(ones)
}

// `stamps` has the same for a `u32`. One public function in `text` for two bodies of one line would be
// no plainer.
#[tactic(auto, using(text::proofs::Numbers::digit_range))]
fn two_digits(tens: u8, ones: u8) -> i64
    requires { (is_digit tens ≡ true) × (is_digit ones ≡ true) }
    ensures { result ≡ pos (two_digits tens ones) }
{
    i64::from(10 * (tens - b'0') + (ones - b'0'))
}

// The seconds. Only a word of 7 bytes has them; in a word of 5 bytes they are 0.
#[tactic(auto, unfolding(crate::specs::Offset::last_field))]
fn last_field<F: Field>(w: &[u8]) -> Option<i64>
    ensures { result ≡ last_field F.kind w.now }
{
    if w.len() == 7 {
        parse_field::<F>(w, 5)
    } else {
        Some(0)
    }
}

// The time of these seconds and fields. Both readers make their times here. It has the mark if the
// offset is 0 behind a `-`.
pub fn read_time(z: i64, f: Fields) -> Time
    requires { Small f }
    ensures { result ≡ read_time z f }
{
    let offset = seconds_of(f);
    Time::with_mark(z, offset, f.minus & (offset == 0))
}

// The sign belongs to the whole sum, not to the hours alone (RULES 5.5).
fn seconds_of(f: Fields) -> i32
    requires { Small f }
    ensures { result ≡ offset_of f }
{
    let hours = f.hours * 3600;
    let rest = f.minutes * 60 + f.seconds;
    let sum = hours + rest;
    if f.minus {
        (0 - sum) as i32
    } else {
        sum as i32
    }
}
