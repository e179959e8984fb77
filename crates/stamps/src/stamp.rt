// Numbers as the header writer prints them, and stamps (RULES 13.5 and 13.6), read from a place of a
// text that may go on behind them. Each byte is read once: a number is printed plainly exactly if it
// has as many bytes as its plain decimal, so nothing is written and compared.
ghost use Rattle.std.specs.Prelude.{◌≡◌, true, ◌≤◌, ◌<◌, drop};
ghost use Rattle.text.specs.Bytes.{is_digit};
ghost use Rattle.text.specs.Places.{before};
ghost use Rattle.text.specs.Lines.{newline};
ghost use Rattle.text.specs.Number.{half_of};
ghost use Rattle.header.specs.Held.{two_digits};
ghost use Rattle.stamps.specs.Stamps.{stamp_of};
ghost use Rattle.stamps.specs.Held.{OpensPrinted, if_width, tail_of, four_digits, clock_size, tail_with};

use crate::scan;
use text::number::Width;
use text::{bytes, decimal, number, places};
use time::Time;

const SECONDS_PER_HOUR: u32 = 3600;

pub const SECONDS_PER_MINUTE: u32 = 60;

// How many bytes follow the seconds of a stamp: a space, a sign and four digits.
const TAIL: usize = 6;

// The tail of a stamp: its offset, and the mark of `-0000`, as a `Time` has them.
#[derive(Clone, Copy)]
struct Tail {
    offset: i32,
    mark: bool,
}

// A number that is printed at a place of a text, and the place past its sign and its digits. The place is
// given also where these are no printed number, so it is no part of the Option.
#[derive(Clone, Copy)]
pub struct PrintedNumber {
    pub number: Option<i64>,
    pub end: usize,
}

// The number of a width that is printed from `at` on, as the header writer prints seconds: without
// `+` and without zeros in front, and 0 without a sign.
pub fn printed_at(s: &[u8], at: usize, width: Width) -> PrintedNumber
    ensures { OpensPrinted (half_of width) (drop at s.now) at result }
{
    let read = number::leading_integer(s, at, width);
    PrintedNumber {
        number: if_width(read.number.ok(), read.end - at),
        end: read.end,
    }
}

// The number, if its plain decimal takes this many bytes.
fn if_width(n: Option<i64>, width: usize) -> Option<i64>
    ensures { result ≡ if_width n width }
{
    let z = n?;
    if decimal::signed_width(z) == width {
        Some(z)
    } else {
        None
    }
}

// The stamp from `at` up to the end of its line.
pub fn stamp_at(s: &[u8], at: usize) -> Option<Time>
    ensures { result ≡ stamp_of (before newline (drop at s.now)) }
{
    let seconds = printed_at(s, at, Width::Bits64);
    let z = seconds.number?;
    let tail = tail_at(s, seconds.end)?;
    Some(Time::with_mark(z, tail.offset, tail.mark))
}

// The stamp's tail at a place: a space, a sign, two digits of hours, two of minutes, which are below
// 60, and the end of the line.
fn tail_at(s: &[u8], at: usize) -> Option<Tail>
    ensures { result ≡ tail_of (drop at s.now) }
{
    let &[space, sign, h, hh, m, mm, ..] = places::from(s, at) else {
        return None;
    };
    if (space == b' ')
        & bytes::is_sign(sign)
        & are_digits(h, hh, m, mm)
        & (m < b'6')
        & scan::ends_at(s, at + TAIL)
    {
        Some(with_sign(sign == b'-', clock_size(h, hh, m, mm)))
    } else {
        None
    }
}

fn are_digits(h: u8, hh: u8, m: u8, mm: u8) -> bool
    ensures { result ≡ four_digits h hh m mm }
{
    (bytes::is_digit(h) & bytes::is_digit(hh)) & (bytes::is_digit(m) & bytes::is_digit(mm))
}

// Two digits of hours and two of minutes, in seconds: at most 99 hours and 99 minutes.
fn clock_size(h: u8, hh: u8, m: u8, mm: u8) -> u32
    requires { four_digits h hh m mm ≡ true }
    ensures { (result ≡ clock_size h hh m mm) × (result ≤ 362340) }
{
    two_digits(h, hh) * SECONDS_PER_HOUR + two_digits(m, mm) * SECONDS_PER_MINUTE
}

// `header` has the same for an `i64`. One public function in `text` for two bodies of one line would be no
// plainer.
fn two_digits(tens: u8, ones: u8) -> u32
    requires { (is_digit tens ≡ true) × (is_digit ones ≡ true) }
    ensures { (result ≡ two_digits tens ones) × (result < 100) }
{
    u32::from(10 * (tens - b'0') + (ones - b'0'))
}

// The tail with an offset of this size. Behind `-`, offset 0 has the mark.
fn with_sign(minus: bool, size: u32) -> Tail
    requires { size ≤ 362340 }
    ensures { result ≡ tail_with minus size }
{
    let offset = size as i32;
    if minus {
        Tail {
            offset: -offset,
            mark: size == 0,
        }
    } else {
        Tail {
            offset,
            mark: false,
        }
    }
}
