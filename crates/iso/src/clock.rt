// Reads a time of day as a second of the day (RULES 6.7). That it is at most 86,399 stays a clause: a type
// for such a number would be no plainer, as its only reader puts the number into a `Local` at once.
ghost use Rattle.std.specs.Prelude.{◌≡◌, ◌∷◌};
ghost use Rattle.text.specs.Number.{AtMost};
ghost use Rattle.text.specs.Words.{pieces};
ghost use Rattle.iso.specs.Clock.{clock as clock_of, is_colon, colon_time, plain_time, iso_time};

use crate::parts;
use text::{number, places};

// The time in a trimmed text: `HH:MM:SS`, `HH:MM`, `HHMMSS`, `HHMM` or `HH`.
pub fn parse_time_component(t: &[u8]) -> Option<u64>
    ensures is { result ≡ iso_time t.now }
    ensures range { AtMost 86399 result }
{
    let i = places::first_place(t, b':');
    if i < t.len() {
        colon_time(&t[..i], &t[i + 1..])
    } else {
        plain_time(t)
    }
}

// The hour h, and s, what follows its colon. Parts beyond the third are ignored, also if they are empty.
fn colon_time(h: &[u8], s: &[u8]) -> Option<u64>
    ensures is { result ≡ colon_time (h.now ∷ pieces is_colon s.now) }
    ensures range { AtMost 86399 result }
{
    let i = places::first_place(s, b':');
    if i < s.len() {
        clock(h, &s[..i], places::before(&s[i + 1..], b':'))
    } else {
        clock(h, s, b"0")
    }
}

// One to three fields of two bytes each.
fn plain_time(t: &[u8]) -> Option<u64>
    ensures is { result ≡ plain_time t.now }
    ensures range { AtMost 86399 result }
{
    match t.len() {
        2 => clock(parts::two(t, 0), b"0", b"0"),
        4 => clock(parts::two(t, 0), parts::two(t, 2), b"0"),
        6 => clock(parts::two(t, 0), parts::two(t, 2), parts::two(t, 4)),
        _ => None,
    }
}

// The second of the day of an hour up to 23, a minute and a second up to 59.
fn clock(h: &[u8], m: &[u8], s: &[u8]) -> Option<u64>
    ensures is { result ≡ clock_of h.now m.now s.now }
    ensures range { AtMost 86399 result }
{
    let hour = number::unsigned_number(h, 23)?;
    let minute = number::unsigned_number(m, 59)?;
    let second = number::unsigned_number(s, 59)?;
    Some(hour * 3600 + minute * 60 + second)
}
