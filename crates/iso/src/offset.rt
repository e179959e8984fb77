// Reads an offset from UTC, in seconds (RULES 6.8). Colons are skipped as the bytes are read, and only the bytes of the fields, at most
// four, are copied, into an array with a count beside it, since nothing here has a heap. That an offset is within 362,340 stays a
// clause, as the range of a time does (clock.rt).
ghost use Rattle.std.specs.Prelude.{◌≡◌, [], ◌∷◌};
ghost use Rattle.iso.specs.Parts.{colon, without, int32};
ghost use Rattle.iso.specs.Offset.{up_to, offset_seconds, hours_minutes, iso_offset};
ghost use Rattle.iso.specs.Held.{Within};

use text::number;
use text::number::Width;

// The offset in a trimmed text: nothing, `Z`, or a sign and `HH` or `HHMM`, with colons anywhere behind it.
pub fn parse_flexible_offset(o: &[u8]) -> Option<i64>
    ensures is { result ≡ iso_offset o.now }
    ensures range { Within 362340 result }
{
    let [sign, digits @ ..] = o else {
        return Some(0);
    };
    match *sign {
        b'+' => hours_minutes(digits),
        b'-' => Some(-hours_minutes(digits)?),
        b'Z' => { if digits.is_empty() { Some(0) } else { None } }
        _ => None,
    }
}

// What follows the sign: two or four bytes besides colons. The scan ends at a fifth.
fn hours_minutes(s: &[u8]) -> Option<i64>
    ensures is { result ≡ hours_minutes (without colon s.now) }
    ensures range { Within 362340 result }
{
    let mut f: [u8; 4] = [0; 4];
    let mut n: usize = 0;
    for &b in s {
        if b == b':' {
            continue;
        }
        if n == 4 {
            return None;
        }
        f[n] = b;
        n += 1;
    }
    match n {
        2 => seconds(field(f[0], f[1], 23), Some(0)),
        4 => seconds(field(f[0], f[1], 23), field(f[2], f[3], 59)),
        _ => None,
    }
}

// Two bytes as a signed number up to the limit. It may be negative, as in `+-5`.
fn field(x: u8, y: u8, limit: i64) -> Option<i64>
    ensures is { result ≡ up_to limit (int32 (x ∷ y ∷ [])) }
    ensures range { Within 99 result }
{
    let z = number::signed_number(&[x, y], Width::Bits32)?;
    if z <= limit { Some(z) } else { None }
}

// The seconds of hours and minutes, if both were read. They are Options, as the definition
// `offset_seconds` has them.
fn seconds(h: Option<i64>, m: Option<i64>) -> Option<i64>
    requires { Within 99 h × Within 99 m }
    ensures is { result ≡ offset_seconds h m }
    ensures range { Within 362340 result }
{
    Some(h? * 3600 + m? * 60)
}
