// The three forms of a trimmed text, and the numbers in their fields (RULES 6.2 to 6.5). Whether the date exists is not asked here. A
// text that has none of the forms is refused by its first eleven bytes.
ghost use Rattle.std.specs.Prelude.{◌≡◌, true, ◌≤◌, length};
ghost use Rattle.iso.specs.Forms.{read_fields, is_separator, flexible, compact, dash_of, is_dotted, dotted, form_of};
ghost use Rattle.iso.specs.Held.{FieldsIn};

use crate::{clock, cut, offset, parts};
use text::number::Width;
use text::{number, places, trim};

// A date, which may not exist, a second of the day, an offset in seconds. That the second and the offset
// are in range stays a clause of each reader, `FieldsIn`: a ghost field would be a part of the record that
// `form_of` builds, and `form_of` may not change.
#[derive(Clone, Copy)]
pub struct Local {
    pub year: i64,
    pub month: i64,
    pub day: i64,
    pub second: u64,
    pub offset: i64,
}

// The fields of the form that the text has: at most one of the three.
pub fn parse(s: &[u8]) -> Option<Local>
    ensures is { result ≡ form_of s.now }
    ensures range { FieldsIn result }
{
    parse_iso8601_dots(s)
        .or_else(|| parse_compact_iso8601(s))
        .or_else(|| parse_flexible_iso8601(s))
}

// Dotted: ten bytes before the first space, dots at 4 and 7. All dots of the ten are read as dashes.
fn parse_iso8601_dots(s: &[u8]) -> Option<Local>
    ensures is { result ≡ dotted s.now }
    ensures range { FieldsIn result }
{
    if s.len() < 11 || places::first_place(&s[..11], b' ') != 10 || s[4] != b'.' || s[7] != b'.' {
        return None;
    }
    dashed(s)
}

// The fields of a dotted text, with each dot of its date read as a dash.
fn dashed(s: &[u8]) -> Option<Local>
    requires bytes { 11 ≤ length s.now }
    requires form { is_dotted s.now ≡ true }
    ensures is { result ≡ dotted s.now }
    ensures range { FieldsIn result }
{
    let y = [dash(s[0]), dash(s[1]), dash(s[2]), dash(s[3])];
    let m = [dash(s[5]), dash(s[6])];
    let d = [dash(s[8]), dash(s[9])];
    read_fields(&y, &m, &d, &s[11..])
}

fn dash(b: u8) -> u8
    ensures { result ≡ dash_of b }
{
    if b == b'.' { b'-' } else { b }
}

// Compact: the first `T` is at place 8.
fn parse_compact_iso8601(s: &[u8]) -> Option<Local>
    ensures is { result ≡ compact s.now }
    ensures range { FieldsIn result }
{
    if s.len() < 9 || places::first_place(&s[..9], b'T') != 8 {
        return None;
    }
    read_fields(&s[..4], parts::two(s, 4), parts::two(s, 6), &s[9..])
}

// Flexible: dashes at 4 and 7, `T` or a space at 10.
fn parse_flexible_iso8601(s: &[u8]) -> Option<Local>
    ensures is { result ≡ flexible s.now }
    ensures range { FieldsIn result }
{
    if s.len() < 11 || s[4] != b'-' || s[7] != b'-' || !is_separator(s[10]) {
        return None;
    }
    read_fields(&s[..4], parts::two(s, 5), parts::two(s, 8), &s[11..])
}

fn is_separator(b: u8) -> bool
    ensures { result ≡ is_separator b }
{
    (b == b'T') | (b == b' ')
}

// Reads year, month, day, and from s, what follows the `T` or space, time and offset.
fn read_fields(y: &[u8], m: &[u8], d: &[u8], s: &[u8]) -> Option<Local>
    ensures is { result ≡ read_fields y.now m.now d.now s.now }
    ensures range { FieldsIn result }
{
    let year = number::signed_number(y, Width::Bits32)?;
    let month = number::signed_number(m, Width::Bits32)?;
    let day = number::signed_number(d, Width::Bits32)?;
    let r = trim::trimmed(s);
    let i = cut::split_time_and_offset(r);
    let second = clock::parse_time_component(trim::trimmed(places::before(&r[..i], b'.')))?;
    let offset = offset::parse_flexible_offset(trim::trimmed(&r[i..]))?;
    Some(Local {
        year,
        month,
        day,
        second,
        offset,
    })
}
