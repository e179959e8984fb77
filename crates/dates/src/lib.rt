// Reads a date in any form, as Git writes it or people type it: the forms are tried one after the
// other (RULES 8).
#![tactic(auto)]

ghost use Rattle.std.specs.Prelude.{◌≡◌};
ghost use Rattle.header.specs.Raw.{rule1, limits_of};
ghost use Rattle.relative.specs.Relative.{max_pairs};
ghost use Rattle.dates.specs.Any.{settles as settles_of, is_settled, numbered as numbered_of, marked_of, at_of, any_of};

use calendar::MonthTable;
use header::raw;
use header::raw::Rule;
use text::number;
use text::number::Width;
use time::{Refusal, Time};

// A plain number below this is not read as seconds: `20080214` looks like a date.
const LEAST_PLAIN: i64 = 100000000;

// Reads a date in any form, raw dates by rule 1. Only a relative date uses the current time.
pub fn parse(s: &[u8], current: Option<Time>) -> Result<Time, Refusal>
    ensures { result ≡ any_of max_pairs rule1 s.now current }
{
    parse_with(MonthTable::none(), s, current)
}

// The same with a table of months, or a leading part of it, for callers that read many texts.
pub fn parse_with(months: MonthTable, s: &[u8], current: Option<Time>) -> Result<Time, Refusal>
    ensures { result ≡ any_of max_pairs rule1 s.now current }
{
    parse_by_with(months, s, Rule::One, current)
}

// Reads a date in any form. Raw dates are read by the rule that the caller names.
pub fn parse_by(s: &[u8], rule: Rule, current: Option<Time>) -> Result<Time, Refusal>
    ensures { result ≡ any_of max_pairs (limits_of rule) s.now current }
{
    parse_by_with(MonthTable::none(), s, rule, current)
}

// The same with a table of months, as in `parse_with`. The steps are those of the definition, in its
// order. No test for bytes of 128 or more is needed here, because each reader below makes its own.
// Each step is tested by itself, without `?` or `or_else`: a time ends the search and so do most
// refusals, and only after 2 and 11 the next form is tried.
//
// `&*s` is the same text, and `months` the same table. Passed on so, they are put in memory only where
// a reader gets them by way of memory, and not before plain seconds are read (docs/SPEED.md).
#[tactic(auto, using(crate::proofs::Steps::any_of_steps))]
pub fn parse_by_with(
    months: MonthTable,
    s: &[u8],
    rule: Rule,
    current: Option<Time>,
) -> Result<Time, Refusal>
    ensures { result ≡ any_of max_pairs (limits_of rule) s.now current }
{
    let marked = parse_at(&*s, rule);
    if is_settled(marked) {
        return marked;
    }
    let plain = numbered(LEAST_PLAIN, number::signed_number(&*s, Width::Bits64));
    if is_settled(plain) {
        return plain;
    }
    let iso = iso::parse_git_date_format_with(months, &*s);
    if is_settled(iso) {
        return iso;
    }
    let relative = relative::parse_with(months, &*s, current);
    if is_settled(relative) {
        return relative;
    }
    raw::parse_raw_by(&*s, rule)
}

// Reads a text that starts with `@`. Any other is refused by 2.
#[tactic(auto, unfolding(crate::specs::Any::at_of))]
fn parse_at(s: &[u8], rule: Rule) -> Result<Time, Refusal>
    ensures { result ≡ at_of (limits_of rule) s.now }
{
    let [b'@', rest @ ..] = s else {
        return Err(Refusal::Form);
    };
    parse_marked(rest, rule)
}

// Reads what follows `@`: as a raw date, or else as any number of 64 signed bits. The answer is taken
// apart and made anew: passed on whole, it would be copied by way of memory, byte by byte where a time
// has bytes that no field uses.
#[tactic(auto, unfolding(crate::specs::Any::marked_of, crate::specs::Any::number_from))]
fn parse_marked(s: &[u8], rule: Rule) -> Result<Time, Refusal>
    ensures { result ≡ marked_of (limits_of rule) s.now }
{
    match raw::parse_raw_by(s, rule) {
        Ok(t) => Ok(Time::with_mark(t.seconds, t.offset, t.mark)),
        Err(r) if settles(r) => Err(r),
        Err(_) => numbered(i64::MIN, number::signed_number(s, Width::Bits64)),
    }
}

// A number of at least `least`, as seconds at offset 0. Any other number is refused by 2.
fn numbered(least: i64, n: Option<i64>) -> Result<Time, Refusal>
    ensures { result ≡ numbered_of least n }
{
    match n {
        Some(z) if least <= z => Ok(Time::new(z, 0)),
        _ => Err(Refusal::Form),
    }
}

// Whether an answer ends the search, so that no further form is tried.
fn is_settled(a: Result<Time, Refusal>) -> bool
    ensures { result ≡ is_settled a }
{
    match a {
        Ok(_) => true,
        Err(r) => settles(r),
    }
}

// Whether a refusal ends the search: every one but 2 and 11, after which the next form is tried. No
// reader answers 7, 8, 10 or 12.
fn settles(r: Refusal) -> bool
    ensures { result ≡ settles_of r }
{
    !matches!(r, Refusal::Form | Refusal::TooLarge)
}
