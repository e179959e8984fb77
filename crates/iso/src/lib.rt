// Reads dates as ISO 8601 writes them and people paste them (RULES 6): `2008.02.14 20:30:45 -0500`,
// `20080214T203045Z`, `2008-02-14 20:30:45 +01:00`. Every text has an answer: a time; NotAscii (1) for a
// byte of 128 or more; otherwise Form (2), also for a date that does not exist and for an instant out
// of range.
//
// `parse_git_date_format` uses no table of months; `parse_git_date_format_with` borrows one, for
// callers that read many texts.
#![tactic(auto)]

mod clock;
mod cut;
mod forms;
mod offset;
mod parts;

ghost use Rattle.std.specs.Prelude.{◌≡◌, ◌≤◌, pos, neg_ℤ};
ghost use Rattle.ints.specs.Range.{In};
ghost use Rattle.calendar.specs.Dates.{Below};
ghost use Rattle.iso.specs.Iso.{day_of, moment_of, iso_of};

use calendar::{LEAST_YEAR, MOST_YEAR, MonthTable, SECONDS_PER_DAY, YEAR_0};
use time::{Refusal, Time, range};

// A date in any of the three forms.
pub fn parse_git_date_format(s: &[u8]) -> Result<Time, Refusal>
    ensures { result ≡ iso_of s.now }
{
    parse_git_date_format_with(MonthTable::none(), s)
}

// The same, with a borrowed table of months: the whole table, or any leading part of it.
pub fn parse_git_date_format_with(months: MonthTable, s: &[u8]) -> Result<Time, Refusal>
    ensures { result ≡ iso_of s.now }
{
    if !text::bytes::is_ascii(s) {
        return Err(Refusal::NotAscii);
    }
    let f = forms::parse(text::trim::trimmed(s)).ok_or(Refusal::Form)?;
    moment(date(months, f.year, f.month, f.day), f.second, f.offset)
}

// The day of a date, if the date exists and its year is one of those that are read. The year's cast comes
// after the tests of its limits, so that `try_from` would be no plainer there.
fn date(months: MonthTable, y: i64, m: i64, d: i64) -> Option<u64>
    ensures is { result ≡ day_of y m d }
    ensures range { Below 7304850 result }
{
    let month = u64::try_from(m).ok()?;
    let day = u64::try_from(d).ok()?;
    if y < LEAST_YEAR || MOST_YEAR < y {
        return None;
    }
    months.day_number((y + YEAR_0) as u64, month, day)
}

// The time at a second of a day, by the clock of an offset. The day is an Option, as the definition
// `moment_of` has it.
fn moment(d: Option<u64>, second: u64, offset: i64) -> Result<Time, Refusal>
    requires day { Below 7304850 d }
    requires second { second ≤ 86399 }
    requires offset { In (neg_ℤ (pos 362340)) (pos 362340) offset }
    ensures { result ≡ moment_of d second offset }
{
    let day = d.ok_or(Refusal::Form)?;
    let z = (day * SECONDS_PER_DAY + second) as i64 - range::SECOND_OF_1970 - offset;
    if range::seconds_in_range(z) {
        Ok(Time::new(z, offset as i32))
    } else {
        Err(Refusal::Form)
    }
}
