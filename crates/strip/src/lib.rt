// A month as a calendar shows it (RULES 14): its length, the weekday of its first day, and six rows of
// seven days, each row with the number of its ISO week. Rows begin on Monday.
//
// Months and days are counted as in `calendar`: from January, and from 1 January, of year -10000. All
// first days come from `MonthTable::first_day` of `calendar`, which reads the month table that relative
// dates read.
#![tactic(auto)]

pub mod write;

ghost use Rattle.std.specs.Prelude.{◌≡◌, ◌+◌, ◌≤◌, ◌<◌};
ghost use Rattle.strip.specs.Weeks.{weekday, week};
ghost use Rattle.strip.specs.Strip.{along, month_in, month_strip, no_strip, strip_of};
ghost use Rattle.strip.specs.Held.{HasStrip, number_from, week_from};

use calendar::{LEAST_YEAR, MOST_YEAR, MonthTable, YEAR_0};
use time::Refusal;

// Months are counted from 1 by callers.
const FIRST_MONTH: i64 = 1;

const LAST_MONTH: i64 = 12;

const MONTHS_PER_YEAR: u64 = 12;

const DAYS_PER_WEEK: u64 = 7;

// Six rows of seven days.
const ROWS: usize = 6;

const PLACES: usize = 42;

// Weekdays go round by seven. Day 0 comes five days after a Monday; so 1 January 1970, which is day
// 4,371,953, is a Thursday.
const DAY_0_AFTER_MONDAY: u64 = 5;

// From a Monday to the Thursday of its week.
const MONDAY_TO_THURSDAY: u64 = 3;

// A month's strip. Weekdays are 1 for Monday to 7 for Sunday. Row r of the days is at places 7 * r to
// 7 * r + 6, Monday first. A place of another month has day 0, and a row with no day of this month has
// week 0. Only the last two rows can be such rows. They are no Options: C gets these bytes (RULES 14.7), and
// the definition `month_strip` has 0.
#[derive(Clone, Copy)]
pub struct Strip {
    pub length: u8,
    pub weekday: u8,
    pub weeks: [u8; 6],
    pub days: [u8; 42],
}

// A strip and the number of the answer: 0; or 6 if there is no such month, and then all of the strip is
// 0. It is no `Result`, since RULES 14.6 and the theorem `strip_refused` say that a strip comes back
// with the 6, all 0.
#[derive(Clone, Copy)]
pub struct Answered {
    pub number: u8,
    pub strip: Strip,
}

// The strip of a month. It is refused by 6 if the year is not -9999 to 9999 or the month not 1 to 12.
// It reads the whole month table. Year and month stay two parameters: these are public
// functions, which C and docs/ call so.
pub fn of_month(year: i64, month: i64) -> Answered
    ensures { result ≡ strip_of year month }
{
    of_month_with(MonthTable::whole(), year, month)
}

// The same with a borrowed table of months, for many calls: the whole table, or any leading part of it.
pub fn of_month_with(months: MonthTable, year: i64, month: i64) -> Answered
    ensures { result ≡ strip_of year month }
{
    match month_of(year, month) {
        Some(m) => Answered {
            number: 0,
            strip: month_strip(months, m),
        },
        None => Answered {
            number: u8::from(Refusal::Range),
            strip: no_strip(),
        },
    }
}

// A month, counted from January of year -10000.
pub(crate) fn month_of(year: i64, month: i64) -> Option<u64>
    ensures is { result ≡ month_in year month }
    ensures range { HasStrip result }
{
    let is_year = (LEAST_YEAR <= year) & (year <= MOST_YEAR);
    let is_month = (FIRST_MONTH <= month) & (month <= LAST_MONTH);
    if is_year & is_month {
        Some((year + YEAR_0) as u64 * MONTHS_PER_YEAR + (month as u64 - 1))
    } else {
        None
    }
}

// The strip of a refusal.
#[tactic(auto, unfolding(crate::specs::Strip::no_strip))]
fn no_strip() -> Strip
    ensures { result ≡ no_strip }
{
    Strip {
        length: 0,
        weekday: 0,
        weeks: [0; 6],
        days: [0; 42],
    }
}

// The strip of month m, of the years -9999 to 9999.
pub(crate) fn month_strip(months: MonthTable, m: u64) -> Strip
    requires month { (12 ≤ m) × (m < 240000) }
    ensures { result ≡ month_strip m }
{
    let first = months.first_day(m);
    let end = months.first_day(m + 1);
    let before = (first + DAY_0_AFTER_MONDAY) % DAYS_PER_WEEK;
    let length = end - first;
    Strip {
        length: length as u8,
        weekday: (before + 1) as u8,
        weeks: weeks_of(months, first - before, end),
        days: days_of(before as usize, length as usize),
    }
}

// The weeks of the rows that begin on Monday `start` or later and before `end`, which is the first day
// of the next month. The other rows have week 0.
fn weeks_of(months: MonthTable, start: u64, end: u64) -> [u8; 6]
    requires monday { weekday start ≡ 1 }
    requires start { start ≤ end }
    requires end { (end ≤ start + 37) × (end ≤ 7304850) }
    ensures { result ≡ along (week_from start end) 6 0 }
{
    let mut weeks = [0; 6];
    for row in 0..ROWS {
        let monday = start + row as u64 * DAYS_PER_WEEK;
        if monday < end {
            weeks[row] = week_of(months, monday + MONDAY_TO_THURSDAY);
        }
    }
    weeks
}

// The week of a Thursday: how many Thursdays of its year there are up to it.
fn week_of(months: MonthTable, thursday: u64) -> u8
    requires thursday { weekday thursday ≡ 4 }
    requires day { thursday < 7304850 }
    ensures { result ≡ week thursday }
{
    let date = months.date_of(thursday);
    let january = date.month / MONTHS_PER_YEAR * MONTHS_PER_YEAR;
    let new_year = months.first_day(january);
    ((thursday - new_year) / DAYS_PER_WEEK + 1) as u8
}

// The day numbers of a month of this length, whose first day has `before` days of its week before it.
fn days_of(before: usize, length: usize) -> [u8; 42]
    requires { length ≤ 31 }
    ensures { result ≡ along (number_from before length) 42 0 }
{
    let mut days = [0; 42];
    for place in 0..PLACES {
        days[place] = number_at(before, length, place);
    }
    days
}

// The number at one place: 0 before the month's first day and after its last.
#[tactic(auto, unfolding(crate::specs::Held::number_from))]
fn number_at(before: usize, length: usize, place: usize) -> u8
    requires { length ≤ 31 }
    ensures { result ≡ number_from before length place }
{
    if before <= place && place - before < length {
        (place - before + 1) as u8
    } else {
        0
    }
}
