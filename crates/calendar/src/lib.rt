// The calendar of ISO 8601: days, months and dates (RULES 3).
//
// Everything is counted from 1 January of year -10000. That is day 0, of month 0; 1 January 1970 is
// day 4,371,953, of month 143,640. Days end with year 9999, before day 7,304,850. No function here takes
// a signed number: a caller with a signed year adds `YEAR_0` to it, and 4,371,953 to a signed day.
//
// Every answer comes from `MonthTable`, which gives the first day of each month: `MonthTable::whole()` by
// the table, `MonthTable::none()` by the leap rule alone. The answers are the same; callers that make many
// calls take the table.
#![tactic(auto)]

mod table;

ghost use Rattle.std.specs.Prelude.{◌≡◌, ◌+◌, ◌*◌, ◌≤◌, ◌<◌};
ghost use Rattle.calendar.specs.Calendar.{first_day, month_length};
ghost use Rattle.calendar.specs.Dates.{date_of, day_number, Below};
ghost use Rattle.calendar.specs.Back.{back_of};

pub use table::{MonthTable, months};

// The months that are counted, up to the end of year 9999, and their days.
pub const MONTHS_COUNTED: u64 = 240000;

pub const DAYS_COUNTED: u64 = 7304850;

pub const SECONDS_PER_DAY: u64 = 86400;

// One cycle of four hundred years, after which the calendar repeats.
const MONTHS_PER_CYCLE: u64 = 4800;

const DAYS_PER_CYCLE: u64 = 146097;

// Years are counted from -10000, so year 10000, the first one that is not counted, is 20000.
const YEARS_COUNTED: u64 = 20000;

// For callers with a signed year: the years that they take, and how year 0 is counted from -10000.
pub const LEAST_YEAR: i64 = -9999;

pub const MOST_YEAR: i64 = 9999;

pub const YEAR_0: i64 = 10000;

// A month, and a day of it from 0.
#[derive(Clone, Copy)]
pub struct Date {
    pub month: u64,
    pub day: u64,
}

impl<'a> MonthTable<'a> {
    // The first day of month m: the days of the whole cycles before it, and its first day in its own cycle.
    pub fn first_day(self, m: u64) -> u64
        requires month { m ≤ 240000 }
        ensures is { result ≡ first_day m }
        ensures range { result ≤ 7304850 }
    {
        m / MONTHS_PER_CYCLE * DAYS_PER_CYCLE + self.first_day_in_cycle(m % MONTHS_PER_CYCLE)
    }

    // The first day of month k of a cycle: from the table as far as it goes, beyond it by the leap rule.
    fn first_day_in_cycle(self, k: u64) -> u64
        requires month { k < 4800 }
        ensures { result ≡ first_day k }
    {
        match self.table.get(k as usize) {
            Some(&day) => u64::from(day),
            None => by_rule(k),
        }
    }

    // The length of month m: the days from its first day to that of the next month.
    pub fn month_length(self, m: u64) -> u64
        requires month { m < 240000 }
        ensures is { result ≡ month_length m }
        ensures least { 28 ≤ result }
        ensures most { result ≤ 31 }
    {
        self.first_day(m + 1) - self.first_day(m)
    }

    // The date of day d. A month has 48699 / 1600 days on average, and no first day is more than three
    // days away from what that gives. So the month of d + 3 by the average is d's month or the one after.
    pub fn date_of(self, d: u64) -> Date
        requires day { d < 7304850 }
        ensures is { result ≡ date_of d }
        ensures months { result.month < 240000 }
        ensures days { result.day < 31 }
    {
        let e = (d + 3) * 1600 / 48699;
        let f = self.first_day(e);
        if d < f {
            let p = self.first_day(e - 1);
            Date {
                month: e - 1,
                day: d - p,
            }
        } else {
            Date {
                month: e,
                day: d - f,
            }
        }
    }

    // The day of a date. The month must have such a day.
    pub fn day_of(self, x: Date) -> u64
        requires month { x.month < 240000 }
        requires day { x.day < month_length x.month }
        ensures is { result ≡ first_day x.month + x.day }
        ensures range { result < 7304850 }
    {
        self.first_day(x.month) + x.day
    }

    // The day of year y (counted from -10000), month m from 1 and day k from 1. `None` if no such date
    // exists, as 29 February 1900, or if it lies beyond year 9999.
    pub fn day_number(self, y: u64, m: u64, k: u64) -> Option<u64>
        ensures is { result ≡ day_number y m k }
        ensures range { Below 7304850 result }
    {
        if YEARS_COUNTED <= y || m < 1 || 12 < m || k < 1 {
            return None;
        }
        let n = y * 12 + (m - 1);
        let f = self.first_day(n);
        if self.first_day(n + 1) - f < k {
            return None;
        }
        Some(f + (k - 1))
    }

    // A local time, in seconds from day 0, n months earlier: on the same day of the month at the same
    // clock time. Not 30 April for 31 May: surplus days run on into the next month, to 1 May. `None` if
    // that is before month 0. The result is never later than the time it starts from.
    pub fn months_back(self, local: u64, n: u64) -> Option<u64>
        requires time { local < 7304850 * 86400 }
        ensures is { result ≡ back_of local n }
        ensures range { Below (local + 1) result }
    {
        let x = self.date_of(local / SECONDS_PER_DAY);
        let month = x.month.checked_sub(n)?;
        Some((self.first_day(month) + x.day) * SECONDS_PER_DAY + local % SECONDS_PER_DAY)
    }
}

// The same by the leap rule alone, where there is no table. Years are counted from the March of 400
// years before, so that a leap day is the last of its year: y years have 365 days each and one more for
// each leap year, and the first m months from March on have (153 * m + 2) / 5. From that March to the
// cycle's first day are 146,037 days.
fn by_rule(k: u64) -> u64
    requires { k < 4800 }
    ensures { result ≡ first_day k }
{
    let j = k + 4798;
    let y = j / 12;
    let m = j % 12;
    y * 365 + y / 4 - y / 100 + y / 400 + (153 * m + 2) / 5 - 146037
}
