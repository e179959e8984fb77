// The page of a month (RULES 14.8), as bytes: a title, the names of the days, and a row for each week
// with its ISO week number in front.
//
// A page is written from its end to its front into an array that is long enough for every page, so each
// `put_` method puts something in front of what is written. Then its length is known, and it is copied to
// the caller's room if it fits.
ghost use Rattle.std.specs.Prelude.{◌≡◌, [], ◌++◌, ◌+◌, ◌*◌, ◌-◌, ◌/◌, ◌≤◌, length, replicate};
ghost use Rattle.text.specs.Decimal.{signed};
ghost use Rattle.text.specs.Room.{fits, room_after};
ghost use Rattle.time.specs.Answers.{is_written};
ghost use Rattle.monthstrip.specs.Page.{blank, tens as tens_of, ones as ones_of, cell, cells, row, rows, month_name, title, page_of, page_bytes, if_fits, page_written};

use std::marker::Model;
use strip::Strip;
use text::scan::Space;
use text::{copy, decimal, walker};
use time::Refusal;

// The columns of a page.
const COLUMNS: usize = 23;

const DAYS_PER_WEEK: usize = 7;

// Enough for every page: six rows and the line of day names, 24 bytes each, and a title of 31 bytes at
// most. September has 9 letters, a year of 64 bits has 20 bytes, and there is a blank and a newline.
const PAGE_LENGTH: usize = 199;

// Writes the page of a month to the front of `room`. The bytes beyond it stay as they were. A year that
// is not -9999 to 9999 or a month that is not 1 to 12 is refused by 6, a room that is shorter than the
// page by 8. A refusal changes nothing in the room. It reads the whole month table.
pub fn write_page(year: i64, month: i64, room: &mut [u8]) -> Result<usize, Refusal>
    ensures value { result ≡ page_written year month room.old }
    ensures room_after { room.new ≡ room_after (is_written (page_written year month room.old)) (page_bytes year month) room.old }
{
    let answered = strip::of_month(year, month);
    if answered.number != 0 {
        return Err(Refusal::Range);
    }
    let mut page = Page::empty();
    page.put_strip(year, decimal::magnitude(month), answered.strip);
    write_whole(page.written(), room)
}

// Writes a page that is ready to the front of `room`, if it fits.
fn write_whole(page: &[u8], room: &mut [u8]) -> Result<usize, Refusal>
    ensures value { result ≡ if_fits page.now room.old }
    ensures room_after { room.new ≡ room_after (fits page.now room.old) page.now room.old }
{
    if room.len() < page.len() {
        return Err(Refusal::Room);
    }
    copy::put_part(page, 0, room);
    Ok(page.len())
}

// A page as far as it is written: the bytes from `start` on. An array, since nothing here is on the heap.
#[derive(Drop)]
struct Page {
    bytes: [u8; 199],
    start: usize,
}

impl Model for Page {
    ghost use Rattle.std.specs.Prelude.{ℕ, List, ◌≤◌, drop};

    ghost Value = { List ℕ };

    ghost view = { λ p. drop p.start p.bytes };

    ghost invariant = { λ p. p.start ≤ 199 };
}

impl Page {
    fn empty() -> Page
        ensures { result ≡ [] }
    {
        Page {
            bytes: [0; PAGE_LENGTH],
            start: PAGE_LENGTH,
        }
    }

    fn written(&self) -> &[u8]
        ensures { result.now ≡ self.now }
    {
        &self.bytes[self.start..]
    }

    fn len(&self) -> usize
        ensures { result ≡ length self.now }
    {
        PAGE_LENGTH - self.start
    }

    fn put_text(&mut self, text: &[u8])
        requires { length text.now + length self.old ≤ 199 }
        ensures { self.new ≡ text.now ++ self.old }
    {
        self.start -= text.len();
        copy::put_part(text, self.start, &mut self.bytes);
    }

    // The page of a strip. That a month is 1 or more stays a clause: a `NonZeroU64` would be made and taken
    // apart once, for three private methods.
    fn put_strip(&mut self, year: i64, month: u64, s: Strip)
        requires month { 1 ≤ month }
        requires empty { self.old ≡ [] }
        ensures { self.new ≡ page_of year month s }
    {
        self.put_rows(&s.weeks, &s.days);
        self.put_text(b"   Mo Tu We Th Fr Sa Su\n");
        self.put_title(year, month);
    }

    // The month and the year, in the middle of the columns, and a newline.
    fn put_title(&mut self, year: i64, month: u64)
        requires month { 1 ≤ month }
        requires room { 31 + length self.old ≤ 199 }
        ensures { self.new ≡ title year month ++ self.old }
    {
        let below = self.len();
        self.put_text(b"\n");
        self.put_year(year);
        self.put_text(b" ");
        self.put_name(month);
        let width = self.len() - below - 1;
        self.put_blanks(margin(width));
    }

    // The name of a month.
    fn put_name(&mut self, month: u64)
        requires month { 1 ≤ month }
        requires room { 9 + length self.old ≤ 199 }
        ensures name { self.new ≡ month_name month ++ self.old }
        ensures length { length (month_name month) ≤ 9 }
    {
        let name = walker::nth_word::<Space>(
            b"January February March April May June July August September October November December",
            (month - 1) as usize,
        );
        self.put_text(name);
    }

    // A year in plain decimal.
    fn put_year(&mut self, year: i64)
        requires { 20 + length self.old ≤ 199 }
        ensures year { self.new ≡ signed year ++ self.old }
        ensures length { length (signed year) ≤ 20 }
    {
        self.start = decimal::put_signed(year, self.start, &mut self.bytes);
    }

    // The rows of the weeks, each with its seven days, from the last row to the first.
    fn put_rows(&mut self, weeks: &[u8], days: &[u8])
        requires days { length days.now ≡ 7 * length weeks.now }
        requires room { 24 * length weeks.now + length self.old ≤ 199 }
        ensures rows { self.new ≡ rows weeks.now days.now ++ self.old }
        ensures length { length self.new ≤ 24 * length weeks.now + length self.old }
    {
        for i in (0..weeks.len()).rev() {
            let from = DAYS_PER_WEEK * i;
            self.put_row(weeks[i], &days[from..from + DAYS_PER_WEEK]);
        }
    }

    // The row of a week, unless it is week 0.
    #[tactic(auto, using(crate::proofs::Pages::row_put), unfolding(crate::specs::Page::row))]
    fn put_row(&mut self, week: u8, days: &[u8])
        requires days { length days.now ≡ 7 }
        requires room { 24 + length self.old ≤ 199 }
        ensures row { self.new ≡ row week days.now ++ self.old }
        ensures length { length self.new ≤ 24 + length self.old }
    {
        if week == 0 {
            return;
        }
        self.put_text(b"\n");
        self.put_cells(days);
        self.put_cell(week);
    }

    // A blank and two columns for each day, from the last day to the first.
    fn put_cells(&mut self, days: &[u8])
        requires { 3 * length days.now + length self.old ≤ 199 }
        ensures cells { self.new ≡ cells days.now ++ self.old }
        ensures length { length self.new ≡ 3 * length days.now + length self.old }
    {
        for i in (0..days.len()).rev() {
            self.put_cell(days[i]);
            self.put_text(b" ");
        }
    }

    // A number in two columns.
    fn put_cell(&mut self, n: u8)
        requires { 2 + length self.old ≤ 199 }
        ensures { self.new ≡ cell n ++ self.old }
    {
        self.put_text(&[tens(n), ones(n)]);
    }

    fn put_blanks(&mut self, n: usize)
        requires { n + length self.old ≤ 199 }
        ensures { self.new ≡ replicate n blank ++ self.old }
    {
        for _ in 0..n {
            self.put_text(b" ");
        }
    }
}

// How many blanks come in front of a title of this width.
fn margin(width: usize) -> usize
    ensures { result ≡ (23 - width) / 2 }
{
    COLUMNS.saturating_sub(width) / 2
}

// The first column of a number: its tens digit, or a blank below 10.
#[tactic(auto, unfolding(crate::specs::Page::tens))]
fn tens(n: u8) -> u8
    ensures { result ≡ tens_of n }
{
    if n < 10 { b' ' } else { b'0' + n / 10 % 10 }
}

// The second column: its last digit, or a blank for 0.
#[tactic(auto, unfolding(crate::specs::Page::ones))]
fn ones(n: u8) -> u8
    ensures { result ≡ ones_of n }
{
    if n == 0 { b' ' } else { b'0' + n % 10 }
}
