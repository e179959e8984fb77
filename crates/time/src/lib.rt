// Times (RULES 1.4), what readers and writers return (RULES 2), and the two writers (RULES 9). Seconds
// and offset may have any value that their width holds. Only calendar arithmetic needs the smaller
// range of the module `range`.
#![tactic(auto)]

pub mod buf;
pub mod clock;
mod format;
pub mod range;
mod write;

ghost use Rattle.std.specs.Prelude.{◌≡◌, ◌≤◌, ◌<◌, length};
ghost use Rattle.text.specs.Decimal.{decimal as decimal_of};
ghost use Rattle.text.specs.Room.{room_after};
ghost use Rattle.time.specs.Answers.{time_at, time_marked, number_of, is_written};
ghost use Rattle.time.specs.Header.{size_of, header_bytes, header_written, smallest_time, largest_time};
ghost use Rattle.time.specs.Iso.{iso_bytes, iso_written};

use calendar::MonthTable;
use text::decimal;

// 100 hours. The header writer refuses an offset of this size or more.
const OFFSET_LIMIT: u64 = 360000;

// Seconds since 1970, an offset from UTC in seconds, and a mark: the offset is written `-0000`. The
// mark counts beside offset 0 alone; beside any other offset it is ignored. It is no Option and no enum
// of the offset: C passes it as a byte of its own, and a time keeps it beside any offset. It is not the
// last field because readers are slower then (docs/SPEED.md).
#[derive(Clone, Copy)]
pub struct Time {
    pub seconds: i64,
    pub mark: bool,
    pub offset: i32,
}

impl Time {
    // The largest time that a header can carry: no other has larger seconds or a larger offset.
    pub const MAX: Time = Time {
        seconds: i64::MAX,
        offset: 359999,
        mark: false,
    };

    // The smallest: no other has smaller seconds or a smaller offset.
    pub const MIN: Time = Time {
        seconds: i64::MIN,
        offset: -359999,
        mark: false,
    };

    // `MAX` and `MIN` as calls, so that contracts say which times they are.
    pub fn largest() -> Time
        ensures { result ≡ largest_time }
    {
        Time::MAX
    }

    pub fn smallest() -> Time
        ensures { result ≡ smallest_time }
    {
        Time::MIN
    }

    // A time without the mark.
    pub fn new(seconds: i64, offset: i32) -> Time
        ensures { result ≡ time_at seconds offset }
    {
        Time {
            seconds,
            offset,
            mark: false,
        }
    }

    // A time with the mark set or clear, as given.
    pub fn with_mark(seconds: i64, offset: i32, mark: bool) -> Time
        ensures { result ≡ time_marked seconds offset mark }
    {
        Time {
            seconds,
            offset,
            mark,
        }
    }

    // How many decimal digits n has. Zero has one.
    pub fn count_positive_digits(n: u64) -> usize
        ensures { (result ≡ length (decimal_of n)) × (1 ≤ result) × (result ≤ 20) }
    {
        decimal::count_digits(n)
    }

    // How many bytes its header takes, also for an offset that is too wide to write. `MIN` takes the
    // most, 26.
    pub fn size(self) -> usize
        ensures { (result ≡ size_of self.seconds) × (result ≤ 26) × (6 < result) }
    {
        decimal::signed_width(self.seconds) + 6
    }

    // Writes its header to the front of `room` and returns how many bytes that took, which is `size`.
    // The bytes beyond them stay as they were. An offset of 100 hours or more is refused by 7, a room
    // that is too short by 8. A refusal changes nothing in the room.
    pub fn write_to(self, room: &mut [u8]) -> Result<usize, Refusal>
        ensures value { result ≡ header_written self room.old }
        ensures room_after { room.new ≡ room_after (is_written (header_written self room.old)) (header_bytes self) room.old }
    {
        let wide = write::offset_size(self.offset);
        if OFFSET_LIMIT <= wide {
            return Err(Refusal::Offset);
        }
        let n = self.size();
        if room.len() < n {
            return Err(Refusal::Room);
        }
        write::put_header(self.seconds, write::header_sign(self), wide / 60, n, room);
        Ok(n)
    }

    // Writes it as an ISO line of 25 bytes, `2008-02-14T20:30:45-05:00`, to the front of `room`. The
    // bytes beyond them stay as they were. The offset is first cut toward zero to whole minutes: the
    // line shows the clock at the cut offset, and reads back with the same seconds. An offset of 24
    // hours or more is refused by 7, seconds out of range or a local year, at the cut offset, outside 0
    // to 9999 by 6, a room that is too short by 8. A refusal changes nothing in the room.
    pub fn write_iso(self, room: &mut [u8]) -> Result<usize, Refusal>
        ensures value { result ≡ iso_written self room.old }
        ensures room_after { room.new ≡ room_after (is_written (iso_written self room.old)) (iso_bytes self) room.old }
    {
        self.write_iso_with(MonthTable::none(), room)
    }

    // The same with a borrowed table of months, for callers that write many lines: the whole table, or
    // any leading part of it.
    pub fn write_iso_with(self, months: MonthTable, room: &mut [u8]) -> Result<usize, Refusal>
        ensures value { result ≡ iso_written self room.old }
        ensures room_after { room.new ≡ room_after (is_written (iso_written self room.old)) (iso_bytes self) room.old }
    {
        let shown = format::cut_to_minutes(self.offset);
        let i = format::line_of(Time::new(self.seconds, shown))?;
        format::write_instant(months, i, shown, room)
    }
}

// Why a text is not read, or a time not written.
#[derive(Clone, Copy)]
pub enum Refusal {
    // 1: the text holds a byte of 128 or more.
    NotAscii,
    // 2: the text is not of the form asked for.
    Form,
    // 11: the number that opens a header or a raw date is too large for 64 bits. It stands beside 2, as
    // the other one after which "any" goes on: so the compiler tests for both at once.
    TooLarge,
    // 3: the text is relative and the current time is missing.
    Missing,
    // 4: the text is relative and the current time's seconds or offset is out of range.
    Current,
    // 5: the text is relative with more than 256 pairs.
    Pairs,
    // 6: a relative step leaves the range; or the ISO writer is given seconds out of range or a local
    // year, at the cut offset, outside 0 to 9999; or a strip is asked for a year or a month that has
    // none.
    Range,
    // 7: a writer is given an offset that is too wide.
    Offset,
    // 8: the room is shorter than the bytes to be written.
    Room,
    // 10: a book of stamps is too long or has a bad line; or the values given for a line would not be
    // read back from it.
    Book,
    // 12: of two lists that are to be merged one is too long, has a bad line or steps back; or one of
    // two front lines is bad.
    Lists,
}

// The number of a refusal (RULES 2.1).
impl From<Refusal> for u8 {
    ghost from_gives = { λ r number. number ≡ number_of r };

    fn from(r: Refusal) -> u8 {
        match r {
            Refusal::NotAscii => 1,
            Refusal::Form => 2,
            Refusal::Missing => 3,
            Refusal::Current => 4,
            Refusal::Pairs => 5,
            Refusal::Range => 6,
            Refusal::Offset => 7,
            Refusal::Room => 8,
            Refusal::Book => 10,
            Refusal::TooLarge => 11,
            Refusal::Lists => 12,
        }
    }
}
