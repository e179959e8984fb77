// The entries that read and write times: each reader, each writer and `size`. C passes a slice as a pointer and a length, and a
// result as a pointer to where it is to be stored. Each entry returns 0 or the number of a refusal (RULES 2), except for
// `chowderbell_size`. They keep no pointer and no state. `include/chowderbell.h` is the manual for callers.
//
// An entry whose name ends in `_marked` gives or takes the mark of `-0000` (RULES 5.10) as a byte. The others do without it, and are
// to be as fast as if there were no mark (docs/SPEED.md). So where both call a reader of headers or raw dates, each has one of its own.
ghost use Rattle.std.specs.Prelude.{◌≡◌, cond, ◌&&◌, ◌/◌, ◌%◌, ◌<◌, pos, negsuc};
ghost use Rattle.ints.specs.Equal.{eq_z};
ghost use Rattle.text.specs.Room.{room_after};
ghost use Rattle.time.specs.Answers.{time_at, time_marked, answer_time, is_written};
ghost use Rattle.time.specs.Header.{size_of, header_bytes, header_written};
ghost use Rattle.time.specs.Iso.{iso_bytes, iso_written};
ghost use Rattle.header.specs.Header.{header_of};
ghost use Rattle.header.specs.Raw.{raw_of, rule1};
ghost use Rattle.iso.specs.Iso.{iso_of};
ghost use Rattle.relative.specs.Relative.{max_pairs, relative_of};
ghost use Rattle.turns.specs.Turns.{turns_of};
ghost use Rattle.dates.specs.Any.{any_of};
ghost use Rattle.chowderbell.specs.Entries.{now_of, rule_of, no_rule, ruled, mark_byte, is_set, HandedOut, HandedMarked, HandedLength};

use header::raw;
use header::raw::Rule;
use text::bytes;
use time::{Refusal, Time};

pub(crate) const SUCCESS: u8 = 0;

// The numbers by which callers name a rule: C has no enum that a caller could not fill with another number.
const RULE_1: u32 = 1;

const RULE_2: u32 = 2;

// The byte of a mark that is clear. Any other one is set.
const CLEAR: u8 = 0;

// What `packed` adds to a number for a mark that is set.
const MARKED: u32 = 256;

#[unsafe(no_mangle)]
pub extern "C" fn chowderbell_header(text: &[u8], seconds: &mut i64, offset: &mut i32) -> u8
    ensures { HandedOut (header_of text.now) result seconds.new offset.new }
{
    hand_out(header::parse_header(text), seconds, offset)
}

#[unsafe(no_mangle)]
pub extern "C" fn chowderbell_header_marked(
    text: &[u8],
    seconds: &mut i64,
    offset: &mut i32,
    mark: &mut u8,
) -> u8
    ensures { HandedMarked (header_of text.now) result seconds.new offset.new mark.new }
{
    hand_marked(header::parse_header_marked(text), seconds, offset, mark)
}

#[unsafe(no_mangle)]
pub extern "C" fn chowderbell_raw(text: &[u8], seconds: &mut i64, offset: &mut i32) -> u8
    ensures { HandedOut (raw_of rule1 text.now) result seconds.new offset.new }
{
    hand_out(raw::parse_raw(text), seconds, offset)
}

// The number of the rule comes from the caller, so it may name none.
#[unsafe(no_mangle)]
pub extern "C" fn chowderbell_raw_by(
    rule: u32,
    text: &[u8],
    seconds: &mut i64,
    offset: &mut i32,
) -> u8
    ensures { HandedOut (ruled (rule_of rule) (λ l. raw_of l text.now) text.now) result seconds.new offset.new }
{
    hand_out(raw_by(rule_of(rule), text), seconds, offset)
}

#[unsafe(no_mangle)]
pub extern "C" fn chowderbell_raw_marked(
    rule: u32,
    text: &[u8],
    seconds: &mut i64,
    offset: &mut i32,
    mark: &mut u8,
) -> u8
    ensures { HandedMarked (ruled (rule_of rule) (λ l. raw_of l text.now) text.now) result seconds.new offset.new mark.new }
{
    if rule == RULE_1 {
        hand_marked(raw::parse_raw_marked(text), seconds, offset, mark)
    } else {
        hand_marked(raw_by(rule_of(rule), text), seconds, offset, mark)
    }
}

#[unsafe(no_mangle)]
pub extern "C" fn chowderbell_iso(text: &[u8], seconds: &mut i64, offset: &mut i32) -> u8
    ensures { HandedOut (iso_of text.now) result seconds.new offset.new }
{
    hand_out(iso::parse_git_date_format(text), seconds, offset)
}

// The current time is missing if `has_now` is 0, and is the next two numbers otherwise. C has no Option, so
// it is three parameters in each entry.
#[unsafe(no_mangle)]
pub extern "C" fn chowderbell_relative(
    text: &[u8],
    has_now: u8,
    now_seconds: i64,
    now_offset: i32,
    seconds: &mut i64,
    offset: &mut i32,
) -> u8
    ensures { HandedOut (relative_of max_pairs text.now (now_of has_now now_seconds now_offset)) result seconds.new offset.new }
{
    hand_out(
        relative::parse(text, now_of(has_now, now_seconds, now_offset)),
        seconds,
        offset,
    )
}

// The same by the second reader, for texts of at most 4,096 bytes (RULES 7.12).
#[unsafe(no_mangle)]
pub extern "C" fn chowderbell_relative_turns(
    text: &[u8],
    has_now: u8,
    now_seconds: i64,
    now_offset: i32,
    seconds: &mut i64,
    offset: &mut i32,
) -> u8
    ensures { HandedOut (turns_of max_pairs text.now (now_of has_now now_seconds now_offset)) result seconds.new offset.new }
{
    hand_out(
        turns::parse(text, now_of(has_now, now_seconds, now_offset)),
        seconds,
        offset,
    )
}

// By rule 1.
#[unsafe(no_mangle)]
pub extern "C" fn chowderbell_any(
    text: &[u8],
    has_now: u8,
    now_seconds: i64,
    now_offset: i32,
    seconds: &mut i64,
    offset: &mut i32,
) -> u8
    ensures { HandedOut (any_of max_pairs rule1 text.now (now_of has_now now_seconds now_offset)) result seconds.new offset.new }
{
    let answered = any_packed(
        RULE_1,
        text,
        has_now,
        now_seconds,
        now_offset,
        offset,
        seconds,
    );
    low_byte(answered)
}

#[unsafe(no_mangle)]
pub extern "C" fn chowderbell_any_by(
    rule: u32,
    text: &[u8],
    has_now: u8,
    now_seconds: i64,
    now_offset: i32,
    seconds: &mut i64,
    offset: &mut i32,
) -> u8
    ensures { HandedOut (ruled (rule_of rule) (λ l. any_of max_pairs l text.now (now_of has_now now_seconds now_offset)) text.now) result seconds.new offset.new }
{
    let answered = any_packed(
        rule,
        text,
        has_now,
        now_seconds,
        now_offset,
        offset,
        seconds,
    );
    low_byte(answered)
}

#[unsafe(no_mangle)]
pub extern "C" fn chowderbell_any_marked(
    rule: u32,
    text: &[u8],
    has_now: u8,
    now_seconds: i64,
    now_offset: i32,
    seconds: &mut i64,
    offset: &mut i32,
    mark: &mut u8,
) -> u8
    ensures { HandedMarked (ruled (rule_of rule) (λ l. any_of max_pairs l text.now (now_of has_now now_seconds now_offset)) text.now) result seconds.new offset.new mark.new }
{
    let answered = any_packed(
        rule,
        text,
        has_now,
        now_seconds,
        now_offset,
        offset,
        seconds,
    );
    *mark = second_byte(answered);
    low_byte(answered)
}

// A date in any form, for the three entries above. The result has the number in its low byte and the mark in its second byte, so an
// entry without the mark just drops it. The two places are in the other order than those of the entries: in the same order, the
// compiler passes both on by one read of 16 bytes, which waits for the two stores of the caller (docs/SPEED.md).
fn any_packed(
    rule: u32,
    text: &[u8],
    has_now: u8,
    now_seconds: i64,
    now_offset: i32,
    offset: &mut i32,
    seconds: &mut i64,
) -> u32
    ensures { HandedMarked (ruled (rule_of rule) (λ l. any_of max_pairs l text.now (now_of has_now now_seconds now_offset)) text.now) (result % 256) seconds.new offset.new (result / 256) }
{
    let a = any_by(
        rule_of(rule),
        &*text,
        now_of(has_now, now_seconds, now_offset),
    );
    let number = hand_out(a, seconds, offset);
    packed(number, mark_of(a))
}

// The length of a header. It cannot fail, so this is no number of a refusal.
#[unsafe(no_mangle)]
pub extern "C" fn chowderbell_size(seconds: i64, offset: i32) -> usize
    ensures { result ≡ size_of seconds }
{
    Time::new(seconds, offset).size()
}

#[unsafe(no_mangle)]
pub extern "C" fn chowderbell_write_header(
    seconds: i64,
    offset: i32,
    room: &mut [u8],
    length: &mut usize,
) -> u8
    ensures length { HandedLength (header_written (time_at seconds offset) room.old) result length.new }
    ensures room { room.new ≡ room_after (is_written (header_written (time_at seconds offset) room.old)) (header_bytes (time_at seconds offset)) room.old }
{
    let t = Time::new(seconds, offset);
    hand_length(t.write_to(room), length)
}

// Any mark but 0 is set, so C passes a byte and no `bool`.
#[unsafe(no_mangle)]
pub extern "C" fn chowderbell_write_header_marked(
    seconds: i64,
    offset: i32,
    mark: u8,
    room: &mut [u8],
    length: &mut usize,
) -> u8
    ensures length { HandedLength (header_written (time_marked seconds offset (is_set mark)) room.old) result length.new }
    ensures room { room.new ≡ room_after (is_written (header_written (time_marked seconds offset (is_set mark)) room.old)) (header_bytes (time_marked seconds offset (is_set mark))) room.old }
{
    chowderbell_write_header(seconds, shown_offset(offset, mark), room, length)
}

// The offset that is written for an offset and a mark. Offset 0 with the mark is written as -1 is: `-0000`.
fn shown_offset(offset: i32, mark: u8) -> i32
    ensures { result ≡ cond (is_set mark && eq_z offset (pos 0)) (negsuc 0) offset }
{
    if (mark != CLEAR) & (offset == 0) {
        -1
    } else {
        offset
    }
}

#[unsafe(no_mangle)]
pub extern "C" fn chowderbell_write_iso(
    seconds: i64,
    offset: i32,
    room: &mut [u8],
    length: &mut usize,
) -> u8
    ensures length { HandedLength (iso_written (time_at seconds offset) room.old) result length.new }
    ensures room { room.new ≡ room_after (is_written (iso_written (time_at seconds offset) room.old)) (iso_bytes (time_at seconds offset)) room.old }
{
    let t = Time::new(seconds, offset);
    hand_length(t.write_iso(room), length)
}

fn now_of(has_now: u8, now_seconds: i64, now_offset: i32) -> Option<Time>
    ensures { result ≡ now_of has_now now_seconds now_offset }
{
    if has_now == 0 {
        None
    } else {
        Some(Time::new(now_seconds, now_offset))
    }
}

// The rule that C names by this number. No TryFrom: the numbers are those of C alone, and no error would say more.
fn rule_of(number: u32) -> Option<Rule>
    ensures { result ≡ rule_of number }
{
    match number {
        RULE_1 => Some(Rule::One),
        RULE_2 => Some(Rule::Two),
        _ => None,
    }
}

// The answer by a rule, if one is named. This and `any_by` differ in the call alone: passing it as a closure
// would be no plainer. It is put into both entries: called, it takes 24 instructions more of some 330.
#[inline(always)]
fn raw_by(named: Option<Rule>, text: &[u8]) -> Result<Time, Refusal>
    ensures { result ≡ ruled named (λ l. raw_of l text.now) text.now }
{
    match named {
        Some(rule) => raw::parse_raw_by(text, rule),
        None => without_rule(text),
    }
}

fn any_by(named: Option<Rule>, text: &[u8], current: Option<Time>) -> Result<Time, Refusal>
    ensures { result ≡ ruled named (λ l. any_of max_pairs l text.now current) text.now }
{
    match named {
        Some(rule) => dates::parse_by(text, rule, current),
        None => without_rule(text),
    }
}

// Without a rule every text is refused: by 1 if it holds a byte of 128 or more, and by 2 otherwise.
fn without_rule(text: &[u8]) -> Result<Time, Refusal>
    ensures { result ≡ no_rule text.now }
{
    if bytes::is_ascii(text) {
        Err(Refusal::Form)
    } else {
        Err(Refusal::NotAscii)
    }
}

// Returns the number of a reader's answer and stores its time, which is 0 at offset 0 for a refusal. A Result
// cannot be passed to C, so the entries return a number and store the rest.
fn hand_out(a: Result<Time, Refusal>, seconds: &mut i64, offset: &mut i32) -> u8
    ensures { HandedOut a result seconds.new offset.new }
{
    match a {
        Ok(t) => {
            *seconds = t.seconds;
            *offset = t.offset;
            SUCCESS
        }
        Err(refusal) => {
            *seconds = 0;
            *offset = 0;
            u8::from(refusal)
        }
    }
}

// The same, and stores the mark of the time too, which is clear for a refusal.
fn hand_marked(a: Result<Time, Refusal>, seconds: &mut i64, offset: &mut i32, mark: &mut u8) -> u8
    ensures { HandedMarked a result seconds.new offset.new mark.new }
{
    let number = hand_out(a, seconds, offset);
    *mark = mark_of(a);
    number
}

// The mark of an answer, as a byte.
fn mark_of(a: Result<Time, Refusal>) -> u8
    ensures { result ≡ mark_byte (answer_time a).mark }
{
    match a {
        Ok(t) => u8::from(t.mark),
        Err(_) => CLEAR,
    }
}

// Returns the number of a writer's answer and stores its length, which is 0 for a refusal.
pub(crate) fn hand_length(w: Result<usize, Refusal>, length: &mut usize) -> u8
    ensures { HandedLength w result length.new }
{
    match w {
        Ok(n) => {
            *length = n;
            SUCCESS
        }
        Err(refusal) => {
            *length = 0;
            u8::from(refusal)
        }
    }
}

// A number and a mark, both bytes, as one number.
fn packed(number: u8, mark: u8) -> u32
    ensures { (result % 256 ≡ number) × (result / 256 ≡ mark) }
{
    u32::from(number) + MARKED * u32::from(mark)
}

fn low_byte(n: u32) -> u8
    ensures { result ≡ n % 256 }
{
    (n % MARKED) as u8
}

fn second_byte(n: u32) -> u8
    requires { n / 256 < 256 }
    ensures { result ≡ n / 256 }
{
    (n / MARKED) as u8
}
