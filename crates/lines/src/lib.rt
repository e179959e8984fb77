// What the program `whenread` does to lines (RULES 10), on slices: it turns a line into its answer
// line, and a buffer of lines into their answers. The program adds reading and writing.
//
// A line is form, current seconds, current offset and text, with tabs between; its answer line is
// number, seconds and offset, with tabs between and a newline. Every line has an answer, whatever
// its length and its bytes. No answer line is longer than 64 bytes (`answer_room` in the contracts).
#![tactic(auto)]

pub mod cut;
pub mod layout;
pub mod print;

ghost use Rattle.std.specs.Prelude.{◌≡◌, ◌≤◌, ◌<◌, length};
ghost use Rattle.lines.specs.Answers.{answer_by, row_at, row_of, answer_line};
ghost use Rattle.text.specs.Room.{fits, room_after};
ghost use Rattle.lines.specs.Rows.{written_in, answer_room};

use calendar::MonthTable;
use layout::Form;
use print::Row;
use text::places;
use time::{Refusal, Time};

// The number of a line that has the wrong layout or is too long (RULES 2.1). It is no `Refusal`: no reader
// of dates gives it.
const WRONG_LAYOUT: u64 = 9;

// Writes the answer line of `line`, which is given without its newline, to the front of `out`, and
// returns the length of the answer line. The bytes behind it are unchanged. If the answer line does
// not fit, nothing is written and 0 is returned, which the clause `value` promises (`written_in`); 64
// bytes are enough for every answer line.
pub fn answer(line: &[u8], out: &mut [u8]) -> usize
    ensures value { result ≡ written_in (answer_line line.now) out.old }
    ensures out_after { out.new ≡ room_after (fits (answer_line line.now) out.old) (answer_line line.now) out.old }
    ensures upper_bound { (result ≤ answer_room) × (answer_room ≤ length out.old → 0 < result) }
{
    answer_with(MonthTable::none(), line, out)
}

// The same with a table of months, for many calls: the whole table, or any leading part of it.
pub fn answer_with(months: MonthTable, line: &[u8], out: &mut [u8]) -> usize
    ensures value { result ≡ written_in (answer_line line.now) out.old }
    ensures out_after { out.new ≡ room_after (fits (answer_line line.now) out.old) (answer_line line.now) out.old }
    ensures upper_bound { (result ≤ answer_room) × (answer_room ≤ length out.old → 0 < result) }
{
    print::write_row(row_of(months, line), out)
}

// The number, seconds and offset that answer a line.
fn row_of(months: MonthTable, line: &[u8]) -> Row
    ensures { result ≡ row_of line.now }
{
    let Some(request) = layout::parse_line(line) else {
        return Row {
            number: WRONG_LAYOUT,
            seconds: 0,
            offset: 0,
        };
    };
    row_for(parse_as(
        months,
        request.form,
        places::from(line, request.at),
        request.current,
    ))
}

// Reads a text in a form. A `match`, since a line names its form, and the five readers take different
// arguments: a table of closures would be no plainer.
fn parse_as(
    months: MonthTable,
    form: Form,
    text: &[u8],
    current: Option<Time>,
) -> Result<Time, Refusal>
    ensures { result ≡ answer_by form text.now current }
{
    match form {
        Form::Header => header::parse_header(text),
        Form::Raw => header::raw::parse_raw(text),
        Form::Iso => iso::parse_git_date_format_with(months, text),
        Form::Relative => relative::parse_with(months, text, current),
        Form::Any => dates::parse_with(months, text, current),
    }
}

// An answer's number, seconds and offset. A `From` for a Result would be no plainer: this is called once.
fn row_for(a: Result<Time, Refusal>) -> Row
    ensures { result ≡ row_at a }
{
    match a {
        Ok(t) => Row {
            number: 0,
            seconds: t.seconds,
            offset: t.offset,
        },
        Err(why) => Row {
            number: u64::from(u8::from(why)),
            seconds: 0,
            offset: 0,
        },
    }
}
