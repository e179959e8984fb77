// Lines in a buffer. To answer an input that is read piece by piece into a buffer: answer the lines
// that have their end (`answer_lines`), move what is left to the front of the buffer (`keep`), and
// read on behind it.
ghost use Rattle.std.specs.Prelude.{◌≡◌, [], ◌++◌, ◌≤◌, ◌<◌, length, take, drop};
ghost use Rattle.lines.specs.Answers.{answer_line};
ghost use Rattle.text.specs.Lines.{ended_lines};
ghost use Rattle.text.specs.Room.{fits, room_after};
ghost use Rattle.lines.specs.Rows.{written_in, answer_room};
ghost use Rattle.lines.specs.Lines.{step_of, room_after_step, held_part, max_kept, kept};

use crate::layout::MAX_LINE;
use calendar::MonthTable;
use text::places;

// How many bytes of a line that has no end yet are kept: one more than a line may have, which is
// enough to show that the line is too long.
const MAX_KEPT: usize = MAX_LINE + 1;

// How many bytes of a buffer were answered, and how many bytes the answers took.
#[derive(Clone, Copy)]
pub struct Step {
    pub taken: usize,
    pub written: usize,
}

// Answers the lines of `s` that have their end, one after the other, up to the first whose answer
// does not fit. The answers are written to the front of `out`; the bytes behind them are unchanged.
// If `out` has 64 bytes or more and nothing was taken, then no line of `s` has its end.
pub fn answer_lines(s: &[u8], out: &mut [u8]) -> Step
    ensures value { result ≡ step_of s.now (length out.old) }
    ensures out_after { out.new ≡ room_after_step s.now out.old }
    ensures taken_in_bounds { (result.taken ≤ length s.now) × (result.written ≤ length out.old) × (answer_room ≤ length out.old → result.taken ≡ 0 → ended_lines s.now ≡ []) }
{
    answer_lines_with(MonthTable::none(), s, out)
}

// The same with a table of months, for many calls: the whole table, or any leading part of it.
pub fn answer_lines_with(months: MonthTable, s: &[u8], out: &mut [u8]) -> Step
    ensures value { result ≡ step_of s.now (length out.old) }
    ensures out_after { out.new ≡ room_after_step s.now out.old }
    ensures taken_in_bounds { (result.taken ≤ length s.now) × (result.written ≤ length out.old) × (answer_room ≤ length out.old → result.taken ≡ 0 → ended_lines s.now ≡ []) }
{
    let mut taken: usize = 0;
    let mut written: usize = 0;
    // No `for` over std's `split_inclusive`: its last piece may lack its newline, an answer may not
    // fit, and `taken` and `written` would be counted all the same.
    loop {
        let rest = places::from(s, taken);
        let e = places::first_place(rest, b'\n');
        if rest.len() <= e {
            return Step { taken, written };
        }
        let n = answer_at(months, places::up_to(rest, e), written, out);
        if n == 0 {
            return Step { taken, written };
        }
        taken += e + 1;
        written += n;
    }
}

// Writes the answer line of `line` to `out` from place `at` on.
fn answer_at(months: MonthTable, line: &[u8], at: usize, out: &mut [u8]) -> usize
    requires at_in_bounds { at ≤ length out.old }
    ensures value { result ≡ written_in (answer_line line.now) (drop at out.old) }
    ensures out_after { out.new ≡ take at out.old ++ room_after (fits (answer_line line.now) (drop at out.old)) (answer_line line.now) (drop at out.old) }
    ensures result_nonzero { answer_room ≤ length (drop at out.old) → 0 < result }
{
    crate::answer_with(months, line, &mut out[at..])
}

// Moves the bytes from `from` up to `end`, which are the start of a line that has no end yet, to the
// front of the buffer, and returns how many were moved. At most `MAX_KEPT` bytes are kept: with more
// bytes the line is too long, whatever they are, and its answer is the same without them.
pub fn keep(buffer: &mut [u8], from: usize, end: usize) -> usize
    ensures value { result ≡ length (kept (held_part buffer.old from end)) }
    ensures buffer_after { buffer.new ≡ kept (held_part buffer.old from end) ++ drop result buffer.old }
    ensures upper_bound { (result ≤ max_kept) × (result ≤ length buffer.old) }
{
    let end = end.min(buffer.len());
    if end <= from {
        return 0;
    }
    let n = (end - from).min(MAX_KEPT);
    buffer.copy_within(from..from + n, 0);
    n
}
