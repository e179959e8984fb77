// The program `whenread` (RULES 10): it reads dates, one from each line of standard input, and
// writes an answer line for each to standard output.
//
// What the answers are is said in the contracts of `lines`; this crate only reads and writes. No
// contract can say which bytes are read or written. `lines::cut` says which answers a buffer gives
// and what is kept of it, and `output_of_reads` in `crates/lines/proofs/Run.antt` says that the
// answers are the same however the input is cut into reads.
//
// The exit status is always 0. A read or a write that fails is reported on standard error.
#![tactic(auto)]

mod arguments;
mod help;

ghost use Rattle.std.specs.Prelude.{◌≤◌, ◌<◌, length, IfOk, IfSome};
ghost use Rattle.lines.specs.Lines.{max_kept};

use calendar::MonthTable;
use streams::{Reported, Tool};
use text::places;

// How many bytes are read at once, with what is held of a line in front, and how many are written.
const BUFFER: usize = 65536;

// Whatever fails has been reported when `run` returns.
fn main(rt: HostRuntime) {
    let _ = run(&rt);
}

fn run(rt: &HostRuntime) -> Result<(), Reported> {
    let tool = Tool::new(rt, b"whenread");
    if tool.has_argument(1) {
        return arguments::answer_first(rt, &tool);
    }
    let months = MonthTable::whole();
    let mut buffer = [0u8; BUFFER];
    let mut out = [0u8; BUFFER];
    answer_all(&tool, months, &mut buffer, &mut out)
}

// Reads and answers to the end of the input. A proved loop has to end, and nothing says that an
// input does, so the loop counts its turns down from a number that no run uses up. The buffer is
// longer than what is kept of a line, so that there is always room for a read.
//
// `tool`, `months`, `buffer` and `out` stay apart: each call borrows another part of the buffers, and a
// struct of them would be made once, for these four functions.
fn answer_all(
    tool: &Tool,
    months: MonthTable,
    buffer: &mut [u8],
    out: &mut [u8],
) -> Result<(), Reported>
    requires max_kept_in_bounds { max_kept < length buffer.old }
{
    let mut held: usize = 0;
    for _ in 0..u64::MAX {
        let Some(kept) = read_and_answer(tool, months, buffer, held, out)? else {
            return Ok(());
        };
        held = kept;
    }
    Ok(())
}

// Reads once, behind what is held, and answers the lines that have their end. Returns how many bytes at
// the front of the buffer are the start of a line that has no end yet, or `None` at the end of the input.
// A read that has to be made again leaves everything to the next turn.
fn read_and_answer(
    tool: &Tool,
    months: MonthTable,
    buffer: &mut [u8],
    held: usize,
    out: &mut [u8],
) -> Result<Option<usize>, Reported>
    requires max_kept_in_bounds { (max_kept < length buffer.old) × (held ≤ max_kept) }
    ensures { IfOk result (λ next. IfSome next (λ n. n ≤ max_kept)) }
{
    match tool.read_once(&mut buffer[held..])? {
        Some(0) => {
            answer_last(tool, months, places::up_to(buffer, held), out)?;
            Ok(None)
        }
        Some(n) => {
            let kept = answer_held(tool, months, buffer, held + n, out)?;
            Ok(Some(kept))
        }
        None => Ok(Some(held)),
    }
}

// Answers a last line that lacks its end. If nothing is held, there is no such line.
fn answer_last(
    tool: &Tool,
    months: MonthTable,
    line: &[u8],
    out: &mut [u8],
) -> Result<(), Reported> {
    if line.is_empty() {
        return Ok(());
    }
    let n = lines::answer_with(months, line, out);
    tool.write_out(places::up_to(out, n))
}

// Answers the lines of the first `end` bytes, as many at a time as have answers that fit into `out`,
// keeps what is left, and returns how much that is.
fn answer_held(
    tool: &Tool,
    months: MonthTable,
    buffer: &mut [u8],
    end: usize,
    out: &mut [u8],
) -> Result<usize, Reported>
    requires end_in_bounds { end ≤ length buffer.old }
    ensures { IfOk result (λ n. n ≤ max_kept) }
{
    let mut from = 0;
    // Not a `for`: a turn answers as many lines as have answers that fit into `out`.
    while from < end {
        let step = lines::cut::answer_lines_with(months, &buffer[from..end], out);
        if step.taken == 0 {
            return Ok(lines::cut::keep(buffer, from, end));
        }
        tool.write_out(places::up_to(out, step.written))?;
        from += step.taken;
    }
    Ok(0)
}
