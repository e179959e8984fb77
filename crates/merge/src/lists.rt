// Two lists, and what is wrong with them (RULES 15.1 and 15.6). A list is at most 32,768 bytes of good
// `hull` lines whose seconds never fall. The check of a list is one pass over it.
ghost use Rattle.std.specs.Prelude.{◌≡◌, Some};
ghost use Rattle.relative.specs.Relative.{max_pairs};
ghost use Rattle.merge.specs.Lists.{lists_of, length_fault, lines_fault, machine_number, fault_line};
ghost use Rattle.merge.specs.Held.{next_of};

use stamps::line::Line;
use stamps::{book, line};
use text::places;

// The most bytes that a list has.
pub const MAX_LIST: usize = 32768;

// The machine whose list it is.
#[derive(Clone, Copy)]
pub enum Machine {
    First,
    Second,
}

// The number by which C names a machine. Where there is none, C gets 0.
impl From<Machine> for u8 {
    ghost from_gives = { λ machine number. number ≡ machine_number (Some machine) };

    fn from(machine: Machine) -> u8 {
        match machine {
            Machine::First => 1,
            Machine::Second => 2,
        }
    }
}

// What is wrong with a list: it is too long; a line, which has this number, is no good `hull` line; or
// a line has fewer seconds than the line above it. Lines are counted from 1.
#[derive(Clone, Copy)]
pub enum Fault {
    TooLong,
    BadLine(usize),
    StepBack(usize),
}

impl Fault {
    // The line that is at fault: 0 for a list that is too long. No Option: C gets this number.
    pub fn line(self) -> usize
        ensures { result ≡ fault_line self }
    {
        match self {
            Fault::TooLong => 0,
            Fault::BadLine(n) | Fault::StepBack(n) => n,
        }
    }
}

// What is wrong with the list of which machine.
#[derive(Clone, Copy)]
pub struct ListError {
    pub machine: Machine,
    pub fault: Fault,
}

// Checks two lists: both lengths first, then the lines of the first machine, then those of the second.
pub fn check(first: &[u8], second: &[u8]) -> Result<(), ListError>
    ensures { result ≡ lists_of max_pairs first.now second.now }
{
    check_length(Machine::First, first)?;
    check_length(Machine::Second, second)?;
    check_lines(Machine::First, first)?;
    check_lines(Machine::Second, second)
}

fn check_length(machine: Machine, list: &[u8]) -> Result<(), ListError>
    ensures { result ≡ length_fault machine list.now }
{
    if MAX_LIST < list.len() {
        return Err(ListError {
            machine,
            fault: Fault::TooLong,
        });
    }
    Ok(())
}

// Finds the first line of a machine's list that is at fault. This is no `for`: where a line ends is known
// only when it has been read, so `split_inclusive` would read each byte twice.
fn check_lines(machine: Machine, list: &[u8]) -> Result<(), ListError>
    ensures { result ≡ lines_fault max_pairs machine list.now }
{
    let mut at: usize = 0;
    let mut n: usize = 0;
    let mut above = None;
    while at < list.len() {
        n += 1;
        let Some(next) = next_hull(places::from(list, at)) else {
            return Err(ListError {
                machine,
                fault: Fault::BadLine(n),
            });
        };
        if !book::is_at_or_after(above, next.seconds) {
            return Err(ListError {
                machine,
                fault: Fault::StepBack(n),
            });
        }
        above = Some(next.seconds);
        at += next.size;
    }
    Ok(())
}

// A `hull` line with its newline: its seconds, and how many bytes it has.
#[derive(Clone, Copy)]
pub struct NextHull {
    pub seconds: i64,
    pub size: usize,
}

// The first line of a text, if it is a `hull` line with its newline.
pub fn next_hull(s: &[u8]) -> Option<NextHull>
    ensures { result ≡ next_of max_pairs s.now }
{
    let first = line::read_first_hull(s)?;
    let Line::Hull(hull) = first.line else {
        return None;
    };
    if s.len() <= first.length {
        return None;
    }
    Some(NextHull {
        seconds: hull.time.seconds,
        size: first.length + 1,
    })
}
