// Two front lines (RULES 15.2 and 15.3), each a `hull` line with its newline, or empty: which one is the
// earlier, and which one is bad. The line that is answered stands where it stood; nothing is copied.
ghost use Rattle.std.specs.Prelude.{◌≡◌};
ghost use Rattle.relative.specs.Relative.{max_pairs};
ghost use Rattle.merge.specs.Fronts.{front_of, earlier_of, earlier_line, front_fault, fronts_of};
ghost use Rattle.merge.specs.Held.{whose_of};

use crate::lists;
use crate::lists::{Fault, ListError, Machine};
use text::{bytes, places};

// A front line: empty, a `hull` line at these seconds, or bad. No Result of an Option would be plainer:
// all three count where two lines are compared, in one `match`.
#[derive(Clone, Copy)]
pub enum Front {
    Empty,
    At(i64),
    Bad,
}

// The earlier of two front lines, the first machine's on a tie. An empty one loses. Of two empty ones,
// and beside a bad one, it is empty.
pub fn earlier<'a>(first: &'a [u8], second: &'a [u8]) -> &'a [u8]
    ensures { result.now ≡ earlier_line max_pairs first.now second.now }
{
    match earlier_of(front_of(first), front_of(second)) {
        Some(Machine::First) => first,
        Some(Machine::Second) => second,
        None => places::up_to(first, 0),
    }
}

// Whose line the earlier one is, given the first machine's front line: none's if it is empty. A line of
// the second machine is earlier only if it has other seconds, so it is not the same line.
#[tactic(auto, unfolding(crate::specs::Held::whose_of))]
pub fn whose(line: &[u8], first: &[u8]) -> Option<Machine>
    ensures { result ≡ whose_of line.now first.now }
{
    if line.is_empty() {
        None
    } else if bytes::same(line, first) {
        Some(Machine::First)
    } else {
        Some(Machine::Second)
    }
}

// Checks two front lines: a bad one is at fault as line 1 of its machine, the first machine's before the
// second's. An empty one is not bad.
pub fn check(first: &[u8], second: &[u8]) -> Result<(), ListError>
    ensures { result ≡ fronts_of max_pairs first.now second.now }
{
    check_front(Machine::First, front_of(first))?;
    check_front(Machine::Second, front_of(second))
}

fn check_front(machine: Machine, front: Front) -> Result<(), ListError>
    ensures { result ≡ front_fault machine front }
{
    match front {
        Front::Bad => Err(ListError {
            machine,
            fault: Fault::BadLine(1),
        }),
        Front::At(_) | Front::Empty => Ok(()),
    }
}

// Reads a front line. A text with more than one line is bad, and so is a line without its newline.
fn front_of(s: &[u8]) -> Front
    ensures { result ≡ front_of max_pairs s.now }
{
    if s.is_empty() {
        return Front::Empty;
    }
    match lists::next_hull(s) {
        Some(next) if next.size == s.len() => Front::At(next.seconds),
        _ => Front::Bad,
    }
}

// Whose line is the earlier one.
fn earlier_of(first: Front, second: Front) -> Option<Machine>
    ensures { result ≡ earlier_of first second }
{
    match (first, second) {
        (Front::At(a), Front::At(b)) => {
            if a <= b {
                Some(Machine::First)
            } else {
                Some(Machine::Second)
            }
        }
        (Front::At(_), Front::Empty) => Some(Machine::First),
        (Front::Empty, Front::At(_)) => Some(Machine::Second),
        (Front::Empty, Front::Empty) | (Front::Bad, _) | (_, Front::Bad) => None,
    }
}
