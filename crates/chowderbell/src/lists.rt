// The entries for the lists of two machines (RULES 15): one checks two front lines, one tells which of
// them is the earlier, and one merges two lists to a book. They return 0, 8 or 12 (RULES 2), except for
// the one that returns a length. Each list is a parameter of its own, as C passes it. They keep no pointer
// and no state. `include/chowderbell.h` is the manual for callers.
ghost use Rattle.std.specs.Prelude.{◌≡◌, length};
ghost use Rattle.text.specs.Room.{room_after};
ghost use Rattle.relative.specs.Relative.{max_pairs};
ghost use Rattle.merge.specs.Fronts.{earlier_machine, earlier_line, fronts_of};
ghost use Rattle.merge.specs.Lists.{machine_number};
ghost use Rattle.merge.specs.Merge.{merged, report as report_of, merge_of, is_written};
ghost use Rattle.chowderbell.specs.Entries.{HandedVerdict, HandedMerge};

use crate::times::SUCCESS;
use merge::lists::{ListError, Machine};
use merge::{Lengths, MergeError, fronts};
use time::Refusal;

#[unsafe(no_mangle)]
pub extern "C" fn chowderbell_fronts_check(
    first: &[u8],
    second: &[u8],
    machine: &mut u8,
    line: &mut usize,
) -> u8
    ensures { HandedVerdict (fronts_of max_pairs first.now second.now) result machine.new line.new }
{
    hand_verdict(fronts::check(first, second), machine, line)
}

// The length of the earlier front line. It cannot fail, so this is no number of a refusal.
#[unsafe(no_mangle)]
pub extern "C" fn chowderbell_fronts_earlier<'a>(
    first: &'a [u8],
    second: &'a [u8],
    machine: &mut u8,
) -> usize
    ensures value { result ≡ length (earlier_line max_pairs first.now second.now) }
    ensures machine_after { machine.new ≡ machine_number (earlier_machine max_pairs first.now second.now) }
{
    let line = fronts::earlier(first, second);
    *machine = machine_number(fronts::whose(line, first));
    line.len()
}

#[unsafe(no_mangle)]
pub extern "C" fn chowderbell_lists_merge<'a>(
    first: &'a [u8],
    second: &'a [u8],
    book: &mut [u8],
    report: &mut [u8],
    book_length: &mut usize,
    report_length: &mut usize,
    machine: &mut u8,
    line: &mut usize,
) -> u8
    ensures answer { HandedMerge (merge_of max_pairs first.now second.now book.old report.old) result book_length.new report_length.new machine.new line.new }
    ensures book { book.new ≡ room_after (is_written (merge_of max_pairs first.now second.now book.old report.old)) (merged max_pairs first.now second.now) book.old }
    ensures report { report.new ≡ room_after (is_written (merge_of max_pairs first.now second.now book.old report.old)) (report_of max_pairs first.now second.now) report.old }
{
    let answer = merge::merge(first, second, book, report);
    hand_merge(answer, book_length, report_length, machine, line)
}

// The number by which C names a machine: 0 if there is none.
fn machine_number(machine: Option<Machine>) -> u8
    ensures { result ≡ machine_number machine }
{
    match machine {
        Some(machine) => u8::from(machine),
        None => 0,
    }
}

// Returns the number of a check and stores whose front line is bad, and its line: 0 if none is.
fn hand_verdict(checked: Result<(), ListError>, machine: &mut u8, line: &mut usize) -> u8
    ensures { HandedVerdict checked result machine.new line.new }
{
    match checked {
        Ok(()) => {
            *machine = 0;
            *line = 0;
            SUCCESS
        }
        Err(error) => {
            *machine = u8::from(error.machine);
            *line = error.fault.line();
            u8::from(Refusal::Lists)
        }
    }
}

// Returns the number of a merge and stores both lengths, which are 0 for a refusal, and the machine and
// the line at fault, which are 0 for good lists.
fn hand_merge(
    merged: Result<Lengths, MergeError>,
    book_length: &mut usize,
    report_length: &mut usize,
    machine: &mut u8,
    line: &mut usize,
) -> u8
    ensures { HandedMerge merged result book_length.new report_length.new machine.new line.new }
{
    match merged {
        Ok(lengths) => {
            *book_length = lengths.book;
            *report_length = lengths.report;
            hand_verdict(Ok(()), machine, line)
        }
        Err(MergeError::Lists(error)) => {
            *book_length = 0;
            *report_length = 0;
            hand_verdict(Err(error), machine, line)
        }
        Err(MergeError::NoRoom) => {
            *book_length = 0;
            *report_length = 0;
            *machine = 0;
            *line = 0;
            u8::from(Refusal::Room)
        }
    }
}
