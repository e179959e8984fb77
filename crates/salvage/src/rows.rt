// The rows of the report: the number of a bad line, a tab, its length without the newline, a newline.
ghost use Rattle.std.specs.Prelude.{◌≡◌, ◌++◌, ◌+◌, ◌-◌, ◌*◌, ◌≤◌, length, take, drop};
ghost use Rattle.stamps.specs.Book.{max_book};
ghost use Rattle.salvage.specs.Held.{put_if_room, ended_row, row_before};

use text::decimal;

// Puts the row of a bad line from place `at` on if there is room for it, and returns the place past it.
// The number and the length stay two numbers: a struct of them would be made here, for these three calls.
pub fn put_row_if_room(n: usize, size: usize, at: usize, report: &mut [u8]) -> usize
    requires { at ≤ 8 * max_book }
    ensures value { result ≡ at + length (ended_row n size) }
    ensures report_after { report.new ≡ put_if_room (ended_row n size) at report.old }
{
    let end = at + row_length(n, size);
    if end <= report.len() {
        put_row(n, size, end, report);
    }
    end
}

// How many bytes a row has with its newline.
fn row_length(n: usize, size: usize) -> usize
    ensures { (result ≡ length (ended_row n size)) × (result ≤ 42) }
{
    decimal::count_digits(n as u64) + decimal::count_digits(size as u64) + 2
}

// Puts a row in front of `end`, from its newline to its number.
fn put_row(n: usize, size: usize, end: usize, report: &mut [u8])
    requires { (length (ended_row n size) ≤ end) × (end ≤ length report.old) }
    ensures { report.new ≡ take (end - length (ended_row n size)) report.old ++ row_before n size (drop end report.old) }
{
    decimal::put_byte(b'\n', end, report);
    let at = decimal::put_decimal(size as u64, end - 1, report);
    decimal::put_byte(b'\t', at, report);
    decimal::put_decimal(n as u64, at - 1, report);
}
