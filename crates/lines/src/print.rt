// An answer line (RULES 10.4), as `0 1745582210 7200` with tabs between. It is written from its end
// to its front: the digits of a number come out last one first, and so no byte has to be moved.
ghost use Rattle.std.specs.Prelude.{◌≡◌, ◌++◌, ◌≤◌, ◌<◌, length, drop};
ghost use Rattle.text.specs.Room.{fits, room_after};
ghost use Rattle.lines.specs.Rows.{row_bytes, written_in, answer_room};

use text::decimal;

// What an answer line says: `number` is the digits that are written, 0 for a time, and no kind to test.
#[derive(Clone, Copy)]
pub struct Row {
    pub number: u64,
    pub seconds: i64,
    pub offset: i32,
}

// Writes the line of a row to the front of `out`, and returns its length. The bytes behind it are
// unchanged. If `out` is too short, nothing is written and 0 is returned; `answer` says why.
pub fn write_row(row: Row, out: &mut [u8]) -> usize
    ensures value { result ≡ written_in (row_bytes row) out.old }
    ensures out_after { out.new ≡ room_after (fits (row_bytes row) out.old) (row_bytes row) out.old }
    ensures upper_bound { (result ≤ answer_room) × (answer_room ≤ length out.old → 0 < result) }
{
    let n = row_width(row);
    if out.len() < n {
        0
    } else {
        put_row(row, n, out);
        n
    }
}

// How many bytes the line of a row takes: its three numbers, two tabs and a newline.
fn row_width(row: Row) -> usize
    ensures { (result ≡ length (row_bytes row)) × (0 < result) × (result ≤ answer_room) }
{
    let number = decimal::count_digits(row.number);
    let seconds = decimal::signed_width(row.seconds);
    let offset = decimal::signed_width(i64::from(row.offset));
    number + seconds + offset + 3
}

// Writes the line of a row, which ends before place `end`, to the front of `out`.
fn put_row(row: Row, end: usize, out: &mut [u8])
    requires { (end ≡ length (row_bytes row)) × (end ≤ length out.old) }
    ensures { out.new ≡ row_bytes row ++ drop end out.old }
{
    decimal::put_byte(b'\n', end, out);
    let offset_at = decimal::put_signed(i64::from(row.offset), end - 1, out);
    decimal::put_byte(b'\t', offset_at, out);
    let seconds_at = decimal::put_signed(row.seconds, offset_at - 1, out);
    decimal::put_byte(b'\t', seconds_at, out);
    decimal::put_decimal(row.number, seconds_at - 1, out);
}
