// Writes a header, `1745582210 +0200`, from its end to its front, so that nothing is moved (RULES 9.1).
// The place and the room stay two parameters, as in `text::decimal`.
ghost use Rattle.std.specs.Prelude.{◌≡◌, ◌∷◌, ◌++◌, ◌-◌, ◌≤◌, ◌<◌, length, take, drop, nat_abs};
ghost use Rattle.text.specs.Decimal.{signed_before};
ghost use Rattle.time.specs.Header.{sign_byte, header_sign, offset_bytes, space, size_of};

use crate::Time;
use text::decimal;

// The size of an offset: the offset without its sign.
pub fn offset_size(offset: i32) -> u64
    ensures { result ≡ nat_abs offset }
{
    u64::from(offset.unsigned_abs())
}

// `-` for a negative offset, otherwise `+`. In a header it is decided before seconds are dropped:
// offset -30 is written `-0000`.
pub fn sign_byte(offset: i32) -> u8
    ensures { result ≡ sign_byte offset }
{
    if offset < 0 { b'-' } else { b'+' }
}

// The sign in the header of a time. Offset 0 with the mark has `-`; beside any other offset the mark is
// ignored.
pub fn header_sign(t: Time) -> u8
    ensures { result ≡ header_sign t }
{
    if t.mark & (t.offset == 0) {
        b'-'
    } else {
        sign_byte(t.offset)
    }
}

// A whole header, to the front of a room that is long enough.
pub fn put_header(seconds: i64, sign: u8, minutes: u64, end: usize, room: &mut [u8])
    requires { (minutes < 6000) × (end ≡ size_of seconds) × (end ≤ length room.old) }
    ensures { room.new ≡ signed_before seconds (space ∷ offset_bytes sign minutes ++ drop end room.old) }
{
    put_offset(sign, minutes, end, room);
    decimal::put_signed(seconds, end - 6, room);
}

// Space, sign, hours and minutes in front of `end`.
fn put_offset(sign: u8, minutes: u64, end: usize, room: &mut [u8])
    requires { (minutes < 6000) × (5 < end) × (end ≤ length room.old) }
    ensures { room.new ≡ take (end - 6) room.old ++ (space ∷ offset_bytes sign minutes ++ drop end room.old) }
{
    decimal::put_two(minutes % 60, end, room);
    decimal::put_two(minutes / 60, end - 2, room);
    decimal::put_byte(sign, end - 4, room);
    decimal::put_byte(b' ', end - 5, room);
}
