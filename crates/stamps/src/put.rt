// Times and numbers put into a room at a place. Each call returns the place past the bytes that it put,
// and leaves all other bytes as they were. The place and the room stay two parameters, as in `text::copy`.
ghost use Rattle.std.specs.Prelude.{◌≡◌, ◌+◌, ◌≤◌, ◌<◌, nat_abs, length};
ghost use Rattle.text.specs.Decimal.{signed};
ghost use Rattle.text.specs.Room.{put_at};
ghost use Rattle.time.specs.Header.{header_bytes};

use text::decimal;
use time::Time;

// Puts the header of a time from place `at` on.
pub fn put_time(t: Time, at: usize, room: &mut [u8]) -> usize
    requires { (nat_abs t.offset < 360000) × (at + length (header_bytes t) ≤ length room.old) }
    ensures value { result ≡ at + length (header_bytes t) }
    ensures room_after { room.new ≡ put_at (header_bytes t) at room.old }
{
    at + t.write_to(&mut room[at..]).unwrap()
}

// Puts a number in plain decimal from place `at` on.
pub fn put_number(z: i64, at: usize, room: &mut [u8]) -> usize
    requires { at + length (signed z) ≤ length room.old }
    ensures value { result ≡ at + length (signed z) }
    ensures room_after { room.new ≡ put_at (signed z) at room.old }
{
    let end = at + decimal::signed_width(z);
    decimal::put_signed(z, end, room);
    end
}
