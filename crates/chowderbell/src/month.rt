// The entry for a month's strip (RULES 14). C passes a slice as a pointer and a length, and a result as a pointer to where it is to
// be stored. It returns 0, 6 or 8 (RULES 2), and keeps no pointer and no state. `include/chowderbell.h` is the manual for callers.
ghost use Rattle.std.specs.Prelude.{◌≡◌};
ghost use Rattle.text.specs.Room.{room_after};
ghost use Rattle.time.specs.Answers.{is_written};
ghost use Rattle.strip.specs.Strip.{strip_of, strip_bytes, strip_written};
ghost use Rattle.chowderbell.specs.Entries.{HandedLength};

use crate::times::hand_length;
use strip::write;

#[unsafe(no_mangle)]
pub extern "C" fn chowderbell_strip(
    year: i64,
    month: i64,
    room: &mut [u8],
    length: &mut usize,
) -> u8
    ensures length { HandedLength (strip_written year month room.old) result length.new }
    ensures room { room.new ≡ room_after (is_written (strip_written year month room.old)) (strip_bytes (strip_of year month).strip) room.old }
{
    hand_length(write::write_month(year, month, room), length)
}
