// Bytes copied into a room at a place, also as a field behind a tab. The room is the caller's, since
// there is no heap; its clauses say which bytes stay as they were, which the contract of std's `Write`
// for a slice does not. The place and the room stay two parameters: a caller goes on in the same room
// from the place that it got back.
ghost use Rattle.std.specs.Prelude.{◌≡◌, ◌∷◌, ◌+◌, ◌≤◌, length};
ghost use Rattle.text.specs.Lines.{tab};
ghost use Rattle.text.specs.Room.{put_at};

// Puts the bytes of `part` from place `at` on, and returns the place past them. All other bytes of the
// room stay as they were.
pub fn put_part(part: &[u8], at: usize, room: &mut [u8]) -> usize
    requires { at + length part.now ≤ length room.old }
    ensures value { result ≡ at + length part.now }
    ensures room_after { room.new ≡ put_at part.now at room.old }
{
    // No `copy_from_slice`: that is a call of `memmove`, which the archive for C would then need from
    // outside (docs/LOOK-BACK.md).
    for i in 0..part.len() {
        room[at + i] = part[i];
    }
    at + part.len()
}

// Puts a tab and the bytes of `part` from place `at` on, and returns the place past them.
pub fn put_field(part: &[u8], at: usize, room: &mut [u8]) -> usize
    requires { at + length (tab ∷ part.now) ≤ length room.old }
    ensures value { result ≡ at + length (tab ∷ part.now) }
    ensures room_after { room.new ≡ put_at (tab ∷ part.now) at room.old }
{
    let next = put_part(b"\t", at, room);
    put_part(part, next, room)
}
