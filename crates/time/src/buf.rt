// A buffer with room for every header, borrowed by its writer as in gix-date.
ghost use Rattle.std.specs.Prelude.{◌≡◌};
ghost use Rattle.time.specs.Buf.{buf_after};
ghost use Rattle.time.specs.Header.{header_written};

use crate::{Refusal, Time};

// How many bytes the widest header takes, that of `Time::MIN`. A buffer has as many.
pub fn widest() -> usize
    ensures { result ≡ 26 }
{
    Time::MIN.size()
}

// The bytes of the buffer, and how many of them the header that was last written takes. An array and a
// length, and no `String`: nothing here is on the heap, and the contract of `to_str` and
// docs/DECISIONS.md say which bytes are beyond the header.
#[derive(Clone, Copy)]
pub struct TimeBuf {
    pub bytes: [u8; 26],
    pub end: usize,
}

// Writes the header of a time to the front of a buffer, and returns how many bytes that took. An offset
// of 100 hours or more is refused by 7, where gix-date's `to_str` panics, and the buffer stays as it
// was. The header of every other time fits.
pub fn to_str(t: Time, buf: &mut TimeBuf) -> Result<usize, Refusal>
    ensures value { result ≡ header_written t buf.old.bytes }
    ensures buf_after { buf.new ≡ buf_after t buf.old }
{
    buf.end = t.write_to(&mut buf.bytes)?;
    Ok(buf.end)
}
