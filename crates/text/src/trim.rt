// A text without the white space at its ends, as a part of the same slice.
ghost use Rattle.std.specs.Prelude.{◌≡◌};
ghost use Rattle.text.specs.Trim.{trim_start, trim_end, trim};

use crate::scan::Space;
use crate::{bytes, scan};

pub fn trimmed(s: &[u8]) -> &[u8]
    ensures { result.now ≡ trim s.now }
{
    trimmed_end(trimmed_start(s))
}

fn trimmed_start(s: &[u8]) -> &[u8]
    ensures { result.now ≡ trim_start s.now }
{
    &s[scan::past::<Space>(s, 0)..]
}

fn trimmed_end(s: &[u8]) -> &[u8]
    ensures { result.now ≡ trim_end s.now }
{
    for i in (0..s.len()).rev() {
        if !bytes::is_space(s[i]) {
            return &s[..=i];
        }
    }
    &s[..0]
}
