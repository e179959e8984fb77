// The classes of bytes of a line's fields, and tests of the byte at a place.
ghost use Rattle.std.specs.Prelude.{◌≡◌, ◌&&◌, ◌≤◌, ltb, eqb, length, drop, get_or};
ghost use Rattle.stamps.specs.Lines.{is_path_byte, is_hex_digit};
ghost use Rattle.stamps.specs.Held.{is_text_byte, ends_here};

use text::bytes;
use text::scan::Class;

// The first and the last byte that a path may have: the space and `~`.
const FIRST_PATH_BYTE: u8 = b' ';

const LAST_PATH_BYTE: u8 = b'~';

// The bytes of a path: 32 to 126.
#[derive(Clone, Copy)]
pub struct Path;

// The bytes of a key: lower-case hexadecimal digits.
#[derive(Clone, Copy)]
pub struct Hex;

// The bytes of the text in a `since` line: any but tab and newline.
#[derive(Clone, Copy)]
pub struct Text;

impl Class for Path {
    ghost holds = { is_path_byte };

    #[tactic(auto, unfolding(crate::specs::Lines::is_path_byte))]
    fn has(b: u8) -> bool {
        (FIRST_PATH_BYTE <= b) & (b <= LAST_PATH_BYTE)
    }
}

impl Class for Hex {
    ghost holds = { is_hex_digit };

    #[tactic(auto, unfolding(crate::specs::Lines::is_hex_digit))]
    fn has(b: u8) -> bool {
        bytes::is_digit(b) | ((b'a' <= b) & (b <= b'f'))
    }
}

impl Class for Text {
    ghost holds = { is_text_byte };

    #[tactic(auto, unfolding(crate::specs::Held::is_text_byte))]
    fn has(b: u8) -> bool {
        (b != b'\t') & (b != b'\n')
    }
}

// Whether the byte at a place is b. Past the end of the text there is none.
pub fn is_at(s: &[u8], at: usize, b: u8) -> bool
    ensures { result ≡ (ltb at (length s.now) && eqb (get_or s.now at 0) b) }
{
    at < s.len() && s[at] == b
}

// Whether a line ends at a place: a newline is there, or the text ends.
pub fn ends_at(s: &[u8], at: usize) -> bool
    ensures { result ≡ ends_here (drop at s.now) }
{
    s.len() <= at || s[at] == b'\n'
}
