// Splits what follows the date into time and offset (RULES 6.6). One scan goes back from the end for the last space and the rightmost
// sign that has a digit after it; once it has found one of them, it looks for the other alone.
ghost use Rattle.std.specs.Prelude.{◌≡◌, false, ◌≤◌, length, get_or, drop};
ghost use Rattle.text.specs.Bytes.{is_digit};
ghost use Rattle.text.specs.Places.{last_place, last_where};
ghost use Rattle.time.specs.Header.{space};
ghost use Rattle.iso.specs.Cut.{is_offset, splits_at_space, cut};

use text::{bytes, places, trim};

// The bytes of a block that is tested for a space at once.
const BLOCK: usize = 32;

// Where the time ends in a trimmed text; what follows, trimmed, is the offset.
pub fn split_time_and_offset(s: &[u8]) -> usize
    ensures { (result ≡ cut s.now) × (result ≤ length s.now) }
{
    let [front @ .., last] = s else {
        return 0;
    };
    if *last == b'Z' {
        return front.len();
    }
    let m = find_marks(s);
    if is_spaced(s, m.space) {
        return m.space;
    }
    if m.sign < 2 { s.len() } else { m.sign }
}

// Whether the last space, which is at `at`, is beyond place 5 and what follows it, trimmed, starts with a sign.
fn is_spaced(s: &[u8], at: usize) -> bool
    requires { at ≡ last_place space s.now }
    ensures { result ≡ splits_at_space s.now }
{
    if at <= 5 {
        return false;
    }
    let rest = trim::trimmed(&s[at..]);
    let [first, ..] = rest else {
        return false;
    };
    bytes::is_sign(*first)
}

// The place of a text's last space, and that of the rightmost sign with a digit directly after it: the sign of `+:05` has none. Where
// there is no such space or sign, the place is the text's length, as `last_place` and `last_where` say: an Option would be no plainer,
// as both readers would turn it back into that length.
#[derive(Clone, Copy)]
struct Marks {
    space: usize,
    sign: usize,
}

// Scans back from the end until one of the two is found.
fn find_marks(s: &[u8]) -> Marks
    ensures space { result.space ≡ last_place space s.now }
    ensures sign { result.sign ≡ last_where is_offset s.now }
{
    let mut digit = false;
    for e in (0..s.len()).rev() {
        let b = s[e];
        if b == b' ' {
            return Marks {
                space: e,
                sign: last_sign(s, e),
            };
        }
        if bytes::is_sign(b) & digit {
            return Marks {
                space: last_space(s, e),
                sign: e,
            };
        }
        digit = bytes::is_digit(b);
    }
    Marks {
        space: s.len(),
        sign: s.len(),
    }
}

// The rightmost sign with a digit after it, when none comes after the space at `from`. The loop is that of `find_marks` without its test
// for a space, which would cost time at each byte. The place stays a parameter beside the text: what `last_sign`, `last_space` and
// `block_end` ask of it differs.
fn last_sign(s: &[u8], from: usize) -> usize
    requires { (from ≤ length s.now) × (last_where is_offset (drop from s.now) ≡ length (drop from s.now)) × (is_digit (get_or (drop from s.now) 0 0) ≡ false) }
    ensures { result ≡ last_where is_offset s.now }
{
    let mut digit = false;
    for e in (0..from).rev() {
        let b = s[e];
        if bytes::is_sign(b) & digit {
            return e;
        }
        digit = bytes::is_digit(b);
    }
    s.len()
}

// The last space, when none comes after the sign at `from`.
fn last_space(s: &[u8], from: usize) -> usize
    requires { (from ≤ length s.now) × (last_place space (drop from s.now) ≡ length (drop from s.now)) }
    ensures { result ≡ last_place space s.now }
{
    for e in (0..block_end(s, from)).rev() {
        if s[e] == b' ' {
            return e;
        }
    }
    s.len()
}

// Goes back over whole blocks that hold no space. The fraction of a second can be of any length, and the bytes of a block are tested at
// once. A `for` would be no plainer: `rchunks` gives the blocks, but not the place where the last one begins.
fn block_end(s: &[u8], from: usize) -> usize
    requires { (from ≤ length s.now) × (last_place space (drop from s.now) ≡ length (drop from s.now)) }
    ensures { (result ≤ length s.now) × (last_place space (drop result s.now) ≡ length (drop result s.now)) }
{
    let mut e = from;
    while BLOCK <= e {
        if places::has(&s[e - BLOCK..e], b' ') {
            return e;
        }
        e -= BLOCK;
    }
    e
}
