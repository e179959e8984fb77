// Tests of a byte, and comparisons of whole texts. Where std has the test, it is std's; the others are
// written with `&` and `|`, so that they have no branch and compute as their definitions do. Those that
// wrap a method of std stay: they are public, docs/PROMISES.md names them (4.1, 4.6), and their contracts
// say the answer in the words that the readers' definitions use.
ghost use Rattle.std.specs.Prelude.{◌≡◌};
ghost use Rattle.text.specs.Bytes.{is_space, is_digit, is_sign, is_alphanumeric, is_plain, lower_of, ascii, same as same_bytes, same_letters};

// White space (RULES 4.1): bytes 9 to 13, which are tab to carriage return, and the space. Byte 11
// is white space too, which std's `is_ascii_whitespace` leaves out.
#[tactic(auto, unfolding(crate::specs::Bytes::is_space))]
pub fn is_space(b: u8) -> bool
    ensures { result ≡ is_space b }
{
    (b'\t' <= b) & (b <= b'\r') | (b == b' ')
}

#[tactic(auto, unfolding(crate::specs::Bytes::is_digit))]
pub fn is_digit(b: u8) -> bool
    ensures { result ≡ is_digit b }
{
    b.is_ascii_digit()
}

#[tactic(auto, unfolding(crate::specs::Bytes::is_sign))]
pub fn is_sign(b: u8) -> bool
    ensures { result ≡ is_sign b }
{
    (b == b'+') | (b == b'-')
}

#[tactic(auto, unfolding(crate::specs::Bytes::is_alphanumeric))]
pub fn is_alphanumeric(b: u8) -> bool
    ensures { result ≡ is_alphanumeric b }
{
    b.is_ascii_alphanumeric()
}

// A plain byte of a word: no white space, no `:`, and ASCII. Nearly all bytes are above the space,
// where there is no white space.
#[tactic(auto, using(crate::proofs::Plain::is_space_of_lt), unfolding(crate::specs::Bytes::is_plain))]
pub fn is_plain(b: u8) -> bool
    ensures { result ≡ is_plain b }
{
    if b' ' < b {
        (b != b':') & b.is_ascii()
    } else {
        !is_space(b)
    }
}

// The small letter of a capital letter; any other byte as it is.
#[tactic(auto, unfolding(crate::specs::Bytes::lower_of))]
pub fn lower(b: u8) -> u8
    ensures { result ≡ lower_of b }
{
    b.to_ascii_lowercase()
}

// Whether every byte is ASCII. The empty text is.
#[tactic(auto, using(crate::proofs::Library::ascii_is))]
pub fn is_ascii(s: &[u8]) -> bool
    ensures { result ≡ ascii s.now }
{
    s.is_ascii()
}

// Whether two texts are the same, byte for byte.
#[tactic(auto, using(crate::proofs::Library::same_is))]
pub fn same(s: &[u8], t: &[u8]) -> bool
    ensures { result ≡ same_bytes s.now t.now }
{
    s == t
}

// Whether two texts are the same but for the case of their letters. It is put into its callers, most of
// which give it a name: then the compiler turns the name into small letters once, and not at each call
// (docs/LOOK-BACK.md).
#[inline(always)]
pub fn same_ignoring_case(s: &[u8], t: &[u8]) -> bool
    ensures { result ≡ same_letters s.now t.now }
{
    if s.len() != t.len() {
        return false;
    }
    for i in 0..t.len() {
        if lower(s[i]) != lower(t[i]) {
            return false;
        }
    }
    true
}
