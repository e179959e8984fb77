// Places in a text, counted from 0, and a text cut at a place. The place of a byte that the text
// does not hold is the text's length, so that what comes before it is the whole text. A place past
// the end is cut back to the end.
//
// `has`, `first_place` and the like wrap methods of std. They are public, docs/PROMISES.md names them
// (4.1, 4.6), and their contracts say the answer in the words that the readers' definitions use.
ghost use Rattle.std.specs.Prelude.{◌≡◌, ◌≤◌, length, take, drop};
ghost use Rattle.text.specs.Places.{has as has_of, first_place, before as before_of};

// Whether the text holds b.
pub fn has(s: &[u8], b: u8) -> bool
    ensures { result ≡ has_of b s.now }
{
    s.contains(&b)
}

// The place of the first b, or the length of the text if it holds none.
pub fn first_place(s: &[u8], b: u8) -> usize
    ensures { (result ≡ first_place b s.now) × (result ≤ length s.now) }
{
    s.iter().position(|&x| x == b).unwrap_or(s.len())
}

// The text from a place on: empty if the place is past its end.
pub fn from(s: &[u8], at: usize) -> &[u8]
    ensures { result.now ≡ drop at s.now }
{
    &s[at.min(s.len())..]
}

// The text up to a place: all of it if the place is past its end.
pub fn up_to(s: &[u8], at: usize) -> &[u8]
    ensures { result.now ≡ take at s.now }
{
    &s[..at.min(s.len())]
}

// What comes before the first b: the whole text if it holds none.
pub fn before(s: &[u8], b: u8) -> &[u8]
    ensures { result.now ≡ before_of b s.now }
{
    &s[..first_place(s, b)]
}
