// Fields of two bytes.
ghost use Rattle.std.specs.Prelude.{◌≡◌, ◌≤◌, ◌+◌, length};
ghost use Rattle.iso.specs.Parts.{two as two_of};

// The two bytes from i.
pub fn two(s: &[u8], i: usize) -> &[u8]
    requires { i + 2 ≤ length s.now }
    ensures { result.now ≡ two_of i s.now }
{
    &s[i..i + 2]
}
