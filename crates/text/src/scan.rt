// One loop that scans past a run of bytes; words, trimming and digits all call it. Each caller
// names a class of bytes as a type, so that the compiler makes a loop for that class alone.
ghost use Rattle.std.specs.Prelude.{◌≡◌, ℕ, Bool};
ghost use Rattle.text.specs.Bytes.{is_space, is_digit, is_alphanumeric, is_plain};
ghost use Rattle.text.specs.Places.{no, past as past_of};

use crate::bytes;

// A class of bytes.
pub trait Class {
    ghost holds: { ℕ → Bool };

    // Whether b is of the class.
    fn has(b: u8) -> bool
        ensures { result ≡ holds b };
}

// White space.
#[derive(Clone, Copy)]
pub struct Space;

// A digit.
#[derive(Clone, Copy)]
pub struct Digit;

// An ASCII letter or digit.
#[derive(Clone, Copy)]
pub struct Alphanumeric;

// No white space, no `:`, and ASCII.
#[derive(Clone, Copy)]
pub struct Plain;

// Any byte that is not of the class C.
#[derive(Clone, Copy)]
pub struct Not<C> {
    pub class: C,
}

impl Class for Space {
    ghost holds = { is_space };

    fn has(b: u8) -> bool {
        bytes::is_space(b)
    }
}

impl Class for Digit {
    ghost holds = { is_digit };

    fn has(b: u8) -> bool {
        bytes::is_digit(b)
    }
}

impl Class for Alphanumeric {
    ghost holds = { is_alphanumeric };

    fn has(b: u8) -> bool {
        bytes::is_alphanumeric(b)
    }
}

impl Class for Plain {
    ghost holds = { is_plain };

    fn has(b: u8) -> bool {
        bytes::is_plain(b)
    }
}

impl<C: Class> Class for Not<C> {
    ghost holds = { no C.holds };

    fn has(b: u8) -> bool {
        !C::has(b)
    }
}

// The place past the run of bytes of the class that begins at `at`.
pub fn past<C: Class>(s: &[u8], at: usize) -> usize
    ensures { result ≡ past_of C.holds s.now at }
{
    let mut i = at;
    while i < s.len() {
        if !C::has(s[i]) {
            return i;
        }
        i += 1;
    }
    i
}
