// Words and numbers in a text (RULES 4), and numbers written as text (RULES 9). A text is a slice
// of bytes; every text has an answer, whatever its length and its bytes. A part of a text is
// returned as a part of the same slice, never as a copy.
#![tactic(auto)]

pub mod bytes;
pub mod copy;
pub mod decimal;
pub mod number;
pub mod places;
pub mod scan;
pub mod trim;
pub mod walker;
pub mod words;
