// A book of stamps (RULES 13): a text in which each cooked hull has a line with a path, a key and a
// time, and in which `since` lines say from when on the hulls below them are listed. `line` reads a
// line and judges it, `write` writes one from its values, `book` checks a whole book and lists the
// hulls that its cut-offs keep. Every text has an answer, whatever its length and its bytes.
#![tactic(auto)]

pub mod book;
pub mod line;
mod put;
mod scan;
mod stamp;
pub mod write;
