// One pass over a text, for both readers. `open` reads the number at the front of the first word
// and stops where it ends; there the readers recognise the usual form. For any other text
// `read_words` goes on from that place and finds the bounds of the second word. A `:` or a byte of
// 128 or more ends every scan, so bytes already scanned are known to be free of both. Every byte is
// looked at once, except those at which a scan stops.
ghost use Rattle.std.specs.Prelude.{◌≡◌, cond, not, ◌||◌, drop, Err, None};
ghost use Rattle.text.specs.Bytes.{is_space, ascii as ascii_of};
ghost use Rattle.text.specs.Places.{past};
ghost use Rattle.header.specs.Held.{ends_at, has_colon, nowhere, bounds_of, is_number, usual_of, LeadsWithNumber, WordsRead};
ghost use Rattle.text.specs.declared.number.NumberError.TheVariants.{NoNumber};

use crate::offset;
use crate::offset::Fields;
use text::number::{LeadingInteger, NumberError, Width};
use text::scan::{Plain, Space};
use text::words::Span;
use text::{bytes, number, scan};

// What a text holds: the number of its first word as a header reads it (RULES 5.2), whether that
// number is the whole word, the bounds of the second word, and whether there is a `:` anywhere. The
// bounds are empty if there is no second word, or a third, or a `:`. They are no `Option`, since the
// empty word is no offset and needs no case of its own. Neither flag says whether a value beside it
// counts: a header is refused for its `:`, a raw date for a first word that is not whole.
#[derive(Clone, Copy)]
pub struct First {
    pub number: Result<i64, NumberError>,
    pub whole: bool,
    pub offset_word: Span,
    pub colon: bool,
}

// The number at the front of the first word, and where it ends. A text and its opening are two
// arguments of what follows, and no struct: in one the text would go by way of memory (docs/SPEED.md),
// and each reader would have to show that the struct holds its own text. It is put into each reader:
// called, it takes a tenth more of a header's instructions.
#[inline(always)]
pub fn open(s: &[u8]) -> LeadingInteger
    ensures { LeadsWithNumber s.now result }
{
    number::leading_integer(s, first_word(s), Width::Bits64)
}

// Where the first word begins. Few texts begin with white space, so the first byte is tested before
// the scan: no byte above a space is white space.
fn first_word(s: &[u8]) -> usize
    ensures { result ≡ past is_space s.now 0 }
{
    match s {
        [] => 0,
        [b, ..] if b' ' < *b => 0,
        _ => scan::past::<Space>(s, 0),
    }
}

// The fields of the usual tail, if a number is in front of it. Then neither reader has to ask again
// whether there is a number.
pub fn usual_tail(s: &[u8], opening: LeadingInteger) -> Option<Fields>
    requires { LeadsWithNumber s.now opening }
    ensures { result ≡ cond (is_number opening.number) (usual_of s.now opening.end) None }
{
    match opening.number {
        Ok(_) => offset::usual_fields(s, opening.end),
        Err(_) => None,
    }
}

// Scans past the rest of the first word, white space, the second word, and white space again. At
// that place the text ends, or a third word begins, or there is a byte that ended a scan.
pub fn read_words(s: &[u8], opening: LeadingInteger) -> Option<First>
    requires { LeadsWithNumber s.now opening }
    ensures { WordsRead s.now result }
{
    let end = opening.end;
    let first_end = scan::past::<Plain>(s, end);
    let second = scan::past::<Space>(s, first_end);
    let second_end = scan::past::<Plain>(s, second);
    let third = scan::past::<Space>(s, second_end);
    let rest = look_through(s, third);
    if !rest.ascii {
        return None;
    }
    let whole = ends_at(s, end);
    let number = number_in(opening.number, whole, opening.signed);
    let offset_word = only_bounds(second, second_end, third < s.len());
    Some(First {
        number,
        whole,
        offset_word,
        colon: rest.colon,
    })
}

// Whether a word ends at a place: white space is there, or the end of the text.
#[tactic(auto, using(crate::proofs::FirstWord::ends_at_of_lt, crate::proofs::FirstWord::ends_at_of_le))]
fn ends_at(s: &[u8], at: usize) -> bool
    ensures { result ≡ ends_at s.now at }
{
    s.len() <= at || bytes::is_space(s[at])
}

// The number as a header reads it (RULES 5.2): a number with a sign counts only if it is the whole
// word, and digits count whatever follows them.
fn number_in(n: Result<i64, NumberError>, whole: bool, signed: bool) -> Result<i64, NumberError>
    ensures { result ≡ cond (whole || not signed) n (Err NoNumber) }
{
    if whole | !signed {
        n
    } else {
        Err(NumberError::NoNumber)
    }
}

// Empty bounds if there is a third word.
fn only_bounds(start: usize, end: usize, third: bool) -> Span
    ensures { result ≡ cond third nowhere (bounds_of start end) }
{
    if third {
        Span { start: 0, end: 0 }
    } else {
        Span { start, end }
    }
}

// What a text holds from a place on: whether it is all ASCII, and whether there is a `:`. The two are
// found side by side, so neither is an `Option` of the other.
#[derive(Clone, Copy)]
struct Rest {
    ascii: bool,
    colon: bool,
}

// The loop has no early exit, so that the compiler tests many bytes at once.
fn look_through(s: &[u8], from: usize) -> Rest
    ensures ascii_value { result.ascii ≡ ascii_of (drop from s.now) }
    ensures colon_value { result.colon ≡ has_colon (drop from s.now) }
{
    let mut ascii = true;
    let mut colon = false;
    for i in from..s.len() {
        ascii &= s[i].is_ascii();
        colon |= s[i] == b':';
    }
    Rest { ascii, colon }
}
