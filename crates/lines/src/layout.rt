// The layout of a line (RULES 10.1 to 10.3): four fields with tabs between, of which the last keeps
// further tabs. A line is given without its newline.
ghost use Rattle.std.specs.Prelude.{◌≡◌, is_some, IfSome};
ghost use Rattle.text.specs.Places.{has};
ghost use Rattle.text.specs.Lines.{tab, field, rest};
ghost use Rattle.lines.specs.Layout.{form_named, current_of, line_of};

use text::number::Width;
use text::{bytes, number, places};
use time::Time;

// The most bytes that a line has before its end (RULES 10.1).
pub const MAX_LINE: usize = 4096;

// The five forms of a date.
#[derive(Clone, Copy)]
pub enum Form {
    Header,
    Raw,
    Iso,
    Relative,
    Any,
}

// What a line asks for: that its text, which begins at place `at`, is read in a form, at a current
// time.
#[derive(Clone, Copy)]
pub struct Request {
    pub form: Form,
    pub current: Option<Time>,
    pub at: usize,
}

// Parses a line: `None` if it has the wrong layout or is too long. If it is too long, none of its
// bytes is read.
pub fn parse_line(line: &[u8]) -> Option<Request>
    ensures { result ≡ line_of line.now }
{
    if MAX_LINE < line.len() {
        return None;
    }
    let form = cut_at_tab(line)?;
    let seconds = cut_at_tab(form.rest)?;
    let offset = cut_at_tab(seconds.rest)?;
    Some(Request {
        form: form_of(form.field)?,
        current: current_of(seconds.field, offset.field)?,
        at: line.len() - offset.rest.len(),
    })
}

// A field, and what follows its tab.
#[derive(Clone, Copy)]
struct Cut<'a> {
    field: &'a [u8],
    rest: &'a [u8],
}

// The first field of a text that holds a tab.
fn cut_at_tab(s: &[u8]) -> Option<Cut<'_>>
    ensures found { is_some result ≡ has tab s.now }
    ensures parts { IfSome result (λ cut. (cut.field.now ≡ field s.now) × (cut.rest.now ≡ rest s.now)) }
{
    let i = places::first_place(s, b'\t');
    if i < s.len() {
        Some(Cut {
            field: &s[..i],
            rest: &s[i + 1..],
        })
    } else {
        None
    }
}

// The form with this name. Names are in small letters (RULES 10.2). Tried as a `match` on the text: the
// proof did not close. It has 30 goals there, byte by byte, and the check found 19 of them.
#[tactic(auto, unfolding(crate::specs::Layout::form_named))]
fn form_of(s: &[u8]) -> Option<Form>
    ensures { result ≡ form_named s.now }
{
    if bytes::same(s, b"header") {
        Some(Form::Header)
    } else if bytes::same(s, b"raw") {
        Some(Form::Raw)
    } else if bytes::same(s, b"iso") {
        Some(Form::Iso)
    } else if bytes::same(s, b"relative") {
        Some(Form::Relative)
    } else if bytes::same(s, b"any") {
        Some(Form::Any)
    } else {
        None
    }
}

// The current time of two fields: signed numbers of 64 and 32 bits, or both `-` (RULES 10.3).
// `None`: they are no current time and not both `-`. `Some(None)`: both are `-`, and there is no
// current time.
fn current_of(seconds: &[u8], offset: &[u8]) -> Option<Option<Time>>
    ensures { result ≡ current_of seconds.now offset.now }
{
    if bytes::same(seconds, b"-") & bytes::same(offset, b"-") {
        return Some(None);
    }
    let z = number::signed_number(seconds, Width::Bits64)?;
    let o = number::signed_number(offset, Width::Bits32)?;
    Some(Some(Time::new(z, o as i32)))
}
