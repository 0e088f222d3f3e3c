// The pieces of a line (document 01, 'Trace text'): a byte, a name, and the field after a tab.
// Kept: (d) each function here and of those that use it takes the text and a place and answers the place after what it read: the text stays the same, so that a
// `FieldReader` would be taken apart and built again at each call (`next_field` builds one for each field, as the form of document 01 asks).
ghost use Rattle.std.specs.Prelude.{◌≡◌, ◌+◌, ◌≤◌, ◌<◌, length, get_or, drop};
ghost use Rattle.snapshot.specs.Steps.Judge.{placed, byte, name, field_length, rest_field, next_of};
ghost use Rattle.snapshot.specs.Steps.Likely.{likely, from_of};
ghost use Rattle.snapshot.specs.Steps.Scan.{kind_number};

use crate::field::{Field, Kind, parse};

// The place after the byte b, or none where another stands there.
pub(crate) fn byte(text: &[u8], at: usize, b: u64) -> Option<usize>
    ensures { placed result text.now ≡ byte b (drop at text.now) }
{
    if at < text.len() && u64::from(text[at]) == b {
        return Some(at + 1);
    }
    None
}

// The place after the name of a line, or none.
pub(crate) fn name(text: &[u8], at: usize, letters: [u64; 3]) -> Option<usize>
    ensures { placed result text.now ≡ name (get_or letters 0 0) (get_or letters 1 0) (get_or letters 2 0) (drop at text.now) }
{
    let p = byte(text, at, letters[0])?;
    let q = byte(text, p, letters[1])?;
    byte(text, q, letters[2])
}

// The next tab or LF, or the end of the text.
fn field_end(text: &[u8], from: usize) -> usize
    requires { from ≤ length text.now }
    ensures { result ≡ from + field_length (drop from text.now) }
{
    for i in from..text.len() {
        if text[i] <= 10 {
            return i;
        }
    }
    text.len()
}

// A field, and the place after it.
#[derive(Clone, Copy, Debug, PartialEq)]
pub(crate) struct Next {
    pub field: Field,
    pub end: usize,
}

// Where the field ends if a single has its 8 bytes and a double its 16; else the next tab or LF.
fn likely_end(text: &[u8], from: usize, kind: Kind) -> usize
    requires { from ≤ length text.now }
    ensures { result ≡ from + likely (kind_number kind) (drop from text.now) }
{
    let width = match kind {
        Kind::Single => 8,
        Kind::Double => 16,
        Kind::Whole => return field_end(text, from),
    };
    if width < text.len() - from && text[from + width] <= 10 {
        return from + width;
    }
    field_end(text, from)
}

// The field that begins at a place. A good one has no tab and no LF in it, so that its likely end is its end; the end of a bad one is looked for.
#[inline(always)]
fn field_from(text: &[u8], from: usize, kind: Kind) -> Next
    requires { from ≤ length text.now }
    ensures { result ≡ from_of (kind_number kind) from text.now }
{
    let end = likely_end(text, from, kind);
    let field = parse(text, from, end, kind);
    let Field::Bad = field else {
        return Next { field, end };
    };
    Next {
        field: Field::Bad,
        end: field_end(text, from),
    }
}

// The rest of the text as one field.
pub(crate) fn rest_at(text: &[u8], at: usize, kind: Kind) -> Next
    ensures { result ≡ rest_field (kind_number kind) at text.now }
{
    let end = text.len();
    let field = parse(text, at.min(end), end, kind);
    Next { field, end }
}

// The field after the tab at a place, by the kind that its place calls for.
#[inline(always)]
pub(crate) fn field_at(text: &[u8], at: usize, kind: Kind) -> Next
    ensures { result ≡ next_of (kind_number kind) at text.now }
{
    if at < text.len() && text[at] == 9 {
        return field_from(text, at + 1, kind);
    }
    Next {
        field: Field::Bad,
        end: at,
    }
}
