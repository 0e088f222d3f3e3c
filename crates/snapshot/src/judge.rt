// Reading a snapshot from left to right (document 01, 'Trace text'): its lists, its lines, and the loops over them. "The first bad field ends
// the whole reading."
// Kept: (d) a text and a place, as in piece.rt, which says why.
ghost use Rattle.std.specs.Prelude.{◌≡◌, ℕ, List, length, get_or, drop};
ghost use Rattle.std.proofs.Math.Option.{Option as Perhaps};
ghost use Rattle.std.specs.Float.{binary32, binary64};
ghost use Rattle.snapshot.specs.Read.{as_whole, as_float};
ghost use Rattle.snapshot.specs.Steps.Scan.{kind_number};
ghost use Rattle.snapshot.specs.Steps.Judge.{byte, name, next_of, one, celled, fields, good_fields, list_line, line_firsts, Filled};

use crate::field::{Field, Kind};
use crate::piece::{Next, byte, name};
use crate::reader::{new, next};

// The same by a field reader, which holds the text and the place: what reads a field calls this.
// Inlined by order, with the four that it goes through (field::parse, field_from, field_at, next): a byte of a text is then restored by 25.7 instructions for 29.7.
#[inline(always)]
fn next_field(text: &[u8], at: usize, kind: Kind) -> Next
    ensures { result ≡ next_of (kind_number kind) at text.now }
{
    next(new(text, at), kind)
}

// A number that a field holds, of the kind that its place calls for.
// Kept: (d) each impl names its case of Kind and of Field: one function for the three would take both as members, with a law that ties them to `read`.
pub trait Cell: Copy {
    // How the definitions read it.
    ghost read: { List ℕ → Perhaps Self };

    // The number after the tab at a place, and the place after its field; none where the field is bad.
    fn cell(text: &[u8], at: usize) -> Option<(Self, usize)>
        ensures { celled result text.now ≡ one read (drop at text.now) };
}

impl Cell for f32 {
    ghost read = { as_float binary32 };

    fn cell(text: &[u8], at: usize) -> Option<(f32, usize)> {
        let next = next_field(text, at, Kind::Single);
        let Field::Single(x) = next.field else {
            return None;
        };
        Some((x, next.end))
    }
}

impl Cell for f64 {
    ghost read = { as_float binary64 };

    fn cell(text: &[u8], at: usize) -> Option<(f64, usize)> {
        let next = next_field(text, at, Kind::Double);
        let Field::Double(x) = next.field else {
            return None;
        };
        Some((x, next.end))
    }
}

impl Cell for u64 {
    ghost read = { as_whole };

    fn cell(text: &[u8], at: usize) -> Option<(u64, usize)> {
        let next = next_field(text, at, Kind::Whole);
        let Field::Whole(x) = next.field else {
            return None;
        };
        Some((x, next.end))
    }
}

// As many fields as `out` is long, and the place after them.
pub(crate) fn fields<T: Cell>(text: &[u8], at: usize, out: &mut [T]) -> Option<usize>
    ensures { Filled (fields T.read (length out.old) (drop at text.now)) (good_fields T.read (length out.old) (drop at text.now)) text.now out.old result out.new }
{
    let mut p = at;
    'fields: {
        for slot in out.iter_mut() {
            let Some((x, end)) = T::cell(text, p) else {
                break 'fields None;
            };
            *slot = x;
            p = end;
        }
        Some(p)
    }
}

// A line of a name and as many fields as `out` is long, and the place after it.
pub fn list_line<T: Cell>(text: &[u8], at: usize, letters: [u64; 3], out: &mut [T]) -> Option<usize>
    ensures { Filled (list_line T.read (get_or letters 0 0) (get_or letters 1 0) (get_or letters 2 0) (length out.old) (drop at text.now))
        (line_firsts T.read (get_or letters 0 0) (get_or letters 1 0) (get_or letters 2 0) (length out.old) (drop at text.now)) text.now out.old result out.new }
{
    let p = name(text, at, letters)?;
    let q = fields(text, p, out)?;
    byte(text, q, 10)
}
