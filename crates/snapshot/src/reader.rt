// A field reader holds the lent text and a position (document 01, 'Forms to follow'). Its methods are thin: they take it apart and leave the
// work to `field_at` and `rest_at`, which take the text and the place.
// Kept: (a) the named form of document 01 (docs/DECISIONS.md, 'The named forms of document 01').
ghost use Rattle.std.specs.Prelude.{◌≡◌};
ghost use Rattle.snapshot.specs.Steps.Scan.{kind_number};
ghost use Rattle.snapshot.specs.Steps.Judge.{rest_field, next_of};

use crate::field::Kind;
use crate::piece::{Next, field_at, rest_at};

#[derive(Clone, Copy)]
pub(crate) struct FieldReader<'a> {
    pub text: &'a [u8],
    pub at: usize,
}

pub(crate) fn new<'a>(text: &'a [u8], at: usize) -> FieldReader<'a>
    ensures { (result.text ≡ text.entry) × (result.at ≡ at) }
{
    FieldReader { text, at }
}

// The field after the tab at the reader's place, by the kind that its place calls for.
#[inline(always)]
pub(crate) fn next<'a>(r: FieldReader<'a>, kind: Kind) -> Next
    ensures { result ≡ next_of (kind_number kind) r.entry.at r.entry.text.now }
{
    field_at(r.text, r.at, kind)
}

// The rest of the reader's text as one field, whose tab was read before.
pub(crate) fn rest<'a>(r: FieldReader<'a>, kind: Kind) -> Next
    ensures { result ≡ rest_field (kind_number kind) r.entry.at r.entry.text.now }
{
    rest_at(r.text, r.at, kind)
}
