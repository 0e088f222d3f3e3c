// A field whose tab was read before, out of a text that comes in pieces: the bench reads its fields by these, through the field reader.
// Kept: (a) `single`, `double` and `whole` promise what those of `field` promise; that the bench reads by the field reader is the named form of document 01
// (docs/DECISIONS.md, 'The named forms of document 01').
ghost use Rattle.std.specs.Prelude.{◌≡◌};
ghost use Rattle.std.specs.Float.{binary32, binary64};
ghost use Rattle.snapshot.specs.Read.{as_whole, as_float};
ghost use Rattle.snapshot.specs.Scan.{number_of, single_of, double_of};
ghost use Rattle.snapshot.specs.Steps.Scan.{kind_number};
ghost use Rattle.snapshot.specs.Steps.Judge.{rest_field};

use crate::field::{Field, Kind};
use crate::piece::Next;
use crate::reader::{new, rest};

// The whole cell as one field.
fn cell(c: &[u8], kind: Kind) -> Next
    ensures { result ≡ rest_field (kind_number kind) 0 c.now }
{
    rest(new(c, 0), kind)
}

pub fn single(c: &[u8]) -> Field
    ensures { result ≡ single_of (as_float binary32 c.now) }
{
    cell(c, Kind::Single).field
}

pub fn double(c: &[u8]) -> Field
    ensures { result ≡ double_of (as_float binary64 c.now) }
{
    cell(c, Kind::Double).field
}

pub fn whole(c: &[u8]) -> Option<u64>
    ensures { result ≡ number_of (as_whole c.now) }
{
    let Field::Whole(n) = cell(c, Kind::Whole).field else {
        return None;
    };
    Some(n)
}
