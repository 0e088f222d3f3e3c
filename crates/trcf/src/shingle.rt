// What the calls do to whole lists: copies, and a block that comes into a shingle.
ghost use Rattle.std.specs.Prelude.{◌≡◌, ◌+◌, ◌≤◌, length, take};
ghost use Rattle.std.proofs.Math.Seq.{paste};
ghost use Rattle.trcf.specs.Lists.{last_or, shift_in};
ghost use Rattle.trcf.specs.Lengths.{where_fits, within};

use crate::lengths::{has_room, is_within};

// The last of the first n times, 0 where there is none.
// Kept: (d) the definitions count the newest time from 0 where there is none, and no caller tells the two apart.
pub fn last_of(l: &[u64], n: usize) -> u64
    ensures { result ≡ last_or 0 (take n l.now) }
{
    l[..n.min(l.len())].last().copied().unwrap_or(0)
}

// All of src stands in dst from at on.
pub(crate) fn copy_fitting<T: Copy>(dst: &mut [T], at: usize, src: &[T])
    requires { at + length src.now ≤ length dst.old }
    ensures { dst.new ≡ paste dst.old at src.now (length src.now) }
{
    dst[at..at + src.len()].copy_from_slice(src);
}

// The same; where src has no room there, nothing changes.
#[tactic(auto, unfolding(crate::specs::Lengths::where_fits, crate::specs::Lengths::within))]
pub fn copy_in<T: Copy>(dst: &mut [T], at: usize, src: &[T])
    ensures { dst.new ≡ where_fits (within (at + length src.now) (length dst.old)) (paste dst.old at src.now (length src.now)) dst.old }
{
    if has_room(at, src.len(), dst.len()) {
        copy_fitting(dst, at, src);
    }
}

// The front drops out, and p comes in at the end.
pub(crate) fn shift_fitting<T: Copy>(s: &mut [T], p: &[T])
    requires { length p.now ≤ length s.old }
    ensures { s.new ≡ shift_in s.old p.now }
{
    let w = p.len();
    let m = s.len() - w;
    s.copy_within(w.., 0);
    s[m..].copy_from_slice(p);
}

// The same; where p is the longer, nothing changes.
#[tactic(auto, unfolding(crate::specs::Lengths::where_fits, crate::specs::Lengths::within))]
pub fn shift_in<T: Copy>(s: &mut [T], p: &[T])
    ensures { s.new ≡ where_fits (within (length p.now) (length s.old)) (shift_in s.old p.now) s.old }
{
    if is_within(p.len(), s.len()) {
        shift_fitting(s, p);
    }
}
