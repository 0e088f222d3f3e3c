// The fields of a snapshot: "a single, a double, a whole number or bad, by the kind its place calls for" (document 01, 'Trace text').
ghost use Rattle.std.specs.Prelude.{◌≡◌, ◌+◌, ◌-◌, ◌*◌, ◌≤◌, ◌<◌, length, take, drop};
ghost use Rattle.std.specs.Float.{binary32, binary64};
ghost use Rattle.snapshot.specs.Scan.{number_of, single_of, double_of};
ghost use Rattle.snapshot.specs.Steps.Scan.{lead, hex_of, hscan, sized, whole_of, kind_number, field_of};
ghost use Rattle.snapshot.specs.Read.{as_whole, as_float};

// Not empty, and no zero before another digit.
fn leads(c: &[u8]) -> bool
    ensures { result ≡ lead c.now }
{
    !c.is_empty() && (c.len() == 1 || c[0] != 48)
}

// A whole number: decimal, without leading zeros, at most 2^64 - 1.
pub fn whole(c: &[u8]) -> Option<u64>
    ensures { result ≡ number_of (as_whole c.now) }
{
    if !leads(c) {
        return None;
    }
    let mut n: u64 = 0;
    for x in c {
        let b = u64::from(*x);
        if b < 48 || 57 < b {
            return None;
        }
        let m = n.checked_mul(10)?;
        n = m.checked_add(b - 48)?;
    }
    Some(n)
}

// A lower-case hexadecimal digit, 16 for no digit. Each of its four choices is among values at hand, so that it takes no branch, which for
// digits nobody can foretell.
fn digit(b: u8) -> u8
    ensures { result ≡ hex_of b }
{
    let low = if b < 48 { 16u8 } else { b - 48 };
    let high = if b < 97 { 16u8 } else { b - 87 };
    let letter = if 102 < b { 16u8 } else { high };
    if b <= 57 { low } else { letter }
}

// The number that up to 16 lower-case hexadecimal digits write. The largest tells at the end whether each of them is a digit: with no way out of
// the loop the machine reads them side by side.
fn hex(c: &[u8]) -> Option<u64>
    requires { length c.now ≤ 16 }
    ensures { result ≡ number_of (hscan 0 c.now) }
{
    let mut n: u64 = 0;
    let mut largest: u8 = 0;
    for x in c {
        let d = digit(*x);
        if largest < d {
            largest = d;
        }
        n = n * 16 + (d % 16) as u64;
    }
    if 15 < largest {
        return None;
    }
    Some(n)
}

// A field by the kind that its place calls for.
// Kept: (a) the project's form of a field is this enum, "a single, a double, a whole number or bad", with bad as a case of its own.
#[derive(Clone, Copy, Debug, PartialEq)]
pub enum Field {
    Single(f32),
    Double(f64),
    Whole(u64),
    Bad,
}

// The bits that so many digits write, no more and no fewer.
fn bits(c: &[u8], digits: usize) -> Option<u64>
    requires { digits ≤ 16 }
    ensures { result ≡ number_of (sized digits c.now) }
{
    if c.len() != digits {
        return None;
    }
    hex(c)
}

// An f32 in 8 digits. A not-a-number has one pattern, so that the bits of another are not those that stand here.
// Kept: (d) this and `double` differ in the width, in two functions of `numeric` and in the case of Field: each would be a member of a trait of
// the widths, with four ghost members and a law beside them, for five lines that it saves.
pub fn single(c: &[u8]) -> Field
    ensures { result ≡ single_of (as_float binary32 c.now) }
{
    let Some(n) = bits(c, 8) else {
        return Field::Bad;
    };
    let x = numeric::single_of(n);
    if numeric::single_bits(x) == n {
        Field::Single(x)
    } else {
        Field::Bad
    }
}

// An f64 in 16 digits, in the same way.
pub fn double(c: &[u8]) -> Field
    ensures { result ≡ double_of (as_float binary64 c.now) }
{
    let Some(n) = bits(c, 16) else {
        return Field::Bad;
    };
    let x = numeric::double_of(n);
    if numeric::double_bits(x) == n {
        Field::Double(x)
    } else {
        Field::Bad
    }
}

// A whole number as a field.
fn whole_field(c: &[u8]) -> Field
    ensures { result ≡ whole_of (as_whole c.now) }
{
    let Some(n) = whole(c) else {
        return Field::Bad;
    };
    Field::Whole(n)
}

// What its place calls for.
#[derive(Clone, Copy, Debug, PartialEq, Eq)]
pub(crate) enum Kind {
    Single,
    Double,
    Whole,
}

// The field from..to of the text, by the kind that its place calls for.
#[inline(always)]
pub(crate) fn parse(text: &[u8], from: usize, to: usize, kind: Kind) -> Field
    requires from_le_to { from ≤ to }
    requires to_in_bounds { to ≤ length text.now }
    ensures { result ≡ field_of (kind_number kind) (take (to - from) (drop from text.now)) }
{
    let c = &text[from..to];
    match kind {
        Kind::Single => single(c),
        Kind::Double => double(c),
        Kind::Whole => whole_field(c),
    }
}
