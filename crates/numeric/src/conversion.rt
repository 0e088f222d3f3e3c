// The conversions between the number types that the language has no operator for, in whole numbers: f64 to f32, f32 to f64, u64 to f64, u64 to f32.
ghost use Rattle.std.specs.Prelude.{◌≡◌, ◌+◌, ◌/◌, ◌%◌, ◌^◌, ◌<◌, ◌≤◌, Bool, true, pos, if◌then◌else◌, to_bits};
ghost use Rattle.std.specs.Float.Ieee.{of_int, top, of_fields};
ghost use Rattle.std.specs.Float.{binary32, binary64};
ghost use Rattle.numeric.specs.Narrow.{narrowed};

use crate::rounding::{nearest, nearest_24};

// The bits below the sign of the f32 nearest to the f64 with the exponent's field x and the digits t: settled by the exponent's field
// (document 01: zero, subnormal, normal, too large, infinite).
fn narrow_fields(x: u64, t: u64) -> u64
    requires x_bound { x < 2048 }
    requires t_bound { t < 2 ^ 52 }
    requires t_value { x ≡ 2047 → t ≡ 0 }
    ensures { (s : Bool) → (if s then top binary32 else 0) + result ≡ to_bits binary32 (narrowed (of_fields binary64 s x t)) }
{
    match x {
        // zero, and the subnormals of f64
        0 => 0,
        // less than half of the smallest f32, 2^-149
        1..=872 => 0,
        // subnormal: a multiple of 2^-149
        873..=896 => nearest(t + 0x10_0000_0000_0000, 926 - x),
        // normal: 24 digits, and a carry out of them goes into the exponent, from the largest f32 to infinity
        897..=1150 => (x - 897) * 0x80_0000 + nearest(t + 0x10_0000_0000_0000, 29),
        // too large
        1151..=2046 => 0x7f80_0000,
        // infinite
        _ => 0x7f80_0000,
    }
}

// Whether a double of these bits, the sign left out, is of the size of a normal f32: of the exponents 897 to 1150.
fn is_normal(y: u64) -> bool
    ensures { result ≡ true → (0x3810_0000_0000_0000 ≤ y) × (y < 0x47f0_0000_0000_0000) }
{
    0x3810_0000_0000_0000 <= y && y < 0x47f0_0000_0000_0000
}

// The same of the bits y below the sign. Nearly every number is normal, and is settled by one comparison: the bits, counted from the exponent's new origin, are rounded as they stand.
fn narrow_size(y: u64) -> u64
    requires y_bound { y < 2 ^ 63 }
    requires y_value { y / 2 ^ 52 ≡ 2047 → y % 2 ^ 52 ≡ 0 }
    ensures { (s : Bool) → (if s then top binary32 else 0) + result ≡ to_bits binary32 (narrowed (of_fields binary64 s (y / 2 ^ 52) (y % 2 ^ 52))) }
{
    if is_normal(y) {
        nearest_24(y - 0x3800_0000_0000_0000)
    } else {
        narrow_fields(y / 0x10_0000_0000_0000, y % 0x10_0000_0000_0000)
    }
}

// The f32 nearest to x. A not-a-number is tested first, because its bits are undefined.
// Kept: (b) `std::num::nearest_f64_to_f32_with_nan` in its place takes 84 instructions for 40, and 8.5 ns for 5.7. The bar that it misses: tools/speed fails
// where `to_f32, independent`, 28 in tools/speed.counts, grows by more than 5 per cent.
pub fn to_f32(x: f64) -> f32
    ensures { result ≡ narrowed x }
{
    if x.is_nan() {
        return f32::NAN;
    }
    let b = f64::to_bits(x);
    let low = narrow_size(b % 0x8000_0000_0000_0000);
    f32::from_bits((b / 0x8000_0000_0000_0000 * 0x8000_0000 + low) as u32)
}

// The same value as an f64, which holds every f32. A value is the same data in either format, hence the bare equation.
pub fn to_f64(x: f32) -> f64
    ensures { result ≡ x }
{
    // std proves this promise (its `as` alone is undefined at a not-a-number), and assumes nothing for it
    std::num::f32_to_f64_with_nan(x)
}

// The f64 nearest to n.
pub fn u64_to_f64(n: u64) -> f64
    ensures { result ≡ of_int binary64 (pos n) }
{
    std::num::nearest_u64_to_f64(n)
}

// The f32 nearest to n, rounded once: by way of an f64 it would be rounded twice.
// Kept: (b) `std::num::nearest_u64_to_f32` in its place takes 51 instructions for 40, and 6.0 ns for 4.0. It has no work of its own in tools/speed.counts. A cell of
// `impute, LINEAR, one gap of 1998` calls it twice: 22 more than its 58 miss the bar of 5 per cent there, as reckoned from these numbers and not counted.
pub fn u64_to_f32(n: u64) -> f32
    ensures { result ≡ of_int binary32 (pos n) }
{
    if n == 0 {
        return 0.0;
    }
    let z = u64::leading_zeros(n) as u64;
    f32::from_bits(((189 - z) * 0x80_0000 + nearest(n << z, 40)) as u32)
}
