// A float's bits as a whole number, and the float of such bits. `to_bits` and `from_bits` are undefined at a not-a-number; std's functions here read every pattern of one as the same, and write
// the one pattern.
ghost use Rattle.std.specs.Prelude.{◌≡◌, ◌%◌, from_bits, to_bits};
ghost use Rattle.std.specs.Float.{binary32, binary64};

use std::num::{
    f32_from_bits_with_nan, f32_to_bits_with_nan, f64_from_bits_with_nan, f64_to_bits_with_nan,
};

pub fn single_bits(x: f32) -> u64
    ensures { result ≡ to_bits binary32 x }
{
    u64::from(f32_to_bits_with_nan(x))
}

pub fn double_bits(x: f64) -> u64
    ensures { result ≡ to_bits binary64 x }
{
    f64_to_bits_with_nan(x)
}

// The low 32 bits count.
pub fn single_of(n: u64) -> f32
    ensures { result ≡ from_bits binary32 (n % 4294967296) }
{
    f32_from_bits_with_nan((n % 0x1_0000_0000) as u32)
}

pub fn double_of(n: u64) -> f64
    ensures { result ≡ from_bits binary64 n }
{
    f64_from_bits_with_nan(n)
}
