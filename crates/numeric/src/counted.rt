// The square root with the number of its binary digits that are tried, from the top, where one is tried after the other. No digit is tried here: the number is read off the finished root.
ghost use Rattle.std.specs.Prelude.{◌≡◌, ℕ, ◌*◌, ◌^◌, ◌<◌, ◌≤◌};
ghost use Rattle.numeric.specs.Root.{root_of};
ghost use Rattle.numeric.specs.Digits.{digits_tried, digits_of};

use crate::root::{nearest_root, scale};

// How many of the 54 digits of √(n * 2^54) are tried. If n is a square, a is its root, whose digits are then all that the longer root has; they are 27 with the zeros at their end.
fn tried(n: u64, a: u64) -> u64
    requires bound { 2 ^ 52 ≤ n }
    requires n_bound { n < 2 ^ 54 }
    requires a_bound { a < 2 ^ 27 }
    requires by_index { (b : ℕ) → b * b ≡ n → a ≡ b }
    ensures { result ≡ digits_tried (n * 2 ^ 54) }
{
    if a * a == n {
        27 - u64::trailing_zeros(a) as u64
    } else {
        54
    }
}

// How many digits of x's root are tried. The root is asked for again, and not handed over: the compiler makes one of two calls that read and write nothing, and as `nearest_root` has two
// callers, it stays a function, and `sqrt` so small that it goes into its callers, where a count that nobody asks for falls away (docs/PERFORMANCE.md).
fn digits(x: f64) -> u64
    ensures { result ≡ digits_of x }
{
    if x > 0.0 && x < f64::INFINITY {
        let s = scale(x);
        let upper = f64::to_bits(nearest_root(x)) % 0x10_0000_0000_0000 / 0x400_0000;
        tried(s.radicand(), upper + 0x400_0000)
    } else {
        0
    }
}

// A root, and how many of its binary digits are tried.
#[derive(Clone, Copy, Debug, PartialEq)]
pub struct SquareRoot {
    pub root: f64,
    pub digits: u64,
}

// The square root of x, correctly rounded, and its digits.
pub fn sqrt(x: f64) -> SquareRoot
    ensures root_value { result.root ≡ root_of x }
    ensures digits_value { result.digits ≡ digits_of x }
{
    SquareRoot {
        root: nearest_root(x),
        digits: digits(x),
    }
}
