// Guesses at the roots of a list, by float arithmetic. Nothing is said of how near they are, and nothing relies on it: `root_near` takes a guess only where it shows that it is right.
use crate::root::root_by_newton;

// A number near the root of x's digits, which are 1 to 4 with an even exponent; of anything where x is not above zero. There is no branch in it, so that the compiler works out two numbers
// at a time.
fn near(x: f64) -> f64 {
    let v = if x > 0.0 { x } else { 1.0 };
    let b = f64::to_bits(v) % 0x8000_0000_0000_0000;
    let even = (b + 0x10_0000_0000_0000) / 0x20_0000_0000_0000 * 0x20_0000_0000_0000;
    root_by_newton(b + 0x4000_0000_0000_0000 - even)
}

// A guess for each of the first 32 numbers, two at a time; where they are odd in number, none for the last.
pub(crate) fn near_each(x: &[f64], c: &mut [f64; 32]) {
    for (c, x) in c
        .as_chunks_mut::<2>()
        .0
        .iter_mut()
        .zip(x.as_chunks::<2>().0)
    {
        *c = [near(x[0]), near(x[1])];
    }
}
