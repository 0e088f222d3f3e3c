// Square root of f64, with the digits that it takes, and of each number of a list, and the conversions f64 to f32, f32 to f64, u64 to f64 and u64 to f32,
// correctly rounded (IEEE 754-2019: to nearest, ties to even); and floats as bits. The lowest layer: it knows nothing of what the numbers are for.
#![tactic(auto)]

mod bits;
mod conversion;
mod counted;
mod each;
mod guesses;
mod root;
mod rounding;

pub use bits::{double_bits, double_of, single_bits, single_of};
pub use conversion::{to_f32, to_f64, u64_to_f32, u64_to_f64};
pub use counted::{SquareRoot, sqrt};
pub use each::sqrt_each;
