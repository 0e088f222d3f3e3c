// The numbers that a machine may compute otherwise: a firmware without them, and a clock beside them, may call these.
ghost use Rattle.std.specs.Prelude.{◌≡◌};
ghost use Rattle.numeric.specs.Root.{root_of};
ghost use Rattle.numeric.specs.Digits.{digits_of};
ghost use Rattle.numeric.specs.Narrow.{narrowed};

use numeric::{sqrt, to_f32};

// The square root, rounded once.
#[unsafe(no_mangle)]
pub extern "C" fn veerycouch_sqrt(x: f64) -> f64
    ensures { result ≡ root_of x }
{
    sqrt(x).root
}

// How many binary digits of the square root are tried, one after the other from the top.
#[unsafe(no_mangle)]
pub extern "C" fn veerycouch_sqrt_digits(x: f64) -> u64
    ensures { result ≡ digits_of x }
{
    sqrt(x).digits
}

// The nearest f32.
#[unsafe(no_mangle)]
pub extern "C" fn veerycouch_to_f32(x: f64) -> f32
    ensures { result ≡ narrowed x }
{
    to_f32(x)
}
