// The square roots of a whole list, in its own place.
ghost use Rattle.std.specs.Prelude.{◌≡◌, map};
ghost use Rattle.numeric.specs.Root.{root_of};

use crate::guesses::near_each;
use crate::root::root_near;

// Each number becomes its root. The guesses are made first, side by side, and then each root is found from its own; from another's, past 32, where a guess that is wrong costs time and nothing else.
pub fn sqrt_each(x: &mut [f64])
    ensures { x.new ≡ map root_of x.old }
{
    let mut c = [0.0f64; 32];
    near_each(x, &mut c);
    for i in 0..x.len() {
        x[i] = root_near(x[i], c[i % 32]);
    }
}
