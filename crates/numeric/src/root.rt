// The square root of an f64, in whole numbers. x is m * 2^(e - 1126), and its root comes from that of m * 2^54 or 2 m * 2^54, a number of 54 binary digits, with one digit more
// that says whether anything is left (`halves`). `nearest_root` needs its 53 rounded digits only: it guesses them by float arithmetic, on which nothing relies, and takes a guess, moved by one
// at most, whose square shows that it is right; for any other guess it finds the root by a division.
ghost use Rattle.std.specs.Prelude.{◌≡◌, ◌+◌, ◌*◌, ◌%◌, ◌^◌, ◌<◌, ◌≤◌, T, IfSome};
ghost use Rattle.std.specs.Float.Ieee.Nearest.{closest};
ghost use Rattle.numeric.specs.Root.{positive, halves, rooted, root_of};
ghost use Rattle.numeric.specs.Steps.Scaled.{IsScaled};

use crate::rounding::nearest;

// m and e of x = m * 2^(e - 1126), with an m of 53 binary digits.
#[derive(Clone, Copy)]
pub(crate) struct Scaled {
    pub(crate) m: u64,
    pub(crate) e: u64,
    ghost low: { 2 ^ 52 ≤ m },
    ghost high: { m < 2 ^ 53 },
    ghost room: { e < 2098 },
}

impl Scaled {
    // m or 2 m, whose root in whole numbers is x's but for a power of two.
    pub(crate) fn radicand(self) -> u64
        ensures value { result ≡ self.m * (1 + self.e % 2) }
        ensures bound { 2 ^ 52 ≤ result }
        ensures upper_bound { result < 2 ^ 54 }
    {
        self.m * (1 + self.e % 2)
    }
}

// x as m * 2^(e - 1126).
pub(crate) fn scale(x: f64) -> Scaled
    requires { T (positive x) }
    ensures { IsScaled x result.m result.e }
{
    let b = f64::to_bits(x);
    let field = b / 0x10_0000_0000_0000;
    let t = b % 0x10_0000_0000_0000;
    if field == 0 {
        let z = u64::leading_zeros(t) as u64;
        return Scaled {
            m: t << (z - 11),
            e: 63 - z,
        };
    }
    Scaled {
        m: t + 0x10_0000_0000_0000,
        e: field + 51,
    }
}

// The f64 nearest to the root of s, from its 53 rounded digits.
fn assembled(s: Scaled, low: u64) -> f64
    requires { low ≡ closest (halves (s.m * (1 + s.e % 2) * 2 ^ 54)) 4 }
    ensures { result ≡ rooted (s.m * 2 ^ (s.e + 1022)) }
{
    f64::from_bits((s.e / 2 + 485) * 0x10_0000_0000_0000 + low)
}

// From a number near 1 / √(2 * h) to a nearer one. The three products do not wait for each other, as they would in y * (1.5 - h * y * y).
fn newton(h: f64, y: f64) -> f64 {
    y * 1.5 - h * y * (y * y)
}

// A number near the root of the f64 with the bits b, of 1 to 4, by Newton's iteration for 1 / √x from a guess by the bits. Nothing is said of how near.
pub(crate) fn root_by_newton(b: u64) -> f64
    requires { b < 0x4010_0000_0000_0000 }
{
    let x = f64::from_bits(b);
    let h = x * 0.5;
    let mut y = f64::from_bits(0x5fe6_eb50_c7b5_37a9 - b / 2);
    y = newton(h, y);
    y = newton(h, y);
    y = newton(h, y);
    let s = x * y;
    // the last step is made on the root itself, since a product by 1 / √x would add a rounding
    s + y * 0.5 * (x - s * s)
}

// The 53 digits of a number above zero.
fn digits_of(t: f64) -> Option<u64>
    ensures { IfSome result (λ d. (2 ^ 52 ≤ d) × (d < 2 ^ 53)) }
{
    if t > 0.0 {
        Some(f64::to_bits(t) % 0x10_0000_0000_0000 + 0x10_0000_0000_0000)
    } else {
        None
    }
}

// A number near √(radicand * 2^52).
fn guess(s: Scaled) -> u64
    ensures { (2 ^ 52 ≤ result) × (result < 2 ^ 53) }
{
    let b = (1023 + s.e % 2) * 0x10_0000_0000_0000 + s.m % 0x10_0000_0000_0000;
    digits_of(root_by_newton(b)).unwrap_or(0x10_0000_0000_0000)
}

// What c * c leaves of n * 2^52, and 2^60 more, so that it is above zero also where c is too large; none where a step of one may not mend c. With c = a * 2^26 + l it is
// ((n - a * a) * 2^26 - 2 * a * l) * 2^26 - l * l, and each bracket is small where c is near, so that the words hold it.
fn remainder(n: u64, c: u64) -> Option<u64>
    requires n_bound { n < 2 ^ 54 }
    requires bound { 2 ^ 52 ≤ c }
    requires c_bound { c < 2 ^ 53 }
    ensures c_value { IfSome result (λ w. w + c * c ≡ n * 2 ^ 52 + 2 ^ 60) }
    ensures bound_2 { IfSome result (λ w. 2 ^ 60 + 2 < w + c * 3) }
    ensures upper_bound { IfSome result (λ w. w ≤ 2 ^ 60 + c * 3 + 2) }
{
    let a = c / 0x400_0000;
    let l = c % 0x400_0000;
    // 2^30 more, which `cross` takes away again, and 2^8 more, which are the 2^60
    let top = n + 0x4000_0100;
    let square = a * a;
    if top < square {
        return None;
    }
    let d = top - square;
    if d >= 0x8000_0000 {
        return None;
    }
    let high = d * 0x400_0000;
    let cross = a * l * 2 + 0x100_0000_0000_0000;
    if high < cross {
        return None;
    }
    let v = high - cross;
    if v > 0x4_0000_0000 + a * 3 {
        return None;
    }
    if v + a * 2 <= 0x4_0000_0000 {
        return None;
    }
    Some(v * 0x400_0000 - l * l)
}

// The whole number nearest to √(n * 2^52), if c is so near that it is c or next to c. It is the r with r * r - r < n * 2^52 <= r * r + r.
fn mended(n: u64, c: u64) -> Option<u64>
    requires n_bound { n < 2 ^ 54 }
    requires bound { 2 ^ 52 ≤ c }
    requires c_bound { c < 2 ^ 53 }
    ensures { IfSome result (λ r. r ≡ closest (halves (n * 2 ^ 54)) 4) }
{
    let w = remainder(n, c)?;
    // no branches, since a guess is often off by one
    let up = u64::from(0x1000_0000_0000_0000 + c < w);
    let down = u64::from(w + c <= 0x1000_0000_0000_0000);
    Some(c + up - down)
}

// s, or the next number below it whose square is not above n.
fn lowered(n: u64, s: u64) -> u64
    requires { s < 2 ^ 27 }
    ensures { result * result ≤ n }
{
    let mut r = s;
    while n < r * r {
        r -= 1;
    }
    r
}

// The largest number from s on whose square is not above n.
fn raised(n: u64, s: u64) -> u64
    requires n_bound { n < 2 ^ 54 }
    requires s_bound { s * s ≤ n }
    ensures { (result * result ≤ n) × (n < (result + 1) * (result + 1)) }
{
    let mut r = s;
    while (r + 1) * (r + 1) <= n {
        r += 1;
    }
    r
}

// √n without its fraction: the guess s, moved down or up until it is that.
fn small_root(n: u64, s: u64) -> u64
    requires n_bound { n < 2 ^ 54 }
    requires s_bound { s < 2 ^ 27 }
    ensures { (result * result ≤ n) × (n < (result + 1) * (result + 1)) }
{
    raised(n, lowered(n, s))
}

// √(n * 2^54) in halves, from a guess at √n: its 27 upper digits are those of √n, and one division gives the 27 lower, one too many at most.
fn fast_halves(n: u64, near: u64) -> u64
    requires bound { 2 ^ 52 ≤ n }
    requires n_bound { n < 2 ^ 54 }
    requires near_bound { near < 2 ^ 27 }
    ensures { result ≡ halves (n * 2 ^ 54) }
{
    let s = small_root(n, near);
    let d = (n - s * s) * 0x800_0000;
    let low = d / (s * 2);
    let left = d % (s * 2) * 0x800_0000;
    let square = low * low;
    let q = s * 0x800_0000 + low;
    // no branches, since each answer is as likely
    let over = u64::from(left < square);
    let rest = u64::from(left != square);
    (q - over) * 2 + rest
}

// The root of s to 53 digits: the guess, mended, and the division only for a guess too far off, of which none is known.
fn rounded(s: Scaled) -> u64
    ensures { result ≡ closest (halves (s.m * (1 + s.e % 2) * 2 ^ 54)) 4 }
{
    let n = s.radicand();
    let c = guess(s);
    match mended(n, c) {
        Some(digits) => digits,
        None => nearest(fast_halves(n, c / 0x400_0000), 2),
    }
}

// The f64 nearest to the square root of x.
pub(crate) fn nearest_root(x: f64) -> f64
    ensures { result ≡ root_of x }
{
    if x > 0.0 {
        if x < f64::INFINITY {
            let s = scale(x);
            assembled(s, rounded(s))
        } else {
            x
        }
    } else {
        if x == 0.0 {
            return x;
        }
        f64::NAN
    }
}

// The root of s to 53 digits, if they are those of t or next to them.
fn digits_near(s: Scaled, t: f64) -> Option<u64>
    ensures { IfSome result (λ r. r ≡ closest (halves (s.m * (1 + s.e % 2) * 2 ^ 54)) 4) }
{
    mended(s.radicand(), digits_of(t)?)
}

// The same as `nearest_root`, from a guess t at the root's digits. The bound is not the infinity: the compiler makes a slow test of the class out of that.
pub(crate) fn root_near(x: f64, t: f64) -> f64
    ensures { result ≡ root_of x }
{
    if x > 0.0 && x < 1e300 {
        let s = scale(x);
        if let Some(low) = digits_near(s, t) {
            return assembled(s, low);
        }
    }
    nearest_root(x)
}
