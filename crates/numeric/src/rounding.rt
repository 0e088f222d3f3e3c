// The one rounding that everything here is made of: a quotient by a power of two, to nearest, ties to even.
ghost use Rattle.std.specs.Prelude.{◌≡◌, ◌^◌, ◌<◌};
ghost use Rattle.std.specs.Float.Ieee.Nearest.{closest};

// The whole number nearest to m / 2^d, at a tie the even one.
pub(crate) fn nearest(m: u64, d: u64) -> u64
    requires d_nonzero { 0 < d }
    requires d_bound { d < 64 }
    ensures { result ≡ closest m (2 ^ d) }
{
    let u = 1u64 << d;
    let q = m / u;
    let t = m % u * 2;
    // one comparison settles the tie too, and no branch, since either answer is as likely
    let up = u64::from(u < t + q % 2);
    q + up
}

// Kept: (b) `nearest(m, 29)` in its place takes 4.2 instructions more of the 28 of a narrowing, and 4.55 ns for 3.97. The bar that it misses: tools/speed fails
// where `to_f32, independent`, 28 in tools/speed.counts, grows by more than 5 per cent.
// The same at d = 29, which leaves 24 of a double's 53 digits. Half of 2^29 is added, less one, and the quotient's last digit: a carry into the quotient rounds it up.
pub(crate) fn nearest_24(m: u64) -> u64
    requires { m < 2 ^ 63 }
    ensures { result ≡ closest m (2 ^ 29) }
{
    (m + 0xfff_ffff + m / 0x2000_0000 % 2) / 0x2000_0000
}
