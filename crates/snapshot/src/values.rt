// What the lines of a snapshot ask of their times (document 01, 'Trace text').
ghost use Rattle.std.specs.Prelude.{◌≡◌, true, ◌≤◌, length, replicate};
ghost use Rattle.refusal.specs.Lent.{over};
ghost use Rattle.snapshot.specs.Read.{climbs, zeros, all_codes};

// Whether no time falls.
pub fn none_falls(times: &[u64]) -> bool
    ensures { result ≡ climbs 0 times.now }
{
    times.is_sorted()
}

// Whether every time is 0.
pub fn all_zero(times: &[u64]) -> bool
    ensures { result ≡ zeros times.now }
{
    times.iter().all(|t| *t == 0)
}

// Whether every number is a code: 16 bits.
pub(crate) fn codes_fit(w: &[u64]) -> bool
    ensures { result ≡ all_codes w.now }
{
    w.iter().all(|n| *n <= 65535)
}

// The codes in an array, zeros after them.
pub(crate) fn narrowed(w: &[u64]) -> [u16; 16]
    requires w_len_bound { length w.now ≤ 16 }
    requires w_value { all_codes w.now ≡ true }
    ensures { result ≡ over (replicate 16 0) w.now }
{
    let mut a = [0u16; 16];
    for i in 0..w.len() {
        a[i] = w[i] as u16;
    }
    a
}
