// Writing a snapshot into lent bytes, field by field (document 01, 'Trace text'). Each function stores its bytes from the place `at` on
// and returns the place after them.
// Kept: (d) a writer struct would hold the lent bytes and the place: lent mutably, it would need a clause on its loan in each contract beside `Wrote`.
ghost use Rattle.std.specs.Prelude.{◌≡◌, ℕ, List, [], ◌∷◌, ◌++◌, map, ◌+◌, ◌*◌, ◌≤◌, ◌<◌, length};
ghost use Rattle.std.specs.Float.{binary32, binary64};
ghost use Rattle.std.specs.Float.Ieee.{to_bits};
ghost use Rattle.trcf.specs.View.{settings_of};
ghost use Rattle.snapshot.specs.Text.{whole, digit, hex, float, bytes_of, singles, set_line, chn_line, cnt_line, dev_line, dev_lines, tim_line, buf_line, buf_lines};
ghost use Rattle.snapshot.specs.Read.{bytes_of_line};
ghost use Rattle.snapshot.specs.Steps.Write.{Wrote, tabbed};

use trcf::head::Preprocessor;

// A lower-case hexadecimal digit.
fn hex_digit(n: u64) -> u8
    requires { n < 16 }
    ensures { result ≡ digit n }
{
    if n < 10 {
        (48 + n) as u8
    } else {
        (87 + n) as u8
    }
}

// The lowest w hexadecimal digits of n, the last one first.
fn write_hex(out: &mut [u8], at: usize, w: usize, n: u64) -> usize
    requires { at + w ≤ length out.old }
    ensures { Wrote at (hex w n) out.old result out.new }
{
    let mut m = n;
    for i in (0..w).rev() {
        out[at + i] = hex_digit(m % 16);
        m /= 16;
    }
    at + w
}

// How many decimal digits n has.
pub(crate) fn whole_length(n: u64) -> usize
    ensures value { result ≡ length (whole n) }
    ensures upper_bound { result ≤ 20 }
{
    let mut l: usize = 1;
    let mut m = n;
    while 10 <= m {
        m /= 10;
        l += 1;
    }
    l
}

// n in decimal, the last digit first.
fn write_whole(out: &mut [u8], at: usize, n: u64) -> usize
    requires { at + length (whole n) ≤ length out.old }
    ensures { Wrote at (whole n) out.old result out.new }
{
    let l = whole_length(n);
    let mut m = n;
    for i in (1..l).rev() {
        out[at + i] = (48 + m % 10) as u8;
        m /= 10;
    }
    out[at] = (48 + m) as u8;
    at + l
}

// One byte.
pub(crate) fn write_byte(out: &mut [u8], at: usize, b: u8) -> usize
    requires { at + 1 ≤ length out.old }
    ensures { Wrote at (b ∷ []) out.old result out.new }
{
    out[at] = b;
    at + 1
}

// The name of a line.
fn write_name(out: &mut [u8], at: usize, name: [u8; 3]) -> usize
    requires { at + 3 ≤ length out.old }
    ensures { Wrote at name out.old result out.new }
{
    let p = write_byte(out, at, name[0]);
    let q = write_byte(out, p, name[1]);
    write_byte(out, q, name[2])
}

// What is written into a field.
pub(crate) trait Cell: Copy {
    // Its bytes.
    ghost text: { Self → List ℕ };

    fn write(self, out: &mut [u8], at: usize) -> usize
        requires { at + length (text self) ≤ length out.old }
        ensures { Wrote at (text self) out.old result out.new };
}

impl Cell for u64 {
    ghost text = { whole };

    fn write(self, out: &mut [u8], at: usize) -> usize {
        write_whole(out, at, self)
    }
}

impl Cell for f32 {
    ghost text = { float binary32 };

    fn write(self, out: &mut [u8], at: usize) -> usize {
        write_hex(out, at, 8, numeric::single_bits(self))
    }
}

impl Cell for f64 {
    ghost text = { float binary64 };

    fn write(self, out: &mut [u8], at: usize) -> usize {
        write_hex(out, at, 16, numeric::double_bits(self))
    }
}

// A field after its tab.
pub(crate) fn tab<T: Cell>(out: &mut [u8], at: usize, x: T) -> usize
    requires { at + length (9 ∷ T.text x) ≤ length out.old }
    ensures { Wrote at (9 ∷ T.text x) out.old result out.new }
{
    let p = write_byte(out, at, 9);
    x.write(out, p)
}

// Fields of one kind, each after its tab.
pub(crate) fn tabs<T: Cell>(out: &mut [u8], at: usize, v: &[T]) -> usize
    requires { at + length (tabbed (map T.text v.now)) ≤ length out.old }
    ensures { Wrote at (tabbed (map T.text v.now)) out.old result out.new }
{
    let mut p = at;
    for x in v {
        p = tab(out, p, *x);
    }
    p
}

// A line of a name and fields of one kind.
fn list_line<T: Cell>(out: &mut [u8], at: usize, name: [u8; 3], v: &[T]) -> usize
    requires { at + length (name ++ (tabbed (map T.text v.now) ++ (10 ∷ []))) ≤ length out.old }
    ensures { Wrote at (name ++ (tabbed (map T.text v.now) ++ (10 ∷ []))) out.old result out.new }
{
    let p = write_name(out, at, name);
    let q = tabs(out, p, v);
    write_byte(out, q, 10)
}

// A line of f32: `wgt`, `inp`, `pnt`.
pub(crate) fn singles_line(out: &mut [u8], at: usize, name: [u8; 3], v: &[f32]) -> usize
    requires { at + length (bytes_of_line (singles name v.now)) ≤ length out.old }
    ensures { Wrote at (bytes_of_line (singles name v.now)) out.old result out.new }
{
    list_line(out, at, name, v)
}

// The line of the last times.
pub(crate) fn tim_line(out: &mut [u8], at: usize, v: &[u64]) -> usize
    requires { at + length (bytes_of_line (tim_line v.now)) ≤ length out.old }
    ensures { Wrote at (bytes_of_line (tim_line v.now)) out.old result out.new }
{
    list_line(out, at, *b"tim", v)
}

// The line of the codes.
pub(crate) fn chn_line(out: &mut [u8], at: usize, v: &[u64]) -> usize
    requires { at + length (bytes_of_line (chn_line v.now)) ≤ length out.old }
    ensures { Wrote at (bytes_of_line (chn_line v.now)) out.old result out.new }
{
    list_line(out, at, *b"chn", v)
}

// The line of the counters.
pub(crate) fn cnt_line(out: &mut [u8], at: usize, seen: u64, internal: u64, count: u64) -> usize
    requires { at + length (bytes_of_line (cnt_line seen internal count)) ≤ length out.old }
    ensures { Wrote at (bytes_of_line (cnt_line seen internal count)) out.old result out.new }
{
    let counters = [seen, internal, count];
    list_line(out, at, *b"cnt", &counters[..])
}

// The line of one statistic.
fn dev_line(out: &mut [u8], at: usize, weight: f64, sum: f64, squares: f64) -> usize
    requires { at + 55 ≤ length out.old }
    ensures { Wrote at (bytes_of_line (dev_line weight sum squares)) out.old result out.new }
{
    let statistic = [weight, sum, squares];
    list_line(out, at, *b"dev", &statistic[..])
}

// A line of one initial value and its time.
fn buf_line(out: &mut [u8], at: usize, time: u64, v: &[f32]) -> usize
    requires { at + length (bytes_of_line (buf_line time v.now)) ≤ length out.old }
    ensures { Wrote at (bytes_of_line (buf_line time v.now)) out.old result out.new }
{
    let p = write_name(out, at, *b"buf");
    let q = tab(out, p, time);
    let s = tabs(out, q, v);
    write_byte(out, s, 10)
}

// The line of the settings, with the letter of the mode and the number of the method.
pub(crate) fn set_line(out: &mut [u8], at: usize, head: Preprocessor) -> usize
    requires { at + length (bytes_of_line (set_line (settings_of head))) ≤ length out.old }
    ensures { Wrote at (bytes_of_line (set_line (settings_of head))) out.old result out.new }
{
    let mode = head.forest_mode;
    let kind = head.transformer.transform_method;
    let letter = u8::from(mode);
    let method = u64::from(kind);
    let wholes = [
        method,
        head.transformer.input_length as u64,
        head.shingle_size as u64,
        head.start_normalization as u64,
        head.stop_normalization as u64,
    ];
    let p = write_name(out, at, *b"set");
    let q = write_byte(out, p, 9);
    let s = write_byte(out, q, letter);
    let t = tabs(out, s, &wholes[..]);
    let u = tab(out, t, head.transformer.transform_decay);
    let v = tab(out, u, head.weight_time);
    write_byte(out, v, 10)
}

// The lines of the statistics, three numbers each.
pub(crate) fn dev_lines(out: &mut [u8], at: usize, v: &[f64]) -> usize
    requires { at + length (bytes_of (dev_lines v.now)) ≤ length out.old }
    ensures { Wrote at (bytes_of (dev_lines v.now)) out.old result out.new }
{
    let mut p = at;
    for i in 0..v.len() / 3 {
        let k = i * 3;
        p = dev_line(out, p, v[k], v[k + 1], v[k + 2]);
    }
    p
}

// The lines of the initial values, d numbers each.
pub(crate) fn buf_lines(out: &mut [u8], at: usize, d: usize, v: &[f32], times: &[u64]) -> usize
    requires d_in_bounds { length times.now * d ≤ length v.now }
    requires times_in_bounds { at + length (bytes_of (buf_lines d v.now times.now)) ≤ length out.old }
    ensures { Wrote at (bytes_of (buf_lines d v.now times.now)) out.old result out.new }
{
    let mut p = at;
    let mut k = 0;
    for time in times {
        p = buf_line(out, p, *time, &v[k..k + d]);
        k += d;
    }
    p
}
