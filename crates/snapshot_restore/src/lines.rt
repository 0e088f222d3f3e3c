// Runs of lines of a snapshot (document 01: taking up), one after the other: each is left at its first bad line.
// Kept: (d) a text and a place, as in snapshot/src/piece.rt, which says why.
ghost use Rattle.std.specs.Prelude.{◌≡◌, ◌+◌, ◌*◌, ◌≤◌, ◌<◌, length, drop, IfErr};
ghost use Rattle.snapshot.specs.Steps.Runs.{ran_by, devs, bufs, initial_lists, unkept, parts, parts_by};

use snapshot::head::BadLine;
use snapshot::judge::list_line;
use snapshot::kinds::{buf_line, tim_line};

// n `dev` lines, three numbers each.
fn dev_lines(text: &[u8], at: usize, n: usize, statistics: &mut [f64]) -> Result<usize, BadLine>
    requires statistics_len { length statistics.old ≡ n * 3 }
    requires n_bound { n ≤ 2000 }
    ensures text_after { ran_by result statistics.new text.now ≡ devs n (drop at text.now) }
    ensures bad_le_n { IfErr result (λ bad. bad.line ≤ n) }
{
    let mut p = at;
    'lines: {
        for i in 0..n {
            let from = i * 3;
            let Some(q) = list_line(
                text,
                p,
                [b'd' as u64, b'e' as u64, b'v' as u64],
                &mut statistics[from..from + 3],
            ) else {
                break 'lines Err(BadLine { line: i + 1 });
            };
            p = q;
        }
        Ok(p)
    }
}

// The lines from `dev` to `tim`, each list as long as what is in use of it.
pub(crate) fn part_lines(
    text: &[u8],
    at: usize,
    internal: usize,
    n: usize,
    statistics: &mut [f64],
    input: &mut [f32],
    point: &mut [f32],
    times: &mut [u64],
) -> Result<usize, BadLine>
    requires statistics_len { length statistics.old ≡ n * 3 }
    requires n_bound { n ≤ 2000 }
    ensures text_after { ran_by result (parts statistics.new input.new point.new times.new) text.now ≡
        parts_by internal n (length input.old) (length point.old) (length times.old) (drop at text.now) }
    ensures bad_bound { IfErr result (λ bad. bad.line ≤ n + 3) }
{
    let p = dev_lines(text, at, n, statistics)?;
    let Some(q) = list_line(text, p, [b'i' as u64, b'n' as u64, b'p' as u64], input) else {
        return Err(BadLine { line: n + 1 });
    };
    let Some(r) = list_line(text, q, [b'p' as u64, b'n' as u64, b't' as u64], point) else {
        return Err(BadLine { line: n + 2 });
    };
    let Some(s) = tim_line(text, r, internal, times) else {
        return Err(BadLine { line: n + 3 });
    };
    Ok(s)
}

// n `buf` lines, d numbers each, into lists of that length.
pub(crate) fn buf_lines(
    text: &[u8],
    at: usize,
    d: usize,
    n: usize,
    values: &mut [f32],
    times: &mut [u64],
) -> Result<usize, BadLine>
    requires values_len { length values.old ≡ n * d }
    requires times_len { length times.old ≡ n }
    requires d_bound { d ≤ 16 }
    requires n_bound { n ≤ 2000 }
    ensures { ran_by result (initial_lists values.new times.new) text.now ≡ bufs d n (drop at text.now) }
{
    let mut p = at;
    let mut past = 0;
    'lines: {
        for i in 0..n {
            let from = i * d;
            let Some(line) = buf_line(text, p, past, &mut values[from..from + d]) else {
                break 'lines Err(BadLine { line: i + 1 });
            };
            past = line.time;
            times[i] = past;
            p = line.end;
        }
        Ok(p)
    }
}

// The same lines, of which nothing is kept.
pub(crate) fn buf_lines_unkept(text: &[u8], at: usize, d: usize, n: usize) -> Result<usize, BadLine>
    requires d_bound { d ≤ 16 }
    requires n_bound { n ≤ 2000 }
    ensures text_value { ran_by result tt text.now ≡ unkept (bufs d n (drop at text.now)) }
    ensures bad_le_n { IfErr result (λ bad. bad.line ≤ n) }
{
    let mut values = [0.0f32; 16];
    let mut p = at;
    let mut past = 0;
    'lines: {
        for i in 0..n {
            let Some(line) = buf_line(text, p, past, &mut values[..d]) else {
                break 'lines Err(BadLine { line: i + 1 });
            };
            past = line.time;
            p = line.end;
        }
        Ok(p)
    }
}
