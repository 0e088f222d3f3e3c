// Two lists of readings compared: paired from both fronts by their times, and the largest size of difference per channel.
ghost use Rattle.std.specs.Prelude.{◌≡◌, ◌+◌, ◌*◌, ◌≤◌, [], length, OnOk, MatchOption};
ghost use Rattle.std.specs.Result.{result_unwrap_or};
ghost use Rattle.refusal.specs.Refusal.{row_of};
ghost use Rattle.refusal.specs.Lent.{over};
ghost use Rattle.series.specs.Pairs.{lefts, rights, pairs};
ghost use Rattle.series.specs.Gaps.{difference_size, larger, gaps};
ghost use Rattle.series.specs.Alignment.{channel_limit, readings_misshapen, unusable, readings, outputs, align_outcome, align_of};
ghost use Rattle.series.specs.Steps.AlignmentRows.{readings_row, room_row, ReadingsShaped, RoomForPairs};
ghost use Rattle.series.specs.Steps.Comparing.{widened};
ghost use Rattle.series.specs.Steps.Walking.{rest, NextPair};

use refusal::Refusal;

// The longest list.
pub const LIMIT: usize = 4096;
// The largest number of channels.
pub const CHANNEL_LIMIT: u64 = 16;

// ---- the rows

// Whether a list has not d cells for each time.
fn is_misshapen(d: usize, cells: usize, times: &[u64]) -> bool
    requires { d ≤ channel_limit }
    ensures { result ≡ readings_misshapen d cells (length times.now) }
{
    cells != times.len() * d
}

// Whether a list is over the limit, or has a time below the one before it.
fn is_unusable(times: &[u64]) -> bool
    ensures { result ≡ unusable times.now }
{
    LIMIT < times.len() || !times.is_sorted()
}

// Rows 2, 4, 10 and 24. d is judged before it is narrowed.
fn readings_row(
    d: u64,
    left_cells: usize,
    left_times: &[u64],
    right_cells: usize,
    right_times: &[u64],
) -> Result<(), Refusal>
    ensures value { row_of result ≡ readings_row d left_cells left_times.now right_cells right_times.now }
    ensures readings_shaped { OnOk result (ReadingsShaped d left_cells (length left_times.now) right_cells (length right_times.now)) }
{
    if d == 0 {
        return Err(Refusal::NoChannels);
    }
    if CHANNEL_LIMIT < d {
        return Err(Refusal::TooLarge);
    }
    let channels = d as usize;
    if is_misshapen(channels, left_cells, left_times)
        || is_misshapen(channels, right_cells, right_times)
    {
        return Err(Refusal::InputLength);
    }
    if is_unusable(left_times) || is_unusable(right_times) {
        return Err(Refusal::AlignTimes);
    }
    Ok(())
}

// Row 20: an output is shorter than what is to be written.
fn room_row(
    d: u64,
    number: u64,
    left_out: usize,
    right_out: usize,
    gaps_out: usize,
) -> Result<(), Refusal>
    ensures value { row_of result ≡ room_row d number left_out right_out gaps_out }
    ensures room_for_pairs { OnOk result (RoomForPairs d number left_out right_out gaps_out) }
{
    if (left_out as u64) < number || (right_out as u64) < number || (gaps_out as u64) < d {
        Err(Refusal::TooShort)
    } else {
        Ok(())
    }
}

// ---- the pairs, one after the other

// A place in either list: of a pair, or of the fronts of what is behind it.
#[derive(Clone, Copy)]
struct Places {
    left: usize,
    right: usize,
}

// The first pair from the fronts on: if the times at the fronts differ by at most the tolerance they are paired, otherwise the earlier is skipped.
// Kept: (d) a turn moves one of two fronts, by what stands at both: no iterator of std walks two lists so.
fn next_pair(left: &[u64], right: &[u64], tolerance: u64, front: Places) -> Option<Places>
    ensures { MatchOption result (rest tolerance left.now right.now front.left front.right ≡ [])
        (λ p. NextPair tolerance left.now right.now front.left front.right p.left p.right) }
{
    let mut i = front.left;
    let mut j = front.right;
    while i < left.len() && j < right.len() {
        let x = left[i];
        let y = right[j];
        if x.abs_diff(y) <= tolerance {
            return Some(Places { left: i, right: j });
        }
        if x < y {
            i += 1;
        } else {
            j += 1;
        }
    }
    None
}

// ---- one pass to count

// Kept: (d) `while let`, here and in `write_pairs`: an `impl Iterator for Pairs` over `next_pair` was written out. Its struct, `new`, `next` and two ghosts are 40 lines;
// the two loops lose ten.
fn count_pairs(left: &[u64], right: &[u64], tolerance: u64) -> u64
    ensures { result ≡ length (pairs tolerance left.now right.now) }
{
    let mut n: u64 = 0;
    let mut front = Places { left: 0, right: 0 };
    while let Some(pair) = next_pair(left, right, tolerance, front) {
        n += 1;
        front = Places {
            left: pair.left + 1,
            right: pair.right + 1,
        };
    }
    n
}

// ---- one pass to write

// The size of the difference of two cells, which is never -0; a not-a-number counts as infinity.
fn size(x: f32, y: f32) -> f32
    ensures { result ≡ difference_size x y }
{
    let z = x - y;
    if z > 0.0 {
        return z;
    }
    if z < 0.0 {
        return -z;
    }
    if z == 0.0 {
        return 0.0;
    }
    f32::INFINITY
}

fn larger_of(g: f32, s: f32) -> f32
    ensures { result ≡ larger g s }
{
    if g < s { s } else { g }
}

// Takes the sizes of one pair in: its readings' cells begin at a and at b.
fn widen(gaps: &mut [f32], left: &[f32], a: usize, right: &[f32], b: usize)
    requires gaps_in_bounds { a + length gaps.old ≤ length left.now }
    requires gaps_in_bounds_2 { b + length gaps.old ≤ length right.now }
    ensures { gaps.new ≡ widened left.now a right.now b gaps.old }
{
    for c in 0..gaps.len() {
        gaps[c] = larger_of(gaps[c], size(left[a + c], right[b + c]));
    }
}

// The pairs' positions stand at the fronts of left_out and right_out in the end; gaps is d long and begins with zeros.
fn write_pairs(
    left: &[f32],
    left_times: &[u64],
    right: &[f32],
    right_times: &[u64],
    tolerance: u64,
    left_out: &mut [u64],
    right_out: &mut [u64],
    gaps_out: &mut [f32],
)
    requires left_len { length left.now ≡ length left_times.now * length gaps_out.old }
    requires right_len { length right.now ≡ length right_times.now * length gaps_out.old }
    requires right_times_in_bounds { length (pairs tolerance left_times.now right_times.now) ≤ length left_out.old }
    requires right_times_in_bounds_2 { length (pairs tolerance left_times.now right_times.now) ≤ length right_out.old }
    ensures left_out_after { left_out.new ≡ over left_out.old (lefts (pairs tolerance left_times.now right_times.now)) }
    ensures right_out_after { right_out.new ≡ over right_out.old (rights (pairs tolerance left_times.now right_times.now)) }
    ensures gaps_out_after { gaps_out.new ≡ gaps (length gaps_out.old) left.now right.now (pairs tolerance left_times.now right_times.now) }
{
    gaps_out.fill(0.0);
    let d = gaps_out.len();
    let mut n: usize = 0;
    let mut front = Places { left: 0, right: 0 };
    while let Some(pair) = next_pair(left_times, right_times, tolerance, front) {
        left_out[n] = pair.left as u64;
        right_out[n] = pair.right as u64;
        widen(gaps_out, left, pair.left * d, right, pair.right * d);
        n += 1;
        front = Places {
            left: pair.left + 1,
            right: pair.right + 1,
        };
    }
}

// Answers the number of pairs. A refusal writes nothing.
pub fn align(
    d: u64,
    left: &[f32],
    left_times: &[u64],
    right: &[f32],
    right_times: &[u64],
    tolerance: u64,
    left_out: &mut [u64],
    right_out: &mut [u64],
    gaps_out: &mut [f32],
) -> Result<u64, Refusal>
    ensures { align_outcome (row_of result) (result_unwrap_or result 0) (outputs left_out.new right_out.new gaps_out.new)
        ≡ align_of d (readings left.now left_times.now) (readings right.now right_times.now) tolerance
        (outputs left_out.old right_out.old gaps_out.old) }
{
    readings_row(d, left.len(), left_times, right.len(), right_times)?;
    let number = count_pairs(left_times, right_times, tolerance);
    room_row(d, number, left_out.len(), right_out.len(), gaps_out.len())?;
    let channels = d as usize;
    write_pairs(
        left,
        left_times,
        right,
        right_times,
        tolerance,
        left_out,
        right_out,
        &mut gaps_out[..channels],
    );
    Ok(number)
}
