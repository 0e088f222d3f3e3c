// Fills in the missing cells of a list of readings, by one of the source's four rules (trcf/types.rs, ImputationMethod). Request #104.
ghost use Rattle.std.specs.Prelude.{◌≡◌, not, ◌&&◌, ◌||◌, ◌+◌, ◌*◌, ◌/◌, ◌≤◌, ◌<◌, length, OnOk};
ghost use Rattle.refusal.specs.Refusal.{row_of};
ghost use Rattle.series.specs.Imputation.{copy_of, interpolated, is_present, between_of, fill_of, cells_misshapen, known_marks, is_finite, finite_present, all_finite, imputed, impute_row, imputation};
ghost use Rattle.series.specs.Imputation.{impute_of, ImputationNumbered};
ghost use Rattle.series.specs.Steps.ImputationSteps.{Under, Above, CellInside, CellsShaped, gap_of, passing, passed_of, channel_of};

use numeric::u64_to_f32;
use refusal::Refusal;

// The most channels, and the most readings of one call.
const DIMENSIONS_LIMIT: u64 = 16;

const READINGS_LIMIT: usize = 2_000;

// The source's USE_RCF is dropped with the forests.
#[derive(Clone, Copy, Debug, PartialEq, Eq)]
pub enum ImputationMethod {
    FIXED,
    PREVIOUS,
    NEXT,
    LINEAR,
}

// The rules by number, in the source's order. A number above 3 names none.
impl TryFrom<u64> for ImputationMethod {
    type Error = Refusal;

    ghost try_from_gives = { ImputationNumbered };

    fn try_from(n: u64) -> Result<Self, Refusal> {
        match n {
            0 => Ok(ImputationMethod::FIXED),
            1 => Ok(ImputationMethod::PREVIOUS),
            2 => Ok(ImputationMethod::NEXT),
            3 => Ok(ImputationMethod::LINEAR),
            _ => Err(Refusal::Form),
        }
    }
}

// A present cell of a channel: its reading, and what stands there. The crates above name it in their proofs.
#[derive(Clone, Copy, Debug, PartialEq)]
pub struct Present {
    pub reading: usize,
    pub value: f32,
}

// One channel of the readings: its number c of d, its fixed value, and the rule that fills it.
#[derive(Clone, Copy)]
struct Channel {
    method: ImputationMethod,
    d: usize,
    c: usize,
    fixed: f32,
}

// The readings of a channel from `start` on that no present cell has closed yet, and the present cell before them.
#[derive(Clone, Copy)]
struct Gap {
    start: usize,
    before: Option<Present>,
}

// ---- one missing cell

fn copied(side: Option<Present>, fixed: f32) -> f32
    ensures { result ≡ copy_of side fixed }
{
    match side {
        Some(present) => present.value,
        None => fixed,
    }
}

// The value p of q steps on the way from a to b.
fn line(a: f32, b: f32, p: usize, q: usize) -> f32
    ensures { result ≡ interpolated a b p q }
{
    a + (b - a) * (u64_to_f32(p as u64) / u64_to_f32(q as u64))
}

fn between(before: Option<Present>, after: Option<Present>, i: usize, fixed: f32) -> f32
    requires { Under before i × Above after i }
    ensures { result ≡ between_of before after i fixed }
{
    match (before, after) {
        (Some(a), Some(b)) => line(a.value, b.value, i - a.reading, b.reading - a.reading),
        (Some(a), None) => a.value,
        (None, _) => copied(after, fixed),
    }
}

fn filled(
    method: ImputationMethod,
    before: Option<Present>,
    after: Option<Present>,
    i: usize,
    fixed: f32,
) -> f32
    requires { Under before i × Above after i }
    ensures { result ≡ fill_of method before after i fixed }
{
    match method {
        ImputationMethod::FIXED => fixed,
        ImputationMethod::PREVIOUS => copied(before, fixed),
        ImputationMethod::NEXT => copied(after, fixed),
        ImputationMethod::LINEAR => between(before, after, i, fixed),
    }
}

// ---- one channel

// Fills the readings of the gap up to `end`, after which `after` stands.
fn fill_gap(ch: Channel, gap: Gap, end: usize, after: Option<Present>, cells: &mut [f32])
    requires cell_inside { CellInside ch end (length cells.old) }
    requires start_le_end { (gap.start ≤ end) × Under gap.before gap.start × Above after end }
    ensures { cells.new ≡ gap_of ch gap end after cells.old }
{
    for j in gap.start..end {
        cells[j * ch.d + ch.c] = filled(ch.method, gap.before, after, j, ch.fixed);
    }
}

// Passes reading i: a present cell closes the gap before it, and the next gap opens after it.
fn passed(ch: Channel, gap: Gap, i: usize, cells: &mut [f32], marks: &[u8]) -> Gap
    requires cell_inside { CellInside ch (i + 1) (length cells.old) × (length marks.now ≡ length cells.old) }
    requires start_le_i { (gap.start ≤ i) × Under gap.before gap.start }
    ensures { passing result cells.new ≡ passed_of ch gap i marks.now cells.old }
{
    let at = i * ch.d + ch.c;
    if marks[at] != 0 {
        return gap;
    }
    let here = Some(Present {
        reading: i,
        value: cells[at],
    });
    fill_gap(ch, gap, i, here, cells);
    Gap {
        start: i + 1,
        before: here,
    }
}

// Each reading is passed once and each missing cell written once, however long the gaps are.
fn impute_channel(ch: Channel, cells: &mut [f32], marks: &[u8])
    requires { (ch.c < ch.d) × (length marks.now ≡ length cells.old) × (length cells.old / ch.d * ch.d ≡ length cells.old) }
    ensures { cells.new ≡ channel_of ch marks.now cells.old }
{
    let n = cells.len() / ch.d;
    let mut gap = Gap {
        start: 0,
        before: None,
    };
    for i in 0..n {
        gap = passed(ch, gap, i, cells, marks);
    }
    fill_gap(ch, gap, n, None, cells);
}

// ---- all channels

fn impute_channels(
    method: ImputationMethod,
    d: usize,
    cells: &mut [f32],
    marks: &[u8],
    fixed: &[f32],
)
    requires { CellsShaped d (length cells.old) (length marks.now) (length fixed.now) }
    ensures { cells.new ≡ imputed method d cells.old marks.now fixed.now }
{
    for c in 0..d {
        let ch = Channel {
            method,
            d,
            c,
            fixed: fixed[c],
        };
        impute_channel(ch, cells, marks);
    }
}

// ---- refusals

fn all_finite(x: &[f32]) -> bool
    ensures { result ≡ all_finite x.now }
{
    x.iter().all(|v| v.is_finite())
}

// Whether every present cell is finite: what stands in a missing one is not asked.
fn present_finite(cells: &[f32], marks: &[u8]) -> bool
    ensures { result ≡ finite_present cells.now marks.now }
{
    cells
        .iter()
        .zip(marks)
        .all(|(x, &mark)| mark != 0 || x.is_finite())
}

// Whether every mark is 0 or 1.
fn marks_known(marks: &[u8]) -> bool
    ensures { result ≡ known_marks marks.now }
{
    marks.iter().all(|&mark| mark < 2)
}

// Row 10: cells, marks and fixed values are not of one shape.
fn is_misshapen(d: usize, cells: usize, marks: usize, fixed: usize) -> bool
    requires { 0 < d }
    ensures { result ≡ cells_misshapen d cells marks fixed }
{
    cells % d != 0 || marks != cells || fixed != d
}

// Rows 2, 4, 10, 21 and 11, in this order. It reads and never writes.
fn impute_row(d: u64, cells: &[f32], marks: &[u8], fixed: &[f32]) -> Result<(), Refusal>
    ensures value { row_of result ≡ impute_row d cells.now marks.now fixed.now }
    ensures cells_shaped { OnOk result (CellsShaped d (length cells.now) (length marks.now) (length fixed.now)) }
{
    if d == 0 {
        return Err(Refusal::NoChannels);
    }
    if DIMENSIONS_LIMIT < d {
        return Err(Refusal::TooLarge);
    }
    let n = d as usize;
    if is_misshapen(n, cells.len(), marks.len(), fixed.len()) {
        return Err(Refusal::InputLength);
    }
    if READINGS_LIMIT < cells.len() / n || !marks_known(marks) {
        return Err(Refusal::ImputeMarks);
    }
    if !present_finite(cells, marks) || !all_finite(fixed) {
        return Err(Refusal::NotFinite);
    }
    Ok(())
}

// ---- the call

// n readings of d cells, reading by reading, in `cells`; a mark for each cell in the same order, 0 present and 1 missing; d fixed values.
// Fills the missing cells in place. A refusal changes nothing.
pub fn impute(
    method: ImputationMethod,
    d: u64,
    cells: &mut [f32],
    marks: &[u8],
    fixed: &[f32],
) -> Result<(), Refusal>
    ensures { imputation (row_of result) cells.new ≡ impute_of method d cells.old marks.now fixed.now }
{
    impute_row(d, cells, marks, fixed)?;
    impute_channels(method, d as usize, cells, marks, fixed);
    Ok(())
}
