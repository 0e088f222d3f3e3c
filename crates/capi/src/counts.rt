// How many lists of calls leave the initial values waiting, drained or stranded: it takes no preprocessor.
ghost use Rattle.std.specs.Prelude.{◌≡◌};
ghost use Rattle.stranding.specs.Counts.{row_counts};
ghost use Rattle.capi.specs.Counts.{strandings_at};

use stranding::strandings;

// The three numbers, or row 25.
#[unsafe(no_mangle)]
pub extern "C" fn veerycouch_strandings(
    start: u64,
    calls: u64,
    waiting: &mut u64,
    drained: &mut u64,
    stranded: &mut u64,
) -> u64
    ensures { row_counts result waiting.new drained.new stranded.new ≡ strandings_at start calls waiting.old drained.old stranded.old }
{
    match strandings(start, calls) {
        Ok(counts) => {
            *waiting = counts.waiting;
            *drained = counts.drained;
            *stranded = counts.stranded;
            0
        }
        Err(refusal) => u64::from(refusal),
    }
}
