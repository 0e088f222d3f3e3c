// Taking up a text over lent words.
// Kept: (a) the C interface hands each list as a pointer and a length.
ghost use Rattle.std.specs.Prelude.{◌≡◌, cond, eqb};
ghost use Rattle.trcf.specs.View.{lent};
ghost use Rattle.snapshot_restore.specs.Told.{row_told, line_told};
ghost use Rattle.capi.specs.Restore.{restore_called, restore_at};

use crate::head::{HEAD_WORDS, write_head};
use access::rights::{Right, may};
use access::snapshots::restore;
use refusal::Refusal;
use snapshot_restore::restore::RestoreError;

// The row of a text that is not taken up, and the bad line into its place, where the form has one.
fn tell_refused(place: &mut u64, error: RestoreError) -> u64
    ensures row_value { result ≡ row_told error }
    ensures place_after { place.new ≡ cond (eqb (row_told error) 19) (line_told error) place.old }
{
    let refusal = error.refusal();
    if matches!(refusal, Refusal::Form) {
        *place = error.line() as u64;
    }
    u64::from(refusal)
}

// The preprocessor of a text that holds the codes expected: the head into its words, the lists filled. 19 with the bad line, 27 where the codes differ, 20
// where a lent part is too short: nothing else is written.
#[unsafe(no_mangle)]
pub extern "C" fn veerycouch_restore(
    table: &[u8],
    role: u64,
    text: &[u8],
    codes: &[u16],
    head: &mut [u64],
    statistics: &mut [f64],
    last_shingled_input: &mut [f32],
    last_shingled_point: &mut [f32],
    previous_timestamps: &mut [u64],
    initial_values: &mut [f32],
    initial_timestamps: &mut [u64],
    line: &mut u64,
) -> u64
    ensures { restore_called result head.new
        (lent statistics.new last_shingled_input.new last_shingled_point.new previous_timestamps.new initial_values.new initial_timestamps.new) line.new
        ≡ restore_at table.now role text.now codes.now head.old
        (lent statistics.old last_shingled_input.old last_shingled_point.old previous_timestamps.old initial_values.old initial_timestamps.old) line.old }
{
    if !may(table, role, Right::RESTORE) {
        return u64::from(Refusal::Withheld);
    }
    if head.len() < HEAD_WORDS {
        let mut numbers = [0.0f64; 1];
        let mut input = [0.0f32; 1];
        let mut point = [0.0f32; 1];
        let mut times = [0u64; 1];
        let mut values = [0.0f32; 1];
        let mut initial = [0u64; 1];
        let few = restore(
            table,
            role,
            text,
            codes,
            &mut numbers[..0],
            &mut input[..0],
            &mut point[..0],
            &mut times[..0],
            &mut values[..0],
            &mut initial[..0],
        );
        return match few {
            // no state fits into lists of nothing
            Ok(_) => 0,
            Err(error) => tell_refused(line, error),
        };
    }
    let taken = restore(
        table,
        role,
        text,
        codes,
        statistics,
        last_shingled_input,
        last_shingled_point,
        previous_timestamps,
        initial_values,
        initial_timestamps,
    );
    match taken {
        Ok(after) => {
            write_head(head, after);
            0
        }
        Err(error) => tell_refused(line, error),
    }
}
