// `save` and `restore`, each for a role that has its right.
ghost use Rattle.std.specs.Prelude.{◌≡◌};
ghost use Rattle.trcf.specs.View.{lent, lent_by};
ghost use Rattle.snapshot.specs.Save.{saved_told};
ghost use Rattle.snapshot_restore.specs.Told.{restore_told};
ghost use Rattle.access.specs.Entries.{save_by, restore_by};

use crate::rights::{Right, demand};
use refusal::Refusal;
use snapshot_restore::restore::RestoreError;
use trcf::head::{LentLists, Preprocessor};

pub fn save(
    table: &[u8],
    role: u64,
    head: Preprocessor,
    lists: LentLists,
    out: &mut [u8],
) -> Result<usize, Refusal>
    ensures { saved_told result out.new ≡ save_by table.now role head (lent_by lists.entry) out.old }
{
    // Withheld, it tells of no text.
    demand(table, role, Right::SAVE)?;
    snapshot_save::save::save(head, lists, out)
}

// Withheld, it does not look at the text.
pub fn restore(
    table: &[u8],
    role: u64,
    text: &[u8],
    codes: &[u16],
    statistics: &mut [f64],
    last_shingled_input: &mut [f32],
    last_shingled_point: &mut [f32],
    previous_timestamps: &mut [u64],
    initial_values: &mut [f32],
    initial_timestamps: &mut [u64],
) -> Result<Preprocessor, RestoreError>
    ensures { restore_told result (lent statistics.new last_shingled_input.new last_shingled_point.new previous_timestamps.new initial_values.new initial_timestamps.new)
        ≡ restore_by table.now role text.now codes.now (lent statistics.old last_shingled_input.old last_shingled_point.old previous_timestamps.old initial_values.old initial_timestamps.old) }
{
    demand(table, role, Right::RESTORE)?;
    snapshot_restore::restore::restore(
        text,
        codes,
        statistics,
        last_shingled_input,
        last_shingled_point,
        previous_timestamps,
        initial_values,
        initial_timestamps,
    )
}
