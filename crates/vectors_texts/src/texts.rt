// Replays the texts of the kinds snapshot and near. One that is taken up is saved again as the same bytes, but for a line of zero codes that it
// lacks; any other is refused by its row, at its line, and what was lent stays as it was.
use crate::announced::{Announced, Placed, Refused, first_text, read_announced};
use crate::saved::{INITIAL_VALUES, expect_rest_untouched, expect_saved};
use reading::room;
use snapshot_restore::restore::{RestoreError, restore};
use std::rt::Files;
use trcf::head::Preprocessor;
use vectors_core::fields::Differs;
use vectors_core::memory::Memory;
use vectors_core::tally::{Named, Tally, read_file};

// Takes up a text, into memory that holds something else.
fn restored(
    text: &[u8],
    wanted: &Announced,
    memory: &mut Memory<INITIAL_VALUES>,
) -> Result<Result<Preprocessor, RestoreError>, Differs> {
    memory.forget();
    let (times, _) = memory
        .times
        .split_at_mut_checked(wanted.times)
        .ok_or(Differs)?;
    Ok(restore(
        text,
        &wanted.codes,
        &mut memory.statistics,
        &mut memory.inputs,
        &mut memory.point,
        times,
        &mut memory.initial_values,
        &mut memory.initial_timestamps,
    ))
}

fn replay_text(placed: Placed<'_>, memory: &mut Memory<INITIAL_VALUES>) -> Result<(), Differs> {
    let wanted = read_announced(placed, memory.times.len())?;
    match (restored(placed.text, &wanted, memory)?, wanted.refused) {
        (Ok(head), None) => {
            expect_rest_untouched(head, memory)?;
            expect_saved(placed.text, head, memory, wanted.times)
        }
        (Err(error), Some(refused)) if Refused::from(error) == refused => memory.expect_untouched(),
        _ => Err(Differs),
    }
}

// Every text of the file, in order. Behind one that has no place in it the file is not read.
pub(crate) fn replay_file(rt: &(impl Files + Print + Eprint), name: &str) {
    let mut file = room();
    let n = read_file(rt, name, &mut file);
    let mut memory = Memory::<INITIAL_VALUES>::new();
    let mut tally = Tally::new();
    let mut rest = &file[..n];
    for number in 1..u64::MAX {
        let Some(letter) = rest.first() else {
            break;
        };
        let line = Named {
            number,
            letter: *letter,
        };
        match first_text(rest) {
            Ok(placed) => {
                let agrees = replay_text(placed, &mut memory).is_ok();
                tally.count(line, agrees);
                rest = placed.behind;
            }
            Err(_) => {
                tally.count(line, false);
                break;
            }
        }
    }
    tally.report(rt, name);
}
