// Replays calls of `impute`: the rule's number, d, the cells, the marks, the fixed values; then the row and the cells as they are left.
use crate::words::{Tally, Words};
use refusal::row_of;
use series::imputation::{ImputationMethod, impute};
use std::io::Read;

// Room for the lists of a case. Kept: (a) arrays, as long as a case may ask for, since a Vec may run out of memory.
#[derive(Drop)]
struct Room {
    cells: [f32; 32000],
    marks: [u8; 32000],
    fixed: [f32; 20],
}

impl Room {
    // Whether a case's call answers as the file says. A refused one leaves every cell, so all cells are compared in any case.
    fn agrees<F: Read>(&mut self, words: &mut Words<F>) -> Option<bool> {
        let rule = ImputationMethod::try_from(words.next::<u64>()?).ok()?;
        let d = words.next()?;
        let cells = words.list(&mut self.cells)?;
        let marks = words.list(&mut self.marks)?;
        let fixed = words.list(&mut self.fixed)?;
        let answer = impute(rule, d, cells, marks, fixed);
        let row = words.next::<u64>()?;
        let same = words.hold(cells, cells.len(), 0.0);
        Some(row_of(answer) == row && same)
    }
}

pub(crate) fn replay<F: Read>(words: &mut Words<F>) -> Tally {
    let mut room = Room {
        cells: [0.0; 32000],
        marks: [0; 32000],
        fixed: [0.0; 20],
    };
    words.replay(|words| room.agrees(words))
}
