// What the getters say: the ten numbers of a preprocessor, and the codes of its channels.
ghost use Rattle.std.specs.Prelude.{◌≡◌};
ghost use Rattle.refusal.specs.Refusal.{row_of};
ghost use Rattle.capi.specs.Calls.{list_got, list_told, numbers_told, numbers_at, codes_at};

use crate::codes::tell_codes;
use crate::head::open_head;
use crate::words::mode_number;
use access::getters::numbers;
use access::rights::{Right, may};
use refusal::{Refusal, row_of};
use trcf::head::Status;
use trcf_rows::rows::used;

// The numbers into lent memory, where they fit.
fn tell_numbers(answer: Status, output: &mut [u64]) -> Result<(), Refusal>
    ensures { list_got (row_of result) output.new ≡ list_told (numbers_told answer) output.old }
{
    if output.len() < 10 {
        return Err(Refusal::TooShort);
    }
    output[0] = answer.values_seen as u64;
    output[1] = answer.internal_timestamp as u64;
    output[2] = u64::from(answer.ready);
    output[3] = answer.input_dimensions as u64;
    output[4] = answer.shingle_size as u64;
    output[5] = answer.dimensions as u64;
    output[6] = answer.start_normalization as u64;
    output[7] = u64::from(answer.transform_method);
    output[8] = mode_number(answer.forest_mode);
    output[9] = answer.panel;
    Ok(())
}

// The ten numbers that a preprocessor tells: values_seen, internal_timestamp, is_ready as 0 or 1, input_dimensions, shingle_size, get_dimension,
// start_normalization, the numbers of the method and of the mode, and the panel.
#[unsafe(no_mangle)]
pub extern "C" fn veerycouch_numbers(
    table: &[u8],
    role: u64,
    head: &[u64],
    output: &mut [u64],
) -> u64
    ensures { list_got result output.new ≡ numbers_at table.now role head.now output.old }
{
    let before = match open_head(may(table, role, Right::SEE), head) {
        Ok(before) => before,
        Err(refusal) => return u64::from(refusal),
    };
    match numbers(table, role, before) {
        Ok(answer) => row_of(tell_numbers(answer, output)),
        Err(refusal) => u64::from(refusal),
    }
}

// The codes of the channels, one for each.
#[unsafe(no_mangle)]
pub extern "C" fn veerycouch_codes(table: &[u8], role: u64, head: &[u64], output: &mut [u16]) -> u64
    ensures { list_got result output.new ≡ codes_at table.now role head.now output.old }
{
    let before = match open_head(may(table, role, Right::SEE), head) {
        Ok(before) => before,
        Err(refusal) => return u64::from(refusal),
    };
    let codes = before.codes;
    let n = used(before.transformer.input_length);
    row_of(tell_codes(&codes[..n], output))
}
