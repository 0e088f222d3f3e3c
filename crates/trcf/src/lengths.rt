// Whether what is lent to a part of a call has the lengths that the part works in. Nothing here writes.
ghost use Rattle.std.specs.Prelude.{◌≡◌, true, ◌+◌, ◌*◌, ◌≤◌, ◌<◌};
ghost use Rattle.common.specs.Deviation.{count_limit};
ghost use Rattle.trcf.specs.Settings.{block};
ghost use Rattle.trcf.specs.Preprocessor.{statistics_length};
ghost use Rattle.trcf.specs.View.{settings_of, Bounded};
ghost use Rattle.trcf.specs.Lengths.{within, time_fits, output_fits, transform_fits, feed_fits};

use crate::head::{Preprocessor, block_of, head_row, statistics_length};
use common::deviation::COUNT_LIMIT;

// Whether n numbers have room.
#[tactic(auto, unfolding(crate::specs::Lengths::within))]
pub(crate) fn is_within(n: usize, room: usize) -> bool
    ensures { result ≡ within n room }
{
    n <= room
}

// Whether n numbers have room from a place on.
#[tactic(auto, unfolding(crate::specs::Lengths::within))]
pub(crate) fn has_room(at: usize, n: usize, room: usize) -> bool
    ensures { result ≡ within (at + n) room }
{
    at <= room && n <= room - at
}

#[tactic(auto, using(crate::proofs::LengthLaws::statistics_known), unfolding(crate::specs::Lengths::time_fits))]
pub(crate) fn time_fits(head: Preprocessor, statistics: usize) -> bool
    ensures value { result ≡ time_fits (settings_of head) statistics }
    ensures input_length_bound { result ≡ true → (head.transformer.input_length ≤ 16) × (statistics_length (settings_of head) ≤ statistics) }
{
    head_row(head).is_ok() && statistics_length(head.transformer.input_length) <= statistics
}

#[tactic(auto, using(crate::proofs::LengthLaws::block_known, crate::proofs::LengthLaws::statistics_known), unfolding(crate::specs::Lengths::output_fits, crate::specs::Settings::block))]
pub(crate) fn output_fits(head: Preprocessor, statistics: usize, output: usize) -> bool
    ensures value { result ≡ output_fits (settings_of head) statistics output }
    ensures bounded { result ≡ true → Bounded (settings_of head) × (statistics ≡ statistics_length (settings_of head)) × (block (settings_of head) ≤ output) }
{
    if head_row(head).is_err() {
        return false;
    }
    let d = head.transformer.input_length;
    statistics == statistics_length(d) && block_of(head.forest_mode, d) <= output
}

#[tactic(auto, unfolding(crate::specs::Lengths::transform_fits))]
pub(crate) fn transform_fits(
    head: Preprocessor,
    statistics: usize,
    inputs: usize,
    input: usize,
    output: usize,
) -> bool
    ensures value { result ≡ transform_fits (settings_of head) statistics inputs input output }
    ensures bounded { result ≡ true → Bounded (settings_of head) × (statistics ≡ statistics_length (settings_of head))
        × (inputs ≡ head.transformer.input_length * head.shingle_size) × (input ≡ head.transformer.input_length) × (block (settings_of head) ≤ output) }
{
    let d = head.transformer.input_length;
    output_fits(head, statistics, output) && inputs == d * head.shingle_size && input == d
}

#[tactic(auto, using(crate::proofs::LengthLaws::statistics_known), unfolding(crate::specs::Lengths::feed_fits))]
pub(crate) fn feed_fits(
    head: Preprocessor,
    count: u64,
    statistics: usize,
    before: usize,
    input: usize,
) -> bool
    ensures value { result ≡ feed_fits (settings_of head) count statistics before input }
    ensures bounded { result ≡ true → Bounded (settings_of head) × (statistics ≡ statistics_length (settings_of head))
        × (count < count_limit) × (before ≡ head.transformer.input_length) × (input ≡ head.transformer.input_length) }
{
    if head_row(head).is_err() {
        return false;
    }
    let d = head.transformer.input_length;
    statistics == statistics_length(d) && count < COUNT_LIMIT && before == d && input == d
}
