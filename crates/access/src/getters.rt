// The numbers of a preprocessor, one by one and together, for a role that may see.
ghost use Rattle.std.specs.Prelude.{◌≡◌};
ghost use Rattle.trcf.specs.Preprocessor.{panel_of};
ghost use Rattle.trcf.specs.View.{alone, ready_of, dimension_of};
ghost use Rattle.access.specs.Entries.{seen_by, status_numbers};

use crate::rights::{Right, demand};
use refusal::Refusal;
use trcf::head::{Preprocessor, Status};
use trcf::types::{ForestMode, TransformMethod};

// What is asked for, where the role may see.
fn seen<T: Copy>(table: &[u8], role: u64, asked: T) -> Result<T, Refusal>
    ensures { result ≡ seen_by table.now role asked }
{
    demand(table, role, Right::SEE)?;
    Ok(asked)
}

pub fn values_seen(table: &[u8], role: u64, head: Preprocessor) -> Result<u64, Refusal>
    ensures { result ≡ seen_by table.now role head.values_seen }
{
    seen(table, role, trcf_calls::queries::values_seen(head) as u64)
}

pub fn internal_timestamp(table: &[u8], role: u64, head: Preprocessor) -> Result<u64, Refusal>
    ensures { result ≡ seen_by table.now role head.internal_timestamp }
{
    seen(
        table,
        role,
        trcf_calls::queries::internal_timestamp(head) as u64,
    )
}

pub fn input_dimensions(table: &[u8], role: u64, head: Preprocessor) -> Result<u64, Refusal>
    ensures { result ≡ seen_by table.now role head.transformer.input_length }
{
    seen(
        table,
        role,
        trcf_calls::queries::input_dimensions(head) as u64,
    )
}

pub fn shingle_size(table: &[u8], role: u64, head: Preprocessor) -> Result<u64, Refusal>
    ensures { result ≡ seen_by table.now role head.shingle_size }
{
    seen(table, role, trcf_calls::queries::shingle_size(head) as u64)
}

pub fn get_dimension(table: &[u8], role: u64, head: Preprocessor) -> Result<u64, Refusal>
    ensures { result ≡ seen_by table.now role (dimension_of head) }
{
    seen(table, role, trcf::head::get_dimension(head) as u64)
}

pub fn start_normalization(table: &[u8], role: u64, head: Preprocessor) -> Result<u64, Refusal>
    ensures { result ≡ seen_by table.now role head.start_normalization }
{
    seen(
        table,
        role,
        trcf_calls::queries::start_normalization(head) as u64,
    )
}

pub fn panel(table: &[u8], role: u64, head: Preprocessor) -> Result<u64, Refusal>
    ensures { result ≡ seen_by table.now role (panel_of (alone head)) }
{
    seen(table, role, trcf_calls::queries::panel(head))
}

pub fn is_ready(table: &[u8], role: u64, head: Preprocessor) -> Result<bool, Refusal>
    ensures { result ≡ seen_by table.now role (ready_of head) }
{
    seen(table, role, trcf_calls::queries::is_ready(head))
}

pub fn transformation_method(
    table: &[u8],
    role: u64,
    head: Preprocessor,
) -> Result<TransformMethod, Refusal>
    ensures { result ≡ seen_by table.now role head.transformer.transform_method }
{
    seen(
        table,
        role,
        trcf_calls::queries::transformation_method(head),
    )
}

pub fn forest_mode(table: &[u8], role: u64, head: Preprocessor) -> Result<ForestMode, Refusal>
    ensures { result ≡ seen_by table.now role head.forest_mode }
{
    seen(table, role, trcf_calls::queries::forest_mode(head))
}

// All of them, by one test of the table.
pub fn numbers(table: &[u8], role: u64, head: Preprocessor) -> Result<Status, Refusal>
    ensures { result ≡ seen_by table.now role (status_numbers head) }
{
    demand(table, role, Right::SEE)?;
    Ok(trcf_calls::queries::status_of_head(head))
}
