// Lists of readings, apart from any preprocessor: missing cells filled in, and two lists compared by their times.
#![tactic(auto)]

pub mod alignment;
pub mod imputation;
