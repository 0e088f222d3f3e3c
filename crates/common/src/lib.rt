// The running statistic: what the transformer and the preprocessor count with.
#![tactic(auto)]

pub mod deviation;
