// The interface that a viewer links. Each call is one of the proved calls below: numbers and byte slices in, a number back, and values in the lent array `out`.
#![tactic(auto)]

pub mod changes;
pub mod files;
pub mod judgements;
pub mod queries;
