// Labels in lent bytes: their fields, and the chains of arcs that they stand for.
#![tactic(auto)]

pub mod chain;
pub mod field;
