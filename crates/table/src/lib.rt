// The road table in lent bytes: its faults, the fields of an arc, and the run of arcs that leave a
// node.
#![tactic(auto)]

pub mod arc;
pub mod fault;
pub mod run;
