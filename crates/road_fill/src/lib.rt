// The table of a road file's arcs, made in the lent bytes: filled in file order, sorted, and cleared of
// the places.
#![tactic(auto)]

pub mod clear;
pub mod fill;
pub mod make;
