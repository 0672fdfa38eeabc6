// Distances from a node, and to a node, by a search with a queue in the working room.
#![tactic(auto)]

pub mod backward;
mod choice;
pub mod forward;
pub mod step;
mod way;

// Where a search keeps a node's distance and last arc in its record, and what stands for no
// distance.
#[derive(Clone, Copy)]
pub struct Stand {
    pub dist: usize,
    pub last: usize,
    pub far: u64,
}
