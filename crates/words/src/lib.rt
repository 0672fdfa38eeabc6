// Little-endian numbers at a place of a byte slice, and fills. The laws about them are in proofs/.
#![tactic(auto)]

pub mod fill;
pub mod number;
