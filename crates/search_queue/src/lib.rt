// The labels' own next candidates in order: a winner tree in the labels' own bytes.
#![tactic(auto)]

pub mod winner;
pub mod working;
