// A label's own next candidate put into its bytes, and the tree over the labels made right.
#![tactic(auto)]

pub mod settle;
pub mod store;
