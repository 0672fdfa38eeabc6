// What the programs share that test calls on small drawn tables: the draws, a table of drawn arcs, a
// case spoilt, what is lent from buffers that lie in junk, all partial routes of a case, a text
// damaged, what a call tells, and the report.
#![tactic(auto)]

pub mod cells;
pub mod damage;
pub mod draw;
pub mod drawn;
pub mod lent;
pub mod report;
pub mod routes;
pub mod spoil;
pub mod told;
