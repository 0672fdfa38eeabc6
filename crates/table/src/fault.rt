// The faults of a table: 13, then the lowest of 2 to 6 in the lowest faulty record.
ghost use Rattle.std.specs.Prelude.{◌≡◌, ◌≢◌, ◌≤◌, IfSome};
ghost use Rattle.net.specs.Limits.{most_arcs};
ghost use Rattle.outcome.specs.declared.Outcome.TheVariants.{Found};
ghost use Rattle.outcome.specs.Outcome.{told_by, number_by};
ghost use Rattle.table.specs.Table.{records};
ghost use Rattle.table.specs.Fault.{fault_of, lowest, wrong_size, table_fault};

use crate::arc;
use outcome::{Outcome, Refusal};

pub const MOST_NODES: u32 = 65536;

pub const MOST_ARCS: usize = 262144;

pub const MOST_LENGTH: u32 = 1000000;

// The lowest fault of a record, if it has one.
#[tactic(auto, using(crate::proofs::Tests::tests), unfolding(crate::specs::Fault::fault_of))]
pub fn fault_of(nodes: u32, prev: u32, from: u32, to: u32, len: u32) -> Option<Outcome>
    ensures number { number_by result ≡ fault_of nodes prev from to len }
    ensures refused { IfSome result (λ fault. fault ≢ Found) }
{
    if nodes <= from || nodes <= to {
        return Some(Outcome::Node);
    }
    if from == to {
        return Some(Outcome::Loop);
    }
    if len < 1 {
        return Some(Outcome::Length);
    }
    if MOST_LENGTH < len {
        return Some(Outcome::Length);
    }
    if from < prev {
        return Some(Outcome::Order);
    }
    None
}

// The lowest fault of the lowest faulty record.
fn check_records(table: &[u8], nodes: u32) -> Result<(), Refusal>
    requires { records table.now ≤ most_arcs }
    ensures { told_by result
        ≡ lowest (records table.now) nodes table.now 0 }
{
    let n = table.len() / arc::RECORD;
    let mut prev = 0;
    for i in 0..n {
        let from = arc::from_of(table, i);
        let to = arc::to_of(table, i);
        let len = arc::length_of(table, i);
        if let Some(outcome) = fault_of(nodes, prev, from, to, len) {
            return Err(Refusal {
                outcome,
                number: i as u32,
            });
        }
        prev = from;
    }
    Ok(())
}

// Whether the node count or the number of bytes is outside its limits.
#[tactic(auto, using(crate::proofs::Tests::tests), unfolding(crate::specs::Fault::wrong_size))]
fn wrong_size(table: &[u8], nodes: u32) -> bool
    ensures { result ≡ wrong_size nodes table.now }
{
    if nodes < 1 {
        return true;
    }
    if MOST_NODES < nodes {
        return true;
    }
    if table.len() % arc::RECORD != 0 {
        return true;
    }
    MOST_ARCS < table.len() / arc::RECORD
}

// The fault of a table of so many nodes.
#[tactic(auto, unfolding(crate::specs::Fault::table_fault))]
pub fn check(table: &[u8], nodes: u32) -> Result<(), Refusal>
    ensures { told_by result ≡ table_fault nodes table.now }
{
    if wrong_size(table, nodes) {
        return Err(Refusal::plain(Outcome::Size));
    }
    check_records(table, nodes)
}
