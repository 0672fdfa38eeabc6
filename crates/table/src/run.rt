// The run of records that start at a node.
ghost use Rattle.std.specs.Prelude.{◌≡◌, ◌≤◌, ◌<◌};
ghost use Rattle.table.specs.Fault.{table_fault, good};
ghost use Rattle.table.specs.Run.{run_start, run_of, arcs_from};

use crate::{arc, fault};

// Where the run of node v starts in a good table, in as many turns as the number of records has
// bits; `nodes` is the table's node count.
pub fn run_start(table: &[u8], nodes: u32, v: u32) -> usize
    requires { table_fault nodes table.now ≡ good }
    ensures { result ≡ run_start table.now v }
{
    let mut lo = 0;
    let mut hi = table.len() / arc::RECORD;
    while lo < hi {
        let mid = lo + (hi - lo) / 2;
        if arc::from_of(table, mid) < v {
            lo = mid + 1;
        } else {
            hi = mid;
        }
    }
    lo
}

// The run of node v in a good table.
pub fn run_of(table: &[u8], nodes: u32, v: u32) -> &[u8]
    requires { (table_fault nodes table.now ≡ good) × (v < nodes) }
    ensures { result.now ≡ run_of table.now v }
{
    let from = run_start(table, nodes, v) * arc::RECORD;
    let to = run_start(table, nodes, v + 1) * arc::RECORD;
    &table[from..to]
}

// The arcs that leave node v, as a part of the table; an empty part where the table has a fault or
// v is no node.
pub fn arcs_from(table: &[u8], nodes: u32, v: u32) -> &[u8]
    ensures { result.now ≡ arcs_from nodes table.now v }
{
    if nodes <= v {
        return &table[0..0];
    }
    match fault::check(table, nodes) {
        Ok(()) => run_of(table, nodes, v),
        Err(_) => &table[0..0],
    }
}
