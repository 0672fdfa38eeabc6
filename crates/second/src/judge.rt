// One record of the second table judged, after those before it.
ghost use Rattle.std.specs.Prelude.{◌≡◌, ◌≤◌, ◌<◌};
ghost use Rattle.table.specs.Table.{records, from_at};
ghost use Rattle.table.specs.Fault.{table_fault, good};
ghost use Rattle.table.specs.Run.{run_start};
ghost use Rattle.second.specs.Find.{look_from, alike, found_for, IsArc};

use crate::find;

// From which arc on those that come to v are looked for.
#[tactic(auto, unfolding(crate::specs::Find::look_from))]
fn look_from(end: u32, lo: usize, v: u32) -> usize
    ensures { result ≡ look_from end lo v }
{
    if end < v { 0 } else { lo }
}

// Whether arc a has the length and the road of record j.
#[tactic(auto, unfolding(crate::specs::Find::alike))]
fn alike(table: &[u8], a: usize, second: &[u8], j: usize) -> bool
    requires { (a < records table.now) × (j < records second.now) }
    ensures { result ≡ alike table.now a second.now j }
{
    table::arc::length_of(second, j) == table::arc::length_of(table, a)
        && table::arc::road_of(second, j) == table::arc::road_of(table, a)
}

// The arc that record j can be; the arcs of its start node start at `first`.
pub fn found_for(
    table: &[u8],
    second: &[u8],
    nodes: u32,
    j: usize,
    first: usize,
    end: u32,
    lo: usize,
) -> Option<usize>
    requires { (table_fault nodes table.now ≡ good) × (j < records second.now)
        × (first ≡ run_start table.now (from_at second.now j)) × (lo ≤ records table.now) }
    ensures { IsArc table.now (found_for table.now second.now j end lo) result }
{
    let v = table::arc::to_of(second, j);
    if v < end {
        return None;
    }
    let u = table::arc::from_of(second, j);
    let a = find::next(table, nodes, u, first, v, look_from(end, lo, v))?;
    if alike(table, a, second, j) {
        Some(a)
    } else {
        None
    }
}
