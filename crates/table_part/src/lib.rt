// The arcs of a node told by their place in a table: for callers that can be handed no reference.
#![tactic(auto)]

ghost use Rattle.std.specs.Prelude.{◌≡◌, false, ◌<◌};
ghost use Rattle.table.specs.Fault.{table_fault, good};
ghost use Rattle.second.specs.Second.{wrong_second};
ghost use Rattle.table_part.specs.Part.{run_part, part_of, coming_part, part_by, run_part_by};

// The directions of `run`: the arcs that leave a node, and those that come to it.
const LEAVING: u32 = 0;

const COMING: u32 = 1;

// A part of a table: the place of its first byte, and its number of bytes.
#[repr(C)]
#[derive(Clone, Copy, Debug, PartialEq, Eq)]
pub struct Part {
    pub place: usize,
    pub bytes: usize,
}

impl Part {
    ghost use Rattle.std.specs.Prelude.{◌≡◌, ◌-◌, ◌*◌, ◌≤◌, ◌<◌, ◌^◌};
    ghost use Rattle.table.specs.Table.{record_bytes};

    const EMPTY: Part = Part { place: 0, bytes: 0 };

    // The records from number `from` up to `to`.
    fn of_records(from: usize, to: usize) -> Part
        requires { (from ≤ to) × (to * record_bytes < 2 ^ 64) }
        ensures { result ≡ record {
          place = from * record_bytes;
          bytes = to * record_bytes - from * record_bytes;
        } }
    {
        let place = from * table::arc::RECORD;
        Part {
            place,
            bytes: to * table::arc::RECORD - place,
        }
    }
}

// The run of node v in a good table, by its place.
#[tactic(auto, using(crate::proofs::PartLaws::run_bounds), unfolding(crate::specs::Part::run_part))]
fn run_part(table: &[u8], nodes: u32, v: u32) -> Part
    requires { (table_fault nodes table.now ≡ good) × (v < nodes) }
    ensures { result ≡ run_part table.now v }
{
    let from = table::run::run_start(table, nodes, v);
    let to = table::run::run_start(table, nodes, v + 1);
    Part::of_records(from, to)
}

// Where the arcs that leave node v stand in the table; an empty part where the table has a fault or
// v is no node.
pub fn arcs_from(table: &[u8], nodes: u32, v: u32) -> Part
    ensures { result ≡ part_of nodes table.now v }
{
    if nodes <= v || table::fault::check(table, nodes).is_err() {
        return Part::EMPTY;
    }
    run_part(table, nodes, v)
}

// The run of the arcs that come to v in a right second table, by its place.
#[tactic(auto, using(second::proofs::ComingLaws::coming_bounds), unfolding(crate::specs::Part::coming_part))]
fn coming_part(table: &[u8], second: &[u8], nodes: u32, v: u32) -> Part
    requires { (table_fault nodes table.now ≡ good)
        × (wrong_second nodes table.now second.now ≡ false) × (v < nodes) }
    ensures { result ≡ coming_part second.now v }
{
    let from = second::coming_start(table, second, nodes, v);
    let to = second::coming_start(table, second, nodes, v + 1);
    Part::of_records(from, to)
}

// The run of v by direction, of a good table and a right second one; empty for another direction.
#[tactic(auto, unfolding(crate::specs::Part::part_by))]
fn part_by(table: &[u8], second: &[u8], nodes: u32, direction: u32, v: u32) -> Part
    requires { (table_fault nodes table.now ≡ good)
        × (wrong_second nodes table.now second.now ≡ false) × (v < nodes) }
    ensures { result ≡ part_by direction table.now second.now v }
{
    match direction {
        LEAVING => run_part(table, nodes, v),
        COMING => coming_part(table, second, nodes, v),
        _ => Part::EMPTY,
    }
}

// Where the run of a node stands in the one table or the other, by direction; an empty part where
// either table is refused, there is no such node or the direction is none.
pub fn run(table: &[u8], second: &[u8], nodes: u32, direction: u32, node: u32) -> Part
    ensures { result
        ≡ run_part_by nodes table.now second.now direction node }
{
    if nodes <= node
        || table::fault::check(table, nodes).is_err()
        || second::wrong(table, second, nodes)
    {
        return Part::EMPTY;
    }
    part_by(table, second, nodes, direction, node)
}
