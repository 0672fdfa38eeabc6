// Where the runs of all nodes start, in both tables, found in one pass over each and noted in the
// nodes' records of the working room.
#![tactic(auto)]

ghost use Rattle.std.specs.Prelude.{◌≡◌, false, ◌+◌, ◌<◌};
ghost use Rattle.table.specs.Fault.{table_fault, good};
ghost use Rattle.table.specs.Run.{run_start};
ghost use Rattle.second.specs.Second.{wrong_second};
ghost use Rattle.second.specs.Lookup.{coming_start};
ghost use Rattle.working_room.specs.Field.{Within};
ghost use Rattle.node_queue.specs.Queue.{Roomy};
ghost use Rattle.table.specs.Table.{records};
ghost use Rattle.run_notes.specs.Noted.{LeavingNoted, ComingNoted, Noted, start_by};

pub const LEAVING: usize = 56;

pub const COMING: usize = 60;

// A table by whose nodes its records stand in order, and where in a node's record of the room it is
// noted where its own records start.
pub trait Order {
    ghost use Rattle.std.specs.Prelude.{◌≡◌, true, List, ℕ, ◌+◌, ◌<◌, leb};
    ghost use Rattle.table.specs.Table.{records};
    ghost use Rattle.working_room.specs.Field.{room_bytes};

    ghost node_at: { List ℕ → ℕ → ℕ };

    ghost NOTE: { ℕ };

    const NOTE: usize;

    // The node by which record i stands.
    fn node_of(table: &[u8], i: usize) -> u32
        requires { i < records table.now }
        ensures { result ≡ Self.node_at table.now i };

    ghost behind: { leb 56 NOTE ≡ true };

    ghost inside: { leb (NOTE + 4) room_bytes ≡ true };
}

// By start node, as a good table's.
pub struct ByStart;

// By end node, as a right second table's.
pub struct ByEnd;

impl Order for ByStart {
    ghost use Rattle.std.specs.Prelude.{refl};
    ghost use Rattle.table.specs.Table.{from_at};

    ghost node_at = { from_at };

    ghost NOTE = { 56 };

    ghost behind = { refl };

    ghost inside = { refl };

    const NOTE: usize = LEAVING;

    fn node_of(table: &[u8], i: usize) -> u32 {
        table::arc::from_of(table, i)
    }
}

impl Order for ByEnd {
    ghost use Rattle.std.specs.Prelude.{refl};
    ghost use Rattle.table.specs.Table.{to_at};

    ghost node_at = { to_at };

    ghost NOTE = { 60 };

    ghost behind = { refl };

    ghost inside = { refl };

    const NOTE: usize = COMING;

    fn node_of(table: &[u8], i: usize) -> u32 {
        table::arc::to_of(table, i)
    }
}

// Where the records of node v end, which start at `first`.
fn end_by<O: Order>(table: &[u8], v: u32, first: usize) -> usize
    requires { first ≡ start_by O.node_at table.now v }
    ensures { result ≡ start_by O.node_at table.now (v + 1) }
{
    let end = table.len() / table::arc::RECORD;
    for i in first..end {
        if v < O::node_of(table, i) {
            return i;
        }
    }
    end
}

// The starts of the records of each node.
fn note_by<O: Order>(table: &[u8], nodes: u32, room: &mut [u8])
    requires { (records table.now < 4294967296) × (Roomy nodes room.old) }
    ensures { (Within O.NOTE 4 room.old room.new)
        × (Noted O.NOTE (start_by O.node_at table.now) nodes room.new) }
{
    let mut first = 0;
    for v in 0..nodes {
        working_room::put_word(room, O::NOTE, v as usize, first as u32);
        first = end_by::<O>(table, v, first);
    }
}

// The starts of the arcs that leave each node.
pub fn leaving(table: &[u8], nodes: u32, room: &mut [u8])
    requires { (table_fault nodes table.now ≡ good) × (Roomy nodes room.old) }
    ensures { (Within 56 4 room.old room.new)
        × (LeavingNoted nodes table.now room.new) }
{
    note_by::<ByStart>(table, nodes, room);
}

// The starts of the records of a right second table that come to each node.
fn coming(table: &[u8], second: &[u8], nodes: u32, room: &mut [u8])
    requires { (table_fault nodes table.now ≡ good)
        × (wrong_second nodes table.now second.now ≡ false) × (Roomy nodes room.old) }
    ensures { (Within 60 4 room.old room.new)
        × (ComingNoted nodes second.now room.new) }
{
    note_by::<ByEnd>(second, nodes, room);
}

// The starts in both tables.
pub fn note(table: &[u8], second: &[u8], nodes: u32, room: &mut [u8])
    requires { (table_fault nodes table.now ≡ good)
        × (wrong_second nodes table.now second.now ≡ false) × (Roomy nodes room.old) }
    ensures { (Within 56 8 room.old room.new)
        × (LeavingNoted nodes table.now room.new)
        × (ComingNoted nodes second.now room.new) }
{
    leaving(table, nodes, room);
    coming(table, second, nodes, room);
}

// The start that is noted of the arcs that leave v.
pub fn start_of(table: &[u8], nodes: u32, room: &[u8], v: u32) -> usize
    requires { (Roomy nodes room.now) × (LeavingNoted nodes table.now room.now)
        × (v < nodes) }
    ensures { result ≡ run_start table.now v }
{
    working_room::word(room, LEAVING, v as usize) as usize
}

// Their end: where those of the next node start, or the table's end.
pub fn end_of(table: &[u8], nodes: u32, room: &[u8], v: u32) -> usize
    requires { (table_fault nodes table.now ≡ good) × (Roomy nodes room.now)
        × (LeavingNoted nodes table.now room.now) × (v < nodes) }
    ensures { result ≡ run_start table.now (v + 1) }
{
    if v + 1 < nodes {
        return start_of(table, nodes, room, v + 1);
    }
    table.len() / table::arc::RECORD
}
