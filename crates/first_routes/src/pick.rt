// The first routes to the goal: at each node the lowest arc that is just as long as what it brings
// nearer.
ghost use Rattle.std.specs.Prelude.{◌≡◌, ◌≢◌, ◌+◌, ◌<◌, eqb};
ghost use Rattle.table.specs.Table.{records, to_at, len_at, net_of};
ghost use Rattle.table.specs.Fault.{table_fault, good};
ghost use Rattle.distances.specs.Search.{Found};
ghost use Rattle.distances.specs.Turned.{reversed};
ghost use Rattle.distances.specs.Greedy.{Pick};
ghost use Rattle.working_room.specs.Field.{Within, long_at};
ghost use Rattle.node_queue.specs.Queue.{Roomy};
ghost use Rattle.run_notes.specs.Noted.{LeavingNoted};
ghost use Rattle.reach.specs.Stand.{dist_in, last_in};
ghost use Rattle.first_routes.specs.Firsts.{far, back, Picked};
ghost use Rattle.first_routes.specs.Measured.{Measured};
ghost use Rattle.first_routes.specs.Picking.{GoesOn, Chosen};

use crate::{BACK, FAR, FIRST};

// Whether an arc from node v is just as long as what it brings nearer.
fn nearer(table: &[u8], nodes: u32, room: &[u8], v: u32, arc: usize) -> bool
    requires { (Measured back nodes table.now room.now) × (v < nodes)
        × (arc < records table.now) }
    ensures { result ≡ eqb (len_at table.now arc
        + long_at 32 room.now (to_at table.now arc))
        (long_at 32 room.now v) }
{
    let w = table::arc::to_of(table, arc);
    let rest = working_room::long(room, BACK, w as usize);
    let whole = working_room::long(room, BACK, v as usize);
    table::arc::length_of(table, arc) as u64 + rest == whole
}

// The lowest such arc that is open; there is one.
fn lowest(table: &[u8], closed: &[u8], nodes: u32, goal: u32, room: &[u8], v: u32) -> usize
    requires { (Measured back nodes table.now room.now)
        × (GoesOn (net_of nodes table.now closed.now) goal room.now) × (v < nodes)
        × (v ≢ goal) × (long_at 32 room.now v < far) }
    ensures { (result < records table.now)
        × (Pick (net_of nodes table.now closed.now)
        (dist_in back nodes room.now) v result) }
{
    let first = run_notes::start_of(table, nodes, room, v);
    let end = run_notes::end_of(table, nodes, room, v);
    for arc in first..end {
        if !closures::is_closed(closed, arc) && nearer(table, nodes, room, v, arc) {
            return arc;
        }
    }
    unreachable!()
}

// The first arc of node v, where the goal is reached from it.
fn one(table: &[u8], closed: &[u8], nodes: u32, goal: u32, room: &mut [u8], v: u32)
    requires { (Measured back nodes table.now room.old)
        × (GoesOn (net_of nodes table.now closed.now) goal room.old) × (v < nodes) }
    ensures { Chosen (net_of nodes table.now closed.now) goal v
        room.old room.new }
{
    if v == goal {
        return;
    }
    if FAR <= working_room::long(room, BACK, v as usize) {
        return;
    }
    let arc = lowest(table, closed, nodes, goal, room, v);
    working_room::put_word(room, FIRST, v as usize, arc as u32);
}

// The first arc of each node from which the goal is reached, by the distances to it.
pub fn all(table: &[u8], closed: &[u8], nodes: u32, goal: u32, room: &mut [u8])
    requires { (table_fault nodes table.now ≡ good) × (goal < nodes) × (Roomy nodes room.old)
        × (Found (reversed (net_of nodes table.now closed.now)) goal far
        (dist_in back nodes room.old) (last_in back room.old))
        × (LeavingNoted nodes table.now room.old) }
    ensures { (Within 28 4 room.old room.new)
        × (Picked (net_of nodes table.now closed.now) goal
        room.new) }
{
    for v in 0..nodes {
        one(table, closed, nodes, goal, room, v);
    }
}
