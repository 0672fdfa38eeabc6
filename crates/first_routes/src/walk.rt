// The first routes from s: one walk, deeper first, at each node by the arcs on shortest routes from
// the lowest number up, to nodes not yet entered. The order of entering is that of the routes.
ghost use Rattle.std.specs.Prelude.{◌≡◌, ◌≢◌, ℕ, Some, ◌+◌, ◌*◌, ◌≤◌, ◌<◌, length};
ghost use Rattle.table.specs.Table.{records, to_at, net_of};
ghost use Rattle.table.specs.Fault.{table_fault, good};
ghost use Rattle.table.specs.Run.{run_start};
ghost use Rattle.distances.specs.Search.{Found};
ghost use Rattle.working_room.specs.Field.{room_bytes, Within};
ghost use Rattle.node_queue.specs.Queue.{Roomy};
ghost use Rattle.run_notes.specs.Noted.{LeavingNoted};
ghost use Rattle.reach.specs.Stand.{dist_in, last_in};
ghost use Rattle.first_routes.specs.Firsts.{far, forth, none, rank_in, Ranked};
ghost use Rattle.first_routes.specs.Measured.{Measured};
ghost use Rattle.first_routes.specs.Walking.{Ready, OnWay, Stood, left};
ghost use Rattle.first_routes.specs.Walking.{leads_on, entered, up_from};

use crate::{FORTH, LAST, NONE, RANK};

// Where the walk stands: at node v, its arcs below `arc` tried, `many` nodes entered.
#[derive(Clone, Copy)]
pub struct At {
    pub v: u32,
    pub arc: usize,
    pub many: u32,
}

// No node is entered.
fn unset(nodes: u32, room: &mut [u8])
    requires { Roomy nodes room.old }
    ensures { (Within 24 4 room.old room.new)
        × ((v : ℕ) → v < nodes → rank_in room.new v ≡ none) }
{
    for v in 0..nodes {
        working_room::put_word(room, RANK, v as usize, NONE);
    }
}

// Whether the walk goes down by an arc of node v.
fn leads(table: &[u8], nodes: u32, room: &[u8], v: u32, arc: usize) -> bool
    requires { (Measured forth nodes table.now room.now) × (v < nodes)
        × (arc < records table.now) }
    ensures { result ≡ leads_on table.now room.now v arc }
{
    let w = table::arc::to_of(table, arc);
    let near = working_room::long(room, FORTH, v as usize);
    let whole = working_room::long(room, FORTH, w as usize);
    if near + table::arc::length_of(table, arc) as u64 != whole {
        return false;
    }
    working_room::word(room, RANK, w as usize) == NONE
}

// Node w is entered by an arc.
fn enter(room: &mut [u8], w: u32, arc: u32, many: u32)
    requires { w * room_bytes + room_bytes ≤ length room.old }
    ensures { room.new ≡ entered room.old w arc many }
{
    working_room::put_word(room, LAST, w as usize, arc);
    working_room::put_word(room, RANK, w as usize, many);
}

// Down by an arc.
fn down(table: &[u8], nodes: u32, room: &mut [u8], arc: usize, many: u32) -> At
    requires { (table_fault nodes table.now ≡ good) × (Roomy nodes room.old)
        × (arc < records table.now) × (many < nodes)
        × (LeavingNoted nodes table.now room.old) }
    ensures { (room.new
        ≡ entered room.old (to_at table.now arc) arc many)
        × (result ≡ record {
          v = to_at table.now arc;
          arc = run_start table.now (to_at table.now arc);
          many = many + 1;
        }) }
{
    let w = table::arc::to_of(table, arc);
    let first = run_notes::start_of(table, nodes, room, w);
    enter(room, w, arc as u32, many);
    At {
        v: w,
        arc: first,
        many: many + 1,
    }
}

// Back by the last arc, where none is left to try; at s the walk is over.
fn up(table: &[u8], s: u32, room: &[u8], at: At) -> Option<At>
    requires { (at.v * room_bytes + room_bytes ≤ length room.now)
        × (at.v ≢ s → last_in forth room.now at.v < records table.now) }
    ensures { result ≡ up_from table.now s room.now at }
{
    let v = at.v;
    if v == s {
        return None;
    }
    let last = working_room::word(room, LAST, v as usize) as usize;
    Some(At {
        v: table::arc::from_of(table, last),
        arc: last + 1,
        many: at.many,
    })
}

// One step: back, past an arc, or down by it. Nothing where the walk is over.
fn step(table: &[u8], closed: &[u8], nodes: u32, s: u32, room: &mut [u8], at: At) -> Option<At>
    requires { (Ready nodes table.now closed.now s room.old)
        × (OnWay nodes table.now closed.now s room.old at) }
    ensures { (Within 20 8 room.old room.new)
        × (Stood nodes table.now closed.now s room.new result)
        × (left nodes table.now s room.new result
        < left nodes table.now s room.old (Some at)) }
{
    let v = at.v;
    let many = at.many;
    let end = run_notes::end_of(table, nodes, room, v);
    let arc = closures::next_arc(closed, at.arc, end);
    if arc == end {
        return up(table, s, room, at);
    }
    if !leads(table, nodes, room, v, arc) {
        return Some(At {
            v,
            arc: arc + 1,
            many,
        });
    }
    Some(down(table, nodes, room, arc, many))
}

// The last arc and the rank of each node that is reached from s, by the distances from it.
pub fn all(table: &[u8], closed: &[u8], nodes: u32, s: u32, room: &mut [u8])
    requires { (table_fault nodes table.now ≡ good) × (s < nodes) × (Roomy nodes room.old)
        × (Found (net_of nodes table.now closed.now) s far (dist_in forth nodes room.old)
        (last_in forth room.old)) × (LeavingNoted nodes table.now room.old) }
    ensures { (Within 20 8 room.old room.new)
        × (Ranked (net_of nodes table.now closed.now) s
        room.new) }
{
    unset(nodes, room);
    working_room::put_word(room, RANK, s as usize, 0);
    let mut next = Some(At {
        v: s,
        arc: run_notes::start_of(table, nodes, room, s),
        many: 1,
    });
    while let Some(at) = next {
        next = step(table, closed, nodes, s, room, at);
    }
}
