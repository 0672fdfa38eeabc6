// The marks of the pair. The first search's route is marked on the way back from the goal; then the
// way back along the second search's route takes marks away where it goes back over the first one,
// and puts others.
#![tactic(auto)]

ghost use Rattle.std.specs.Prelude.{◌≡◌, ℕ, ◌+◌, ◌*◌, ◌≤◌, ◌<◌, length};
ghost use Rattle.table.specs.Table.{records, from_at, net_of};
ghost use Rattle.table.specs.Fault.{table_fault, good};
ghost use Rattle.working_room.specs.Field.{room_bytes, word_at, put_word, Within};
ghost use Rattle.node_queue.specs.Queue.{Roomy};
ghost use Rattle.reach.specs.Stand.{dist_in};
ghost use Rattle.pair_room.specs.Room.{far, further, again, none, kept_in, added_in};
ghost use Rattle.pair_room.specs.Stages.{dist_of, Reached, Marked, Searched, Settled};
ghost use Rattle.pair_marks.specs.Step.{Stepped};

use pair_room::{ADDED, KEPT, LAST, LAST_AGAIN, NONE};

// No node has a mark.
fn blank(room: &mut [u8], n: usize)
    requires { Roomy n room.old }
    ensures { (Within 36 8 room.old room.new)
        × ((v : ℕ) → kept_in n room.new v ≡ none)
        × ((v : ℕ) → added_in n room.new v ≡ none) }
{
    for v in 0..n {
        working_room::put_word(room, KEPT, v, NONE);
        working_room::put_word(room, ADDED, v, NONE);
    }
}

// An arc is marked, in a field of the node that it leaves. That node.
fn mark(table: &[u8], room: &mut [u8], field: usize, arc: u32) -> u32
    requires { (arc < records table.now) × (field + 4 ≤ room_bytes)
        × (from_at table.now arc * room_bytes + room_bytes ≤ length room.old) }
    ensures { (result ≡ from_at table.now arc)
        × (room.new ≡ put_word field room.old result arc) }
{
    let v = table::arc::from_of(table, arc as usize);
    working_room::put_word(room, field, v as usize, arc);
    v
}

// The first search's route to the goal is marked, each arc at the node that it leaves.
pub fn first(table: &[u8], closed: &[u8], nodes: u32, s: u32, goal: u32, room: &mut [u8])
    requires { (table_fault nodes table.now ≡ good) × (s < nodes) × (goal < nodes)
        × (Roomy nodes room.old) × (Reached (net_of nodes table.now closed.now) s room.old)
        × (dist_of (net_of nodes table.now closed.now) room.old goal < far) }
    ensures { (Within 36 8 room.old room.new)
        × (Marked (net_of nodes table.now closed.now) s goal
        room.new) }
{
    let n = nodes as usize;
    blank(room, n);
    let mut v = goal;
    // the arcs gone over, fewer than the nodes: the way ends
    let mut k: u32 = 0;
    while v != s {
        let arc = working_room::word(room, LAST, v as usize);
        v = mark(table, room, KEPT, arc);
        k += 1;
    }
}

// One step back from node v by the second search's last arc: over the arc marked at v, which loses
// its mark; or over another, which is marked. The node that it comes to.
fn step(table: &[u8], room: &mut [u8], v: u32) -> u32
    requires { (v * room_bytes + room_bytes ≤ length room.old)
        × (word_at 32 room.old v < records table.now)
        × (from_at table.now (word_at 32 room.old v) * room_bytes + room_bytes
        ≤ length room.old) }
    ensures { Stepped table.now room.old v room.new result }
{
    let arc = working_room::word(room, LAST_AGAIN, v as usize);
    if working_room::word(room, KEPT, v as usize) == arc {
        working_room::put_word(room, KEPT, v as usize, NONE);
        return table::arc::to_of(table, arc as usize);
    }
    mark(table, room, ADDED, arc)
}

// The second search's route to the goal is followed back: the marks are those of the pair.
pub fn settle(table: &[u8], closed: &[u8], nodes: u32, s: u32, goal: u32, room: &mut [u8])
    requires { (table_fault nodes table.now ≡ good) × (s < nodes) × (goal < nodes)
        × (Roomy nodes room.old)
        × (Searched (net_of nodes table.now closed.now) s goal room.old)
        × (dist_in again nodes room.old goal < further) }
    ensures { (length room.new ≡ length room.old)
        × (Settled (net_of nodes table.now closed.now) s goal
        room.new) }
{
    let mut v = goal;
    // the arcs gone over, fewer than the nodes: the way ends
    let mut k: u32 = 0;
    while v != s {
        v = step(table, room, v);
        k += 1;
    }
}
