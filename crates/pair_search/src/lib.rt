// The second search of the pair, through the residual net of the first search's route: the marked
// arcs turned round at no cost, the others each at its detour.
#![tactic(auto)]

ghost use Rattle.std.specs.Prelude.{◌≡◌, true, ◌+◌, ◌≤◌, ◌<◌};
ghost use Rattle.table.specs.Table.{records, to_at, len_at, arcs_of, is_open_at, net_of};
ghost use Rattle.table.specs.Fault.{table_fault, good};
ghost use Rattle.working_room.specs.Field.{long_at};
ghost use Rattle.node_queue.specs.Queue.{key_at, Roomy, Queue};
ghost use Rattle.run_notes.specs.Noted.{LeavingNoted};
ghost use Rattle.reach.specs.Stand.{Elsewhere};
ghost use Rattle.pair.specs.Walked.{comes_back, Waits, Backward};
ghost use Rattle.pair_room.specs.Room.{far, further, again, kept_in};
ghost use Rattle.pair_room.specs.Stages.{last_of, Marked, Searched};
ghost use Rattle.pair_search.specs.Turn.{Passed, At, Between, Left};

use pair_room::{DIST, FURTHER, KEPT, LAST};

// Arc a of node u, at distance d, if it is open and not u's mark: it brings its end to d and its
// detour. `root` comes first in the queue before. The node that does then.
fn pass(
    table: &[u8],
    closed: &[u8],
    nodes: u32,
    room: &mut [u8],
    root: usize,
    u: usize,
    d: u64,
    a: usize,
) -> usize
    requires { (table_fault nodes table.now ≡ good) × (Queue nodes room.old root)
        × (u < nodes) × (a < records table.now) × (d ≤ further) × (long_at 12 room.old u ≤ far)
        × (is_open_at closed.now a ≡ true
        → long_at 12 room.old (to_at table.now a)
        ≤ len_at table.now a + long_at 12 room.old u) }
    ensures { Passed table.now closed.now nodes room.old root
        u d a room.new result }
{
    if !reach::step::is_open(closed, a) {
        return root;
    }
    if working_room::word(room, KEPT, u) as usize == a {
        return root;
    }
    let w = table::arc::to_of(table, a) as usize;
    let len = table::arc::length_of(table, a) as u64;
    let detour = len + working_room::long(room, DIST, u) - working_room::long(room, DIST, w);
    reach::step::look(
        room,
        nodes as usize,
        pair_room::again(),
        root,
        w,
        a,
        d + detour,
    )
}

// Whether the last arc of the first route to u is one that is marked.
fn comes_back(table: &[u8], nodes: u32, room: &[u8], u: usize) -> bool
    requires { (table_fault nodes table.now ≡ good) × (Roomy nodes room.now) × (u < nodes) }
    ensures { result ≡ comes_back (arcs_of table.now) (kept_in nodes room.now)
        u (last_of room.now u) }
{
    let b = working_room::word(room, LAST, u);
    if table.len() / table::arc::RECORD <= b as usize {
        return false;
    }
    if table::arc::to_of(table, b as usize) as usize != u {
        return false;
    }
    let w = table::arc::from_of(table, b as usize) as usize;
    working_room::word(room, KEPT, w) == b
}

// The last of u's turn: back over the marked arc that comes to it, if there is one.
fn back(
    table: &[u8],
    closed: &[u8],
    nodes: u32,
    s: u32,
    goal: u32,
    room: &mut [u8],
    root: usize,
    u: usize,
    d: u64,
) -> usize
    requires { (table_fault nodes table.now ≡ good) × (u < nodes)
        × (At (net_of nodes table.now closed.now) s goal room.old room.old root u d
        (Backward (arcs_of table.now) (kept_in nodes room.old) (last_of room.old) u)) }
    ensures { Left (net_of nodes table.now closed.now) s goal
        room.old room.new result u }
{
    if !comes_back(table, nodes, room, u) {
        return root;
    }
    let b = working_room::word(room, LAST, u) as usize;
    let w = table::arc::from_of(table, b) as usize;
    reach::step::look(room, nodes as usize, pair_room::again(), root, w, b, d)
}

// The arcs of u's own run, each in turn.
fn own(
    table: &[u8],
    closed: &[u8],
    nodes: u32,
    s: u32,
    goal: u32,
    room: &mut [u8],
    root: usize,
    u: usize,
    d: u64,
) -> usize
    requires { (table_fault nodes table.now ≡ good) × (u < nodes)
        × (At (net_of nodes table.now closed.now) s goal room.old room.old root u d
        (Waits (net_of nodes table.now closed.now) (kept_in nodes room.old) (last_of room.old)
        u 0)) × (LeavingNoted nodes table.now room.old) }
    ensures { At (net_of nodes table.now closed.now) s goal
        room.old room.new result u d
        (Backward (arcs_of table.now) (kept_in nodes room.new)
        (last_of room.new) u) }
{
    let v = u as u32;
    let end = table.len() / table::arc::RECORD;
    let mut first = root;
    for a in run_notes::start_of(table, nodes, room, v)..end {
        if table::arc::from_of(table, a) != v {
            return first;
        }
        first = pass(table, closed, nodes, room, first, u, d, a);
    }
    first
}

// The turn of node u, which comes first: it is done, and what leaves it in the residual net is
// looked at. The node that comes first then.
fn leave(
    table: &[u8],
    closed: &[u8],
    nodes: u32,
    s: u32,
    goal: u32,
    room: &mut [u8],
    u: usize,
) -> usize
    requires { (table_fault nodes table.now ≡ good)
        × (Between (net_of nodes table.now closed.now) s goal room.old u)
        × (key_at room.old u < further) × (LeavingNoted nodes table.now room.old) }
    ensures { Left (net_of nodes table.now closed.now) s goal
        room.old room.new result u }
{
    let d = working_room::long(room, pair_room::DIST_AGAIN, u);
    let root = node_queue::set_key(room, nodes as usize, u, FURTHER);
    let first = own(table, closed, nodes, s, goal, room, root, u, d);
    back(table, closed, nodes, s, goal, room, first, u, d)
}

// The distances of all nodes from s through the residual net. Where the runs start is noted in the
// room.
pub fn search(table: &[u8], closed: &[u8], nodes: u32, s: u32, goal: u32, room: &mut [u8])
    requires { (table_fault nodes table.now ≡ good) × (s < nodes) × (Roomy nodes room.old)
        × (Marked (net_of nodes table.now closed.now) s goal room.old)
        × (LeavingNoted nodes table.now room.old) }
    ensures { (Elsewhere again room.old room.new)
        × (Searched (net_of nodes table.now closed.now) s goal
        room.new) }
{
    let n = nodes as usize;
    let mut root = reach::step::start(room, n, pair_room::again(), s as usize);
    let mut key = working_room::long(room, node_queue::winner::KEY, root);
    while key < FURTHER {
        root = leave(table, closed, nodes, s, goal, room, root);
        key = working_room::long(room, node_queue::winner::KEY, root);
    }
}
