// The distances of all nodes to the goal, without a second table: arcs looked at until nothing
// changes.
#![tactic(auto)]

ghost use Rattle.std.specs.Prelude.{◌≡◌, ℕ, ◌≤◌, ◌<◌};
ghost use Rattle.table.specs.Table.{records, net_of};
ghost use Rattle.table.specs.Fault.{table_fault, good};
ghost use Rattle.remaining.specs.Going.{Going};
ghost use Rattle.remaining.specs.Standing.{far, go_in, Roomy, Cleared, Begun, Looked};
ghost use Rattle.remaining.specs.Standing.{Passed, Settled};

// Where a node's distance stands in its record, and what stands for no way to go.
pub const DISTANCE: usize = 8;

pub const FAR: u64 = 1099511627776;

// Every one of n nodes is far.
fn clear(room: &mut [u8], n: usize)
    requires { Roomy n room.old }
    ensures { Cleared n room.old room.new }
{
    for v in 0..n {
        working_room::put_long(room, DISTANCE, v, FAR);
    }
}

// Nothing is known but that the goal is reached.
fn start(room: &mut [u8], n: usize, goal: usize)
    requires { (Roomy n room.old) × (goal < n) }
    ensures { Begun n goal room.old room.new }
{
    clear(room, n);
    working_room::put_long(room, DISTANCE, goal, 0);
}

// Looks at arc a: 1 where it brings the node that it leaves nearer, and else 0.
fn look(table: &[u8], closed: &[u8], nodes: u32, room: &mut [u8], a: usize) -> usize
    requires { (table_fault nodes table.now ≡ good) × (Roomy nodes room.old)
        × (a < records table.now) × ((v : ℕ) → go_in nodes room.old v ≤ far) }
    ensures { Looked table.now closed.now a room.old
        room.new result }
{
    if closures::is_closed(closed, a) {
        return 0;
    }
    let u = table::arc::from_of(table, a) as usize;
    let w = table::arc::to_of(table, a) as usize;
    let by = working_room::long(room, DISTANCE, w) + table::arc::length_of(table, a) as u64;
    if working_room::long(room, DISTANCE, u) <= by {
        return 0;
    }
    working_room::put_long(room, DISTANCE, u, by);
    1
}

// Looks at every arc once: how many brought a node nearer.
fn pass(table: &[u8], closed: &[u8], nodes: u32, goal: u32, room: &mut [u8]) -> usize
    requires { (table_fault nodes table.now ≡ good) × (Roomy nodes room.old)
        × (Going (net_of nodes table.now closed.now) goal far (go_in nodes room.old)) }
    ensures { Passed (net_of nodes table.now closed.now)
        table.now closed.now goal (records table.now)
        room.old room.new result }
{
    let end = table.len() / table::arc::RECORD;
    let mut nearer = 0;
    for a in 0..end {
        nearer += look(table, closed, nodes, room, a);
    }
    nearer
}

// The distances of all nodes to the goal, over the arcs that are not closed.
pub fn distances(table: &[u8], closed: &[u8], nodes: u32, goal: u32, room: &mut [u8])
    requires { (table_fault nodes table.now ≡ good) × (Roomy nodes room.old) × (goal < nodes) }
    ensures { Settled (net_of nodes table.now closed.now) goal
        room.old room.new }
{
    start(room, nodes as usize, goal as usize);
    loop {
        if pass(table, closed, nodes, goal, room) == 0 {
            return;
        }
    }
}
