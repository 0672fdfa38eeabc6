// The steps of a search, whatever the arcs.
ghost use Rattle.std.specs.Prelude.{◌≡◌, ◌<◌};
ghost use Rattle.table.specs.Table.{is_open_at};
ghost use Rattle.search_tree.specs.Tree.{Tree};
ghost use Rattle.node_queue.specs.Queue.{NotAfter, winner_at, Roomy, Queue};
ghost use Rattle.reach.specs.Stand.{Stands};
ghost use Rattle.reach.specs.Steps.{Cleared, Begun, Lowered, Looked, Passed};

use crate::Stand;

// Every one of n nodes is far.
fn clear(room: &mut [u8], n: usize, x: Stand)
    requires { (Stands x) × (Roomy n room.old) }
    ensures { Cleared x.dist x.far n room.old room.new }
{
    for v in 0..n {
        working_room::put_long(room, x.dist, v, x.far);
    }
}

// A search from s begins. The node that comes first.
pub fn start(room: &mut [u8], n: usize, x: Stand, s: usize) -> usize
    requires { (Stands x) × (Roomy n room.old) × (s < n) }
    ensures { Begun x n s room.old room.new result }
{
    clear(room, n, x);
    node_queue::fill(room, n, x.far);
    working_room::put_long(room, x.dist, s, 0);
    node_queue::set_key(room, n, s, 0)
}

// Node w comes to distance d by arc a. The node that comes first.
fn lower(room: &mut [u8], n: usize, x: Stand, w: usize, a: usize, d: u64) -> usize
    requires { (Stands x) × (Roomy n room.old)
        × (Tree (NotAfter room.old) (winner_at room.old) n) × (w < n) × (a < 4294967296) }
    ensures { Lowered x n room.old w a d room.new result }
{
    working_room::put_long(room, x.dist, w, d);
    working_room::put_word(room, x.last, w, a as u32);
    node_queue::set_key(room, n, w, d)
}

// Arc a brings node w to distance d; `root` comes first before. The node that does then.
pub fn look(room: &mut [u8], n: usize, x: Stand, root: usize, w: usize, a: usize, d: u64) -> usize
    requires { (Stands x) × (Queue n room.old root) × (w < n) × (a < 4294967296) }
    ensures { Looked x n room.old root w a d room.new result }
{
    if d < working_room::long(room, x.dist, w) {
        return lower(room, n, x, w, a, d);
    }
    root
}

// Whether arc a is not closed.
pub fn is_open(closed: &[u8], a: usize) -> bool
    ensures { result ≡ is_open_at closed.now a }
{
    !closures::is_closed(closed, a)
}

// Arc a, if it is open, brings node w to distance d.
pub fn pass(
    closed: &[u8],
    room: &mut [u8],
    n: usize,
    x: Stand,
    root: usize,
    w: usize,
    a: usize,
    d: u64,
) -> usize
    requires { (Stands x) × (Queue n room.old root) × (w < n) × (a < 4294967296) }
    ensures { Passed closed.now x n room.old root w a d
        room.new result }
{
    if is_open(closed, a) {
        return look(room, n, x, root, w, a, d);
    }
    root
}
