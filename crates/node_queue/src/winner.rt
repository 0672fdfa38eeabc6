// The winner tree over the nodes, by key. The node with which the second of two blocks begins has the
// winner of both:
//
//   node        0    1    2    3    4    5    6    7
//   winner of       0-1  0-3  2-3  0-7  4-5  4-7  6-7
//
// Where two keys are equal either node may win.
ghost use Rattle.std.specs.Prelude.{◌+◌, ◌*◌, ◌/◌, ◌%◌, ◌≤◌, ◌<◌, length};
ghost use Rattle.net.specs.Limits.{most_nodes};
ghost use Rattle.working_room.specs.Field.{room_bytes, Within};
ghost use Rattle.search_tree.specs.Tree.{First, Tree, TreeBut, Climbs, Block, Narrowed};
ghost use Rattle.node_queue.specs.Queue.{winner_at, NotAfter, Roomy};
ghost use Rattle.node_queue.specs.Choice.{Chosen, Under};

pub const KEY: usize = 0;

pub const WINNER: usize = 8;

// Of nodes v and w one whose key is not greater than the other's.
fn choose(room: &[u8], v: usize, w: usize) -> usize
    requires { (v * room_bytes + room_bytes ≤ length room.now)
        × (w * room_bytes + room_bytes ≤ length room.now) }
    ensures { Chosen room.now v w result }
{
    let k = working_room::long(room, KEY, v);
    let m = working_room::long(room, KEY, w);
    if m < k { w } else { v }
}

// The first of the block of `half` nodes from e on, of which s nodes matter.
fn first_of(room: &[u8], n: usize, e: usize, half: usize, s: usize) -> usize
    requires { (Roomy n room.now) × (Under n half room.now) × (e < n)
        × (Narrowed n e half s) }
    ensures { First (NotAfter room.now) n e (e + half) result }
{
    if s == 1 {
        return e;
    }
    working_room::word(room, WINNER, e + s / 2) as usize
}

// The first of the block of `half` nodes from e on, which may be cut by n.
fn first_in(room: &[u8], n: usize, e: usize, half: usize) -> usize
    requires { (Roomy n room.now) × (Under n half room.now) × (e < n) × (half < n)
        × (Block e half) }
    ensures { First (NotAfter room.now) n e (e + half) result }
{
    if e + half <= n {
        return first_of(room, n, e, half, half);
    }
    let s = search_tree::narrow(e, half, n);
    first_of(room, n, e, half, s)
}

// One level up from node x, w the first of block j of `half` nodes, in which x stands: the winner of
// this block and the one next to it, written. No branch asks whether that one is before or after it:
// it would go either way as often.
fn level(room: &mut [u8], n: usize, x: usize, j: usize, half: usize, w: usize) -> usize
    requires { (Roomy n room.old) × (x < n) × (half < n)
        × (Climbs (NotAfter room.old) (winner_at room.old) n x half j w) }
    ensures { (Within 8 4 room.old room.new)
        × (Climbs (NotAfter room.old) (winner_at room.new)
        n x (half * 2) (j / 2) result) }
{
    let mid = (j / 2 * 2 + 1) * half;
    if n <= mid {
        return w;
    }
    let v = first_in(room, n, (j + 1 - j % 2 * 2) * half, half);
    let u = choose(room, w, v);
    working_room::put_word(room, WINNER, mid, u as u32);
    u
}

// After node x's key changed: the winners over it anew. The first of all.
pub fn update(room: &mut [u8], n: usize, x: usize) -> usize
    requires { (Roomy n room.old) × (x < n)
        × (TreeBut (NotAfter room.old) (winner_at room.old) n x) }
    ensures { (Within 8 4 room.old room.new)
        × (Tree (NotAfter room.new) (winner_at room.new) n)
        × (First (NotAfter room.new) n 0 n result) }
{
    let mut w = x;
    let mut half = 1;
    let mut j = x;
    while half < n {
        w = level(room, n, x, j, half, w);
        j = j / 2;
        half = half * 2;
    }
    w
}
