// A queue of nodes by key: a winner tree in the nodes' own records of the working room. Blocks of 1,
// 2, 4, .. nodes stand side by side in twos; the node with which the second of two begins has the
// winner of both. Nodes from n on do not play.
#![tactic(auto)]

pub mod lower;
pub mod winner;

ghost use Rattle.std.specs.Prelude.{◌≡◌, ◌+◌, ◌*◌, ◌≤◌, ◌<◌, length};
ghost use Rattle.net.specs.Limits.{most_nodes};
ghost use Rattle.working_room.specs.Field.{room_bytes, put_long, put_word};
ghost use Rattle.search_tree.specs.Tree.{Tree};
ghost use Rattle.node_queue.specs.Queue.{winner_at, NotAfter, Roomy, KeySet, Filled};

// Node v gets the key x, and is the winner that it has.
fn fill_node(room: &mut [u8], v: usize, x: u64)
    requires { (v * room_bytes + room_bytes ≤ length room.old) × (v < most_nodes) }
    ensures { room.new ≡ put_word 8 (put_long 0 room.old v x) v v }
{
    working_room::put_long(room, winner::KEY, v, x);
    working_room::put_word(room, winner::WINNER, v, v as u32);
}

// Every one of n nodes gets the key x.
pub fn fill(room: &mut [u8], n: usize, x: u64)
    requires { Roomy n room.old }
    ensures { Filled n room.old x room.new }
{
    for v in 0..n {
        fill_node(room, v, x);
    }
}

// Node v gets the key x. The node with the least key of all.
pub fn set_key(room: &mut [u8], n: usize, v: usize, x: u64) -> usize
    requires { (Roomy n room.old) × (v < n)
        × (Tree (NotAfter room.old) (winner_at room.old) n) }
    ensures { KeySet n room.old v x room.new result }
{
    let old = working_room::long(room, winner::KEY, v);
    working_room::put_long(room, winner::KEY, v, x);
    if old < x {
        return winner::update(room, n, v);
    }
    lower::lower(room, n, v, x)
}
