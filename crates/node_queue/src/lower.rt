// The way up from a node whose key fell. A winner that does not win over it now still wins over all
// others, so the node takes its place; at the first that wins over it all above are right.
ghost use Rattle.std.specs.Prelude.{◌≡◌, ◌<◌};
ghost use Rattle.working_room.specs.Field.{Within};
ghost use Rattle.search_tree.specs.Tree.{First, Tree, Block};
ghost use Rattle.node_queue.specs.Queue.{key_at, winner_at, NotAfter, Roomy};
ghost use Rattle.node_queue.specs.Choice.{Fell};

use crate::winner;

// The first of all: the last of 1, 2, 4, .. that is below n is the middle of a block that has all.
fn root(room: &[u8], n: usize, below: usize) -> usize
    requires { (Roomy n room.now) × (Block 0 below) × (below < n)
        × (Tree (NotAfter room.now) (winner_at room.now) n) }
    ensures { First (NotAfter room.now) n 0 n result }
{
    let mut half = below;
    while half * 2 < n {
        half = half * 2;
    }
    working_room::word(room, winner::WINNER, half) as usize
}

// After node x's key fell to `key`: the winners over it anew, up to the first that stays. The first
// of all.
pub fn lower(room: &mut [u8], n: usize, x: usize, key: u64) -> usize
    requires { (Roomy n room.old) × (x < n) × (key ≡ key_at room.old x)
        × (Fell n x room.old) }
    ensures { (Within 8 4 room.old room.new)
        × (Tree (NotAfter room.new) (winner_at room.new) n)
        × (First (NotAfter room.new) n 0 n result) }
{
    let mut half = 1;
    let mut j = x;
    while half < n {
        let mid = (j / 2 * 2 + 1) * half;
        if n <= mid {
            j = j / 2;
            half = half * 2;
            continue;
        }
        let w = working_room::word(room, winner::WINNER, mid) as usize;
        let k = working_room::long(room, winner::KEY, w);
        if k < key {
            return root(room, n, half);
        }
        working_room::put_word(room, winner::WINNER, mid, x as u32);
        j = j / 2;
        half = half * 2;
    }
    x
}
