// The key of a node's candidate.
ghost use Rattle.std.specs.Prelude.{◌≡◌, ◌<◌};
ghost use Rattle.node_queue.specs.Queue.{key_at, Queue, KeySet};
ghost use Rattle.via_chains.specs.Chains.{no_key, key_for};

use crate::{BACK, FORTH};
use first_routes::FAR;

// A node that has no key yet gets that of its candidate, if it has one. The node with the least key
// of all.
pub fn enter(room: &mut [u8], n: usize, v: usize, root: usize) -> usize
    requires { (Queue n room.old root) × (v < n) × (key_at room.old v ≡ no_key) }
    ensures { KeySet n room.old v (key_for n room.old v)
        room.new result }
{
    let to = working_room::long(room, FORTH, v);
    if FAR <= to {
        return root;
    }
    let on = working_room::long(room, BACK, v);
    if FAR <= on {
        return root;
    }
    let rank = working_room::word(room, first_routes::RANK, v);
    node_queue::set_key(room, n, v, (to + on) * 65536 + rank as u64)
}
