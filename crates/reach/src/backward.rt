// Distances to a node.
ghost use Rattle.std.specs.Prelude.{◌≡◌, false, ◌<◌};
ghost use Rattle.table.specs.Table.{net_of};
ghost use Rattle.table.specs.Fault.{table_fault, good};
ghost use Rattle.second.specs.Second.{wrong_second};
ghost use Rattle.distances.specs.Search.{Found};
ghost use Rattle.distances.specs.Turned.{reversed};
ghost use Rattle.node_queue.specs.Queue.{Roomy, Queue};
ghost use Rattle.run_notes.specs.Noted.{LeavingNoted, ComingNoted};
ghost use Rattle.reach.specs.Stand.{Stands, BeforeNotes, dist_in, last_in, Elsewhere};
ghost use Rattle.reach.specs.Choice.{Brought};

use crate::way::{self, Arcs};
use crate::{Stand, choice, step};
use run_notes::ByEnd;

// An arc of this length from w to v brings node w to distance c. Its number is looked for only
// where w is further. The node that comes first then.
fn bring(
    table: &[u8],
    closed: &[u8],
    nodes: u32,
    x: Stand,
    room: &mut [u8],
    root: usize,
    w: u32,
    v: u32,
    len: u32,
    c: u64,
) -> usize
    requires { (table_fault nodes table.now ≡ good) × (Stands x)
        × (Queue nodes room.old root) × (w < nodes)
        × (LeavingNoted nodes table.now room.old) }
    ensures { Brought table.now closed.now x nodes room.old root
        w v len c room.new result }
{
    if working_room::long(room, x.dist, w as usize) <= c {
        return root;
    }
    let first = run_notes::start_of(table, nodes, room, w);
    let Some(a) = choice::open_arc(table, closed, nodes, w, first, v, len) else {
        return root;
    };
    step::look(room, nodes as usize, x, root, w as usize, a, c)
}

impl Arcs for ByEnd {
    ghost use Rattle.std.specs.Prelude.{◌≡◌, false, ◌+◌};
    ghost use Rattle.second.specs.Second.{wrong_second};
    ghost use Rattle.second.specs.Lookup.{coming_start};
    ghost use Rattle.reach.specs.Way.{turned_arcs, Along};

    ghost turn = { turned_arcs };

    ghost Right = { λ nodes t w. wrong_second nodes t w ≡ false };

    ghost Place = { λ nodes t w u i lo. Along nodes t w u (coming_start w (u + 1)) i lo };

    fn look(
        table: &[u8],
        walked: &[u8],
        closed: &[u8],
        nodes: u32,
        s: u32,
        x: Stand,
        room: &mut [u8],
        root: usize,
        v: u32,
        i: usize,
        d: u64,
    ) -> usize {
        let w = table::arc::from_of(walked, i);
        let len = table::arc::length_of(walked, i);
        let c = d + len as u64;
        bring(table, closed, nodes, x, room, root, w, v, len, c)
    }
}

// The distances of all nodes to the goal, over the arcs that are not closed; `second` has the arcs
// by end node, and the starts of the runs are noted in the room.
pub fn search(
    table: &[u8],
    second: &[u8],
    closed: &[u8],
    nodes: u32,
    goal: u32,
    x: Stand,
    room: &mut [u8],
)
    requires { (table_fault nodes table.now ≡ good)
        × (wrong_second nodes table.now second.now ≡ false) × (goal < nodes) × (Stands x)
        × (Roomy nodes room.old) × (BeforeNotes x)
        × (LeavingNoted nodes table.now room.old)
        × (ComingNoted nodes second.now room.old) }
    ensures { (Elsewhere x room.old room.new)
        × (Found (reversed (net_of nodes table.now closed.now)) goal x.far
        (dist_in x nodes room.new) (last_in x room.new)) }
{
    way::search::<ByEnd>(table, second, closed, nodes, goal, x, room);
}
