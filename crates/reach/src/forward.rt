// Distances from a node.
ghost use Rattle.std.specs.Prelude.{◌≡◌, ◌<◌};
ghost use Rattle.table.specs.Table.{net_of};
ghost use Rattle.table.specs.Fault.{table_fault, good};
ghost use Rattle.distances.specs.Search.{Found};
ghost use Rattle.node_queue.specs.Queue.{Roomy};
ghost use Rattle.run_notes.specs.Noted.{LeavingNoted};
ghost use Rattle.reach.specs.Stand.{Stands, BeforeNotes, dist_in, last_in, Elsewhere};

use crate::way::{self, Arcs};
use crate::{Stand, step};
use run_notes::ByStart;

impl Arcs for ByStart {
    ghost use Rattle.std.specs.Prelude.{◌≡◌, ◌≤◌};
    ghost use Rattle.table.specs.Run.{run_start};

    ghost turn = { λ arcs. arcs };

    ghost Right = { λ nodes t w. w ≡ t };

    ghost Place = { λ nodes t w u i lo. (lo ≡ i) × (run_start t u ≤ i) };

    fn look(
        table: &[u8],
        walked: &[u8],
        closed: &[u8],
        nodes: u32,
        s: u32,
        x: Stand,
        room: &mut [u8],
        root: usize,
        v: u32,
        i: usize,
        d: u64,
    ) -> usize {
        let w = table::arc::to_of(walked, i) as usize;
        let len = table::arc::length_of(walked, i) as u64;
        step::pass(closed, room, nodes as usize, x, root, w, i, d + len)
    }
}

// The distances of all nodes from s, over the arcs that are not closed. Where the runs start is
// noted in the room.
pub fn search(table: &[u8], closed: &[u8], nodes: u32, s: u32, x: Stand, room: &mut [u8])
    requires { (table_fault nodes table.now ≡ good) × (s < nodes) × (Stands x)
        × (Roomy nodes room.old) × (BeforeNotes x)
        × (LeavingNoted nodes table.now room.old) }
    ensures { (Elsewhere x room.old room.new)
        × (Found (net_of nodes table.now closed.now) s x.far
        (dist_in x nodes room.new) (last_in x room.new)) }
{
    way::search::<ByStart>(table, table, closed, nodes, s, x, room);
}
