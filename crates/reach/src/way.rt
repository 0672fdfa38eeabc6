// A search with a queue, whichever way its arcs lead.
ghost use Rattle.std.specs.Prelude.{◌≡◌, ◌<◌};
ghost use Rattle.table.specs.Fault.{table_fault, good};
ghost use Rattle.distances.specs.Search.{Found};
ghost use Rattle.node_queue.specs.Queue.{key_at, Roomy};
ghost use Rattle.run_notes.specs.Noted.{LeavingNoted, Noted, start_by};
ghost use Rattle.reach.specs.Stand.{Stands, BeforeNotes, dist_in, last_in, Elsewhere};
ghost use Rattle.reach.specs.Turn.{Ready, Over};
ghost use Rattle.reach.specs.Way.{along, Walks};

use crate::{Stand, step};
use run_notes::Order;

// The arcs of a table as a search goes over them: each from the node by which its record stands in
// the table that is walked.
pub trait Arcs: Order {
    ghost use Rattle.std.specs.Prelude.{◌≡◌, List, ℕ, ◌+◌, ◌<◌};
    ghost use Rattle.net.specs.Net.{Arc};
    ghost use Rattle.table.specs.Table.{records};
    ghost use Rattle.table.specs.Fault.{table_fault, good};
    ghost use Rattle.run_notes.specs.Noted.{LeavingNoted};
    ghost use Rattle.reach.specs.Way.{along, At};

    ghost turn: { List Arc → List Arc };

    // Of a table's arcs, this is the table that is walked.
    ghost Right: { ℕ → List ℕ → List ℕ → Type 0 };

    // Where the walk is at record i for node u, the arcs from number lo on are yet to be looked at.
    ghost Place: { ℕ → List ℕ → List ℕ → ℕ → ℕ → ℕ → Type 0 };

    // The arc of record i, which leaves v, at distance d, is looked at if it is open. The node that
    // comes first then.
    fn look(
        table: &[u8],
        walked: &[u8],
        closed: &[u8],
        nodes: u32,
        s: u32,
        x: Stand,
        room: &mut [u8],
        root: usize,
        v: u32,
        i: usize,
        d: u64,
    ) -> usize
        requires { (table_fault nodes table.now ≡ good) × (Right nodes table.now walked.now)
            × (LeavingNoted nodes table.now room.old)
            × (i < records walked.now) × (Self.node_at walked.now i ≡ v)
            × (At (Place nodes table.now walked.now v) (along turn nodes table.now closed.now)
            s x room.old room.old root v d i) }
        ensures { At (Place nodes table.now walked.now v) (along turn nodes table.now closed.now)
            s x room.old room.new result v d (i + 1) };
}

// The turn of node u, which comes first: it is done, and the open arcs that leave it, from record
// `first` on, are looked at. The node that comes first then.
fn leave<A: Arcs>(
    table: &[u8],
    walked: &[u8],
    closed: &[u8],
    nodes: u32,
    s: u32,
    x: Stand,
    room: &mut [u8],
    u: usize,
    first: usize,
) -> usize
    requires { (table_fault nodes table.now ≡ good) × (A.Right nodes table.now walked.now)
        × (Walks A.node_at (A.Place nodes table.now walked.now)
        (along A.turn nodes table.now closed.now) walked.now)
        × (BeforeNotes x) × (LeavingNoted nodes table.now room.old)
        × (Ready (along A.turn nodes table.now closed.now) s x room.old u)
        × (key_at room.old u < x.far) × (first ≡ start_by A.node_at walked.now u) }
    ensures { Over (along A.turn nodes table.now closed.now) s x room.old room.new result u }
{
    let v = u as u32;
    let d = working_room::long(room, x.dist, u);
    let mut root = node_queue::set_key(room, nodes as usize, u, x.far);
    for i in first..walked.len() / table::arc::RECORD {
        if A::node_of(walked, i) != v {
            return root;
        }
        root = A::look(table, walked, closed, nodes, s, x, room, root, v, i, d);
    }
    root
}

// The distances of all nodes from s, over the arcs that are not closed. Where the runs start is
// noted in the room.
pub fn search<A: Arcs>(
    table: &[u8],
    walked: &[u8],
    closed: &[u8],
    nodes: u32,
    s: u32,
    x: Stand,
    room: &mut [u8],
)
    requires { (table_fault nodes table.now ≡ good) × (A.Right nodes table.now walked.now)
        × (Walks A.node_at (A.Place nodes table.now walked.now)
        (along A.turn nodes table.now closed.now) walked.now)
        × (s < nodes) × (Stands x) × (Roomy nodes room.old) × (BeforeNotes x)
        × (LeavingNoted nodes table.now room.old)
        × (Noted A.NOTE (start_by A.node_at walked.now) nodes room.old) }
    ensures { (Elsewhere x room.old room.new)
        × (Found (along A.turn nodes table.now closed.now) s x.far
        (dist_in x nodes room.new) (last_in x room.new)) }
{
    let mut root = step::start(room, nodes as usize, x, s as usize);
    let mut key = working_room::long(room, node_queue::winner::KEY, root);
    while key < x.far {
        let first = working_room::word(room, A::NOTE, root) as usize;
        root = leave::<A>(table, walked, closed, nodes, s, x, room, root, first);
        key = working_room::long(room, node_queue::winner::KEY, root);
    }
}
