// The candidates that share too much with a route that was kept leave the queue. The overlap of a
// first route grows by one arc from node to node, so each node's arc is looked at twice at most.
#![tactic(auto)]

pub mod walk;

ghost use Rattle.std.specs.Prelude.{◌≡◌, ◌*◌, ◌≤◌, ◌<◌, ltb, leb, true, []};
ghost use Rattle.lists.specs.Tests.{every};
ghost use Rattle.net.specs.Route.{length_of};
ghost use Rattle.net.specs.Limits.{most_b};
ghost use Rattle.table.specs.Table.{records, arcs_of};
ghost use Rattle.search_ask.specs.Ask.{Accepted, net_for, query_for};
ghost use Rattle.search_ask.specs.Earlier.{route_in};
ghost use Rattle.node_queue.specs.Queue.{Roomy, Queue};
ghost use Rattle.first_routes.specs.Firsts.{far};
ghost use Rattle.via_chains.specs.Chains.{Prepared, both_in};
ghost use Rattle.via_drop.specs.Drop.{Dropped};
ghost use Rattle.via_drop.specs.Walks.{Blank, Begun, Dropping, Judged};

use first_routes::FAR;
use search_ask::Ask;

// Beyond 1,000 times every overlap, which is below 2 × `FAR`.
const MOST: u64 = 4503599627370496;

// The numbers of the first n nodes become unknown.
fn blank(room: &mut [u8], n: usize)
    requires { Roomy n room.old }
    ensures { Blank n room.old room.new }
{
    for v in 0..n {
        working_room::put_long(room, walk::TO, v, walk::UNKNOWN);
        working_room::put_long(room, walk::ON, v, walk::UNKNOWN);
    }
}

// All numbers unknown but where a way ends.
fn begin(room: &mut [u8], ask: Ask)
    requires { (Roomy ask.nodes room.old) × (ask.s < ask.nodes)
        × (ask.goal < ask.nodes) }
    ensures { Begun ask room.old room.new }
{
    blank(room, ask.nodes as usize);
    working_room::put_long(room, walk::TO, ask.s as usize, 0);
    working_room::put_long(room, walk::ON, ask.goal as usize, 0);
}

// Whether node v has a candidate.
fn has_both(room: &[u8], n: usize, v: usize) -> bool
    requires { (Roomy n room.now) × (v < n) }
    ensures { result ≡ both_in n room.now v }
{
    working_room::long(room, via_chains::FORTH, v) < FAR
        && working_room::long(room, via_chains::BACK, v) < FAR
}

// Whether an overlap is within the threshold of a route of that length. A length from `MOST` on is
// beyond every overlap, so its product need not fit.
fn is_within(ask: Ask, len: u64, overlap: u64) -> bool
    requires { (ask.a < ask.b) × (ask.b ≤ most_b) × (overlap < 2 * far) }
    ensures { result ≡ leb (ask.b * overlap) (ask.a * len) }
{
    let above = ask.a as u64;
    let below = ask.b as u64;
    below * overlap <= above * len.min(MOST)
}

// Node v leaves the queue where its candidate is not within the threshold of the route in the slot,
// whose length is `len`. The node whose candidate is then the first.
fn weigh(
    table: &[u8],
    ask: Ask,
    slot: &[u32],
    marks: &[u64],
    len: u64,
    room: &mut [u8],
    v: usize,
    root: usize,
) -> usize
    requires { (Dropping ask table.now slot.now marks.now room.old) × (v < ask.nodes)
        × (Queue ask.nodes room.old root)
        × (len ≡ length_of (arcs_of table.now) (route_in slot.now)) }
    ensures { (Dropping ask table.now slot.now
        marks.now room.new)
        × (Judged ask table.now (route_in slot.now)
        room.old v room.new result) }
{
    let n = ask.nodes as usize;
    if !has_both(room, n, v) {
        return root;
    }
    let to = walk::overlap(table, ask, slot, marks, room, false, v);
    let on = walk::overlap(table, ask, slot, marks, room, true, v);
    if is_within(ask, len, to + on) {
        return root;
    }
    node_queue::set_key(room, n, v, via_chains::NO_KEY)
}

// The same; a node that has left the queue stays as it is.
fn judge(
    table: &[u8],
    ask: Ask,
    slot: &[u32],
    marks: &[u64],
    len: u64,
    room: &mut [u8],
    v: usize,
    root: usize,
) -> usize
    requires { (Dropping ask table.now slot.now marks.now room.old) × (v < ask.nodes)
        × (Queue ask.nodes room.old root)
        × (len ≡ length_of (arcs_of table.now) (route_in slot.now)) }
    ensures { (Dropping ask table.now slot.now
        marks.now room.new)
        × (Judged ask table.now (route_in slot.now)
        room.old v room.new result) }
{
    if working_room::long(room, node_queue::winner::KEY, v) == via_chains::NO_KEY {
        return root;
    }
    weigh(table, ask, slot, marks, len, room, v, root)
}

// `route` are the arcs of the kept route, and `len` is its length. The node whose candidate is then
// the first.
pub fn near(
    table: &[u8],
    closed: &[u8],
    ask: Ask,
    route: &[u32],
    len: u64,
    room: &mut [u8],
    root: usize,
) -> usize
    requires { (Accepted ask table.now)
        × (Prepared (net_for ask table.now closed.now) ask.s ask.goal room.old)
        × (Queue ask.nodes room.old root)
        × (every (λ a. ltb a (records table.now)) route.now ≡ true)
        × (len ≡ length_of (arcs_of table.now) route.now) }
    ensures { Dropped (query_for ask table.now closed.now [])
        route.now room.old room.new result }
{
    let n = ask.nodes as usize;
    let mut marks = [0u64; search_driven::marks::WORDS];
    search_driven::marks::mark_slot(table, &mut marks, route);
    begin(room, ask);
    let mut first = root;
    for v in 0..n {
        first = judge(table, ask, route, &marks, len, room, v, first);
    }
    first
}
