// The pair read off the marks: two walks from s to the goal, into two slots, the one that precedes
// in the first.
#![tactic(auto)]

ghost use Rattle.std.specs.Prelude.{◌≡◌, ◌≢◌, ◌+◌, ◌-◌, ◌*◌, ◌≤◌, ◌<◌, length, take, drop};
ghost use Rattle.lists.specs.Tests.{lex};
ghost use Rattle.words.specs.Part.{patch};
ghost use Rattle.net.specs.Route.{numbers_first};
ghost use Rattle.table.specs.Table.{arcs_of, net_of};
ghost use Rattle.table.specs.Fault.{table_fault, good};
ghost use Rattle.labels.specs.Chain.{slot_of};
ghost use Rattle.working_room.specs.Field.{room_bytes, word_at};
ghost use Rattle.node_queue.specs.Queue.{Roomy};
ghost use Rattle.pair.specs.Walked.{pick};
ghost use Rattle.pair_room.specs.Room.{none};
ghost use Rattle.pair_room.specs.Stages.{Settled};
ghost use Rattle.pair_walks.specs.Way.{way_in, way_of, Walking, Written, Paired};

use pair_room::{ADDED, KEPT, NONE};

// The number of arcs of a route, and its length.
#[derive(Clone, Copy)]
pub struct Way {
    pub arcs: usize,
    pub length: u64,
}

// The routes of the two slots.
#[derive(Clone, Copy)]
pub struct Ways {
    pub first: Way,
    pub second: Way,
}

// The arc that a walk by the marks at offset `own` goes on by from node v; where there is none, by
// those at `other`.
fn next(room: &[u8], own: usize, other: usize, v: usize) -> u32
    requires { (v * room_bytes + room_bytes ≤ length room.now) × (own + 4 ≤ room_bytes)
        × (other + 4 ≤ room_bytes) }
    ensures { result ≡ pick none (word_at own room.now v)
        (word_at other room.now v) }
{
    let a = working_room::word(room, own, v);
    if a == NONE {
        working_room::word(room, other, v)
    } else {
        a
    }
}

// The walk from s to the goal, in the first words of a slot.
fn follow(
    table: &[u8],
    nodes: u32,
    s: u32,
    goal: u32,
    room: &[u8],
    own: usize,
    other: usize,
    slot: &mut [u32],
) -> Way
    requires { (Walking table.now nodes s goal room.now own other)
        × (length slot.old ≡ nodes - 1) }
    ensures { (length slot.new ≡ length slot.old)
        × (take result.arcs slot.new
        ≡ way_in table.now nodes s goal room.now own other)
        × (result ≡ way_of (arcs_of table.now)
        (way_in table.now nodes s goal room.now own other)) }
{
    let mut v = s;
    let mut k = 0;
    let mut len = 0;
    while v != goal {
        let a = next(room, own, other, v as usize);
        slot[k] = a;
        k += 1;
        len += table::arc::length_of(table, a as usize) as u64;
        v = table::arc::to_of(table, a as usize);
    }
    Way {
        arcs: k,
        length: len,
    }
}

// The same in a slot whose remaining words are 4,294,967,295.
fn walk(
    table: &[u8],
    nodes: u32,
    s: u32,
    goal: u32,
    room: &[u8],
    own: usize,
    other: usize,
    slot: &mut [u32],
) -> Way
    requires { (Walking table.now nodes s goal room.now own other)
        × (length slot.old ≡ nodes - 1) }
    ensures { (slot.new ≡ slot_of (nodes - 1)
        (way_in table.now nodes s goal room.now own other))
        × (result ≡ way_of (arcs_of table.now)
        (way_in table.now nodes s goal room.now own other)) }
{
    let way = follow(table, nodes, s, goal, room, own, other, slot);
    let w = slot.len();
    words::fill::fill_part(slot, way.arcs, w, NONE);
    way
}

// The same in slot r of the area.
fn put(
    table: &[u8],
    nodes: u32,
    s: u32,
    goal: u32,
    room: &[u8],
    own: usize,
    other: usize,
    area: &mut [u32],
    r: usize,
) -> Way
    requires { (Walking table.now nodes s goal room.now own other) × (r < 2)
        × (r * (nodes - 1) + (nodes - 1) ≤ length area.old) }
    ensures { (area.new ≡ patch (r * (nodes - 1)) (r * (nodes - 1) + (nodes - 1))
        area.old (slot_of (nodes - 1)
        (way_in table.now nodes s goal room.now own other)))
        × (result ≡ way_of (arcs_of table.now)
        (way_in table.now nodes s goal room.now own other)) }
{
    let w = nodes as usize - 1;
    let from = r * w;
    let to = from + w;
    walk(table, nodes, s, goal, room, own, other, &mut area[from..to])
}

// Both walks: that by the marks at `own` where it can in the first slot, the other in the second.
fn both(
    table: &[u8],
    nodes: u32,
    s: u32,
    goal: u32,
    room: &[u8],
    own: usize,
    other: usize,
    area: &mut [u32],
) -> Ways
    requires { (Walking table.now nodes s goal room.now own other)
        × (Walking table.now nodes s goal room.now other own)
        × (2 * (nodes - 1) ≤ length area.old) }
    ensures { Written (arcs_of table.now) (nodes - 1)
        (way_in table.now nodes s goal room.now own other)
        (way_in table.now nodes s goal room.now other own)
        area.old area.new result }
{
    let first = put(table, nodes, s, goal, room, own, other, area, 0);
    let second = put(table, nodes, s, goal, room, other, own, area, 1);
    Ways { first, second }
}

// Whether the arc numbers of p come first, compared from the start.
fn numbers_first(p: &[u32], q: &[u32]) -> bool
    ensures { result ≡ numbers_first p.now q.now }
{
    p < q
}

// Whether the route of the second slot precedes that of the first.
fn turned(area: &[u32], w: usize, x: Ways) -> bool
    requires { (x.first.arcs ≤ w) × (x.second.arcs ≤ w) × (2 * w ≤ length area.now) }
    ensures { result ≡ lex x.second.length x.first.length
        (numbers_first (take x.second.arcs (drop w area.now))
        (take x.first.arcs area.now)) }
{
    let p = x.first;
    let q = x.second;
    q.length < p.length
        || q.length == p.length && numbers_first(&area[w..w + q.arcs], &area[..p.arcs])
}

// The pair in the first two slots, the one that precedes in the first.
pub fn pair(
    table: &[u8],
    closed: &[u8],
    nodes: u32,
    s: u32,
    goal: u32,
    room: &[u8],
    area: &mut [u32],
) -> Ways
    requires { (table_fault nodes table.now ≡ good) × (s < nodes) × (s ≢ goal)
        × (Roomy nodes room.now)
        × (Settled (net_of nodes table.now closed.now) s goal room.now)
        × (2 * (nodes - 1) ≤ length area.old) }
    ensures { Paired (net_of nodes table.now closed.now) s goal
        area.old area.new result }
{
    let x = both(table, nodes, s, goal, room, KEPT, ADDED, area);
    if turned(area, nodes as usize - 1, x) {
        return both(table, nodes, s, goal, room, ADDED, KEPT, area);
    }
    x
}
