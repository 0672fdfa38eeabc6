// The overlaps with a route that was kept of the first routes to a node (`on` false) and from it
// (`on` true). Each grows by one arc from node to node, so a node's number is kept once it is known.
ghost use Rattle.std.specs.Prelude.{◌≡◌, ◌⊎◌, [], ◌∷◌, ◌+◌, ◌*◌, ◌≤◌, ◌<◌, length};
ghost use Rattle.table.specs.Table.{records};
ghost use Rattle.working_room.specs.Field.{room_bytes, Within};
ghost use Rattle.search_ask.specs.Ask.{Accepted};
ghost use Rattle.search_ask.specs.Earlier.{route_in, Formed};
ghost use Rattle.search_driven.specs.Marks.{Filter};
ghost use Rattle.first_routes.specs.Firsts.{far};
ghost use Rattle.via_drop.specs.Walks.{number_at, put_number, arc_by, next_by, dist_by};
ghost use Rattle.via_drop.specs.Walks.{unknown, total_by, share, Dropping};

use search_ask::Ask;
use via_chains::{FIRST, LAST};

// The offsets of the numbers in a node's record, and what stands there for none.
pub const TO: usize = 40;

pub const ON: usize = 48;

pub const UNKNOWN: u64 = 18446744073709551615;

#[tactic(auto, unfolding(crate::specs::Walks::number_at))]
fn number(room: &[u8], on: bool, v: usize) -> u64
    requires { v * room_bytes + room_bytes ≤ length room.now }
    ensures { result ≡ number_at on room.now v }
{
    working_room::long(room, if on { ON } else { TO }, v)
}

#[tactic(auto, unfolding(crate::specs::Walks::put_number))]
fn put_number(room: &mut [u8], on: bool, v: usize, x: u64)
    requires { v * room_bytes + room_bytes ≤ length room.old }
    ensures { room.new ≡ put_number on room.old v x }
{
    working_room::put_long(room, if on { ON } else { TO }, v, x);
}

// The arc by which the way goes on from v.
#[tactic(auto, unfolding(crate::specs::Walks::arc_by))]
fn arc_by(room: &[u8], on: bool, v: usize) -> u32
    requires { v * room_bytes + room_bytes ≤ length room.now }
    ensures { result ≡ arc_by on room.now v }
{
    working_room::word(room, if on { FIRST } else { LAST }, v)
}

// The node where the way comes to by an arc.
#[tactic(auto, unfolding(crate::specs::Walks::next_by))]
fn next_by(table: &[u8], on: bool, arc: usize) -> u32
    requires { arc < records table.now }
    ensures { result ≡ next_by on table.now arc }
{
    if on {
        table::arc::to_of(table, arc)
    } else {
        table::arc::from_of(table, arc)
    }
}

// What an arc shares with the route in the slot, which is looked at only where the filter says that
// it may drive the arc's road.
fn share_of(table: &[u8], ask: Ask, slot: &[u32], marks: &[u64], arc: usize) -> u64
    requires { (Accepted ask table.now)
        × (Filter table.now (route_in slot.now ∷ []) marks.now)
        × (arc < records table.now) × (Formed slot.now) }
    ensures { result ≡ share ask table.now (route_in slot.now) arc }
{
    if search_driven::marks::may_drive(table, marks, arc) {
        search_driven::shared(table, ask, slot, arc)
    } else {
        0
    }
}

// The overlap of the way from v: along it to a node whose number is known.
fn sum(table: &[u8], ask: Ask, slot: &[u32], marks: &[u64], room: &[u8], on: bool, v: usize) -> u64
    requires { (Dropping ask table.now slot.now marks.now room.now)
        × (v < ask.nodes) × (dist_by on ask.nodes room.now v < far) }
    ensures { result ≡ total_by on ask table.now (route_in slot.now)
        room.now v }
{
    let mut u = v;
    let mut passed = 0;
    let mut known = number(room, on, u);
    while known == UNKNOWN {
        let arc = arc_by(room, on, u) as usize;
        passed += share_of(table, ask, slot, marks, arc);
        u = next_by(table, on, arc) as usize;
        known = number(room, on, u);
    }
    passed + known
}

// What is left behind an arc of an overlap: what is known there, or what the arc does not share.
fn rest(
    table: &[u8],
    ask: Ask,
    slot: &[u32],
    marks: &[u64],
    arc: usize,
    left: u64,
    known: u64,
) -> u64
    requires { (Accepted ask table.now)
        × (Filter table.now (route_in slot.now ∷ []) marks.now)
        × (arc < records table.now) × (Formed slot.now)
        × (share ask table.now (route_in slot.now) arc ≤ left)
        × ((known ≡ unknown) ⊎ (left ≡ share ask table.now (route_in slot.now) arc + known)) }
    ensures { left
        ≡ share ask table.now (route_in slot.now) arc + result }
{
    if known != UNKNOWN {
        return known;
    }
    left - share_of(table, ask, slot, marks, arc)
}

// The same way again: x is the overlap of the way from v, and each node on it gets what is left.
fn store(
    table: &[u8],
    ask: Ask,
    slot: &[u32],
    marks: &[u64],
    room: &mut [u8],
    on: bool,
    v: usize,
    x: u64,
)
    requires { (Dropping ask table.now slot.now marks.now room.old)
        × (v < ask.nodes) × (dist_by on ask.nodes room.old v < far)
        × (x ≡ total_by on ask table.now (route_in slot.now) room.old v) }
    ensures { (Within 40 16 room.old room.new)
        × (Dropping ask table.now slot.now marks.now
        room.new) }
{
    let mut u = v;
    let mut left = x;
    let mut known = number(room, on, u);
    while known == UNKNOWN {
        let arc = arc_by(room, on, u) as usize;
        put_number(room, on, u, left);
        u = next_by(table, on, arc) as usize;
        known = number(room, on, u);
        left = rest(table, ask, slot, marks, arc, left, known);
    }
}

// The overlap of the way from v; then the numbers on the way are known.
pub fn overlap(
    table: &[u8],
    ask: Ask,
    slot: &[u32],
    marks: &[u64],
    room: &mut [u8],
    on: bool,
    v: usize,
) -> u64
    requires { (Dropping ask table.now slot.now marks.now room.old)
        × (v < ask.nodes) × (dist_by on ask.nodes room.old v < far) }
    ensures { (Within 40 16 room.old room.new)
        × (Dropping ask table.now slot.now marks.now
        room.new)
        × (result ≡ total_by on ask table.now (route_in slot.now)
        room.old v) }
{
    let x = sum(table, ask, slot, marks, room, on, v);
    store(table, ask, slot, marks, room, on, v, x);
    x
}
