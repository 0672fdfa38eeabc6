// What two routes share, by marks in the working room, and how dissimilar they are.
#![tactic(auto)]

ghost use Rattle.std.specs.Prelude.{◌≡◌, cond, ◌+◌, ◌*◌, ◌≤◌, ◌<◌, length};
ghost use Rattle.net.specs.Limits.{most_nodes, most_length};
ghost use Rattle.table.specs.Table.{records};
ghost use Rattle.table.specs.Fault.{table_fault, good};
ghost use Rattle.remaining.specs.Standing.{Roomy};
ghost use Rattle.route_list.specs.Listed.{Words};
ghost use Rattle.search_ask.specs.Earlier.{route_in};
ghost use Rattle.net.specs.Route.{length_of};
ghost use Rattle.table.specs.Table.{arcs_of};
ghost use Rattle.route_apart.specs.Marks.{part_of, marked_of, put_marks, apart_by};

use products::Fraction;

// Where a node's mark stands in its record: the number of the marked arc that leaves it, and 1.
pub const MARK: usize = 20;

// The length of arc a, where it is marked.
fn part(table: &[u8], nodes: u32, room: &[u8], a: usize) -> u64
    requires { (table_fault nodes table.now ≡ good) × (a < records table.now)
        × (Roomy nodes room.now) }
    ensures { result ≡ part_of table.now room.now a }
{
    let v = table::arc::from_of(table, a) as usize;
    if working_room::word(room, MARK, v) as usize == a + 1 {
        table::arc::length_of(table, a) as u64
    } else {
        0
    }
}

// The length of what the route in a slot shares with the marked one.
pub fn shared(table: &[u8], nodes: u32, slot: &[u32], room: &[u8]) -> u64
    requires { (table_fault nodes table.now ≡ good) × (Words table.now slot.now)
        × (length slot.now ≤ most_nodes) × (Roomy nodes room.now) }
    ensures { result ≡ marked_of table.now room.now slot.now }
{
    let mut total: u64 = 0;
    for &x in slot {
        if x == labels::field::NONE {
            return total;
        }
        total += part(table, nodes, room, x as usize);
    }
    total
}

// The mark of arc a, or none.
fn mark_of(a: u32, on: bool) -> u32
    requires { a < 4294967295 }
    ensures { result ≡ cond on (a + 1) 0 }
{
    if on { a + 1 } else { 0 }
}

// Marks the arcs of the route in a slot, or takes their marks away.
pub fn put_marks(table: &[u8], nodes: u32, slot: &[u32], room: &mut [u8], on: bool)
    requires { (table_fault nodes table.now ≡ good) × (Words table.now slot.now)
        × (length slot.now ≤ most_nodes) × (Roomy nodes room.old) }
    ensures { room.new ≡ put_marks table.now on
        (route_in slot.now) room.old }
{
    for &x in slot {
        if x == labels::field::NONE {
            return;
        }
        let v = table::arc::from_of(table, x as usize) as usize;
        working_room::put_word(room, MARK, v, mark_of(x, on));
    }
}

// How dissimilar the route in a slot and the marked one, of this length, are.
pub fn apart(table: &[u8], nodes: u32, slot: &[u32], room: &[u8], size: u64) -> Fraction
    requires { (table_fault nodes table.now ≡ good) × (Words table.now slot.now)
        × (length slot.now ≤ most_nodes) × (Roomy nodes room.now)
        × (marked_of table.now room.now slot.now ≤ size) × (size ≤ most_nodes * most_length) }
    ensures { result ≡ apart_by table.now room.now slot.now
        size }
{
    let both = route_list::length(table, nodes, slot) + size;
    let common = shared(table, nodes, slot, room);
    Fraction {
        over: both - 2 * common,
        under: both - common,
    }
}
