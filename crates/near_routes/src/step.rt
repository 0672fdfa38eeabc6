// The steps of the listing.
ghost use Rattle.std.specs.Prelude.{◌≡◌, ◌⊎◌, None, Some, ℕ, ◌+◌, ◌*◌, ◌≤◌, ◌<◌, length, set, take};
ghost use mathlib.Core.List.{Memᴰ};
ghost use Rattle.net.specs.Limits.{most_nodes};
ghost use Rattle.net.specs.Route.{length_of};
ghost use Rattle.table.specs.Table.{records, arcs_of};
ghost use Rattle.table.specs.Fault.{table_fault, good};
ghost use Rattle.search_ask.specs.Earlier.{earlier_in};
ghost use Rattle.working_room.specs.Field.{room_bytes, put_word};
ghost use Rattle.remaining.specs.Standing.{far, go_in, Roomy};
ghost use Rattle.route_list.specs.Listed.{Fits, Listed, Placed};
ghost use Rattle.net.specs.Limits.{most_d};
ghost use Rattle.near_routes.specs.Deep.{seen_field, goes_by};

use crate::Range;

// Where a node's mark stands in its record: 1 where it is visited.
pub const SEEN: usize = 16;

// Whether arc a, after a path of this length, goes on: it is open, leads to a node not visited, and
// may arrive in range.
pub fn goes(table: &[u8], closed: &[u8], x: Range, room: &[u8], a: usize, size: u64) -> bool
    requires { (table_fault x.nodes table.now ≡ good) × (a < records table.now)
        × (Roomy x.nodes room.now) × (size < far) × (x.d ≤ most_d)
        × ((u : ℕ) → go_in x.nodes room.now u ≤ far) }
    ensures { result ≡ goes_by table.now closed.now x room.now
        a size }
{
    if closures::is_closed(closed, a) {
        return false;
    }
    let u = table::arc::to_of(table, a) as usize;
    if working_room::word(room, SEEN, u) != 0 {
        return false;
    }
    let on = size + table::arc::length_of(table, a) as u64;
    let whole = on + working_room::long(room, remaining::DISTANCE, u);
    whole * x.d <= x.most
}

// A path that has arrived is put in its place, if there is a slot. How many are listed then, or none
// where there is no slot.
pub fn arrive(
    table: &[u8],
    nodes: u32,
    slots: usize,
    list: &mut [u32],
    path: &[u32],
    depth: usize,
    size: u64,
    n: usize,
) -> Option<usize>
    requires { (table_fault nodes table.now ≡ good)
        × (Listed table.now (length path.now) n list.old) × (length path.now ≤ most_nodes)
        × (size ≡ length_of (arcs_of table.now) (take depth path.now)) × (depth ≤ length path.now)
        × (Fits table.now (length path.now) (take depth path.now))
        × (slots * length path.now ≤ length list.old) × (slots < 4611686018427387904)
        × (Memᴰ (take depth path.now) (earlier_in (length path.now) n list.old) → ⊥) }
    ensures { ((slots ≤ n) × (result ≡ None) × (list.new ≡ list.old))
        ⊎ ((n < slots) × (result ≡ Some (n + 1)) × (Placed table.now (length path.now) n
        list.old (take depth path.now) list.new)) }
{
    if slots <= n {
        return None;
    }
    let w = path.len();
    route_list::place(table, nodes, list, w, n, &path[0..depth], size);
    Some(n + 1)
}

// Arc a is the next of the path, and node u, to which it leads, is visited.
pub fn enter(path: &mut [u32], room: &mut [u8], depth: usize, a: usize, u: usize)
    requires { (depth < length path.old) × (a < 4294967296)
        × (u * room_bytes + room_bytes ≤ length room.old) }
    ensures { (path.new ≡ set path.old depth a)
        × (room.new ≡ put_word seen_field room.old u 1) }
{
    path[depth] = a as u32;
    working_room::put_word(room, SEEN, u, 1);
}

// Node u is not visited any more.
pub fn leave(room: &mut [u8], u: usize)
    requires { u * room_bytes + room_bytes ≤ length room.old }
    ensures { room.new ≡ put_word seen_field room.old u 0 }
{
    working_room::put_word(room, SEEN, u, 0);
}
