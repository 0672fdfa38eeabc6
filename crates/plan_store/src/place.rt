// The parts of the routes, put into the free records.
ghost use Rattle.std.specs.Prelude.{◌≡◌, ◌*◌, ◌≤◌, length, take};
ghost use Rattle.net.specs.Limits.{most_routes};
ghost use Rattle.plan_record.specs.Record.{part_arcs};
ghost use Rattle.plan_store.specs.Slots.{most_width, route_in, routes_in};
ghost use Rattle.plan_store.specs.Store.{parts_of};
ghost use Rattle.plan_store.specs.Placing.{parts_left, next_free};
ghost use Rattle.plan_store.specs.Placing.{Placing, room, placed_next, placed_on};

use crate::slots;

// The first free record from record `at` on, or their number.
fn next_free(file: &[u8], at: usize) -> usize
    ensures { result ≡ next_free file.now at }
{
    let n = file.len() / plan_record::RECORD;
    for i in at..n {
        if plan_record::plan(file, i) == 0 {
            return i;
        }
    }
    at.max(n)
}

// The first six of what is left of a route, or all.
fn first_part(arcs: &[u32]) -> &[u32]
    ensures { result.now ≡ take part_arcs arcs.now }
{
    if arcs.len() <= plan_record::PART {
        arcs
    } else {
        &arcs[..plan_record::PART]
    }
}

// A part, of the first arcs that are left, in the next free record from record `at` on; the record
// after it.
fn put_part(file: &mut [u8], at: usize, plan: u32, rank: u8, part: u16, arcs: &[u32]) -> usize
    requires { 1 ≤ room (record { file = file.now; at = at }) }
    ensures { ◌≡◌ {A = Placing} (record { file = file.exit.now; at = result })
        (placed_next (record { file = file.entry.now; at = at })
        (record {
          plan = plan;
          rank = rank;
          part = part;
          arcs = take part_arcs arcs.now;
        })) }
{
    let i = next_free(file, at);
    plan_record::put(file, i, plan, rank, part, first_part(arcs));
    i + 1
}

// The parts of a route in the next free records from record `at` on; the record after the last.
fn put_route(file: &mut [u8], at: usize, plan: u32, rank: u8, route: &[u32]) -> usize
    requires { (length (parts_left plan rank 0 route.now)
        ≤ room (record { file = file.now; at = at })) × (length route.now ≤ most_width) }
    ensures { ◌≡◌ {A = Placing} (record { file = file.exit.now; at = result })
        (placed_on (record { file = file.entry.now; at = at })
        (parts_left plan rank 0 route.now)) }
{
    let mut next = at;
    for part in 0..slots::part_count(route.len()) {
        let left = &route[part * plan_record::PART..];
        next = put_part(file, next, plan, rank, part as u16, left);
    }
    next
}

// The same of the route in a slot.
fn put_slot(file: &mut [u8], at: usize, plan: u32, rank: u8, slot: &[u32]) -> usize
    requires { (length (parts_left plan rank 0 (route_in slot.now))
        ≤ room (record { file = file.now; at = at })) × (length slot.now ≤ most_width) }
    ensures { ◌≡◌ {A = Placing} (record { file = file.exit.now; at = result })
        (placed_on (record { file = file.entry.now; at = at })
        (parts_left plan rank 0 (route_in slot.now))) }
{
    let n = slots::arcs_in(slot);
    put_route(file, at, plan, rank, &slot[..n])
}

// The parts of every route, by rank and part, in the free records from the first on.
pub fn put_routes(file: &mut [u8], plan: u32, slots: &[u32], routes: usize, width: usize)
    requires { (length slots.now ≡ routes * width) × (routes ≤ most_routes)
        × (width ≤ most_width)
        × (length (parts_of plan 0 (routes_in slots.now routes width))
        ≤ room (record { file = file.now; at = 0 })) }
    ensures { file.exit.now ≡ (placed_on (record { file = file.entry.now; at = 0 })
        (parts_of plan 0 (routes_in slots.now routes width))).file }
{
    let mut next = 0;
    for r in 0..routes {
        next = put_slot(file, next, plan, r as u8, slots::slot_of(slots, r, width));
    }
}
