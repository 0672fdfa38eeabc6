// The routes to be stored, in their slots.
ghost use Rattle.std.specs.Prelude.{◌≡◌, ◌+◌, ◌-◌, ◌*◌, ◌/◌, ◌≤◌, ltb, eqb, length};
ghost use Rattle.lists.specs.Tests.{up_from, every, any};
ghost use Rattle.words.specs.Part.{slot};
ghost use Rattle.net.specs.Limits.{most_routes, most_arcs};
ghost use Rattle.labels.specs.Field.{no_number};
ghost use Rattle.plan_record.specs.Record.{part_arcs};
ghost use Rattle.plan_store.specs.Slots.{most_width, arcs_in, wrong_slot, wrong_request};
ghost use Rattle.plan_store.specs.Slots.{routes_in};
ghost use Rattle.plan_store.specs.Placing.{needed_for};

// A slot has at most so many words.
pub const MOST_WIDTH: u32 = 65535;

// Slot r.
pub fn slot_of(slots: &[u32], r: usize, width: usize) -> &[u32]
    requires { r * width + width ≤ length slots.now }
    ensures { result.now ≡ slot width r slots.now }
{
    let from = r * width;
    &slots[from..from + width]
}

// How many arcs a slot holds.
pub fn arcs_in(slot: &[u32]) -> usize
    ensures { result ≡ arcs_in slot.now }
{
    slot.iter()
        .position(|&a| a == labels::field::NONE)
        .unwrap_or(slot.len())
}

// Whether each number is an arc's.
fn all_arcs(route: &[u32]) -> bool
    ensures { result ≡ every (λ a. ltb a most_arcs) route.now }
{
    route
        .iter()
        .all(|&a| (a as usize) < table::fault::MOST_ARCS)
}

// Whether each word stands for no arc.
fn all_none(words: &[u32]) -> bool
    ensures { result ≡ every (λ a. eqb a no_number) words.now }
{
    words.iter().all(|&a| a == labels::field::NONE)
}

// Whether a slot is empty, or out of form, or holds a number that is no arc's.
fn wrong_slot(slot: &[u32]) -> bool
    ensures { result ≡ wrong_slot slot.now }
{
    let n = arcs_in(slot);
    n == 0 || !all_arcs(&slot[..n]) || !all_none(&slot[n..])
}

// Whether one of the slots is.
fn any_wrong(slots: &[u32], routes: usize, width: usize) -> bool
    requires { length slots.now ≡ routes * width }
    ensures { result ≡ any (λ r. wrong_slot (slot width r slots.now))
        (up_from 0 routes) }
{
    (0..routes).any(|r| wrong_slot(slot_of(slots, r, width)))
}

// Whether the request is refused with 17.
pub fn wrong_request(plan: u32, slots: &[u32], routes: u32, width: u32) -> bool
    ensures { result ≡ wrong_request plan slots.now routes width }
{
    plan == 0
        || routes < 1
        || summary::MOST_ROUTES < routes as usize
        || MOST_WIDTH < width
        || slots.len() != routes as usize * width as usize
        || any_wrong(slots, routes as usize, width as usize)
}

// How many records a route of so many arcs takes.
pub fn part_count(arcs: usize) -> usize
    requires { arcs ≤ most_width }
    ensures { result ≡ (arcs + (part_arcs - 1)) / part_arcs }
{
    arcs.div_ceil(plan_record::PART)
}

// How many records the routes take.
pub fn needed(slots: &[u32], routes: usize, width: usize) -> usize
    requires { (length slots.now ≡ routes * width) × (routes ≤ most_routes)
        × (width ≤ most_width) }
    ensures { result ≡ needed_for (routes_in slots.now routes width) }
{
    let mut n = 0;
    for r in 0..routes {
        n += part_count(arcs_in(slot_of(slots, r, width)));
    }
    n
}
