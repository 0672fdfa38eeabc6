// What the earlier answers drive: by their slots, and by a small filter that spares most looks into
// them.
#![tactic(auto)]

pub mod marks;

ghost use Rattle.std.specs.Prelude.{◌≡◌, [], ◌∷◌, ◌≢◌, ◌≤◌, ◌<◌, eqb};
ghost use Rattle.lists.specs.Tests.{any};
ghost use Rattle.net.specs.Net.{road, same_road, driven};
ghost use Rattle.net.specs.Route.{overlap};
ghost use Rattle.net.specs.Limits.{most_arcs};
ghost use Rattle.table.specs.Table.{records, roads_of};
ghost use Rattle.labels.specs.Field.{no_number};
ghost use Rattle.search_ask.specs.Ask.{Accepted, net_for};
ghost use Rattle.search_ask.specs.Earlier.{route_in, Formed};

use search_ask::Ask;

// Whether an arc stands on the slot.
fn stands_on(slot: &[u32], arc: u32) -> bool
    requires { (Formed slot.now) × (arc ≢ no_number) }
    ensures { result ≡ any (eqb arc) slot.now }
{
    for &word in slot {
        if word == arc {
            return true;
        }
        if word == labels::field::NONE {
            return false;
        }
    }
    false
}

// Whether the word of a slot is an arc of this arc's road, whose number is not zero.
fn same_road(table: &[u8], arc: u32, number: u32, word: u32) -> bool
    requires { (number ≡ road (roads_of table.now) arc) × (0 < number) }
    ensures { result ≡ same_road (roads_of table.now) arc word }
{
    let other = word as usize;
    word == arc
        || (other < table.len() / table::arc::RECORD && table::arc::road_of(table, other) == number)
}

// Whether an arc of this arc's road, whose number is not zero, stands on the slot.
fn drives_road(table: &[u8], slot: &[u32], arc: u32, number: u32) -> bool
    requires { (number ≡ road (roads_of table.now) arc) × (0 < number) × (Formed slot.now)
        × (arc ≢ no_number) × (records table.now ≤ most_arcs) }
    ensures { result ≡ any (same_road (roads_of table.now) arc) slot.now }
{
    for &word in slot {
        if word == labels::field::NONE {
            return false;
        }
        if same_road(table, arc, number, word) {
            return true;
        }
    }
    false
}

// Whether the route in the slot drives the road of an arc.
pub fn drives(table: &[u8], ask: Ask, slot: &[u32], arc: usize) -> bool
    requires { (Accepted ask table.now) × (arc < records table.now)
        × (Formed slot.now) }
    ensures { result ≡ driven (roads_of table.now)
        (route_in slot.now) arc }
{
    let number = table::arc::road_of(table, arc);
    if number == 0 {
        return stands_on(slot, arc as u32);
    }
    drives_road(table, slot, arc as u32, number)
}

// What an arc adds to the overlap with the route in the slot.
pub fn shared(table: &[u8], ask: Ask, slot: &[u32], arc: usize) -> u64
    requires { (Accepted ask table.now) × (arc < records table.now)
        × (Formed slot.now) }
    ensures { result ≡ overlap (net_for ask table.now []) (arc ∷ [])
        (route_in slot.now) }
{
    if drives(table, ask, slot, arc) {
        return table::arc::length_of(table, arc) as u64;
    }
    0
}
