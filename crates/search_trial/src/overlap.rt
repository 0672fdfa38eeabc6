// The overlaps of a candidate with the earlier answers.
ghost use Rattle.std.specs.Prelude.{◌≡◌, false, [], ◌∷◌, ◌≤◌, ◌<◌, length, take};
ghost use Rattle.net.specs.Net.{driven};
ghost use Rattle.net.specs.Route.{overlap};
ghost use Rattle.table.specs.Table.{records, roads_of};
ghost use Rattle.labels.specs.Rows.{overlaps_of};
ghost use Rattle.search_ask.specs.Ask.{Accepted, net_for, width, chain_of};
ghost use Rattle.search_ask.specs.Earlier.{route_in, earlier_in, Formed};
ghost use Rattle.search_driven.specs.Marks.{Filter};
ghost use Rattle.search_trial.specs.Trial.{Trying};

use crate::Trial;
use search_ask::Ask;

// What an arc adds to the overlap with the route in the slot; the slot is looked at only where the
// route may drive the arc's road.
fn share_of(table: &[u8], ask: Ask, slot: &[u32], arc: usize, may: bool) -> u64
    requires { (Accepted ask table.now) × (arc < records table.now)
        × (Formed slot.now)
        × (may ≡ false → driven (roads_of table.now) (route_in slot.now) arc ≡ false) }
    ensures { result ≡ overlap (net_for ask table.now []) (arc ∷ [])
        (route_in slot.now) }
{
    if may {
        search_driven::shared(table, ask, slot, arc)
    } else {
        0
    }
}

// The overlaps of a candidate with the earlier answers in the first words of own: to each that its
// label holds, its arc adds its share. `marks` is the filter over the earlier answers.
pub fn of_candidate(
    table: &[u8],
    ask: Ask,
    area: &[u32],
    marks: &[u64],
    labels: &[u8],
    x: Trial,
    own: &mut [u64],
)
    requires { (Trying ask table.now area.now labels.now x)
        × (Filter table.now (earlier_in (width ask) x.r area.now) marks.now)
        × (x.r ≤ length own.old) }
    ensures { (length own.new ≡ length own.old)
        × (take x.r own.new ≡ overlaps_of (net_for ask table.now [])
        (earlier_in (width ask) x.r area.now)
        (chain_of labels.now x.c)) }
{
    let r = x.r;
    let c = x.c;
    let label = c.label;
    let arc = c.arc;
    let may = search_driven::marks::may_drive(table, marks, arc);
    for j in 0..r {
        let share = share_of(table, ask, search_ask::slot(area, ask, j), arc, may);
        own[j] = labels::field::overlap(labels, label, j) + share;
    }
}
