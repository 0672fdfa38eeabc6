// A label's own next candidate in its bytes.
ghost use Rattle.std.specs.Prelude.{◌≡◌, ◌<◌};
ghost use Rattle.table.specs.Table.{arcs_of};
ghost use Rattle.labels.specs.Chain.{chain_at};
ghost use Rattle.search_ask.specs.Ask.{Searching};
ghost use Rattle.search_queue.specs.Working.{put_own};
ghost use Rattle.search_advance.specs.Own.{ArcOrNone};
ghost use Rattle.search_cursor.specs.Queue.{key_for};

use search_ask::{Ask, Candidate};

// The key of no candidate: greater than any length.
const NO_KEY: u64 = 18446744073709551615;

// The next candidate of a label has this arc, or there is none.
pub fn store(table: &[u8], ask: Ask, labels: &mut [u8], n: usize, c: Candidate)
    requires { (Searching ask table.now labels.old n) × (c.label < n)
        × (ArcOrNone table.now c.arc) }
    ensures { labels.new ≡ put_own labels.old c.label c.arc
        (key_for (arcs_of table.now) (chain_at labels.old c.label)
        c.arc) }
{
    let label = c.label;
    let arc = c.arc;
    if arc == search_ask::NO_ARC {
        search_queue::working::put_own(labels, label, arc as u32, NO_KEY);
        return;
    }
    let key = search_ask::length_of(table, ask, labels, n, c);
    search_queue::working::put_own(labels, label, arc as u32, key);
}
