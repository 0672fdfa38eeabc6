// A label's cursor moved on, and the tree made right.
ghost use Rattle.std.specs.Prelude.{◌+◌, ◌<◌};
ghost use Rattle.table.specs.Table.{records};
ghost use Rattle.labels.specs.Chain.{chain_at};
ghost use Rattle.search_ask.specs.Ask.{net_for, query_for};
ghost use Rattle.search_ask.specs.Earlier.{earlier_of};
ghost use Rattle.search_batch.specs.Batch.{Ahead};
ghost use Rattle.search_queue.specs.Only.{Only};
ghost use Rattle.search_advance.specs.Own.{Judging, ArcOrNone, own_last};
ghost use Rattle.search_cursor.specs.Queue.{SameLists, Queued, QueuedBut, QueuedBehind};

use crate::store;
use search_advance::Place;
use search_ask::{Ask, Candidate};

// The cursor of label 0, which is alone, is set: its candidate is the first of all.
pub fn begin(
    table: &[u8],
    closed: &[u8],
    ask: Ask,
    area: &[u32],
    lens: &[u64],
    marks: &[u64],
    labels: &mut [u8],
    ahead: &mut [u64],
)
    requires { (Judging ask table.now area.now lens.now marks.now labels.old 1)
        × (Ahead (net_for ask table.now closed.now) (records table.now) ahead.old) }
    ensures { (Only 20 20 1 labels.old labels.new)
        × (SameLists labels.old labels.new)
        × (Queued (query_for ask table.now closed.now labels.old)
        (earlier_of ask area.now lens.now)
        (chain_at labels.old 0) labels.new 1 0)
        × (Ahead (net_for ask table.now closed.now)
        (records table.now) ahead.new) }
{
    let x = Place {
        n: 1,
        label: 0,
        from: search_ask::NO_ARC,
    };
    let arc = search_advance::advance(table, closed, ask, area, lens, marks, labels, ahead, x);
    let c = Candidate { label: 0, arc };
    store::store(table, ask, labels, 1, c);
}

// The cursor of a label goes on from arc `from`. The label whose candidate is then the first of all.
pub fn settle(
    table: &[u8],
    closed: &[u8],
    ask: Ask,
    area: &[u32],
    lens: &[u64],
    marks: &[u64],
    labels: &mut [u8],
    ahead: &mut [u64],
    x: Place,
) -> usize
    requires { (Judging ask table.now area.now lens.now marks.now labels.old x.n)
        × (x.label < x.n) × (ArcOrNone table.now x.from)
        × (QueuedBut (query_for ask table.now closed.now labels.old)
        (earlier_of ask area.now lens.now) (own_last (chain_at labels.old x.label) x.from)
        labels.old x.n x.label)
        × (Ahead (net_for ask table.now closed.now) (records table.now) ahead.old) }
    ensures { (Only 20 20 x.n labels.old labels.new)
        × (SameLists labels.old labels.new)
        × (Queued (query_for ask table.now closed.now labels.old)
        (earlier_of ask area.now lens.now)
        (own_last (chain_at labels.old x.label) x.from)
        labels.new x.n result)
        × (Ahead (net_for ask table.now closed.now)
        (records table.now) ahead.new) }
{
    let n = x.n;
    let label = x.label;
    let arc = search_advance::advance(table, closed, ask, area, lens, marks, labels, ahead, x);
    let c = Candidate { label, arc };
    store::store(table, ask, labels, n, c);
    search_queue::winner::update(labels, n, label)
}

// Label n has come in behind the others, of which `root` is the first: its cursor is set. The label
// whose candidate is then the first of all.
pub fn enter(
    table: &[u8],
    closed: &[u8],
    ask: Ask,
    area: &[u32],
    lens: &[u64],
    marks: &[u64],
    labels: &mut [u8],
    ahead: &mut [u64],
    n: usize,
    root: usize,
) -> usize
    requires { (Judging ask table.now area.now lens.now marks.now labels.old (n + 1))
        × (QueuedBehind (query_for ask table.now closed.now labels.old)
        (earlier_of ask area.now lens.now) (chain_at labels.old n) labels.old n root)
        × (Ahead (net_for ask table.now closed.now) (records table.now) ahead.old) }
    ensures { (Only 20 20 (n + 1) labels.old labels.new)
        × (SameLists labels.old labels.new)
        × (Queued (query_for ask table.now closed.now labels.old)
        (earlier_of ask area.now lens.now)
        (chain_at labels.old n) labels.new (n + 1) result)
        × (Ahead (net_for ask table.now closed.now)
        (records table.now) ahead.new) }
{
    let x = Place {
        n: n + 1,
        label: n,
        from: search_ask::NO_ARC,
    };
    let arc = search_advance::advance(table, closed, ask, area, lens, marks, labels, ahead, x);
    let c = Candidate { label: n, arc };
    store::store(table, ask, labels, n + 1, c);
    search_queue::winner::enter(labels, n, root)
}
