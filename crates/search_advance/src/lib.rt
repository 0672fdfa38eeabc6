// A label's own next candidate: of its chain with an arc more, the first after the one last looked
// at that fails no test.
#![tactic(auto)]

ghost use Rattle.std.specs.Prelude.{◌≡◌, not, true, [], ◌+◌, ◌≤◌, ◌<◌, T, length};
ghost use Rattle.net.specs.Route.{leaves};
ghost use Rattle.net.specs.Limits.{most_arcs};
ghost use Rattle.net.specs.Search.{passes};
ghost use Rattle.table.specs.Table.{records, arcs_of};
ghost use Rattle.table.specs.Run.{run_start};
ghost use Rattle.labels.specs.Chain.{chains_in};
ghost use Rattle.search_ask.specs.Ask.{Among, net_for, query_for, chain_of, end_in};
ghost use Rattle.search_ask.specs.Earlier.{earlier_of};
ghost use Rattle.search_batch.specs.Batch.{most_ahead, batch_words, at_in, Ahead};
ghost use Rattle.search_advance.specs.Own.{Judging, ArcOrNone, arc_first, wanted_arc, AtCursor};
ghost use Rattle.search_advance.specs.Own.{rank_from};

use search_ask::{Ask, Candidate};
use search_trial::Trial;

// A run of more arcs than these is a long one.
const LONG: usize = 32;

// A label of the first n, and the arc of its candidate that was last looked at; `NO_ARC` where
// there is none of its own.
// `NO_ARC` and no Option: it is the number that the label's bytes hold, which each turn reads and writes.
#[derive(Clone, Copy)]
pub struct Place {
    pub n: usize,
    pub label: usize,
    pub from: usize,
}

// Whether arc a comes before arc c, by length and then by number.
fn arc_first(table: &[u8], a: usize, c: usize) -> bool
    requires { (a < records table.now) × (c < records table.now) }
    ensures { result ≡ arc_first (arcs_of table.now) a c }
{
    let l = table::arc::length_of(table, a);
    let m = table::arc::length_of(table, c);
    if l != m {
        return l < m;
    }
    a < c
}

// Whether an arc comes after arc `from` and before arc `best`, where there are such.
fn wanted(table: &[u8], from: usize, best: usize, arc: usize) -> bool
    requires { (ArcOrNone table.now from) × (ArcOrNone table.now best)
        × (arc < records table.now) }
    ensures { result ≡ wanted_arc (arcs_of table.now) from best arc }
{
    if from != search_ask::NO_ARC {
        if !arc_first(table, from, arc) {
            return false;
        }
    }
    if best != search_ask::NO_ARC {
        if !arc_first(table, arc, best) {
            return false;
        }
    }
    true
}

// Whether a candidate fails a test. `marks` is the filter over the earlier answers.
pub fn dropped(
    table: &[u8],
    ask: Ask,
    area: &[u32],
    lens: &[u64],
    marks: &[u64],
    labels: &[u8],
    n: usize,
    c: Candidate,
) -> bool
    requires { (Judging ask table.now area.now lens.now marks.now labels.now n)
        × (Among table.now n c) }
    ensures { result ≡ not (passes (query_for ask table.now [] labels.now)
        (earlier_of ask area.now lens.now)
        (chains_in labels.now n) (chain_of labels.now c)) }
{
    let r = lens.len();
    let arc = c.arc;
    let mut own = [0u64; labels::field::MOST_EARLIER];
    let trial = Trial { r, n, c };
    search_trial::overlap::of_candidate(table, ask, area, marks, labels, trial, &mut own);
    let end = table::arc::to_of(table, arc);
    !search_trial::passes(ask, area, lens, labels, n, end, &own[0..r])
}

// Of `best` and an arc that leaves the label's end, where its cursor stops first.
fn better(
    table: &[u8],
    closed: &[u8],
    ask: Ask,
    area: &[u32],
    lens: &[u64],
    marks: &[u64],
    labels: &[u8],
    x: Place,
    best: usize,
    arc: usize,
) -> usize
    requires { (Judging ask table.now area.now lens.now marks.now labels.now x.n)
        × (x.label < x.n) × (ArcOrNone table.now x.from)
        × (T (leaves (net_for ask table.now closed.now)
        (end_in ask table.now labels.now x.label) arc))
        × (AtCursor ask table.now closed.now area.now lens.now labels.now x arc best) }
    ensures { AtCursor ask table.now closed.now area.now
        lens.now labels.now x (arc + 1) result }
{
    let n = x.n;
    let label = x.label;
    if !wanted(table, x.from, best, arc) {
        return best;
    }
    let c = Candidate { label, arc };
    if dropped(table, ask, area, lens, marks, labels, n, c) {
        return best;
    }
    arc
}

// The same of an arc of the run of the label's end, which may be closed.
fn look(
    table: &[u8],
    closed: &[u8],
    ask: Ask,
    area: &[u32],
    lens: &[u64],
    marks: &[u64],
    labels: &[u8],
    x: Place,
    best: usize,
    arc: usize,
) -> usize
    requires { (Judging ask table.now area.now lens.now marks.now labels.now x.n)
        × (x.label < x.n) × (ArcOrNone table.now x.from)
        × (T (leaves (net_for ask table.now [])
        (end_in ask table.now labels.now x.label) arc))
        × (AtCursor ask table.now closed.now area.now lens.now labels.now x arc best) }
    ensures { AtCursor ask table.now closed.now area.now
        lens.now labels.now x (arc + 1) result }
{
    if closures::is_closed(closed, arc) {
        return best;
    }
    better(table, closed, ask, area, lens, marks, labels, x, best, arc)
}

// The rank of an arc; that of none is below all.
fn rank_from(table: &[u8], from: usize) -> u64
    requires { (ArcOrNone table.now from) × (records table.now ≤ most_arcs) }
    ensures { result ≡ rank_from (arcs_of table.now) from }
{
    if from == search_ask::NO_ARC {
        return 0;
    }
    search_batch::rank_of(table, from)
}

// Whether the run that starts at `first`, of node v, is a long one.
fn is_long(table: &[u8], v: u32, first: usize) -> bool
    requires { first ≤ records table.now }
{
    let far = first + LONG;
    if table.len() / table::arc::RECORD <= far {
        return false;
    }
    table::arc::from_of(table, far) == v
}

// The cursor's next place by one pass over the run of the label's end, which starts at `first`.
fn pass(
    table: &[u8],
    closed: &[u8],
    ask: Ask,
    area: &[u32],
    lens: &[u64],
    marks: &[u64],
    labels: &[u8],
    x: Place,
    v: u32,
    first: usize,
) -> usize
    requires { (Judging ask table.now area.now lens.now marks.now labels.now x.n)
        × (x.label < x.n) × (ArcOrNone table.now x.from)
        × (v ≡ end_in ask table.now labels.now x.label)
        × (first ≡ run_start table.now v) }
    ensures { AtCursor ask table.now closed.now area.now
        lens.now labels.now x (records table.now) result }
{
    let count = table.len() / table::arc::RECORD;
    let mut best = search_ask::NO_ARC;
    for arc in first..count {
        if table::arc::from_of(table, arc) != v {
            break;
        }
        best = look(table, closed, ask, area, lens, marks, labels, x, best, arc);
    }
    best
}

// Whether the cursor goes on by the batch: the run of v is a long one, and the batch not spent.
fn by_batch(table: &[u8], ahead: &[u64], x: Place, v: u32, first: usize) -> bool
    requires { (ArcOrNone table.now x.from) × (records table.now ≤ most_arcs)
        × (first ≤ records table.now) × (length ahead.now ≡ batch_words)
        × (at_in ahead.now ≤ most_ahead) }
{
    if !is_long(table, v, first) {
        return false;
    }
    let rank = rank_from(table, x.from);
    let n = x.n;
    !search_batch::is_spent(ahead, v, rank, n)
}

// Where the cursor of a label goes from arc `from`, or from the start: the arc of its next
// candidate, or none. `ahead` is a batch of the next arcs of whichever node it is: along a long run
// its next arc is taken untested, since a turn tests the candidate that it looks at.
pub fn advance(
    table: &[u8],
    closed: &[u8],
    ask: Ask,
    area: &[u32],
    lens: &[u64],
    marks: &[u64],
    labels: &[u8],
    ahead: &mut [u64],
    x: Place,
) -> usize
    requires { (Judging ask table.now area.now lens.now marks.now labels.now x.n)
        × (x.label < x.n) × (ArcOrNone table.now x.from)
        × (Ahead (net_for ask table.now closed.now) (records table.now) ahead.old) }
    ensures { (AtCursor ask table.now closed.now area.now
        lens.now labels.now x (records table.now) result)
        × (Ahead (net_for ask table.now closed.now)
        (records table.now) ahead.new) }
{
    let label = x.label;
    let v = labels::field::end(labels, label);
    let first = search_lists::run::run(labels, label) as usize;
    if by_batch(table, ahead, x, v, first) {
        let rank = rank_from(table, x.from);
        let n = x.n;
        return search_batch::after(table, closed, ask, ahead, v, first, rank, n);
    }
    pass(table, closed, ask, area, lens, marks, labels, x, v, first)
}
