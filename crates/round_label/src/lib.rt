// The labels of a search: the first one, and a candidate taken up as the next, with its place in its
// list and its cursor set.
#![tactic(auto)]

ghost use Rattle.std.specs.Prelude.{◌≡◌, ◌+◌, ◌*◌, ◌≤◌, ◌<◌, length};
ghost use Rattle.net.specs.Limits.{most_labels};
ghost use Rattle.table.specs.Table.{records, arcs_of};
ghost use Rattle.labels.specs.Field.{label_bytes, most_earlier, put_row};
ghost use Rattle.search_ask.specs.Ask.{Searching, Among, width, net_for, query_for};
ghost use Rattle.search_ask.specs.Earlier.{earlier_of};
ghost use Rattle.search_driven.specs.Marks.{Filter};
ghost use Rattle.search_lists.specs.Listed.{Listed};
ghost use Rattle.search_lists.specs.Run.{Runs};
ghost use Rattle.search_batch.specs.Batch.{Ahead};
ghost use Rattle.search_advance.specs.Own.{Judging};
ghost use Rattle.round_label.specs.Stage.{Ready, row_for, Entering, Entered, Searched};
ghost use Rattle.round_label.specs.Lists.{Blank, ButSlot, Listing};

use search_ask::{Ask, Candidate};

// Where a search is: it goes on, or it is over with an answer, the last label's chain, with none, or
// refused for room.
#[derive(Clone, Copy, Debug, PartialEq, Eq)]
pub enum Stage {
    GoesOn,
    Answered,
    Unanswered,
    NoRoom,
}

// How many labels are taken up, the candidate last looked at, the label whose candidate is the
// first of all, and the stage.
#[derive(Clone, Copy)]
pub struct State {
    pub n: usize,
    pub last: Candidate,
    pub root: usize,
    pub stage: Stage,
}

// The candidate, whose overlaps are `own`, becomes label n.
pub fn take_up(table: &[u8], ask: Ask, labels: &mut [u8], n: usize, c: Candidate, own: &[u64])
    requires { (Searching ask table.now labels.old n) × (Among table.now n c)
        × (n < most_labels) × (n * label_bytes + label_bytes ≤ length labels.old)
        × (length own.now ≤ most_earlier) }
    ensures { labels.new ≡ put_row labels.old n
        (row_for (arcs_of table.now) ask.s labels.old c
        own.now) }
{
    let label = c.label;
    let arc = c.arc;
    let end = table::arc::to_of(table, arc);
    let len = search_ask::length_of(table, ask, labels, n, c);
    labels::field::put_head(labels, n, arc as u32, label as u16, len, end as u16);
    labels::field::put_overlaps(labels, n, own);
}

// The candidate becomes label n, after the cursor of the label that it extends moved on and label
// `root`'s candidate is the first: label n's cursor is set, after it came into its list. The label
// whose candidate is then the first.
pub fn enter(
    table: &[u8],
    closed: &[u8],
    ask: Ask,
    area: &mut [u32],
    lens: &[u64],
    marks: &[u64],
    labels: &mut [u8],
    ahead: &mut [u64],
    n: usize,
    c: Candidate,
    own: &[u64],
    root: usize,
) -> usize
    requires { (Judging ask table.now area.old lens.now marks.now labels.old n)
        × (Among table.now n c)
        × (Entering (query_for ask table.now closed.now labels.old)
        (earlier_of ask area.old lens.now) labels.old n c own.now root)
        × (Ahead (net_for ask table.now closed.now) (records table.now) ahead.old) }
    ensures { (Entered (query_for ask table.now closed.now
        labels.old)
        (earlier_of ask area.old lens.now)
        labels.old n c labels.new result)
        × (ButSlot (width ask) (length lens.now) area.old area.new)
        × (Listed ask (length lens.now) area.new labels.new
        (n + 1))
        × (Runs table.now labels.new (n + 1))
        × (Ahead (net_for ask table.now closed.now)
        (records table.now) ahead.new) }
{
    take_up(table, ask, labels, n, c, own);
    search_lists::start(table, ask, lens.len(), area, labels, n);
    search_lists::enlist(ask, lens.len(), area, labels, n);
    search_cursor::settle::enter(
        table, closed, ask, area, lens, marks, labels, ahead, n, root,
    )
}

// The first label, the empty chain at s; or no room for it.
pub fn begin(
    table: &[u8],
    closed: &[u8],
    ask: Ask,
    area: &[u32],
    lens: &[u64],
    marks: &[u64],
    labels: &mut [u8],
    ahead: &mut [u64],
) -> State
    requires { (Ready ask table.now area.now lens.now labels.old)
        × (Filter table.now (earlier_of ask area.now lens.now) marks.now)
        × (Blank (width ask) (length lens.now) area.now)
        × (Ahead (net_for ask table.now closed.now) (records table.now) ahead.old) }
    ensures { (Searched (query_for ask table.now closed.now
        labels.old)
        (earlier_of ask area.now lens.now)
        labels.old labels.new result)
        × (Listing ask table.now (length lens.now) area.now
        area.now labels.new result)
        × (Ahead (net_for ask table.now closed.now)
        (records table.now) ahead.new) }
{
    let none = Candidate {
        label: 0,
        arc: search_ask::NO_ARC,
    };
    if labels.len() / labels::field::LABEL == 0 {
        return State {
            n: 0,
            last: none,
            root: 0,
            stage: Stage::NoRoom,
        };
    }
    let s = ask.s;
    let zeros = [0u64; labels::field::MOST_EARLIER];
    labels::field::put_head(labels, 0, labels::field::NONE, 0, 0, s as u16);
    labels::field::put_overlaps(labels, 0, &zeros[0..lens.len()]);
    let first = table::run::run_start(table, ask.nodes, s);
    search_lists::run::put_run(labels, 0, first as u32);
    search_lists::begin(ask, lens.len(), area, labels);
    search_cursor::settle::begin(table, closed, ask, area, lens, marks, labels, ahead);
    State {
        n: 1,
        last: none,
        root: 0,
        stage: Stage::GoesOn,
    }
}
