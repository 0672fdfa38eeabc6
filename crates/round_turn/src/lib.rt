// The turns of a search. Each label has its own next candidate, and the tree over the labels has
// the label whose candidate is the first of all. A turn looks at that one: it is dropped if a test
// fails, and else it is taken up as the next label.
#![tactic(auto)]

ghost use Rattle.std.specs.Prelude.{◌≡◌, ◌≢◌, length};
ghost use Rattle.table.specs.Table.{records};
ghost use Rattle.search_ask.specs.Ask.{width, net_for, query_for, last_in};
ghost use Rattle.search_ask.specs.Earlier.{earlier_of};
ghost use Rattle.search_driven.specs.Marks.{Filter};
ghost use Rattle.search_lists.specs.Listed.{Listed};
ghost use Rattle.search_lists.specs.Run.{Runs};
ghost use Rattle.search_batch.specs.Batch.{Ahead};
ghost use Rattle.search_cursor.specs.Queue.{Queued};
ghost use Rattle.round_label.specs.Stage.{Ready, Going, Searched};
ghost use Rattle.round_label.specs.declared.Stage.TheVariants.{GoesOn};
ghost use Rattle.round_label.specs.Lists.{Blank, ButSlot, Listing};
ghost use Rattle.round_turn.specs.Turn.{Turned};

use round_label::{Stage, State};
use search_advance::Place;
use search_ask::{Ask, Candidate};
use search_trial::Trial;

// One turn: the root's candidate is tested, and whatever comes of it the root's cursor moves on.
// `marks` is the filter over the earlier answers, `ahead` the batch of a node's next arcs.
fn turn(
    table: &[u8],
    closed: &[u8],
    ask: Ask,
    area: &mut [u32],
    lens: &[u64],
    marks: &[u64],
    labels: &mut [u8],
    ahead: &mut [u64],
    x: State,
) -> State
    requires { (Ready ask table.now area.old lens.now labels.old) × (x.stage ≡ GoesOn)
        × (Going (query_for ask table.now closed.now labels.old)
        (earlier_of ask area.old lens.now) labels.old x)
        × (Queued (query_for ask table.now closed.now labels.old)
        (earlier_of ask area.old lens.now) (last_in labels.old x.last) labels.old
        x.n x.root)
        × (Filter table.now (earlier_of ask area.old lens.now) marks.now)
        × (Listed ask (length lens.now) area.old labels.old x.n)
        × (Runs table.now labels.old x.n)
        × (Ahead (net_for ask table.now closed.now) (records table.now) ahead.old) }
    ensures { (Turned (query_for ask table.now closed.now
        labels.old)
        (earlier_of ask area.old lens.now)
        labels.old x labels.new result)
        × (Listing ask table.now (length lens.now) area.old
        area.new labels.new result)
        × (Ahead (net_for ask table.now closed.now)
        (records table.now) ahead.new) }
{
    let n = x.n;
    let last = x.last;
    let root = x.root;
    let arc = search_queue::working::cursor(labels, root) as usize;
    if arc == search_ask::NO_ARC {
        return State {
            n,
            last,
            root,
            stage: Stage::Unanswered,
        };
    }
    let c = Candidate { label: root, arc };
    let r = lens.len();
    let trial = Trial { r, n, c };
    let mut own = [0u64; labels::field::MOST_EARLIER];
    search_trial::overlap::of_candidate(table, ask, area, marks, labels, trial, &mut own);
    let end = table::arc::to_of(table, arc);
    let pass = search_trial::passes(ask, area, lens, labels, n, end, &own[0..r]);
    let room = labels.len() / labels::field::LABEL;
    let place = Place {
        n,
        label: root,
        from: arc,
    };
    let k = search_cursor::settle::settle(
        table, closed, ask, area, lens, marks, labels, ahead, place,
    );
    if !pass {
        return State {
            n,
            last: c,
            root: k,
            stage: Stage::GoesOn,
        };
    }
    if room <= n {
        return State {
            n,
            last,
            root,
            stage: Stage::NoRoom,
        };
    }
    let goal = ask.goal;
    if end == goal {
        round_label::take_up(table, ask, labels, n, c, &own[0..r]);
        return State {
            n: n + 1,
            last: c,
            root,
            stage: Stage::Answered,
        };
    }
    let new = round_label::enter(
        table,
        closed,
        ask,
        area,
        lens,
        marks,
        labels,
        ahead,
        n,
        c,
        &own[0..r],
        k,
    );
    State {
        n: n + 1,
        last: c,
        root: new,
        stage: Stage::GoesOn,
    }
}

// All turns of a round.
pub fn turns(
    table: &[u8],
    closed: &[u8],
    ask: Ask,
    area: &mut [u32],
    lens: &[u64],
    labels: &mut [u8],
) -> State
    requires { (Ready ask table.now area.old lens.now labels.old)
        × (Blank (width ask) (length lens.now) area.old) }
    ensures { (result.stage ≢ GoesOn)
        × (Searched (query_for ask table.now closed.now labels.old)
        (earlier_of ask area.old lens.now)
        labels.old labels.new result)
        × (ButSlot (width ask) (length lens.now) area.old
        area.new) }
{
    let mut marks = [0u64; search_driven::marks::WORDS];
    search_driven::marks::mark_earlier(table, ask, area, lens.len(), &mut marks);
    let mut ahead = [0u64; search_batch::WORDS];
    let mut x = round_label::begin(table, closed, ask, area, lens, &marks, labels, &mut ahead);
    while let Stage::GoesOn = x.stage {
        x = turn(
            table, closed, ask, area, lens, &marks, labels, &mut ahead, x,
        );
    }
    x
}
