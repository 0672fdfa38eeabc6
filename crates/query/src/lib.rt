// The query: every input gets its outcome, every buffer its contents.
#![tactic(auto)]

ghost use Rattle.std.specs.Prelude.{◌≡◌, ◌&&◌, [], ◌*◌, ◌≤◌, ltb, length};
ghost use Rattle.net.specs.Limits.{most_nodes, most_routes};
ghost use Rattle.net.specs.Outcome.{refusal};
ghost use Rattle.outcome.specs.Outcome.{plain, told_by};
ghost use Rattle.closures.specs.Closed.{wrong};
ghost use Rattle.search_ask.specs.Ask.{query_for, width};
ghost use Rattle.query_rounds.specs.Progress.{Zeros};
ghost use Rattle.query.specs.Query.{
  asked,
  input,
  input_closed,
  refusal_closed,
  too_small,
  refused_of,
  got_of,
  Cored,
};

use outcome::{Outcome, Refusal, Told};
use query_rounds::Got;
use search_ask::Ask;

pub const MOST_B: u32 = 1000;

pub const MOST_LABELS: usize = 65535;

// What is wanted beside the ask: how many routes, whether closures are lent, and how many summaries
// are (last, so that less padding stands between them).
#[derive(Clone, Copy)]
pub struct Wish {
    pub k: u32,
    pub closing: bool,
    pub lent: usize,
}

// What is told, and how many summaries are to be written: none under a refusal.
#[derive(Drop)]
struct Done {
    told: Told,
    n: usize,
}

// 7, 8 or 9, where one of them is due.
#[tactic(auto, using(crate::proofs::Tests::tests), unfolding(net::specs::Outcome::refusal))]
pub fn refusal(ask: Ask, k: u32) -> Result<(), Refusal>
    ensures { told_by result ≡ plain (refusal (query_for ask [] [] []) k) }
{
    if ask.nodes <= ask.s || ask.nodes <= ask.goal || ask.s == ask.goal {
        return Err(Refusal::plain(Outcome::Ends));
    }
    if k < 1 || summary::MOST_ROUTES < k as usize {
        return Err(Refusal::plain(Outcome::Routes));
    }
    if ask.b < 1 || MOST_B < ask.b || ask.b <= ask.a {
        return Err(Refusal::plain(Outcome::Threshold));
    }
    Ok(())
}

// 15, 7, 8 or 9, where one of them is due, in a call that is always lent closures.
#[tactic(auto, unfolding(crate::specs::Query::refusal_closed))]
pub fn refusal_closed(table: &[u8], closed: &[u8], ask: Ask, k: u32) -> Result<(), Refusal>
    ensures { told_by result ≡ refusal_closed table.now closed.now ask k }
{
    if closures::wrong(table, closed) {
        return Err(Refusal::plain(Outcome::Closures));
    }
    refusal(ask, k)
}

// Whether the area has fewer slots than are wanted.
#[tactic(auto, using(crate::proofs::Tests::tests))]
pub fn few_slots(ask: Ask, wanted: u32, area: &[u32]) -> bool
    requires { (1 ≤ ask.nodes) × (ask.nodes ≤ most_nodes) × (wanted ≤ most_routes) }
    ensures { result ≡ ltb (length area.now) (wanted * width ask) }
{
    let w = ask.nodes as usize - 1;
    area.len() < wanted as usize * w
}

// Whether a buffer is too small, or the label buffer too large.
#[tactic(auto, using(crate::proofs::Tests::tests), unfolding(crate::specs::Query::too_small))]
fn too_small(ask: Ask, wish: Wish, labels: &[u8], area: &[u32]) -> bool
    requires { (1 ≤ ask.nodes) × (ask.nodes ≤ most_nodes) × (wish.k ≤ most_routes) }
    ensures { result ≡ too_small
        (asked [] [] ask wish labels.now area.now) }
{
    few_slots(ask, wish.k, area)
        || wish.lent < wish.k as usize
        || MOST_LABELS < labels.len() / labels::field::LABEL
}

// Whether closures are lent that are of another number than the arcs, or have another value.
fn wrong_closures(table: &[u8], closed: &[u8], closing: bool) -> bool
    ensures { result ≡ (closing && wrong table.now closed.now) }
{
    closing && closures::wrong(table, closed)
}

// The decisions before the rounds: 13 and the records, 15, then 7, 8, 9 and 10. Where none of them
// refuses the rounds are to be made.
pub fn refused(
    table: &[u8],
    closed: &[u8],
    ask: Ask,
    wish: Wish,
    labels: &[u8],
    area: &[u32],
) -> Result<(), Refusal>
    ensures { told_by result ≡ refused_of (asked table.now closed.now ask wish
        labels.now area.now) }
{
    table::fault::check(table, ask.nodes)?;
    if wrong_closures(table, closed, wish.closing) {
        return Err(Refusal::plain(Outcome::Closures));
    }
    refusal(ask, wish.k)?;
    if too_small(ask, wish, labels, area) {
        return Err(Refusal::plain(Outcome::Buffers));
    }
    Ok(())
}

// The query of an ask, with its summaries in rows of zeros that are lent: they stand on the stack
// of the caller, and not once more here.
fn decide(
    table: &[u8],
    closed: &[u8],
    ask: Ask,
    wish: Wish,
    labels: &mut [u8],
    area: &mut [u32],
    lens: &mut [u64],
    arcs: &mut [u16],
    counts: &mut [u16],
) -> Done
    requires { Zeros lens.old arcs.old counts.old }
    ensures { Cored (asked table.now closed.now ask wish
        labels.old area.old)
        (got_of result lens.new arcs.new counts.new)
        labels.new area.new }
{
    if let Err(refusal) = refused(table, closed, ask, wish, labels, area) {
        return Done {
            told: Told::from(refusal),
            n: 0,
        };
    }
    let k = wish.k as usize;
    Done {
        told: query_rounds::all(table, closed, ask, k, labels, area, lens, arcs, counts),
        n: k,
    }
}

fn got_of(
    d: Done,
    lens: [u64; summary::MOST_ROUTES],
    arcs: [u16; summary::MOST_ROUTES],
    counts: [u16; summary::MOST_ROUTES],
) -> Got
    ensures { result ≡ got_of d lens arcs counts }
{
    Got {
        told: d.told,
        sums: summary::Sums {
            length: lens,
            arcs,
            labels: counts,
        },
        n: d.n,
    }
}

pub fn ask_of(nodes: u32, s: u32, goal: u32, a: u32, b: u32) -> Ask
    ensures { result ≡ record { nodes = nodes; s = s; goal = goal; a = a; b = b } }
{
    Ask {
        nodes,
        s,
        goal,
        a,
        b,
    }
}

// The query on plain numbers: it takes each decision and does the work, and says which summaries
// are to be written, and how many. `lent` is the number of summaries lent.
pub fn core(
    table: &[u8],
    nodes: u32,
    s: u32,
    goal: u32,
    k: u32,
    a: u32,
    b: u32,
    labels: &mut [u8],
    area: &mut [u32],
    lent: usize,
) -> Got
    ensures { Cored (input table.now nodes s goal k a b labels.old
        area.old lent) result labels.new area.new }
{
    let ask = ask_of(nodes, s, goal, a, b);
    let wish = Wish {
        k,
        closing: false,
        lent,
    };
    let mut lens = [0u64; summary::MOST_ROUTES];
    let mut arcs = [0u16; summary::MOST_ROUTES];
    let mut counts = [0u16; summary::MOST_ROUTES];
    let d = decide(
        table,
        &table[0..0],
        ask,
        wish,
        labels,
        area,
        &mut lens,
        &mut arcs,
        &mut counts,
    );
    got_of(d, lens, arcs, counts)
}

// The same over the arcs that are not closed: `closed` has a byte for each arc, 0 open and 1 closed.
pub fn core_closed(
    table: &[u8],
    nodes: u32,
    s: u32,
    goal: u32,
    k: u32,
    a: u32,
    b: u32,
    closed: &[u8],
    labels: &mut [u8],
    area: &mut [u32],
    lent: usize,
) -> Got
    ensures { Cored (input_closed table.now nodes s goal k a b
        closed.now labels.old area.old lent) result
        labels.new area.new }
{
    let ask = ask_of(nodes, s, goal, a, b);
    let wish = Wish {
        k,
        closing: true,
        lent,
    };
    let mut lens = [0u64; summary::MOST_ROUTES];
    let mut arcs = [0u16; summary::MOST_ROUTES];
    let mut counts = [0u16; summary::MOST_ROUTES];
    let d = decide(
        table,
        closed,
        ask,
        wish,
        labels,
        area,
        &mut lens,
        &mut arcs,
        &mut counts,
    );
    got_of(d, lens, arcs, counts)
}
