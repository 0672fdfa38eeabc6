// The query for via routes: every input gets its outcome, every buffer its contents.
#![tactic(auto)]

ghost use Rattle.std.specs.Prelude.{◌≡◌, [], ◌≤◌};
ghost use Rattle.outcome.specs.Outcome.{told_by};
ghost use Rattle.net.specs.Limits.{most_nodes, most_routes};
ghost use Rattle.query_via.specs.Via.{given, input, too_small, refused_of, Cored};

use outcome::{Outcome, Refusal};
use query_rounds::Got;
use search_ask::Ask;

// What is wanted beside the ask: how many routes, and how many summaries are lent.
#[derive(Clone, Copy)]
pub struct Wish {
    pub k: u32,
    pub lent: usize,
}

// Whether a buffer is too small.
#[tactic(auto, using(query::proofs::Tests::tests), unfolding(crate::specs::Via::too_small))]
fn too_small(ask: Ask, wish: Wish, area: &[u32], work: &[u8]) -> bool
    requires { (1 ≤ ask.nodes) × (ask.nodes ≤ most_nodes) × (wish.k ≤ most_routes) }
    ensures { result ≡ too_small
        (given [] [] ask wish [] area.now work.now) }
{
    query::few_slots(ask, wish.k, area)
        || wish.lent < wish.k as usize
        || work.len() < ask.nodes as usize * working_room::NODE
}

// The decisions before the profile: 13 and the records, 20, 15, then 7, 8, 9 and 10. Where none of
// them refuses the profile is to be made.
fn refused(
    table: &[u8],
    second: &[u8],
    ask: Ask,
    wish: Wish,
    closed: &[u8],
    area: &[u32],
    work: &[u8],
) -> Result<(), Refusal>
    ensures { told_by result ≡ refused_of (given table.now second.now ask wish
        closed.now area.now work.now) }
{
    table::fault::check(table, ask.nodes)?;
    if second::wrong(table, second, ask.nodes) {
        return Err(Refusal::plain(Outcome::Second));
    }
    query::refusal_closed(table, closed, ask, wish.k)?;
    if too_small(ask, wish, area, work) {
        return Err(Refusal::plain(Outcome::Buffers));
    }
    Ok(())
}

// The query of an ask.
fn decide(
    table: &[u8],
    second: &[u8],
    ask: Ask,
    wish: Wish,
    closed: &[u8],
    area: &mut [u32],
    work: &mut [u8],
) -> Got
    ensures { Cored (given table.now second.now ask wish
        closed.now area.old work.old) result
        area.new work.new }
{
    if let Err(refusal) = refused(table, second, ask, wish, closed, area, work) {
        return Got::from(refusal);
    }
    via_rounds::all(table, second, closed, ask, wish.k as usize, area, work)
}

// The query on plain numbers: it takes each decision and does the work, and says which summaries
// are to be written, and how many. `lent` is the number of summaries lent.
pub fn core(
    table: &[u8],
    second: &[u8],
    nodes: u32,
    s: u32,
    goal: u32,
    k: u32,
    a: u32,
    b: u32,
    closed: &[u8],
    area: &mut [u32],
    lent: usize,
    work: &mut [u8],
) -> Got
    ensures { Cored (input table.now second.now nodes s goal k a b
        closed.now area.old lent work.old) result
        area.new work.new }
{
    let ask = query::ask_of(nodes, s, goal, a, b);
    let wish = Wish { k, lent };
    decide(table, second, ask, wish, closed, area, work)
}
