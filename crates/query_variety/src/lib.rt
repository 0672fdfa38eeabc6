// The most different of the near-shortest: every input gets its outcome, every buffer its contents.
#![tactic(auto)]

mod made;

ghost use Rattle.std.specs.Prelude.{◌≡◌, [], ◌≤◌};
ghost use Rattle.net.specs.Limits.{most_nodes, most_routes};
ghost use Rattle.outcome.specs.Outcome.{told_by};
ghost use Rattle.variety.specs.Variety.{range_wrong};
ghost use Rattle.query_variety.specs.Call.{given, input, too_small, refused_of, Replied};

use outcome::{Outcome, Refusal, Told};
use search_ask::Ask;

pub const MOST_D: u32 = 1000;

// How many routes are wanted, and how far beyond the shortest: c/d of it.
#[derive(Clone, Copy)]
pub struct Wish {
    pub k: u32,
    pub c: u32,
    pub d: u32,
}

// Whether a buffer is too small; the list never is.
#[tactic(auto, using(query::proofs::Tests::tests), unfolding(crate::specs::Call::too_small))]
fn too_small(ask: Ask, wish: Wish, area: &[u32], work: &[u8]) -> bool
    requires { (1 ≤ ask.nodes) × (ask.nodes ≤ most_nodes) × (wish.k ≤ most_routes) }
    ensures { result ≡ too_small
        (given [] ask wish [] [] area.now work.now) }
{
    query::few_slots(ask, wish.k, area) || work.len() < ask.nodes as usize * working_room::NODE
}

// 22: d outside its limits, or c above d.
#[tactic(auto, using(query::proofs::Tests::tests), unfolding(variety::specs::Variety::range_wrong))]
fn range_wrong(wish: Wish) -> bool
    ensures { result ≡ range_wrong wish.c wish.d }
{
    wish.d < 1 || MOST_D < wish.d || wish.d < wish.c
}

// The decisions before the listing: 13 and the records, 15, then 7 and 8, 10 and 22. Where none of
// them refuses the routes are to be listed.
fn refused(
    table: &[u8],
    ask: Ask,
    wish: Wish,
    closed: &[u8],
    area: &[u32],
    work: &[u8],
) -> Result<(), Refusal>
    ensures { told_by result ≡ refused_of (given table.now ask wish closed.now []
        area.now work.now) }
{
    table::fault::check(table, ask.nodes)?;
    query::refusal_closed(table, closed, ask, wish.k)?;
    if too_small(ask, wish, area, work) {
        return Err(Refusal::plain(Outcome::Buffers));
    }
    if range_wrong(wish) {
        return Err(Refusal::plain(Outcome::Range));
    }
    Ok(())
}

// The answer to an ask.
fn decide(
    table: &[u8],
    ask: Ask,
    wish: Wish,
    closed: &[u8],
    list: &mut [u32],
    area: &mut [u32],
    work: &mut [u8],
) -> Told
    ensures { Replied (given table.now ask wish closed.now
        list.old area.old work.old) result list.new
        area.new work.new }
{
    if let Err(refusal) = refused(table, ask, wish, closed, area, work) {
        return Told::from(refusal);
    }
    made::all(table, closed, ask, wish, list, area, work)
}

// The call on plain numbers. Beside outcome 0 stands the number of routes listed.
pub fn core(
    table: &[u8],
    nodes: u32,
    s: u32,
    goal: u32,
    k: u32,
    c: u32,
    d: u32,
    closed: &[u8],
    list: &mut [u32],
    area: &mut [u32],
    work: &mut [u8],
) -> Told
    ensures { Replied (input table.now nodes s goal k c d closed.now
        list.old area.old work.old) result list.new
        area.new work.new }
{
    let ask = query::ask_of(nodes, s, goal, 0, 1);
    let wish = Wish { k, c, d };
    decide(table, ask, wish, closed, list, area, work)
}
