// Two routes with nothing in common: every input gets its outcome, every buffer its contents.
#![tactic(auto)]

mod made;

ghost use Rattle.std.specs.Prelude.{◌≡◌, ◌≤◌, []};
ghost use Rattle.outcome.specs.Outcome.{told_by};
ghost use Rattle.net.specs.Limits.{most_nodes};
ghost use Rattle.query_pair.specs.Pair.{given, input, too_small, refused_of, Cored};

use outcome::{Outcome, Refusal};
use query_rounds::Got;
use search_ask::Ask;

// Whether a buffer is too small; `lent` is the number of summaries lent.
#[tactic(auto, using(query::proofs::Tests::tests), unfolding(crate::specs::Pair::too_small))]
fn too_small(ask: Ask, lent: usize, area: &[u32], work: &[u8]) -> bool
    requires { (1 ≤ ask.nodes) × (ask.nodes ≤ most_nodes) }
    ensures { result ≡ too_small
        (given [] ask [] area.now lent work.now) }
{
    query::few_slots(ask, 2, area)
        || lent < 2
        || work.len() < ask.nodes as usize * working_room::NODE
}

// The decisions before the searches: 13 and the records, 15, then 7 and 10. Where none of them
// refuses the pair is to be looked for.
fn refused(
    table: &[u8],
    ask: Ask,
    closed: &[u8],
    area: &[u32],
    lent: usize,
    work: &[u8],
) -> Result<(), Refusal>
    ensures { told_by result ≡ refused_of (given table.now ask closed.now
        area.now lent work.now) }
{
    table::fault::check(table, ask.nodes)?;
    query::refusal_closed(table, closed, ask, 2)?;
    if too_small(ask, lent, area, work) {
        return Err(Refusal::plain(Outcome::Buffers));
    }
    Ok(())
}

// The pair of an ask.
fn decide(
    table: &[u8],
    ask: Ask,
    closed: &[u8],
    area: &mut [u32],
    lent: usize,
    work: &mut [u8],
) -> Got
    ensures { Cored (given table.now ask closed.now
        area.old lent work.old) result area.new work.new }
{
    if let Err(refusal) = refused(table, ask, closed, area, lent, work) {
        return Got::from(refusal);
    }
    made::all(table, closed, ask, area, work)
}

// The call on plain numbers: it takes each decision and does the work, and says which summaries are
// to be written, and how many. `lent` is the number of summaries lent.
pub fn core(
    table: &[u8],
    nodes: u32,
    s: u32,
    goal: u32,
    closed: &[u8],
    area: &mut [u32],
    lent: usize,
    work: &mut [u8],
) -> Got
    ensures { Cored (input table.now nodes s goal closed.now
        area.old lent work.old) result area.new work.new }
{
    let ask = query::ask_of(nodes, s, goal, 0, 1);
    decide(table, ask, closed, area, lent, work)
}
