// The query over open arcs, with the ratios of its routes.
#![tactic(auto)]

ghost use Rattle.std.specs.Prelude.{◌≡◌, [], ◌≢◌, min};
ghost use Rattle.search_ask.specs.Ask.{net_for, width};
ghost use Rattle.search_ask.specs.Earlier.{earlier_in};
ghost use Rattle.ratios.specs.Ratios.{ratios_for};
ghost use Rattle.ratios.specs.Rows.{firsts};
ghost use Rattle.ratios.specs.Routes.{Answered, answered_in};
ghost use Rattle.query.specs.Query.{input_closed};
ghost use Rattle.query_ratios.specs.Rated.{CoredRatios};

use outcome::Told;
use query_rounds::Got;
use ratios::Rows;
use search_ask::Ask;
use summary::Sums;

// The outcome, the summaries, the ratios, and how many of each are to be written: none under a
// refusal.
#[derive(Drop)]
pub struct Rated {
    pub told: Told,
    pub sums: Sums,
    pub rows: Rows,
    pub n: usize,
}

fn least(a: usize, b: usize) -> usize
    ensures { result ≡ min a b }
{
    if a < b { a } else { b }
}

// The ratios of an answer: of a refusal, none.
fn rows_of(table: &[u8], ask: Ask, area: &[u32], g: Got) -> Rows
    requires { g.n ≢ 0 → Answered ask table.now area.now g.sums g.n }
    ensures { g.n ≢ 0 → firsts result g.n ≡ ratios_for (net_for ask table.now [])
        g.n (earlier_in (width ask) (answered_in g.sums.arcs g.n) area.now) }
{
    if g.n == 0 {
        let zeros = [0f64; summary::MOST_ROUTES];
        return Rows {
            overlap: zeros,
            detour: zeros,
        };
    }
    let sums = g.sums;
    ratios::all(table, ask, area, sums, g.n)
}

// The query, where so many summaries and so many ratios are lent.
pub fn core_ratios(
    table: &[u8],
    nodes: u32,
    s: u32,
    goal: u32,
    k: u32,
    a: u32,
    b: u32,
    closed: &[u8],
    labels: &mut [u8],
    area: &mut [u32],
    lent: usize,
    rated: usize,
) -> Rated
    ensures { CoredRatios (input_closed table.now nodes s goal k a b
        closed.now labels.old area.old (min lent rated)) result
        labels.new area.new }
{
    let few = least(lent, rated);
    let g = query::core_closed(table, nodes, s, goal, k, a, b, closed, labels, area, few);
    let ask = Ask {
        nodes: nodes,
        s: s,
        goal: goal,
        a: a,
        b: b,
    };
    let told = Told {
        outcome: g.told.outcome,
        number: g.told.number,
    };
    let sums = g.sums;
    let n = g.n;
    Rated {
        told: told,
        sums: sums,
        rows: rows_of(table, ask, area, g),
        n: n,
    }
}
