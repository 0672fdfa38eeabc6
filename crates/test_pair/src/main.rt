// Two routes with nothing in common, on small tables from a fixed generator, with parallel arcs,
// ties, road numbers and closures, against all pairs of simple routes; each table once more with one
// fault or two: how many calls there were, how often each outcome was due, how often the first route
// was of no use, how many differed, and the first difference in full.
#![tactic(auto)]

mod draw;
mod due;
mod greedy;
mod library;
mod own;
mod pairs;
mod spoil;

use test_draw::{cells, report, routes};

const DRAWS: usize = 5000;

// The tally: each line's number.
const COUNTS: usize = 16;

const DIFFERENT: usize = COUNTS;

const LINES: usize = DIFFERENT + 1;

// What is known of a call: the outcome due; where it is not refused the least total, the routes,
// the rows listed, and the total of the greedy pair.
#[derive(Clone, Copy, Default)]
struct Facts {
    outcome: usize,
    least: usize,
    routes: usize,
    rows: usize,
    greedy: usize,
}

// Count i of a call.
fn count(facts: Facts, i: usize) -> usize {
    let outcome = facts.outcome;
    let pair = facts.least > 0;
    match i {
        0 => 1,
        1 => (outcome == 0) as usize,
        2 => (outcome == 21) as usize,
        3 => ((outcome == 21) & (facts.routes > 1)) as usize,
        4 => (pair & (facts.greedy == 0)) as usize,
        5 => (pair & (facts.greedy > facts.least)) as usize,
        6 => facts.routes,
        7 => (facts.rows >= routes::MOST_ROWS) as usize,
        8 => (outcome == 13) as usize,
        9 => (outcome == 2) as usize,
        10 => (outcome == 3) as usize,
        11 => (outcome == 4) as usize,
        12 => (outcome == 6) as usize,
        13 => (outcome == 15) as usize,
        14 => (outcome == 7) as usize,
        _ => (outcome == 10) as usize,
    }
}

fn counts(tally: &mut [usize], facts: Facts) {
    for i in 0..COUNTS {
        cells::count(tally, i, count(facts, i));
    }
}

// What is known of a call that is to look for the pair, whose greedy pair has that total, and what is
// due to it.
fn looked_for(case: &[usize], got: &[usize], greedy: usize) -> (Facts, own::Cells) {
    let rows = routes::list(case);
    let least = pairs::least(&rows, case);
    let due = due::beside(case, &rows, got, least);
    let facts = Facts {
        outcome: due[cells::OUTCOME],
        least,
        routes: pairs::routes(&rows, case),
        rows: routes::listed(&rows),
        greedy,
    };
    (facts, due)
}

fn call(tally: &mut [usize], case: own::Cells) {
    let greedy = greedy::pair(case);
    let outcome = due::refused(&case, greedy.outcome);
    let got = library::answer(&case, outcome > 0);
    let (facts, due) = if outcome > 0 {
        let facts = Facts {
            outcome,
            ..Facts::default()
        };
        (facts, due::refusal(outcome, greedy.number))
    } else {
        looked_for(&case, &got, greedy.total)
    };
    report::compare(tally, DIFFERENT, &case, &due, &got);
    counts(tally, facts);
}

fn one(tally: &mut [usize], number: usize) {
    let case = draw::case(number);
    call(tally, case);
    call(tally, spoil::of(case, number));
}

fn all() -> own::Cells {
    let mut tally = [0usize; own::CELLS];
    for i in 0..DRAWS {
        one(&mut tally, i);
    }
    tally
}

fn main() {
    let tally = all();
    report::show(
        &tally,
        LINES,
        b" calls
 with outcome 0 due
 with outcome 21 due
 of these with two routes or more
 pairs where the first route cuts off every second one
 pairs shorter than the first route with the next that shares no arc
 routes
 lists that were full
 with outcome 13 due
 with outcome 2 due
 with outcome 3 due
 with outcome 4 due
 with outcome 6 due
 with outcome 15 due
 with outcome 7 due
 with outcome 10 due
 answers differed
",
    );
}
