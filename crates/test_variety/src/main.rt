// The most different of the near-shortest, on small tables from a fixed generator, with parallel
// arcs, ties, road numbers and closures, against all sets of all simple routes in range; each table
// once more with one fault or two: how many calls there were, how often each outcome was due, what
// the lists and choices were like, how many differed, and the first difference in full.
#![tactic(auto)]

mod choice;
mod draw;
mod due;
mod library;
mod near;
mod own;
mod spoil;

use test_draw::{cells, report, routes};

const DRAWS: usize = 5000;

// The tally: each line's number.
const COUNTS: usize = 21;

const DIFFERENT: usize = COUNTS;

const LINES: usize = DIFFERENT + 1;

// What is known of a call: the outcome due; where it is not refused how many routes are in range,
// whether one is so exactly, and the rows listed; where a set is chosen how many ranks it has,
// whether it leaves out one of the best two, and how many sets are as different.
#[derive(Clone, Copy, Default)]
struct Facts {
    outcome: usize,
    near: usize,
    exact: usize,
    rows: usize,
    chosen: usize,
    leaves_out: usize,
    equal: usize,
}

// The outcome that a line counts, of those lines that count one.
fn outcome_of(i: usize) -> usize {
    match i {
        1 => 0,
        2 => 23,
        3 => 24,
        11 => 13,
        12 => 2,
        13 => 3,
        14 => 4,
        15 => 6,
        16 => 15,
        17 => 7,
        18 => 8,
        19 => 10,
        _ => 22,
    }
}

// Count i of a call.
fn count(facts: Facts, i: usize) -> usize {
    let outcome = facts.outcome;
    let chosen = facts.chosen;
    match i {
        0 => 1,
        4 => ((outcome == 24) & (facts.near > 0)) as usize,
        5 => test_cells::pick(outcome == 0, facts.near, 0),
        6 => ((outcome == 0) & (facts.exact > 0)) as usize,
        7 => ((chosen > 2) & (facts.near > chosen)) as usize,
        8 => ((chosen > 2) & (facts.leaves_out > 0)) as usize,
        9 => ((chosen > 1) & (facts.equal > 1)) as usize,
        10 => (facts.rows >= routes::MOST_ROWS) as usize,
        _ => (outcome == outcome_of(i)) as usize,
    }
}

fn counts(tally: &mut [usize], facts: Facts) {
    for i in 0..COUNTS {
        cells::count(tally, i, count(facts, i));
    }
}

// What is due to a call where a set is to be chosen.
fn chosen(facts: &mut Facts, case: &[usize], rows: &[usize], near: &[usize]) -> own::Cells {
    let n = test_cells::get(near, near::COUNT);
    let k = test_cells::get(case, cells::ROUTES);
    let pairs = choice::all_pairs(case, rows, near);
    let best = choice::best(&pairs, n, k);
    let set = choice::set_of(best.set, n);
    facts.chosen = k;
    facts.leaves_out = choice::leaves_out_two(&pairs, n, &set) as usize;
    facts.equal = best.equal;
    due::chosen(case, rows, near, &set)
}

// What is due to a call that is to list these routes.
fn owed(facts: &mut Facts, case: &[usize], rows: &[usize], near: &[usize]) -> own::Cells {
    let n = test_cells::get(near, near::COUNT);
    let outcome = due::shortage(case, n);
    facts.outcome = outcome;
    facts.near = n;
    facts.exact = test_cells::get(near, near::EXACT);
    facts.rows = routes::listed(rows);
    if outcome == 0 {
        chosen(facts, case, rows, near)
    } else {
        due::none(case, outcome)
    }
}

// What is known of a call that is to list the routes, and what is due to it.
fn listed(case: &[usize]) -> (Facts, own::Cells) {
    let rows = routes::list(case);
    let near = near::list(&rows, case);
    let mut facts = Facts::default();
    let due = owed(&mut facts, case, &rows, &near);
    (facts, due)
}

fn call(tally: &mut [usize], case: own::Cells) {
    let told = test_listing::answer(&case, &mut [0usize; 1], &mut [0usize; 1]);
    let outcome = due::refused(&case, told.outcome);
    let got = library::answer(&case, outcome > 0);
    let (facts, due) = if outcome > 0 {
        let facts = Facts {
            outcome,
            ..Facts::default()
        };
        (facts, due::refusal(outcome, told.number))
    } else {
        listed(&case)
    };
    report::compare(tally, DIFFERENT, &case, &due, &got);
    counts(tally, facts);
}

fn one(tally: &mut [usize], number: usize) {
    let case = draw::case(number);
    call(tally, case);
    call(tally, spoil::of(case, number));
}

fn all() -> own::Cells {
    let mut tally = [0usize; own::CELLS];
    for i in 0..DRAWS {
        one(&mut tally, i);
    }
    tally
}

fn main() {
    let tally = all();
    report::show(
        &tally,
        LINES,
        b" calls
 with outcome 0 due
 with outcome 23 due
 with outcome 24 due
 of these with a route
 routes listed
 lists with a route exactly as long as is permitted, and no shortest
 choices of three or more that leave some out
 of these without one of the most different two
 choices with several sets as different
 lists of beginnings that were full
 with outcome 13 due
 with outcome 2 due
 with outcome 3 due
 with outcome 4 due
 with outcome 6 due
 with outcome 15 due
 with outcome 7 due
 with outcome 8 due
 with outcome 10 due
 with outcome 22 due
 answers differed
",
    );
}
