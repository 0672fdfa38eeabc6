// The call for via routes against a lister of the profile, on tables and queries from a fixed
// generator, each with the right second table and with spoilt ones: how many there were, how often
// each outcome was due, how many candidates were passed over, how many differed, and the first
// difference in full.
#![tactic(auto)]

mod candidates;
mod choice;
mod draw;
mod due;
mod library;
mod order;
mod own;

use test_draw::{cells, report};

const DRAWS: usize = 6000;

// The tally: each line's number. The lister's counts come first, then from SPOILT on, by kind, the
// second tables that are not right.
const COUNTS: usize = 8;

const SPOILT: usize = COUNTS;

const DIFFERENT: usize = SPOILT + order::KINDS;

const LINES: usize = DIFFERENT + 1;

// The case with a second table of that kind.
fn with_second(
    tally: &mut [usize],
    case: &[usize],
    answer: own::Cells,
    kind: usize,
    number: usize,
) {
    let order = order::of_kind(case, kind, number);
    let due = due::of_order(answer, &order);
    let got = library::answer(case, &order);
    let wrong = test_cells::get(&order, order::WRONG);
    cells::count(tally, test_cells::add(SPOILT, kind), wrong);
    if report::differs(tally, DIFFERENT, &due, &got) {
        report::case(case);
        report::row(b"second", &order);
        report::answers(&due, &got);
    }
}

fn each_second(tally: &mut [usize], case: &[usize], answer: own::Cells, number: usize) {
    for kind in 0..order::KINDS {
        with_second(tally, case, answer, kind, number);
    }
}

// Count i of a draw.
fn count(list: &[usize], answer: &[usize], i: usize) -> usize {
    match i {
        0 => 1,
        1 => (test_cells::get(answer, cells::OUTCOME) == 0) as usize,
        2 => test_cells::get(answer, cells::OUTCOME),
        3 => (test_cells::get(list, candidates::KEPT) > 1) as usize,
        4 => (test_cells::get(list, candidates::CROSSED) > 0) as usize,
        5 => test_cells::get(list, candidates::CROSSED),
        6 => test_cells::get(list, candidates::REPEATED),
        _ => test_cells::get(list, candidates::PAST),
    }
}

fn counts(tally: &mut [usize], list: &[usize], answer: &[usize]) {
    for i in 0..COUNTS {
        cells::count(tally, i, count(list, answer, i));
    }
}

fn one(tally: &mut [usize], number: usize) {
    let case = draw::case(number);
    let list = choice::chosen(case);
    let answer = due::answer(&case, &list);
    counts(tally, &list, &answer);
    each_second(tally, &case, answer, number);
}

fn all() -> own::Cells {
    let mut tally = [0usize; own::CELLS];
    for i in 0..DRAWS {
        one(&mut tally, i);
    }
    tally
}

fn main() {
    let tally = all();
    report::show(
        &tally,
        LINES,
        b" draws
 with outcome 0 due
 with outcome 1 due
 with two routes or more due
 with candidates that cross themselves
 candidates that cross themselves
 candidates that are repeated
 candidates past the threshold
 right second tables with 20 due
 second tables with two arcs exchanged, 20 due
 second tables with a record missing, 20 due
 second tables with an arc in place of another, 20 due
 second tables in order of start node, 20 due
 answers differed
",
    );
}
