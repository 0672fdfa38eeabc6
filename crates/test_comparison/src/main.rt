// The library against the lister, on tables and queries from a fixed generator and on damaged
// texts: how many there were, how many agreed, how often each outcome occurred, and the first
// difference in full.
#![tactic(auto)]

mod draw;
mod library;
mod lister;
mod own;
mod report;
mod texts;

use test_draw::{cells, damage};

const CASES: usize = 6000;

// The tally: cells 0 to 15 count the outcomes, those after REFUSED the rounds refused for room.
const OUTCOMES: usize = 16;

const REFUSED: usize = 15;

const DIFFERENT: usize = 31;

const AGREED: usize = 32;

const IN_TURN: usize = 33;

const CLOSED: usize = 34;

const BOTH: usize = 35;

const NUMBERED: usize = 36;

const TOLD_APART: usize = 37;

const UNCOUNTED: usize = 38;

// What is due, and whether it was found.
fn count(tally: &mut [usize], due: &[usize], agreed: bool) {
    let outcome = test_cells::get(due, cells::OUTCOME);
    let round = test_cells::add(REFUSED, test_cells::get(due, cells::NUMBER));
    cells::count(tally, outcome, 1);
    cells::count(tally, test_cells::pick(outcome == 11, round, UNCOUNTED), 1);
    cells::count(tally, test_cells::pick(agreed, AGREED, DIFFERENT), 1);
}

// What kind of case it is.
fn count_case(tally: &mut [usize], case: &[usize], reached: bool, in_turn: bool) {
    let closed = reached & (test_cells::get(case, own::CLOSED_ARCS) > 0);
    let both = test_cells::get(case, cells::CLOSURES) == draw::ALL_OPEN;
    cells::count(tally, test_cells::pick(closed, CLOSED, UNCOUNTED), 1);
    cells::count(tally, test_cells::pick(both, BOTH, UNCOUNTED), 1);
    cells::count(tally, test_cells::pick(in_turn, IN_TURN, UNCOUNTED), 1);
}

// Where rounds are reached with road numbers: whether an answer or a label count is another than
// with zeros.
fn count_roads(tally: &mut [usize], case: own::Cells, due: &[usize]) {
    let mut plain = case;
    cells::clear_roads(&mut plain);
    if plain != case && own::reached(due) {
        let other = lister::answer(&plain);
        cells::count(tally, NUMBERED, 1);
        cells::count(
            tally,
            test_cells::pick(due == &other[..], UNCOUNTED, TOLD_APART),
            1,
        );
    }
}

// Does the library give what is due, with closures lent or without? The first that differs is
// printed.
fn agrees(case: &[usize], lent: bool, due: &[usize], first: bool) -> bool {
    let got = library::answer(case, lent, own::reached(due));
    let same = due == &got[..];
    if first && !same {
        test_draw::report::difference(case, due, &got);
    }
    same
}

// The same of a case: where closures are lent and all arcs open, both with and without.
fn agree(case: &[usize], due: &[usize], first: bool) -> bool {
    let manner = test_cells::get(case, cells::CLOSURES);
    let agreed = agrees(case, manner > 0, due, first);
    if agreed & (manner == draw::ALL_OPEN) {
        agrees(case, false, due, first)
    } else {
        agreed
    }
}

fn one(tally: &mut [usize], number: usize) {
    let case = lister::fitted(draw::case(number));
    let due = lister::answer(&case);
    let agreed = agree(&case, &due, test_cells::get(tally, DIFFERENT) == 0);
    count(tally, &due, agreed);
    count_case(tally, &case, own::reached(&due), draw::in_turn(number));
    count_roads(tally, case, &due);
}

fn line(name: &[u8], n: usize, v: usize) {
    io::write_all(1, name);
    io::print_decimal(1, n as u64);
    io::write_all(1, b": ");
    io::print_decimal(1, v as u64);
    io::write_all(1, b"\n");
}

// A line for each number from `first` up to `end`, whose cells begin at `at`.
fn lines(name: &[u8], tally: &[usize], at: usize, first: usize, end: usize) {
    for i in first..end {
        line(name, i, test_cells::get(tally, test_cells::add(at, i)));
    }
}

fn all() -> own::Cells {
    let mut tally = [0usize; own::CELLS];
    for i in 0..CASES {
        one(&mut tally, i);
    }
    tally
}

fn show(tally: &[usize]) {
    line(b"agreed, of ", CASES, test_cells::get(tally, AGREED));
    lines(b"outcome ", tally, 0, 0, OUTCOMES);
    lines(b"outcome 11 in round ", tally, REFUSED, 1, 13);
    line(
        b"thresholds in turn, of ",
        1000,
        test_cells::get(tally, IN_TURN),
    );
    line(
        b"rounds reached with closed arcs, of ",
        CASES,
        test_cells::get(tally, CLOSED),
    );
    line(
        b"all arcs open, asked with and without closures, of ",
        CASES,
        test_cells::get(tally, BOTH),
    );
    let numbered = test_cells::get(tally, NUMBERED);
    line(b"rounds reached with road numbers, of ", CASES, numbered);
    line(
        b"an answer or a label count other than with zeros, of ",
        numbered,
        test_cells::get(tally, TOLD_APART),
    );
}

fn damaged(text: &[u8]) {
    line(
        b"damaged texts agreed, of ",
        damage::texts(text, texts::KINDS),
        texts::all(text),
    );
}

fn main() {
    let tally = all();
    show(&tally);
    damaged(b"0 3 4 1 2\np sp 4 5\na 2 3 1\na 1 2 2\na 2 4 2\nc\na 1 3 3\na 3 4 2\n");
}
