// The profile: candidates in the order of rule 3, each kept if within the threshold of all kept
// before, until k.
use crate::{candidates, own};
use test_draw::{cells, routes};

// The first of those that wait, or MOST_NODES.
fn best(list: &[usize]) -> usize {
    let none = candidates::MOST_NODES;
    let mut best = none;
    for row in 0..none {
        let first = (best == none) | routes::precedes(list, row, best);
        best = test_cells::pick(candidates::waits(list, row) & first, row, best);
    }
    best
}

// Are the two arcs of one road: the same arc, or two with one road number other than zero?
fn one_road(case: &[usize], arc: usize, other: usize) -> bool {
    let road = cells::of_arc(case, arc, cells::ROAD);
    let same = road == cells::of_arc(case, other, cells::ROAD);
    (arc == other) | (same & (road > 0))
}

// Does the row drive the arc's road?
fn drives(list: &[usize], case: &[usize], row: usize, arc: usize) -> bool {
    let count = routes::of_row(list, row, routes::COUNT);
    for i in 0..count {
        if one_road(case, arc, candidates::arc(list, row, i)) {
            return true;
        }
    }
    false
}

// The lengths of the row's arcs whose road the other drives.
fn overlap(list: &[usize], case: &[usize], row: usize, other: usize) -> usize {
    let count = routes::of_row(list, row, routes::COUNT);
    let mut sum = 0;
    for i in 0..count {
        let arc = candidates::arc(list, row, i);
        let driven = drives(list, case, other, arc);
        let long = cells::of_arc(case, arc, cells::LONG);
        sum = test_cells::add(sum, test_cells::pick(driven, long, 0));
    }
    sum
}

fn within(list: &[usize], case: &[usize], row: usize, other: usize) -> bool {
    let length = routes::of_row(list, other, routes::LENGTH);
    let most = test_cells::mul(test_cells::get(case, cells::THRESHOLD_A), length);
    let shared = overlap(list, case, row, other);
    test_cells::mul(test_cells::get(case, cells::THRESHOLD_B), shared) <= most
}

// The row that is kept as number i.
pub(crate) fn kept(list: &[usize], i: usize) -> usize {
    test_cells::get(list, test_cells::add(candidates::KEPT_ROWS, i))
}

fn within_all(list: &[usize], case: &[usize], row: usize) -> bool {
    let count = test_cells::get(list, candidates::KEPT);
    for i in 0..count {
        if !within(list, case, row, kept(list, i)) {
            return false;
        }
    }
    true
}

// The row no longer waits, and is kept or not.
fn settle(list: &mut [usize], case: &[usize], row: usize) {
    let keeps = within_all(list, case, row);
    let count = test_cells::get(list, candidates::KEPT);
    candidates::pass(list, row);
    test_cells::put(list, test_cells::add(candidates::KEPT_ROWS, count), row);
    cells::count(list, candidates::KEPT, keeps as usize);
    cells::count(list, candidates::PAST, !keeps as usize);
}

// Settles the first of those that wait, while fewer than k are kept.
fn turn(list: &mut [usize], case: &[usize]) {
    let row = best(list);
    let wanted = test_cells::get(list, candidates::KEPT) < test_cells::get(case, cells::ROUTES);
    if (row < candidates::MOST_NODES) & wanted {
        settle(list, case, row);
    }
}

// The candidates with those that are kept.
pub(crate) fn chosen(case: own::Cells) -> own::Cells {
    let mut list = candidates::list(case);
    for i in 0..candidates::MOST_NODES {
        turn(&mut list, &case);
    }
    list
}
