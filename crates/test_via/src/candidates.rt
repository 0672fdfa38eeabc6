// The candidates of a case, a row for each node: the first route from s to it, joined to the first
// route from it to the goal. The first routes are those of test_listing, which lists all simple
// routes between the two nodes and takes the first by rule 3.
use crate::own;
use test_draw::{cells, routes};

pub(crate) const MOST_NODES: usize = 6;

// The first number of a row: its state.
const STATE: usize = 0;

// A row without a candidate has state 0.
const WAITING: usize = 1;

const PASSED: usize = 2;

// After the rows: how many cross themselves, how many are repeated, how many are past the
// threshold, how many are kept, and the rows that are kept.
pub(crate) const CROSSED: usize = MOST_NODES * routes::ROW;

pub(crate) const REPEATED: usize = CROSSED + 1;

pub(crate) const PAST: usize = CROSSED + 2;

pub(crate) const KEPT: usize = CROSSED + 3;

pub(crate) const KEPT_ROWS: usize = CROSSED + 4;

// Arc i of the row.
pub(crate) fn arc(list: &[usize], row: usize, i: usize) -> usize {
    test_cells::less_one(routes::step(list, row, i))
}

pub(crate) fn waits(list: &[usize], row: usize) -> bool {
    routes::of_row(list, row, STATE) == WAITING
}

pub(crate) fn pass(list: &mut [usize], row: usize) {
    routes::put(list, row, STATE, PASSED);
}

// The query for one route from v to w, with room for all labels.
fn between(case: own::Cells, v: usize, w: usize) -> own::Cells {
    let mut asked = case;
    test_cells::put(&mut asked, cells::START, v);
    test_cells::put(&mut asked, cells::GOAL, w);
    test_cells::put(&mut asked, cells::ROUTES, 1);
    test_cells::put(&mut asked, cells::THRESHOLD_A, 0);
    test_cells::put(&mut asked, cells::THRESHOLD_B, 1);
    asked
}

// A route from a node to another: arc numbers, NO_ARC after the last. NONE in their place where there
// is no route.
const NO_ARC: usize = 4294967295;

const NONE: usize = 4294967294;

type Route = [usize; MOST_NODES];

// The first route from v to w; from a node to itself it has no arc.
fn first(case: own::Cells, v: usize, w: usize) -> Route {
    let mut route = [NO_ARC; MOST_NODES];
    let mut sums = [0usize; 3];
    if v == w {
        return route;
    }
    let asked = between(case, v, w);
    let told = test_listing::answer(&asked, &mut route, &mut sums);
    if told.outcome == 0 {
        route
    } else {
        [NONE; MOST_NODES]
    }
}

// The row gets the arc after those that it has.
fn append(list: &mut [usize], case: &[usize], row: usize, arc: usize) {
    let at = test_cells::mul(row, routes::ROW);
    let count = routes::of_row(list, row, routes::COUNT);
    routes::put(
        list,
        row,
        test_cells::add(routes::STEPS, count),
        test_cells::add(arc, 1),
    );
    cells::count(list, test_cells::add(at, routes::COUNT), 1);
    cells::count(
        list,
        test_cells::add(at, routes::LENGTH),
        cells::of_arc(case, arc, cells::LONG),
    );
}

// The row gets the route after what it has.
fn join(list: &mut [usize], case: &[usize], row: usize, route: &Route) {
    for i in 0..MOST_NODES {
        if route[i] == NO_ARC {
            return;
        }
        append(list, case, row, route[i]);
    }
}

// The row of node v gets both first routes, where there are both.
fn joined(list: &mut [usize], case: own::Cells, v: usize) {
    let to = first(case, test_cells::get(&case, cells::START), v);
    let on = first(case, v, test_cells::get(&case, cells::GOAL));
    if (to[0] != NONE) & (on[0] != NONE) {
        join(list, &case, v, &to);
        join(list, &case, v, &on);
        routes::put(list, v, STATE, WAITING);
    }
}

// Does arc i of the row lead to a node that the row visits before?
fn returns(list: &[usize], case: &[usize], row: usize, i: usize) -> bool {
    let node = cells::of_arc(case, arc(list, row, i), cells::TO);
    for j in 0..i {
        if cells::of_arc(case, arc(list, row, j), cells::TO) == node {
            return true;
        }
    }
    node == test_cells::get(case, cells::START)
}

fn crosses(list: &[usize], case: &[usize], row: usize) -> bool {
    let count = routes::of_row(list, row, routes::COUNT);
    for i in 0..count {
        if returns(list, case, row, i) {
            return true;
        }
    }
    false
}

// Have the two rows the same arcs?
fn alike(list: &[usize], row: usize, other: usize) -> bool {
    for i in routes::STEPS..routes::ROW {
        if routes::of_row(list, row, i) != routes::of_row(list, other, i) {
            return false;
        }
    }
    true
}

// Does a row before this one wait with the same arcs?
fn repeated(list: &[usize], row: usize) -> bool {
    for other in 0..row {
        if waits(list, other) & alike(list, row, other) {
            return true;
        }
    }
    false
}

// Passes over the row and counts it, where it crosses itself or is repeated.
fn sift(list: &mut [usize], case: &[usize], row: usize) {
    let crossed = crosses(list, case, row);
    let again = !crossed & waits(list, row) & repeated(list, row);
    let state = routes::of_row(list, row, STATE);
    cells::count(list, CROSSED, crossed as usize);
    cells::count(list, REPEATED, again as usize);
    routes::put(
        list,
        row,
        STATE,
        test_cells::pick(crossed | again, PASSED, state),
    );
}

// All candidates that are not passed over wait.
pub(crate) fn list(case: own::Cells) -> own::Cells {
    let mut list = [0usize; own::CELLS];
    let nodes = test_cells::get(&case, cells::NODES);
    for v in 0..nodes {
        joined(&mut list, case, v);
        sift(&mut list, &case, v);
    }
    list
}
