// The cells: the tally of all calls, and from FIRST on what the model keeps of a history: the number
// of records, for each record which part stands in it, and for each plan its number and its routes.
// An index past the end reads 0 and stores nothing.

pub(crate) use test_cells::{get, put};

pub(crate) const CELLS: usize = 6144;

pub(crate) type Cells = [usize; CELLS];

// The tally: cells 0 to 79 count the outcomes, CALL of them for each call.
pub(crate) const CALL: usize = 20;

pub(crate) const AGREED: usize = 80;

pub(crate) const DIFFERENT: usize = 81;

// Damaged files: all, those out of form that every call refused as due, and those in form that were
// taken over.
pub(crate) const DAMAGED: usize = 82;

pub(crate) const REFUSED: usize = 83;

pub(crate) const TAKEN: usize = 84;

pub(crate) const HISTORIES: usize = 85;

pub(crate) const FIRST: usize = 90;

const RECORDS: usize = FIRST;

// What stands in a record: 0 where it is free; else one more than PLACES times the plan's index, 8
// times the rank and the part.
const PARTS: usize = FIRST + 1;

pub(crate) const PLACES: usize = 128;

// A plan: its number, how many routes it has, and for each the number of its arcs and those.
const PLANS: usize = 136;

pub(crate) const INDEXES: usize = 15;

const PLAN: usize = 388;

const ROUTE: usize = 32;

pub(crate) fn count(cells: &mut Cells, i: usize) {
    let n = get(cells, i);
    put(cells, i, test_cells::add(n, 1));
}

pub(crate) fn records(cells: &Cells) -> usize {
    get(cells, RECORDS)
}

pub(crate) fn part(cells: &Cells, record: usize) -> usize {
    get(cells, test_cells::add(PARTS, record))
}

pub(crate) fn put_part(cells: &mut Cells, record: usize, part: usize) {
    put(cells, test_cells::add(PARTS, record), part);
}

// Where a plan's number stands, and after it the number of its routes.
pub(crate) fn plan(index: usize) -> usize {
    test_cells::place(index, PLAN, PLANS)
}

pub(crate) fn number(cells: &Cells, index: usize) -> usize {
    get(cells, plan(index))
}

pub(crate) fn routes(cells: &Cells, index: usize) -> usize {
    get(cells, test_cells::add(plan(index), 1))
}

pub(crate) fn put_routes(cells: &mut Cells, index: usize, routes: usize) {
    put(cells, test_cells::add(plan(index), 1), routes);
}

// Where the number of a route's arcs stands, and after it the arcs.
pub(crate) fn route(index: usize, rank: usize) -> usize {
    test_cells::place(rank, ROUTE, test_cells::add(plan(index), 2))
}

pub(crate) fn arcs(cells: &Cells, index: usize, rank: usize) -> usize {
    get(cells, route(index, rank))
}

pub(crate) fn arc(cells: &Cells, index: usize, rank: usize, at: usize) -> usize {
    get(
        cells,
        test_cells::add(route(index, rank), test_cells::add(at, 1)),
    )
}

// An arc of a route, after which the next stands `at`; the route has so many arcs then.
pub(crate) fn put_arc(cells: &mut Cells, route: usize, at: usize, arc: usize, arcs: usize) {
    put(cells, test_cells::add(route, at), arc);
    put(cells, route, arcs);
}

// The longest route of a plan.
pub(crate) fn longest(cells: &Cells, index: usize) -> usize {
    let routes = routes(cells, index);
    let mut most = 0;
    for r in 0..routes {
        let long = arcs(cells, index, r);
        most = test_cells::pick(long > most, long, most);
    }
    most
}

// The plan numbers that a history draws from.
fn known(index: usize) -> usize {
    match index {
        0 => 1,
        1 => 2,
        2 => 256,
        3 => 65537,
        4 => 4294967294,
        5 => 4294967295,
        _ => 0,
    }
}

// So many free records, and no plan.
pub(crate) fn begin(cells: &mut Cells, records: usize) {
    for i in FIRST..CELLS {
        put(cells, i, 0);
    }
    for p in 0..6 {
        put(cells, plan(p), known(p));
    }
    put(cells, RECORDS, records);
}
