// What the library should tell, and how it should leave the buffers.
use crate::{choice, near, own};
use test_draw::{cells, lent, routes};

const BUFFERS: usize = 10;

const RANGE: usize = 22;

const LIST_FULL: usize = 23;

const TOO_FEW: usize = 24;

const MOST_D: usize = 1000;

// The outcome where no refusal before the listing is due and n routes are in range: the list has
// fewer slots, or they are fewer than are wanted, or 0.
pub(crate) fn shortage(case: &[usize], n: usize) -> usize {
    let words = test_cells::get(case, own::LIST_WORDS);
    let full = test_cells::mul(n, cells::width(case)) > words;
    let few = n < test_cells::get(case, cells::ROUTES);
    test_cells::pick(full, LIST_FULL, test_cells::pick(few, TOO_FEW, 0))
}

// All buffers as they were.
fn untouched() -> own::Cells {
    let mut due = [0usize; own::CELLS];
    lent::put_junk(&mut due, own::AREA, own::BUFFER);
    lent::put_junk(&mut due, own::LIST, own::BUFFER);
    due[own::WORK] = lent::WORK;
    due
}

// No arc in the words of the buffer from the first that is lent.
fn put_none(due: &mut [usize], buffer: usize, words: usize) {
    for i in 0..words {
        let at = test_cells::add(buffer, lent::WORDS_FROM);
        test_cells::put(due, test_cells::add(at, i), routes::NO_WORD);
    }
}

// The row in slot i of the buffer.
fn put_row(due: &mut [usize], buffer: usize, width: usize, i: usize, rows: &[usize], row: usize) {
    let first = test_cells::add(buffer, lent::WORDS_FROM);
    for j in 0..width {
        let at = test_cells::add(test_cells::place(i, width, j), first);
        test_cells::put(due, at, routes::word(rows, row, j));
    }
}

// All routes in the list's slots, and those of the set in the area's, by rank.
fn put_routes(
    due: &mut [usize],
    case: &[usize],
    rows: &[usize],
    near: &[usize],
    set: &choice::Set,
) {
    let n = test_cells::get(near, near::COUNT);
    let width = cells::width(case);
    let mut slot = 0;
    for rank in 0..n {
        let row = near::row(near, rank);
        put_row(due, own::LIST, width, rank, rows, row);
        if choice::has(set, rank) {
            put_row(due, own::AREA, width, slot, rows, row);
            slot = test_cells::add(slot, 1);
        }
    }
}

// Where the outcome is 0 and the set is the best.
pub(crate) fn chosen(
    case: &[usize],
    rows: &[usize],
    near: &[usize],
    set: &choice::Set,
) -> own::Cells {
    let mut due = untouched();
    put_routes(&mut due, case, rows, near, set);
    test_cells::put(&mut due, cells::NUMBER, test_cells::get(near, near::COUNT));
    due
}

// Where it is 23 or 24: no word of the list and of the k slots holds an arc.
pub(crate) fn none(case: &[usize], outcome: usize) -> own::Cells {
    let mut due = untouched();
    put_none(&mut due, own::LIST, test_cells::get(case, own::LIST_WORDS));
    put_none(&mut due, own::AREA, cells::wanted(case));
    test_cells::put(&mut due, cells::OUTCOME, outcome);
    due
}

// Where the call is refused: all buffers stay.
pub(crate) fn refusal(outcome: usize, number: usize) -> own::Cells {
    let mut due = untouched();
    test_cells::put(&mut due, cells::OUTCOME, outcome);
    test_cells::put(&mut due, cells::NUMBER, number);
    due
}

// The refusal of a case before the listing: that of the query at 0/1 with as many summaries as it
// likes, after it that of too little working room, and then that of c and d; 0 where there is none.
pub(crate) fn refused(case: &[usize], told: usize) -> usize {
    let short = test_cells::get(case, cells::WORK_BYTES) < cells::work_needed(case);
    let c = test_cells::get(case, own::RANGE_C);
    let d = test_cells::get(case, own::RANGE_D);
    let range = (d < 1) | (d > MOST_D) | (c > d);
    let own = test_cells::pick(short, BUFFERS, test_cells::pick(range, RANGE, 0));
    test_cells::pick(told > 1, told, own)
}
