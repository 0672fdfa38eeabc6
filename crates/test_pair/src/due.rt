// What the library should tell, and how it should leave the buffers.
use crate::{own, pairs};
use test_draw::{cells, lent, routes};

const NO_PAIR: usize = 21;

const BUFFERS: usize = 10;

// Word i of the slots that hold these two rows.
fn word(rows: &[usize], width: usize, p: usize, q: usize, i: usize) -> usize {
    if i < width {
        routes::word(rows, p, i)
    } else {
        routes::word(rows, q, i - width)
    }
}

// The summary of the row at that place, with label count 0.
fn put_summary(due: &mut [usize], rows: &[usize], row: usize, at: usize) {
    test_cells::put(due, at, routes::of_row(rows, row, routes::LENGTH));
    test_cells::put(
        due,
        test_cells::add(at, 1),
        routes::of_row(rows, row, routes::COUNT),
    );
}

// The answer with these two rows; those of no pair are none.
fn answer(case: &[usize], rows: &[usize], p: usize, q: usize) -> own::Cells {
    let width = cells::width(case);
    let mut due = [0usize; own::CELLS];
    put_summary(&mut due, rows, p, own::SUMS);
    put_summary(&mut due, rows, q, own::SUMS + 3);
    lent::put_due(&mut due, own::AREA, own::BUFFER, cells::wanted(case), |i| {
        word(rows, width, p, q, i)
    });
    test_cells::put(&mut due, own::WRITTEN, 2);
    test_cells::put(&mut due, own::WORK, lent::WORK);
    due
}

// Does this slot of an answer hold the row?
fn holds(case: &[usize], rows: &[usize], got: &[usize], from: usize, row: usize) -> bool {
    let width = cells::width(case);
    for j in 0..width {
        if test_cells::get(got, test_cells::add(from, j)) != routes::word(rows, row, j) {
            return false;
        }
    }
    true
}

// The route that an answer has in the slot that begins at this cell, or none.
fn route_in(case: &[usize], rows: &[usize], got: &[usize], from: usize) -> usize {
    let count = routes::listed(rows);
    for row in 0..count {
        if routes::arrives(rows, case, row) & holds(case, rows, got, from, row) {
            return row;
        }
    }
    routes::NO_ROW
}

// Are the two rows a pair of this total, the one that precedes first?
fn right(case: &[usize], rows: &[usize], p: usize, q: usize, least: usize) -> bool {
    (pairs::total(rows, case, p, q) == least) & routes::precedes(rows, p, q)
}

// What is due beside an answer, where no refusal is: 0 with the routes of the answer itself, which
// may be any pair of the least total, or 21.
pub(crate) fn beside(case: &[usize], rows: &[usize], got: &[usize], least: usize) -> own::Cells {
    let first = own::AREA + lent::WORDS_FROM;
    let p = route_in(case, rows, got, first);
    let q = route_in(case, rows, got, test_cells::add(first, cells::width(case)));
    if (least > 0) & right(case, rows, p, q, least) {
        return answer(case, rows, p, q);
    }
    let mut due = answer(case, rows, routes::NO_ROW, routes::NO_ROW);
    test_cells::put(
        &mut due,
        cells::OUTCOME,
        test_cells::pick(least > 0, 0, NO_PAIR),
    );
    due
}

// What is due where the call is refused: all buffers stay.
pub(crate) fn refusal(outcome: usize, number: usize) -> own::Cells {
    let mut due = [0usize; own::CELLS];
    lent::put_junk(&mut due, own::AREA, own::BUFFER);
    test_cells::put(&mut due, cells::OUTCOME, outcome);
    test_cells::put(&mut due, cells::NUMBER, number);
    test_cells::put(&mut due, own::WORK, lent::WORK);
    due
}

// The refusal of a case: that of the query for two routes at 0/1, and after it that of too little
// working room; 0 where there is none.
pub(crate) fn refused(case: &[usize], told: usize) -> usize {
    let short = test_cells::get(case, cells::WORK_BYTES) < cells::work_needed(case);
    test_cells::pick(told > 1, told, test_cells::pick(short, BUFFERS, 0))
}
