// What the library should tell, and how it should leave the buffers.
use crate::{candidates, choice, order, own};
use test_draw::{cells, lent, routes};

const SECOND: usize = 20;

// Arc j of the route that is kept as number i, as a slot holds it.
fn step(list: &[usize], i: usize, j: usize) -> usize {
    let none = i >= test_cells::get(list, candidates::KEPT);
    let word = routes::word(list, choice::kept(list, i), j);
    test_cells::pick(none, routes::NO_WORD, word)
}

// Word i of slots of that width.
fn slot(list: &[usize], width: usize, i: usize) -> usize {
    if width == 0 {
        routes::NO_WORD
    } else {
        step(list, i / width, i % width)
    }
}

// Number i of the summaries.
fn summary(list: &[usize], i: usize) -> usize {
    let cell = test_cells::pick(i % 3 == 0, routes::LENGTH, routes::COUNT);
    let number = routes::of_row(list, choice::kept(list, i / 3), cell);
    let none = (i % 3 == 2) | (i / 3 >= test_cells::get(list, candidates::KEPT));
    test_cells::pick(none, 0, number)
}

fn put_sums(due: &mut [usize], list: &[usize]) {
    for i in 0..own::NUMBERS {
        test_cells::put(due, test_cells::add(own::SUMS, i), summary(list, i));
    }
}

// The answer where these are kept.
pub(crate) fn answer(case: &[usize], list: &[usize]) -> own::Cells {
    let mut due = [0usize; own::CELLS];
    let width = cells::width(case);
    let fewer = test_cells::get(list, candidates::KEPT) < test_cells::get(case, cells::ROUTES);
    put_sums(&mut due, list);
    lent::put_due(&mut due, own::AREA, own::BUFFER, cells::wanted(case), |i| {
        slot(list, width, i)
    });
    test_cells::put(&mut due, cells::OUTCOME, fewer as usize);
    test_cells::put(&mut due, own::WORK, lent::WORK);
    due
}

// The refusal of a second table, which changes nothing.
fn refusal() -> own::Cells {
    let mut due = [0usize; own::CELLS];
    lent::put_junk(&mut due, own::AREA, own::BUFFER);
    test_cells::put(&mut due, cells::OUTCOME, SECOND);
    test_cells::put(&mut due, own::WORK, lent::WORK);
    due
}

// What is due with a second table in that order.
pub(crate) fn of_order(answer: own::Cells, order: &[usize]) -> own::Cells {
    if test_cells::get(order, order::WRONG) == 1 {
        refusal()
    } else {
        answer
    }
}
