// Queries and tables. A number of a case is settled by the number of the case and of the draw.
use crate::{choice, own};
use test_draw::draw::{below, once_in};
use test_draw::{cells, drawn};

// How many routes are wanted: mostly two or three.
fn wanted(case: usize) -> usize {
    match below(case, 9, 16) {
        0 => 1,
        1 => 4,
        2 => 5,
        3 => 12,
        x => test_cells::pick(x < 8, 2, 3),
    }
}

// Words of the list: those of at most twelve slots, and some that are no whole one.
fn list_words(case: usize, width: usize) -> usize {
    let few = below(case, 25, choice::MOST);
    let slots = test_cells::pick(once_in(case, 24, 4), few, choice::MOST);
    test_cells::place(width, slots, below(case, 26, width))
}

fn range_d(case: usize) -> usize {
    let most = test_cells::pick(once_in(case, 27, 6), 1000, 4);
    test_cells::add(below(case, 28, most), 1)
}

// Any from 0 to d, and often d itself.
fn range_c(case: usize, d: usize) -> usize {
    let any = below(case, 30, test_cells::add(d, 1));
    test_cells::pick(once_in(case, 29, 2), d, any)
}

// A query and its table: in most cases in a row, so that there are many routes. Neither labels nor
// summaries are lacking.
pub(crate) fn case(number: usize) -> own::Cells {
    let table = drawn::many(number, !once_in(number, 23, 4));
    let d = range_d(number);
    let mut case = [0usize; own::CELLS];
    drawn::put_many(&mut case, table, wanted(number));
    case[cells::SUMMARIES] = 100;
    case[own::LIST_WORDS] = list_words(number, cells::width(&case));
    case[own::RANGE_C] = range_c(number, d);
    case[own::RANGE_D] = d;
    case
}
