// Queries and tables. A number of a case is settled by the number of the case and of the draw.
use crate::own;
use test_draw::{cells, draw, drawn};

// A query for two routes, and its table: in every other case in a row, so that the first route tends
// to cut off the others.
pub(crate) fn case(number: usize) -> own::Cells {
    let table = drawn::many(number, draw::once_in(number, 23, 2));
    let mut case = [0usize; own::CELLS];
    drawn::put_many(&mut case, table, 2);
    case[cells::SUMMARIES] = test_cells::add(draw::below(number, 11, 4), 2);
    case
}
