// The list of all partial routes, in the order of their arc numbers, a beginning before what it
// begins.
use crate::{faults, sheet};

// The node that the row ends at.
pub(crate) fn end(sheet: &sheet::Sheet, row: usize) -> usize {
    let last = sheet::of_row(sheet, row, sheet::LINK) % sheet::PAIR;
    let to = sheet::of_arc(sheet, last, sheet::TO);
    test_cells::pick(last == 0, sheet::get(sheet, sheet::START), to)
}

// Does the row stand on an arc that leads to the node?
fn enters(sheet: &sheet::Sheet, row: usize, node: usize) -> bool {
    let count = sheet::of_row(sheet, row, sheet::SIZE) % sheet::PAIR;
    let mut at = row;
    for i in 0..count {
        let link = sheet::of_row(sheet, at, sheet::LINK);
        if sheet::of_arc(sheet, link % sheet::PAIR, sheet::TO) == node {
            return true;
        }
        at = link / sheet::PAIR;
    }
    false
}

// The row's size with the arc after it; 0 where there is no such arc, where it is closed, where it
// does not leave the row's end, and where it leads to a node that the row visits.
fn grown(sheet: &sheet::Sheet, row: usize, arc: usize) -> usize {
    let to = sheet::of_arc(sheet, arc, sheet::TO);
    let from = sheet::of_arc(sheet, arc, sheet::FROM);
    let open = sheet::of_arc(sheet, arc, sheet::CLOSED) == 0;
    let leaves = (arc <= sheet::get(sheet, sheet::ARC_COUNT)) & (from == end(sheet, row));
    let visited = (to == sheet::get(sheet, sheet::START)) | enters(sheet, row, to);
    let long = sheet::of_arc(sheet, arc, sheet::LONG);
    let size = sheet::of_row(sheet, row, sheet::SIZE);
    let sum = test_cells::add(size, test_cells::place(long, sheet::PAIR, 1));
    test_cells::pick(open & leaves & !visited, sum, 0)
}

// Where the row goes on by the arc to an unvisited node: that partial route, as row `next`, and all
// that begin with it and have up to `left` arcs more than the row. Returns the row after the last.
#[cycle(deeper_spread)]
fn deeper(sheet: &mut sheet::Sheet, row: usize, arc: usize, next: usize, left: usize) -> usize {
    if left == 0 {
        return next;
    }
    let size = grown(sheet, row, arc);
    if (size == 0) | (next > sheet::FULL) {
        return next;
    }
    let link = test_cells::place(row, sheet::PAIR, arc);
    let sized = sheet::put(
        sheet,
        test_cells::place(next, sheet::ROW, sheet::SIZE),
        size,
    );
    let linked = sheet::put(
        sized,
        test_cells::place(next, sheet::ROW, sheet::LINK),
        link,
    );
    spread(linked, next, test_cells::add(next, 1), left - 1)
}

// Every partial route that begins with the row and has up to `left` arcs more. Returns the row
// after the last.
#[cycle(deeper_spread)]
fn spread(sheet: &mut sheet::Sheet, row: usize, next: usize, left: usize) -> usize {
    let mut end = next;
    for arc in 1..=sheet::MOST_ARCS {
        end = deeper(sheet, row, arc, end, left);
    }
    end
}

// Lists the partial routes from s: the empty chain, and by recursion to unvisited nodes all that
// extend it; where the call is refused, the empty chain alone.
pub(crate) fn list(sheet: &mut sheet::Sheet) -> &mut sheet::Sheet {
    let left = test_cells::pick(faults::refusal(sheet) == 0, sheet::MOST_ARCS, 0);
    let end = spread(sheet, 1, 2, left);
    sheet::put(sheet, sheet::LISTED, end)
}
