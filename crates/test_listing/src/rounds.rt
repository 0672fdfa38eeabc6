// The rounds, each by its definition over the whole list.
use crate::{chains, faults, sheet};

// Rule 3: does the row precede the other? Of equal length, the list has them in order.
fn precedes(sheet: &sheet::Sheet, row: usize, other: usize) -> bool {
    let here = sheet::of_row(sheet, row, sheet::SIZE) / sheet::PAIR;
    let there = sheet::of_row(sheet, other, sheet::SIZE) / sheet::PAIR;
    (here < there) | ((here == there) & (row < other))
}

// Are the two arcs of one road: the same arc, or two with one road number other than zero?
fn one_road(sheet: &sheet::Sheet, arc: usize, other: usize) -> bool {
    let road = sheet::of_arc(sheet, arc, sheet::ROAD);
    let same = road == sheet::of_arc(sheet, other, sheet::ROAD);
    (arc == other) | (same & (road > 0))
}

// Does the row drive the arc's road?
fn drives(sheet: &sheet::Sheet, row: usize, arc: usize) -> bool {
    let count = sheet::of_row(sheet, row, sheet::SIZE) % sheet::PAIR;
    let mut at = row;
    for i in 0..count {
        let link = sheet::of_row(sheet, at, sheet::LINK);
        if one_road(sheet, arc, link % sheet::PAIR) {
            return true;
        }
        at = link / sheet::PAIR;
    }
    false
}

// The overlap of the row with the other: the length of its arcs whose road the other drives.
fn overlap(sheet: &sheet::Sheet, row: usize, other: usize) -> usize {
    let count = sheet::of_row(sheet, row, sheet::SIZE) % sheet::PAIR;
    let mut at = row;
    let mut sum: usize = 0;
    for i in 0..count {
        let link = sheet::of_row(sheet, at, sheet::LINK);
        let arc = link % sheet::PAIR;
        let driven = drives(sheet, other, arc);
        let long = sheet::of_arc(sheet, arc, sheet::LONG);
        sum = test_cells::add(sum, test_cells::pick(driven, long, 0));
        at = link / sheet::PAIR;
    }
    sum
}

// Has the row no greater overlap than the other with each earlier answer? Against row 0 this is
// rule 5.
fn no_greater(sheet: &sheet::Sheet, round: usize, row: usize, other: usize) -> bool {
    for earlier in 1..round {
        let at = test_cells::add(sheet::OVERLAPS, earlier);
        let here = sheet::get(sheet, test_cells::place(row, sheet::MOST_ROUNDS, at));
        if here > sheet::get(sheet, test_cells::place(other, sheet::MOST_ROUNDS, at)) {
            return false;
        }
    }
    true
}

// Does another row take the row's life: same node, before it, no greater overlap?
fn beaten(sheet: &sheet::Sheet, round: usize, row: usize) -> bool {
    let listed = sheet::get(sheet, sheet::LISTED);
    let end = chains::end(sheet, row);
    for other in 1..listed {
        if chains::end(sheet, other) == end {
            if precedes(sheet, other, row) & no_greater(sheet, round, other, row) {
                return true;
            }
        }
    }
    false
}

// Rule 6: the best row, or 0.
fn best(sheet: &sheet::Sheet, round: usize) -> usize {
    let listed = sheet::get(sheet, sheet::LISTED);
    let goal = sheet::get(sheet, sheet::GOAL);
    let mut best: usize = 0;
    for row in 1..listed {
        let first = (best == 0) | precedes(sheet, row, best);
        let ends = (chains::end(sheet, row) == goal) & no_greater(sheet, round, row, 0);
        best = test_cells::pick(ends & first, row, best);
    }
    best
}

// Is the row counted with the best: live, and before it, or the best itself? Without a best row,
// every live row is.
fn counted(sheet: &sheet::Sheet, round: usize, best: usize, row: usize) -> bool {
    let before = (best == 0) | precedes(sheet, row, best);
    if before & no_greater(sheet, round, row, 0) {
        !beaten(sheet, round, row)
    } else {
        row == best
    }
}

// The round's label count.
fn labels(sheet: &sheet::Sheet, round: usize, best: usize) -> usize {
    let listed = sheet::get(sheet, sheet::LISTED);
    let mut sum: usize = 0;
    for row in 1..listed {
        sum = test_cells::add(sum, counted(sheet, round, best, row) as usize);
    }
    sum
}

// What stands in the round's cell: the best row wins, unless there are more labels than room.
fn decided(sheet: &sheet::Sheet, round: usize) -> usize {
    let best = best(sheet, round);
    let count = labels(sheet, round, best);
    let won = test_cells::pick(count > sheet::get(sheet, sheet::ROOM), 0, best);
    test_cells::place(won, sheet::COUNTS, count)
}

// What stands in the row's cell of overlap with the row that won.
fn weight(sheet: &sheet::Sheet, row: usize, won: usize) -> usize {
    let length = sheet::of_row(sheet, won, sheet::SIZE) / sheet::PAIR;
    let most = test_cells::mul(sheet::get(sheet, sheet::THRESHOLD_A), length);
    let b = sheet::get(sheet, sheet::THRESHOLD_B);
    test_cells::pick(row == 0, most, test_cells::mul(b, overlap(sheet, row, won)))
}

fn weigh(sheet: &mut sheet::Sheet, round: usize, won: usize) {
    let rows = sheet::FULL;
    let at = test_cells::add(sheet::OVERLAPS, round);
    for row in 0..rows {
        let value = weight(sheet, row, won);
        sheet::put(sheet, test_cells::place(row, sheet::MOST_ROUNDS, at), value);
    }
}

// One round. Returns the row that won, or 0.
fn turn(sheet: &mut sheet::Sheet, round: usize) -> usize {
    let decided = decided(sheet, round);
    let won = decided / sheet::COUNTS;
    weigh(
        sheet::put(sheet, test_cells::add(sheet::ROUNDS, round), decided),
        round,
        won,
    );
    won
}

// How many rounds are due: none where the call is refused or not all is listed.
fn due(sheet: &sheet::Sheet) -> usize {
    let all = sheet::get(sheet, sheet::LISTED) <= sheet::FULL;
    test_cells::pick(
        all & (faults::refusal(sheet) == 0),
        sheet::get(sheet, sheet::WANTED),
        0,
    )
}

// The rounds, up to the first that has no answer.
pub(crate) fn run(sheet: &mut sheet::Sheet) -> &mut sheet::Sheet {
    for found in 0..due(sheet) {
        let round = found + 1;
        if turn(sheet, round) == 0 {
            return sheet;
        }
        sheet::put(sheet, sheet::FOUND, round);
    }
    sheet
}
