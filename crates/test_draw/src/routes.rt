// Rows of arcs, and all partial routes of a case over open arcs, a row each: the empty one, and after
// each row those that have one arc more than it, to a node that it does not visit. A row at the goal
// is a route and goes no further.
ghost use Rattle.std.specs.Prelude.{◌≡◌, ◌≤◌, ◌<◌, ◌-◌, ◌↔◌, ◌==◌, ℕ, false, cond, length, get_or, set, IsTrue};
ghost use Rattle.test_cells.specs.Bounded.{sum, product};
ghost use Rattle.test_draw.specs.Held.{step_of, IsSmaller};

use crate::cells;

pub const MOST_ROWS: usize = 256;

const MOST_STEPS: usize = 10;

// A row: a number of its own, here the node that it ends at; its length, its number of arcs, and one
// more than each arc number, 0 after the last.
pub const ROW: usize = STEPS + MOST_STEPS;

const END: usize = 0;

pub const LENGTH: usize = 1;

pub const COUNT: usize = 2;

pub const STEPS: usize = 3;

pub const NO_WORD: usize = 4294967295;

// After the rows: how many there are.
const LISTED: usize = MOST_ROWS * ROW;

const SHEET: usize = LISTED + 1;

pub type Rows = [usize; SHEET];

// A row that is none: all its numbers read 0.
pub const NO_ROW: usize = SHEET;

pub fn of_row(rows: &[usize], row: usize, cell: usize) -> usize
    ensures { result ≡ get_or rows.now (sum (product row 13) cell) 0 }
{
    test_cells::get(rows, test_cells::place(row, ROW, cell))
}

pub fn put(rows: &mut [usize], row: usize, cell: usize, value: usize)
    ensures { rows.new ≡ set rows.old (sum (product row 13) cell) value }
{
    test_cells::put(rows, test_cells::place(row, ROW, cell), value);
}

pub fn listed(rows: &[usize]) -> usize
    ensures { result ≡ get_or rows.now 3328 0 }
{
    test_cells::get(rows, LISTED)
}

// One more than arc j of the row, or 0 after the last.
pub fn step(rows: &[usize], row: usize, j: usize) -> usize
    ensures { result ≡ step_of rows.now row j }
{
    test_cells::pick(
        j < MOST_STEPS,
        of_row(rows, row, test_cells::add(STEPS, j)),
        0,
    )
}

// Arc j of the row, as a slot holds it.
pub fn word(rows: &[usize], row: usize, j: usize) -> usize
    ensures { let step = step_of rows.now row j in
        result ≡ cond (step == 0) 4294967295 (step - 1) }
{
    let step = step(rows, row, j);
    test_cells::pick(step == 0, NO_WORD, test_cells::less_one(step))
}

// Is the row a route?
pub fn arrives(rows: &[usize], case: &[usize], row: usize) -> bool
    ensures { IsTrue result ↔ ((row < get_or rows.now 3328 0)
        × (get_or rows.now (sum (product row 13) 0) 0 ≡ get_or case.now 3 0)) }
{
    row < listed(rows) && of_row(rows, row, END) == test_cells::get(case, cells::GOAL)
}

// Does the row visit the node?
fn visits(rows: &[usize], case: &[usize], row: usize, node: usize) -> bool {
    for j in 0..of_row(rows, row, COUNT) {
        let arc = test_cells::less_one(step(rows, row, j));
        if cells::of_arc(case, arc, cells::TO) == node {
            return true;
        }
    }
    node == test_cells::get(case, cells::START)
}

// Does the row go on by the arc?
fn follows(rows: &[usize], case: &[usize], row: usize, arc: usize) -> bool {
    let to = cells::of_arc(case, arc, cells::TO);
    cells::of_arc(case, arc, cells::CLOSED) == 0
        && cells::of_arc(case, arc, cells::FROM) == of_row(rows, row, END)
        && !arrives(rows, case, row)
        && !visits(rows, case, row, to)
}

// Row `next` gets the steps of the row, and after them the arc.
#[tactic(auto, using(crate::proofs::Places::first_kept))]
fn put_steps(rows: &mut [usize], next: usize, row: usize, arc: usize)
    ensures { 1 ≤ next → get_or rows.new 0 0 ≡ get_or rows.old 0 0 }
{
    let count = of_row(rows, row, COUNT);
    for j in 0..MOST_STEPS {
        let own = test_cells::pick(j == count, test_cells::add(arc, 1), step(rows, row, j));
        put(rows, next, test_cells::add(STEPS, j), own);
    }
}

// A further row: the row with the arc after it.
#[tactic(auto, using(crate::proofs::Places::first_kept))]
fn append(rows: &mut [usize], case: &[usize], row: usize, arc: usize)
    ensures start { 1 ≤ get_or rows.old 3328 0 → get_or rows.new 0 0 ≡ get_or rows.old 0 0 }
    ensures listed { 3328 < length rows.old → get_or rows.new 3328 0 ≡ sum (get_or rows.old 3328 0) 1 }
{
    let next = listed(rows);
    let long = cells::of_arc(case, arc, cells::LONG);
    let length = test_cells::add(of_row(rows, row, LENGTH), long);
    let count = test_cells::add(of_row(rows, row, COUNT), 1);
    put_steps(rows, next, row, arc);
    put(rows, next, END, cells::of_arc(case, arc, cells::TO));
    put(rows, next, LENGTH, length);
    put(rows, next, COUNT, count);
    test_cells::put(rows, LISTED, test_cells::add(next, 1));
}

// All rows that have one arc more than the row.
#[tactic(auto, unfolding(test_cells::specs::Bounded::sum))]
fn grow(rows: &mut [usize], case: &[usize], row: usize)
    ensures { 3328 < length rows.old → 1 ≤ get_or rows.old 3328 0 → get_or rows.old 3328 0 ≤ 256
        → (1 ≤ get_or rows.new 3328 0) × (get_or rows.new 3328 0 ≤ 256)
        × (get_or rows.new 0 0 ≡ get_or rows.old 0 0) }
{
    let listed_row = row < listed(rows);
    let arcs = test_cells::pick(listed_row, test_cells::get(case, cells::ARC_COUNT), 0);
    for arc in 0..arcs {
        if follows(rows, case, row, arc) && listed(rows) < MOST_ROWS {
            append(rows, case, row, arc);
        }
    }
}

pub fn list(case: &[usize]) -> Rows
    ensures listed { (1 ≤ get_or result 3328 0) × (get_or result 3328 0 ≤ 256) }
    ensures start { get_or result 0 0 ≡ get_or case.now 2 0 }
{
    let mut rows = [0usize; SHEET];
    rows[END] = test_cells::get(case, cells::START);
    rows[LISTED] = 1;
    for row in 0..MOST_ROWS {
        grow(&mut rows, case, row);
    }
    rows
}

// Is this one more than the number of an arc of the row?
pub fn drives(rows: &[usize], row: usize, number: usize) -> bool
    ensures { IsTrue result ↔ ((j : ℕ) × (j < get_or rows.now (sum (product row 13) 2) 0)
        × (step_of rows.now row j ≡ number)) }
{
    for j in 0..of_row(rows, row, COUNT) {
        if step(rows, row, j) == number {
            return true;
        }
    }
    false
}

fn smaller(rows: &[usize], row: usize, other: usize) -> bool
    ensures { IsTrue result ↔ IsSmaller rows.now row other }
{
    for j in 0..of_row(rows, row, COUNT) {
        let here = step(rows, row, j);
        let there = step(rows, other, j);
        if here != there {
            return here < there;
        }
    }
    false
}

// Rule 3: the length, then the arc numbers from the start.
pub fn precedes(rows: &[usize], row: usize, other: usize) -> bool
    ensures shorter { get_or rows.now (sum (product row 13) 1) 0
        < get_or rows.now (sum (product other 13) 1) 0 → IsTrue result }
    ensures longer { get_or rows.now (sum (product other 13) 1) 0
        < get_or rows.now (sum (product row 13) 1) 0 → result ≡ false }
    ensures as_long { get_or rows.now (sum (product row 13) 1) 0
        ≡ get_or rows.now (sum (product other 13) 1) 0 → (IsTrue result ↔ IsSmaller rows.now row other) }
{
    let here = of_row(rows, row, LENGTH);
    let there = of_row(rows, other, LENGTH);
    here < there || here == there && smaller(rows, row, other)
}
