// All pairs of listed routes that share no arc.
use test_draw::routes;

fn disjoint(rows: &[usize], row: usize, other: usize) -> bool {
    let count = routes::of_row(rows, row, routes::COUNT);
    for j in 0..count {
        if routes::drives(rows, other, routes::step(rows, row, j)) {
            return false;
        }
    }
    true
}

// The total length of the two rows, or 0 where they are no pair.
pub(crate) fn total(rows: &[usize], case: &[usize], row: usize, other: usize) -> usize {
    let here = routes::of_row(rows, row, routes::LENGTH);
    let there = routes::of_row(rows, other, routes::LENGTH);
    let both = routes::arrives(rows, case, row) & routes::arrives(rows, case, other);
    if both & disjoint(rows, row, other) {
        test_cells::add(here, there)
    } else {
        0
    }
}

// The lesser of two totals, of which 0 is none.
fn lesser(x: usize, y: usize) -> usize {
    test_cells::pick((y > 0) & ((x == 0) | (y < x)), y, x)
}

// The least total of the row with one before it, or 0.
fn least_with(rows: &[usize], case: &[usize], row: usize) -> usize {
    let count = test_cells::pick(routes::arrives(rows, case, row), row, 0);
    let mut least = 0;
    for other in 0..count {
        least = lesser(least, total(rows, case, row, other));
    }
    least
}

// The least total of a pair, or 0 where there is none.
pub(crate) fn least(rows: &[usize], case: &[usize]) -> usize {
    let count = routes::listed(rows);
    let mut least = 0;
    for row in 0..count {
        least = lesser(least, least_with(rows, case, row));
    }
    least
}

// How many routes there are.
pub(crate) fn routes(rows: &[usize], case: &[usize]) -> usize {
    let count = routes::listed(rows);
    let mut sum = 0;
    for row in 0..count {
        sum = test_cells::add(sum, routes::arrives(rows, case, row) as usize);
    }
    sum
}
