// Draws: a number is settled by the number of the case and of the draw.
ghost use Rattle.std.specs.Prelude.{◌≡◌, ◌⊎◌, ◌≤◌, ◌<◌, ◌-◌, true};

use std::ops::Range;

// The draws of a case.
const DRAWS: usize = 256;

fn next(x: usize) -> usize {
    let y = x % 2147483648;
    (y * 1103515245 + 12345) % 2147483648
}

// The middle of the square: draws that only `next` parts would stand in a fixed relation.
fn middle(x: usize) -> usize {
    let y = x % 2147483648;
    test_cells::mul(y, y) / 32768 % 2147483648
}

pub fn rest(x: usize, n: usize) -> usize
    ensures { result ≤ n - 1 }
{
    if n == 0 { 0 } else { x % n }
}

// A number below n.
pub fn below(case: usize, draw: usize, n: usize) -> usize
    ensures { result ≤ n - 1 }
{
    let x = test_cells::place(case, DRAWS, draw);
    rest(middle(next(middle(next(x)))) / 65536, n)
}

// One time in n.
pub fn once_in(case: usize, draw: usize, n: usize) -> bool
    ensures { n ≤ 1 → result ≡ true }
{
    below(case, draw, n) == 0
}

// One of the range, by that draw.
#[tactic(auto, unfolding(test_cells::specs::Bounded::sum))]
fn one_of(case: usize, draw: usize, range: Range<usize>) -> usize
    ensures { (range.start < range.end) → (range.end ≤ 65536)
        → (range.start ≤ result) × (result < range.end) }
{
    let count = range.end.saturating_sub(range.start);
    test_cells::add(below(case, draw, count), range.start)
}

// One time in n, by that draw, one of the few, and else one of the more; which one, by the next draw.
pub fn either(case: usize, draw: usize, n: usize, few: Range<usize>, more: Range<usize>) -> usize
    ensures { (few.start < few.end) → (few.end ≤ 65536) → (more.start < more.end) → (more.end ≤ 65536)
        → ((few.start ≤ result) × (result < few.end)) ⊎ ((more.start ≤ result) × (result < more.end)) }
{
    let next = test_cells::add(draw, 1);
    if once_in(case, draw, n) {
        one_of(case, next, few)
    } else {
        one_of(case, next, more)
    }
}
