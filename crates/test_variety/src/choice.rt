// The choice: all sets of ranks are looked at, those of one number in order of their ranks.
use crate::near;
use test_draw::{cells, routes};

// The most routes that are chosen from.
pub(crate) const MOST: usize = 12;

// A fraction of each two ranks, its top first: how dissimilar their routes are.
const PAIRS: usize = 2 * MOST * MOST;

pub(crate) type Pairs = [usize; PAIRS];

// A set: 1 in the cell of each rank that is in it.
pub(crate) type Set = [usize; MOST];

// The number of the best set, how different its routes are, and how many are as different. Number 0
// is that of no set.
#[derive(Drop)]
pub(crate) struct Choice {
    pub(crate) set: usize,
    pub(crate) top: usize,
    pub(crate) bottom: usize,
    pub(crate) equal: usize,
}

fn get(pairs: &Pairs, i: usize) -> usize {
    if i < PAIRS { pairs[i] } else { 0 }
}

pub(crate) fn has(set: &Set, rank: usize) -> bool {
    if rank < MOST { set[rank] > 0 } else { false }
}

// The length of the arcs that stand on one of the rows at least, or on both.
fn length(case: &[usize], rows: &[usize], p: usize, q: usize, both: bool) -> usize {
    let mut sum = 0;
    for arc in 0..cells::MOST_ARCS {
        let step = test_cells::add(arc, 1);
        let here = routes::drives(rows, p, step);
        let there = routes::drives(rows, q, step);
        let counts = (here & there) | ((here | there) & !both);
        let long = cells::of_arc(case, arc, cells::LONG);
        sum = test_cells::add(sum, test_cells::pick(counts, long, 0));
    }
    sum
}

// The top of the fraction of ranks p and q, or its bottom: one minus the shared length over that of
// the union.
fn part(case: &[usize], rows: &[usize], near: &[usize], p: usize, q: usize, top: bool) -> usize {
    let union = length(case, rows, near::row(near, p), near::row(near, q), false);
    if !top {
        return union;
    }
    let shared = length(case, rows, near::row(near, p), near::row(near, q), true);
    if shared < union { union - shared } else { 0 }
}

// The fractions of each two ranks, the lower first.
pub(crate) fn all_pairs(case: &[usize], rows: &[usize], near: &[usize]) -> Pairs {
    let mut pairs = [0usize; PAIRS];
    let count = test_cells::get(near, near::COUNT);
    for i in 0..PAIRS {
        let p = i / 2 / MOST;
        let q = i / 2 % MOST;
        if (p < q) & (q < count) {
            pairs[i] = part(case, rows, near, p, q, i % 2 == 0);
        }
    }
    pairs
}

// Rank i of n from the last.
fn from_last(n: usize, i: usize) -> usize {
    if i < n { n - i - 1 } else { MOST }
}

// The set of that number: its last binary digit is 1 where the last of n ranks is in it, and so on.
pub(crate) fn set_of(number: usize, n: usize) -> Set {
    let mut set = [0usize; MOST];
    let mut left = number;
    for i in 0..MOST {
        let rank = from_last(n, i);
        if rank < MOST {
            set[rank] = left % 2;
        }
        left = left / 2;
    }
    set
}

fn size(set: &Set) -> usize {
    let mut sum = 0;
    for i in 0..MOST {
        sum = test_cells::add(sum, set[i]);
    }
    sum
}

// Is the first fraction less than the second?
fn less(top: usize, bottom: usize, other_top: usize, other_bottom: usize) -> bool {
    test_cells::mul(top, other_bottom) < test_cells::mul(other_top, bottom)
}

// How different the set's routes are: the least of its pairs' fractions; that of no pair is 1.
fn least(pairs: &Pairs, set: &Set) -> Choice {
    let mut best = Choice {
        set: 0,
        top: 1,
        bottom: 1,
        equal: 1,
    };
    for i in 0..MOST * MOST {
        let top = get(pairs, test_cells::mul(i, 2));
        let bottom = get(pairs, test_cells::place(i, 2, 1));
        let pair = (i / MOST < i % MOST) & has(set, i / MOST) & has(set, i % MOST);
        if pair & less(top, bottom, best.top, best.bottom) {
            best = Choice {
                set: 0,
                top,
                bottom,
                equal: 1,
            };
        }
    }
    best
}

// The better of the best so far and the set of that number, if it has k ranks; the former where they
// are equal.
fn better(best: Choice, pairs: &Pairs, number: usize, n: usize, k: usize) -> Choice {
    let set = set_of(number, n);
    if size(&set) != k {
        return best;
    }
    let own = least(pairs, &set);
    if (best.set == 0) | less(best.top, best.bottom, own.top, own.bottom) {
        return Choice {
            set: number,
            top: own.top,
            bottom: own.bottom,
            equal: 1,
        };
    }
    let worse = less(own.top, own.bottom, best.top, best.bottom);
    Choice {
        set: best.set,
        top: best.top,
        bottom: best.bottom,
        equal: test_cells::add(best.equal, !worse as usize),
    }
}

// How many sets of n ranks there are.
fn sets(n: usize) -> usize {
    let mut count = 1;
    for i in 0..n {
        count = test_cells::mul(count, 2);
    }
    count
}

// The best set of k ranks of n. Of sets of one number of ranks the one whose ranks come first has
// the greatest number.
pub(crate) fn best(pairs: &Pairs, n: usize, k: usize) -> Choice {
    let count = sets(test_cells::pick(n > MOST, 0, n));
    let mut best = Choice {
        set: 0,
        top: 0,
        bottom: 1,
        equal: 0,
    };
    for i in 0..count {
        best = better(best, pairs, test_cells::add(from_last(count, i), 1), n, k);
    }
    best
}

// Does the set leave out a rank of the other?
fn leaves_out(set: &Set, other: &Set) -> bool {
    for i in 0..MOST {
        if has(other, i) & !has(set, i) {
            return true;
        }
    }
    false
}

// Does the set leave out one of the most different two?
pub(crate) fn leaves_out_two(pairs: &Pairs, n: usize, set: &Set) -> bool {
    let two = best(pairs, n, 2);
    leaves_out(set, &set_of(two.set, n))
}
