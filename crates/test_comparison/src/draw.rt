// Queries and tables. A number of a case is settled by the number of the case and of the draw.
use crate::own;
use test_draw::cells;
use test_draw::draw::{below, either, once_in, rest};
use test_draw::drawn::{greatest, street};

// The draws of a case: those of the query, from FIRST on those of each arc, and from PAIR on those
// of two arcs of one road.
const FIRST: usize = 32;

const OF_ARC: usize = 16;

const PAIR: usize = FIRST + cells::MOST_ARCS * OF_ARC;

// The manners in which closures are lent: none; all open; from 2 to 6, one arc closed in so many;
// all arcs from one node closed; bytes of another number; one byte of another value.
pub(crate) const ALL_OPEN: usize = 1;

const ONE_NODE: usize = 7;

const NUMBER: usize = 8;

const VALUE: usize = 9;

// The manners in which arcs have road numbers: none; from 1 on those named here.
const BOTH_SIDES: usize = 1;

const TWO_ARCS: usize = 2;

const FEW_ROADS: usize = 3;

const ONE_ROAD: usize = 4;

const GREATEST: usize = 5;

const ONE_BYTE: usize = 6;

const ARC_NUMBERS: usize = 7;

const ROAD_MANNERS: usize = 8;

fn nodes(case: usize) -> usize {
    either(case, 0, 60, 0..2, 3..7)
}

fn records(case: usize) -> usize {
    either(case, 2, 20, 0..6, 6..13)
}

fn routes(case: usize) -> usize {
    let wrong = test_cells::mul(below(case, 5, 2), 13);
    let any = test_cells::add(below(case, 5, 12), 1);
    let drawn = test_cells::pick(once_in(case, 6, 40), wrong, any);
    test_cells::pick(once_in(case, 4, 2), 12, drawn)
}

// Does the case have the next of the thresholds 0/1000 to 999/1000, in turn?
pub(crate) fn in_turn(case: usize) -> bool {
    case % 3 == 0
}

fn denominator(case: usize) -> usize {
    let wrong = test_cells::mul(below(case, 9, 2), 1001);
    let most = test_cells::pick(once_in(case, 8, 2), 5, 1000);
    let any = test_cells::add(below(case, 9, most), 1);
    let drawn = test_cells::pick(once_in(case, 7, 60), wrong, any);
    test_cells::pick(in_turn(case), 1000, drawn)
}

fn numerator(case: usize) -> usize {
    let b = denominator(case);
    let last = once_in(case, 11, 3);
    let any = test_cells::pick(last, test_cells::less_one(b), below(case, 12, b));
    let drawn = test_cells::pick(once_in(case, 10, 60), b, any);
    test_cells::pick(in_turn(case), case / 3 % 1000, drawn)
}

// Ample room is 64 labels. 65 stands for as many as the query needs, 66 for one less.
fn room(case: usize) -> usize {
    let x = below(case, 13, 4);
    test_cells::pick(x < 3, test_cells::add(x, 64), below(case, 14, 17))
}

// Another node than v, but for one time in 60.
fn other(case: usize, draw: usize, v: usize, n: usize) -> usize {
    let x = below(case, draw, n);
    let same = once_in(case, test_cells::add(draw, 1), 60);
    test_cells::pick((x != v) | same, x, rest(test_cells::add(x, 1), n))
}

// Words of the area: those of the slots and some more, but one time in 60 one less.
fn words(case: usize) -> usize {
    let slots = test_cells::mul(routes(case), test_cells::less_one(nodes(case)));
    let more = test_cells::add(slots, below(case, 16, 4));
    test_cells::pick(once_in(case, 15, 60), test_cells::less_one(slots), more)
}

// Summaries: twelve, but one time in eight as many as are wanted or one less.
fn summaries(case: usize) -> usize {
    let k = routes(case);
    let few = test_cells::pick(once_in(case, 18, 6), test_cells::less_one(k), k);
    test_cells::pick(once_in(case, 17, 8), few, 12)
}

// Table bytes past the last whole record.
fn odd_bytes(case: usize) -> usize {
    let some = test_cells::add(below(case, 20, 15), 1);
    test_cells::pick(once_in(case, 19, 200), some, 0)
}

fn manner(case: usize) -> usize {
    let x = below(case, 21, 16);
    test_cells::pick(x > VALUE, 0, x)
}

// How many closure bytes are lent beside the arcs: as many, or one more, one fewer or none.
fn closure_bytes(case: usize) -> usize {
    let manner = manner(case);
    let arcs = records(case);
    let x = below(case, 22, 3);
    let fewer = test_cells::pick(x == 0, test_cells::less_one(arcs), 0);
    let another = test_cells::pick(x == 1, test_cells::add(arcs, 1), fewer);
    let bytes = test_cells::pick(manner == NUMBER, another, arcs);
    test_cells::pick(manner == 0, 0, bytes)
}

fn goal(case: usize) -> usize {
    let n = nodes(case);
    other(case, 24, below(case, 23, n), n)
}

// The case but for the arcs.
fn asked(number: usize) -> own::Cells {
    let mut case = [0usize; own::CELLS];
    case[cells::NODES] = nodes(number);
    case[cells::ARC_COUNT] = records(number);
    case[cells::START] = below(number, 23, nodes(number));
    case[cells::GOAL] = goal(number);
    case[cells::ROUTES] = routes(number);
    case[cells::THRESHOLD_A] = numerator(number);
    case[cells::THRESHOLD_B] = denominator(number);
    case[cells::ROOM] = room(number);
    case[cells::WORDS] = words(number);
    case[cells::SUMMARIES] = summaries(number);
    case[cells::ODD_BYTES] = odd_bytes(number);
    case[cells::CLOSURES] = manner(number);
    case[cells::CLOSURE_BYTES] = closure_bytes(number);
    case[own::ODD_LABEL] = below(number, 26, 128);
    case
}

// The start node after `from`: the same one or the next.
fn start(case: usize, draw: usize, from: usize) -> usize {
    let n = nodes(case);
    let up = test_cells::add(from, 1);
    let stays = once_in(case, draw, 2) | (up >= n);
    let any = below(case, test_cells::add(draw, 2), n);
    let wild = once_in(case, test_cells::add(draw, 1), 150);
    test_cells::pick(wild, any, test_cells::pick(stays, from, up))
}

fn end(case: usize, draw: usize, from: usize) -> usize {
    let n = nodes(case);
    let other = other(case, test_cells::add(draw, 4), from, n);
    test_cells::pick(once_in(case, test_cells::add(draw, 3), 200), n, other)
}

fn length(case: usize, draw: usize) -> usize {
    let any = test_cells::add(below(case, test_cells::add(draw, 6), 4), 1);
    let most = once_in(case, test_cells::add(draw, 7), 40);
    let wrong = test_cells::mul(below(case, test_cells::add(draw, 6), 2), 1000001);
    let right = test_cells::pick(most, 1000000, any);
    test_cells::pick(once_in(case, test_cells::add(draw, 8), 200), wrong, right)
}

// 1, 2 ^ 8, 2 ^ 16 or 2 ^ 24: numbers that are told apart by all four bytes only.
fn one_byte(x: usize) -> usize {
    match x {
        0 => 1,
        1 => 256,
        2 => 65536,
        _ => 16777216,
    }
}

// One number for two arcs that are drawn, and 0 for the others.
fn of_two(case: usize, i: usize) -> usize {
    let arcs = records(case);
    let drawn = (i == below(case, PAIR, arcs)) | (i == below(case, PAIR + 1, arcs));
    test_cells::pick(drawn, test_cells::add(below(case, PAIR + 2, 100), 1), 0)
}

fn road_manner(case: usize) -> usize {
    let x = below(case, 30, 12);
    test_cells::pick(x < ROAD_MANNERS, x, 0)
}

// The road number of arc i, which leads from `from` to `to`.
fn road(case: usize, i: usize, from: usize, to: usize) -> usize {
    let draw = test_cells::place(i, OF_ARC, FIRST + 9);
    match road_manner(case) {
        BOTH_SIDES => street(from, to),
        TWO_ARCS => of_two(case, i),
        FEW_ROADS => below(case, draw, test_cells::add(below(case, 31, 3), 2)),
        ONE_ROAD => test_cells::add(below(case, 31, 3), 1),
        GREATEST => greatest(below(case, draw, 4)),
        ONE_BYTE => one_byte(below(case, draw, 4)),
        ARC_NUMBERS => below(case, draw, records(case)),
        _ => 0,
    }
}

// The closure byte of arc i, which starts at `from`.
fn closure(case: usize, i: usize, from: usize) -> usize {
    let manner = manner(case);
    let any = once_in(case, test_cells::place(i, OF_ARC, FIRST + 11), manner);
    let leaves = from == below(case, 27, nodes(case));
    let closed = test_cells::pick(manner == ONE_NODE, leaves as usize, any as usize);
    let wrong = (manner == VALUE) & (i == below(case, 28, records(case)));
    let byte = test_cells::pick(wrong, test_cells::add(below(case, 29, 254), 2), closed);
    test_cells::pick(manner > ALL_OPEN, byte, 0)
}

// Number j of arc i, which starts at `from`.
fn of_arc(case: usize, i: usize, j: usize, from: usize) -> usize {
    let draw = test_cells::place(i, OF_ARC, FIRST);
    match j {
        0 => from,
        1 => end(case, draw, from),
        2 => length(case, draw),
        cells::ROAD => road(case, i, from, end(case, draw, from)),
        _ => closure(case, i, from),
    }
}

fn arcs(cells: &mut [usize], case: usize) {
    let count = test_cells::mul(records(case), cells::ARC);
    let mut from = 0;
    let mut closed = 0;
    for c in 0..count {
        let i = c / cells::ARC;
        let j = c % cells::ARC;
        let next = start(case, test_cells::place(i, OF_ARC, FIRST), from);
        from = test_cells::pick(j == 0, next, from);
        let number = of_arc(case, i, j, from);
        let closes = (j == cells::CLOSED) & (number == 1);
        closed = test_cells::add(closed, closes as usize);
        test_cells::put(cells, test_cells::add(cells::ARCS, c), number);
    }
    test_cells::put(cells, own::CLOSED_ARCS, closed);
}

// A query and its table.
pub(crate) fn case(number: usize) -> own::Cells {
    let mut case = asked(number);
    arcs(&mut case, number);
    case
}
