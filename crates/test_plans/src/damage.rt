// A file damaged, and what is then wrong with it, by a count over all records for each.
use crate::{area, cells, draw};

// The manners: one byte is another; a record is as another is; two change places; a record is free;
// a full part loses its last arc.
#[derive(Clone, Copy)]
enum Manner {
    Byte,
    Copy,
    Exchange,
    Free,
    Shorter,
}

fn manner_of(call: usize) -> Manner {
    match draw::below(call, 28, 12) {
        0..=6 => Manner::Byte,
        7 => Manner::Copy,
        8 => Manner::Exchange,
        9 => Manner::Free,
        _ => Manner::Shorter,
    }
}

// The other byte.
fn another(call: usize, old: u8) -> u8 {
    let x = draw::below(call, 30, 16);
    let up = test_cells::add(old as usize, 1);
    let any = draw::below(call, 31, 256);
    let near = test_cells::pick(x == 13, up, test_cells::pick(x == 14, 255, any));
    (test_cells::pick(x < 13, x, near) % 256) as u8
}

// Byte j of a record whose last arc of six is lost.
fn shorter(j: usize, old: u8) -> u8 {
    match j {
        5 => 5,
        28..=31 => 255,
        _ => old,
    }
}

// The record that a byte of record `own` comes from, where a and b are the two of the damage.
fn source(manner: Manner, a: usize, b: usize, own: usize) -> usize {
    match manner {
        Manner::Copy | Manner::Exchange if own == a => b,
        Manner::Exchange if own == b => a,
        _ => own,
    }
}

// Byte k of the records of the damaged file.
fn byte(file: &area::File, call: usize, n: usize, k: usize) -> u8 {
    let manner = manner_of(call);
    let a = draw::below(call, 29, n);
    let own = k / 32;
    let from = source(manner, a, draw::below(call, 27, n), own);
    let old = test_cells::byte(file, test_cells::place(from, 32, area::FROM + k % 32));
    let place = test_cells::place(a, 32, draw::below(call, 27, 32));
    match manner {
        Manner::Free if own == a => 0,
        Manner::Shorter if own == a => shorter(k % 32, old),
        Manner::Byte if k == place => another(call, old),
        _ => old,
    }
}

pub(crate) fn damaged(file: &area::File, call: usize, n: usize) -> area::File {
    let mut other = *file;
    let end = test_cells::place(n, 32, area::FROM);
    for i in area::FROM..area::FILE {
        if i < end {
            other[i] = byte(file, call, n, area::past(i, area::FROM));
        }
    }
    other
}

// The number in two bytes, and in four.
fn two(file: &area::File, place: usize) -> usize {
    test_cells::place(
        area::at(file, test_cells::add(place, 1)),
        256,
        area::at(file, place),
    )
}

// Word j of record i, of eight.
fn word(file: &area::File, i: usize, j: usize) -> usize {
    let place = test_cells::place(i, 32, test_cells::place(j, 4, area::FROM));
    let high = two(file, test_cells::add(place, 2));
    test_cells::place(high, 65536, two(file, place))
}

fn plan(file: &area::File, i: usize) -> usize {
    word(file, i, 0)
}

fn rank(file: &area::File, i: usize) -> usize {
    word(file, i, 1) % 256
}

fn used(file: &area::File, i: usize) -> usize {
    word(file, i, 1) / 256 % 256
}

fn part(file: &area::File, i: usize) -> usize {
    word(file, i, 1) / 65536
}

// Of a record's words: 1 for each arc number as it should be, 10 for each word that is not zero.
fn counted(file: &area::File, i: usize) -> usize {
    let used = test_cells::add(used(file, i), 2);
    let mut n = 0;
    for j in 0..8 {
        let x = word(file, i, j);
        let arc = (j > 1) & (j < used) & (x < area::ARCS);
        let none = (j > 1) & (j >= used) & (x == area::NONE);
        n = test_cells::add(
            n,
            test_cells::place((x > 0) as usize, 10, (arc | none) as usize),
        );
    }
    n
}

fn misformed(file: &area::File, i: usize) -> bool {
    let used = used(file, i);
    let counted = counted(file, i);
    let fields = (rank(file, i) > 11) | (used < 1) | (used > 6) | (counted % 10 < 6);
    let taken = plan(file, i) > 0;
    (taken & fields) | (!taken & (counted > 9))
}

// Of record i in use and record j of its plan: 1 where it is the same part, 100 where it is a full
// part before it in its rank, 10,000 where it begins a rank before it.
fn related(file: &area::File, i: usize, j: usize) -> usize {
    let rank_i = rank(file, i);
    let rank_j = rank(file, j);
    let own = plan(file, i) == plan(file, j);
    let same = own & (rank_i == rank_j);
    let double = same & (part(file, i) == part(file, j));
    let before = same & (part(file, j) < part(file, i)) & (used(file, j) == 6);
    let begins = own & (rank_j < rank_i) & (part(file, j) == 0);
    let parts = test_cells::place(before as usize, 100, double as usize);
    test_cells::place(begins as usize, 10000, parts)
}

// A part is there once, as many full parts as its number come before it, and as many ranks begin
// before it as its rank says.
fn unrelated(file: &area::File, i: usize, n: usize) -> bool {
    let parts = test_cells::place(part(file, i), 100, 1);
    let due = test_cells::place(rank(file, i), 10000, parts);
    let mut found = 0;
    for j in 0..n {
        found = test_cells::add(found, related(file, i, j));
    }
    (plan(file, i) > 0) & (found != due)
}

// Is the file of n records out of form?
pub(crate) fn wrong(file: &area::File, n: usize) -> bool {
    (0..n).any(|i| misformed(file, i) || unrelated(file, i, n))
}

// The index of a plan number: where it stands, or else the first without one.
fn index_of(cells: &cells::Cells, plan: usize) -> usize {
    let mut first = cells::INDEXES;
    let mut found = cells::INDEXES;
    for p in 0..cells::INDEXES {
        let number = cells::number(cells, p);
        let earlier = (first < cells::INDEXES) | (number > 0);
        first = test_cells::pick(earlier, first, p);
        found = test_cells::pick(number == plan, p, found);
    }
    test_cells::pick(found < cells::INDEXES, found, first)
}

// The arcs of record i, of a plan's.
fn take_arcs(cells: &mut cells::Cells, file: &area::File, i: usize, index: usize) {
    let route = cells::route(index, rank(file, i));
    let first = test_cells::mul(part(file, i), 6);
    for j in 0..used(file, i) {
        let arc = word(file, i, test_cells::add(j, 2));
        let at = test_cells::add(first, test_cells::add(j, 1));
        let known = cells::get(cells, route);
        cells::put_arc(
            cells,
            route,
            at,
            arc,
            test_cells::pick(known < at, at, known),
        );
    }
}

fn take_record(cells: &mut cells::Cells, file: &area::File, i: usize) {
    let plan = plan(file, i);
    let index = index_of(cells, plan);
    let rank = test_cells::add(rank(file, i), 1);
    let known = cells::routes(cells, index);
    let part = test_cells::place(test_cells::less_one(rank), 8, part(file, i));
    let own = test_cells::place(index, cells::PLACES, test_cells::add(part, 1));
    cells::put(cells, cells::plan(index), plan);
    cells::put_routes(cells, index, test_cells::pick(known < rank, rank, known));
    cells::put_part(cells, i, own);
    take_arcs(cells, file, i, index);
}

// What a file in form has, in place of what the cells hold.
pub(crate) fn take(cells: &mut cells::Cells, file: &area::File) {
    let n = cells::records(cells);
    cells::begin(cells, n);
    for i in 0..n {
        if plan(file, i) > 0 {
            take_record(cells, file, i);
        }
    }
}
