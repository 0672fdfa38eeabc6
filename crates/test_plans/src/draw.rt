// What is asked. A number is settled by the number of the call and of the draw.
use crate::{area, cells};

#[derive(Clone, Copy, PartialEq, Eq)]
pub(crate) enum Kind {
    Store,
    Fetch,
    Withdraw,
    Collect,
}

// The draws of a call; those from ARCS on are the arcs'.
const DRAWS: usize = 256;

const ARCS: usize = 64;

// A call: its number, its kind, the plan by its index and its number, and what is lent.
#[derive(Clone, Copy)]
pub(crate) struct Asked {
    pub call: usize,
    pub kind: Kind,
    pub index: usize,
    pub plan: usize,
    pub routes: usize,
    pub width: usize,
    pub words: usize,
    pub bytes: usize,
}

// The middle of the square of the next number: numbers alone would stand in a fixed relation.
fn mixed(x: usize) -> usize {
    let y = (x % 2147483648 * 1103515245 + 12345) % 2147483648;
    test_cells::mul(y, y) / 32768 % 2147483648
}

// A number below n.
pub(crate) fn below(call: usize, draw: usize, n: usize) -> usize {
    let x = test_cells::place(call, DRAWS, draw);
    area::rest(mixed(mixed(x)) / 65536, n)
}

// One time in n.
pub(crate) fn once_in(call: usize, draw: usize, n: usize) -> bool {
    below(call, draw, n) == 0
}

// How many records the file of a history has.
pub(crate) fn records(call: usize) -> usize {
    test_cells::pick(
        once_in(call, 0, 12),
        below(call, 1, 4),
        test_cells::add(below(call, 1, 37), 4),
    )
}

// Stores and fetches come most often; none is a damage.
pub(crate) fn step(call: usize) -> Option<Kind> {
    match below(call, 2, 18) {
        0..=6 => Some(Kind::Store),
        7..=10 => Some(Kind::Fetch),
        11..=13 => Some(Kind::Withdraw),
        14 => Some(Kind::Collect),
        _ => None,
    }
}

// The index of a plan; a second one where a store's is there, or another call's is absent.
fn index(cells: &cells::Cells, call: usize, store: bool) -> usize {
    let p = below(call, 3, 13) / 2;
    let there = cells::routes(cells, p) > 0;
    let again = (there & store) | (!there & !store);
    test_cells::pick(again, below(call, 23, 7), p)
}

// What is wrong with a store: its routes, its width or its area, and in its words an empty route, a
// number that is no arc's, no arc before an arc, or an arc after none.
#[derive(Clone, Copy)]
enum Fault {
    NoRoutes,
    Thirteen,
    TooWide,
    WordMore,
    WordLess,
    NoWords,
    Empty,
    NoArc,
    Early,
    Late,
}

// Of most stores nothing.
fn fault_of(call: usize) -> Option<Fault> {
    match below(call, 4, 44) {
        1 => Some(Fault::NoRoutes),
        2 => Some(Fault::Thirteen),
        3 => Some(Fault::TooWide),
        4 => Some(Fault::WordMore),
        5 => Some(Fault::WordLess),
        6 => Some(Fault::NoWords),
        7 => Some(Fault::Empty),
        8 => Some(Fault::NoArc),
        9 => Some(Fault::Early),
        10 => Some(Fault::Late),
        _ => None,
    }
}

fn routes(call: usize) -> usize {
    let most = test_cells::pick(once_in(call, 5, 4), 12, 3);
    match fault_of(call) {
        Some(Fault::NoRoutes) => 0,
        Some(Fault::Thirteen) => 13,
        _ => test_cells::add(below(call, 6, most), 1),
    }
}

fn width(call: usize) -> usize {
    let any = test_cells::add(below(call, 7, 22), 1);
    match fault_of(call) {
        Some(Fault::TooWide) => test_cells::add(65536, test_cells::mul(below(call, 8, 2), any)),
        _ => any,
    }
}

// The width of the slots that a plan is fetched into: too narrow, just enough, any, or ample.
fn fetch_width(call: usize, least: usize) -> usize {
    match below(call, 9, 8) {
        0 => test_cells::less_one(least),
        1 => below(call, 10, 23),
        2 => area::NONE,
        3 => least,
        4 => least,
        _ => 30,
    }
}

// Words lent for a plan that is fetched: one too few, just enough, or some more.
fn fetch_words(call: usize, due: usize) -> usize {
    match below(call, 11, 8) {
        0 => test_cells::less_one(due),
        1 => due,
        2 => due,
        _ => test_cells::add(due, below(call, 12, 5)),
    }
}

fn store_words(call: usize, due: usize) -> usize {
    match fault_of(call) {
        Some(Fault::WordMore) => test_cells::add(due, 1),
        Some(Fault::WordLess) => test_cells::less_one(due),
        Some(Fault::NoWords) => 0,
        _ => due,
    }
}

fn words(kind: Kind, call: usize, routes: usize, width: usize) -> usize {
    let due = test_cells::mul(routes, width);
    let words = match kind {
        Kind::Store => store_words(call, due),
        _ => fetch_words(call, due),
    };
    test_cells::pick(words > area::MOST_WORDS, area::MOST_WORDS, words)
}

// Bytes past the last whole record.
fn odd(call: usize) -> usize {
    test_cells::pick(
        once_in(call, 13, 50),
        test_cells::add(below(call, 14, 31), 1),
        0,
    )
}

pub(crate) fn request(cells: &cells::Cells, call: usize, kind: Kind) -> Asked {
    let store = kind == Kind::Store;
    let p = index(cells, call, store);
    let r = test_cells::pick(store, routes(call), cells::routes(cells, p));
    let w = test_cells::pick(
        store,
        width(call),
        fetch_width(call, cells::longest(cells, p)),
    );
    Asked {
        call,
        kind,
        index: p,
        plan: cells::number(cells, p),
        routes: r,
        width: w,
        words: words(kind, call, r, w),
        bytes: test_cells::place(cells::records(cells), 32, odd(call)),
    }
}

// How many arcs route r has.
fn arcs(call: usize, width: usize, r: usize) -> usize {
    let most = test_cells::pick(width < 20, width, 20);
    let any = test_cells::add(below(call, test_cells::add(r, 32), most), 1);
    test_cells::pick(once_in(call, test_cells::add(r, 48), 3), most, any)
}

// An arc number: any, or the first or the last.
fn arc(call: usize, i: usize) -> usize {
    let high = below(call, test_cells::add(ARCS, i % 192), area::ARCS / 8);
    let edge = test_cells::mul(high % 2, area::ARCS - 1);
    test_cells::pick(high % 16 < 2, edge, test_cells::place(high, 8, i % 8))
}

// A number that is no arc's.
fn no_arc(call: usize) -> usize {
    match below(call, 15, 3) {
        0 => area::ARCS,
        1 => 4294967294,
        _ => test_cells::add(below(call, 24, 32768), area::ARCS),
    }
}

// Word i of the slots of a store: as it should be, and with the fault.
fn right(asked: Asked, i: usize) -> usize {
    let r = area::over(i, asked.width);
    let m = area::rest(i, asked.width);
    let long = arcs(asked.call, asked.width, r);
    let empty = match fault_of(asked.call) {
        Some(Fault::Empty) => r == below(asked.call, 25, asked.routes),
        _ => false,
    };
    test_cells::pick((m < long) & !empty, arc(asked.call, i), area::NONE)
}

fn spoilt(asked: Asked, i: usize) -> usize {
    if i != below(asked.call, 26, asked.words) {
        return right(asked, i);
    }
    match fault_of(asked.call) {
        Some(Fault::NoArc) => no_arc(asked.call),
        Some(Fault::Early) => area::NONE,
        Some(Fault::Late) => arc(asked.call, i),
        _ => right(asked, i),
    }
}

// Word i of the area: a store's slots, or junk to fetch into.
pub(crate) fn word(asked: Asked, i: usize) -> usize {
    let at = area::past(i, area::WORDS_FROM);
    let lent = (i >= area::WORDS_FROM) & (at < asked.words) & (asked.kind == Kind::Store);
    test_cells::pick(lent, spoilt(asked, at), area::JUNK_WORD)
}

pub(crate) fn slots(asked: Asked) -> area::Words {
    let mut words = [0u32; area::WORDS];
    for i in 0..area::WORDS {
        words[i] = area::narrow(word(asked, i));
    }
    words
}
