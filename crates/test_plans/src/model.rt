// The model: what each call is to answer, and what becomes of the plans and the records.
use crate::draw::Kind;
use crate::{area, cells, draw};
use outcome::Told;

fn slot_word(words: &area::Words, i: usize) -> usize {
    area::word(words, test_cells::add(area::WORDS_FROM, i))
}

// Is the word one that may not stand there? An arc stands first or after an arc; no arc stands after
// the first.
fn misplaced(words: &area::Words, width: usize, i: usize) -> bool {
    let m = area::rest(i, width);
    let x = slot_word(words, i);
    let led = (m == 0) | (slot_word(words, test_cells::less_one(i)) < area::ARCS);
    let arc = (x < area::ARCS) & led;
    let none = (x == area::NONE) & (m > 0);
    !(arc | none)
}

// How many words begin a part.
fn parts(asked: draw::Asked, words: &area::Words) -> usize {
    (0..asked.words)
        .filter(|&i| slot_word(words, i) < area::ARCS && area::rest(i, asked.width) % 6 == 0)
        .count()
}

// 17 of a store.
fn wrong_request(asked: draw::Asked, words: &area::Words) -> bool {
    let routes = (asked.plan == 0) | (asked.routes == 0) | (asked.routes > 12);
    let due = test_cells::mul(asked.routes, asked.width);
    let size = (asked.width == 0) | (asked.width > 65535) | (asked.words != due);
    routes || size || (0..asked.words).any(|i| misplaced(words, asked.width, i))
}

fn free(cells: &cells::Cells) -> usize {
    (0..cells::records(cells))
        .filter(|&i| cells::part(cells, i) == 0)
        .count()
}

fn store_due(cells: &cells::Cells, asked: draw::Asked, words: &area::Words) -> usize {
    let there = cells::routes(cells, asked.index) > 0;
    let room = free(cells) < parts(asked, words);
    let full = test_cells::pick(room, 19, 0);
    let known = test_cells::pick(there, 18, full);
    test_cells::pick(wrong_request(asked, words), 17, known)
}

// 17 and 18 of a fetch and of a withdrawal.
fn absent_due(cells: &cells::Cells, asked: draw::Asked) -> usize {
    let absent = test_cells::pick(cells::routes(cells, asked.index) == 0, 18, 0);
    test_cells::pick(asked.plan == 0, 17, absent)
}

fn fetch_due(cells: &cells::Cells, asked: draw::Asked) -> usize {
    let routes = cells::routes(cells, asked.index);
    let few = asked.words < test_cells::mul(routes, asked.width);
    let small = test_cells::pick(
        few | (cells::longest(cells, asked.index) > asked.width),
        10,
        0,
    );
    let absent = absent_due(cells, asked);
    test_cells::pick(absent > 0, absent, small)
}

fn outcome(cells: &cells::Cells, asked: draw::Asked, words: &area::Words) -> usize {
    match asked.kind {
        Kind::Store => store_due(cells, asked, words),
        Kind::Fetch => fetch_due(cells, asked),
        Kind::Withdraw => absent_due(cells, asked),
        Kind::Collect => 0,
    }
}

// What is due, where `wrong` says that the file is out of form.
pub(crate) fn due(
    cells: &cells::Cells,
    asked: draw::Asked,
    words: &area::Words,
    wrong: bool,
) -> Told {
    let out = wrong | (asked.bytes % 32 > 0);
    let outcome = test_cells::pick(out, 16, outcome(cells, asked, words));
    let fetched = (asked.kind == Kind::Fetch) & (outcome == 0);
    let routes = cells::routes(cells, asked.index);
    Told {
        outcome: area::narrow(outcome),
        number: area::narrow(test_cells::pick(fetched, routes, 0)),
    }
}

// The routes of a plan, from the slots.
fn learn(cells: &mut cells::Cells, asked: draw::Asked, words: &area::Words) {
    for i in 0..asked.words {
        let x = slot_word(words, i);
        let route = cells::route(asked.index, area::over(i, asked.width));
        let at = test_cells::add(area::rest(i, asked.width), 1);
        if x < area::ARCS {
            cells::put_arc(cells, route, at, x, at);
        }
    }
    cells::put_routes(cells, asked.index, asked.routes);
}

// The part after this one, 8 times its rank and its number.
fn part_after(cells: &cells::Cells, index: usize, part: usize) -> usize {
    let more = test_cells::mul(6, part % 8 + 1) < cells::arcs(cells, index, part / 8);
    let rank = test_cells::mul(part / 8 + 1, 8);
    test_cells::pick(more, test_cells::add(part, 1), rank)
}

// The part in the record where it is free and the part is the plan's; the part that is next.
fn lay(cells: &mut cells::Cells, index: usize, part: usize, record: usize) -> usize {
    if (cells::part(cells, record) > 0) | (part / 8 >= cells::routes(cells, index)) {
        return part;
    }
    let own = test_cells::place(index, cells::PLACES, test_cells::add(part, 1));
    cells::put_part(cells, record, own);
    part_after(cells, index, part)
}

fn lay_all(cells: &mut cells::Cells, index: usize) {
    let n = cells::records(cells);
    let mut part = 0;
    for i in 0..n {
        part = lay(cells, index, part, i);
    }
}

// A plan forgotten: its parts in the records, and its routes.
fn forget(cells: &mut cells::Cells, index: usize) {
    let n = cells::records(cells);
    for i in 0..n {
        let part = cells::part(cells, i);
        let own = (part > 0) & (test_cells::less_one(part) / cells::PLACES == index);
        cells::put_part(cells, i, test_cells::pick(own, 0, part));
    }
    cells::put_routes(cells, index, 0);
}

fn collect(cells: &mut cells::Cells) {
    let n = cells::records(cells);
    let mut next = 0;
    for i in 0..n {
        let part = cells::part(cells, i);
        if part > 0 {
            cells::put_part(cells, i, 0);
            cells::put_part(cells, next, part);
            next = test_cells::add(next, 1);
        }
    }
}

// What becomes of the plans and the records.
pub(crate) fn change(cells: &mut cells::Cells, asked: draw::Asked, words: &area::Words) {
    let index = asked.index;
    match asked.kind {
        Kind::Store => {
            learn(cells, asked, words);
            lay_all(cells, index);
        }
        Kind::Withdraw => forget(cells, index),
        Kind::Collect => collect(cells),
        Kind::Fetch => {}
    }
}

// Word j of the record that holds a part, of eight; `part` is one less than what the cells hold.
fn number(cells: &cells::Cells, part: usize, j: usize) -> usize {
    let index = part / cells::PLACES;
    let rank = part / 8 % 16;
    let from = test_cells::mul(6, part % 8);
    let left = area::past(cells::arcs(cells, index, rank), from);
    let used = test_cells::pick(left > 6, 6, left);
    let head = test_cells::place(used, 256, test_cells::place(part % 8, 65536, rank));
    let at = area::past(j, 2);
    let arc = cells::arc(cells, index, rank, test_cells::add(from, at));
    let tail = test_cells::pick(at < used, arc, area::NONE);
    let first = test_cells::pick(j == 0, cells::number(cells, index), head);
    test_cells::pick(j < 2, first, tail)
}

// Byte i of the area that the file lies in.
pub(crate) fn byte(cells: &cells::Cells, i: usize) -> u8 {
    let k = area::past(i, area::FROM);
    let part = cells::part(cells, k / 32);
    if (i < area::FROM) | (k >= test_cells::mul(cells::records(cells), 32)) {
        return area::JUNK;
    }
    if part == 0 {
        return 0;
    }
    area::byte_of(number(cells, part - 1, k % 32 / 4), k % 4)
}

pub(crate) fn file(cells: &cells::Cells) -> area::File {
    let mut file = [0u8; area::FILE];
    for i in 0..area::FILE {
        file[i] = byte(cells, i);
    }
    file
}

// Word i of the area that a plan was fetched into.
pub(crate) fn fetched(cells: &cells::Cells, asked: draw::Asked, i: usize) -> usize {
    let k = area::past(i, area::WORDS_FROM);
    let m = area::rest(k, asked.width);
    let rank = area::over(k, asked.width);
    let arc = cells::arc(cells, asked.index, rank, m);
    let routes = cells::routes(cells, asked.index);
    let lent = (i >= area::WORDS_FROM) & (k < test_cells::mul(routes, asked.width));
    let long = cells::arcs(cells, asked.index, rank);
    let word = test_cells::pick(m < long, arc, area::NONE);
    test_cells::pick(lent, word, area::JUNK_WORD)
}
