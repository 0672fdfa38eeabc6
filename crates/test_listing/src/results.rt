// What the filled sheet says: what is told, the slots and the summaries.
use crate::{faults, sheet};

const FEWER: usize = faults::TOLD;

const NO_ROOM: usize = 11;

const NO_WORD: usize = 4294967295;

// The numbers of a round: itself, the length, the number of arcs, the label count, and the arcs. A
// summary is three of them, from the length on.
const LENGTH: usize = 1;

const ARCS: usize = 2;

pub(crate) const LABELS: usize = 3;

const STEPS: usize = 4;

const SUMMARY: usize = 3;

// The outcome and the number beside it.
pub(crate) fn told(sheet: &sheet::Sheet) -> usize {
    let refused = faults::refusal(sheet);
    let found = sheet::get(sheet, sheet::FOUND);
    let round = test_cells::add(found, 1);
    let count = sheet::get(sheet, test_cells::add(sheet::ROUNDS, round)) % sheet::COUNTS;
    let full = test_cells::place(NO_ROOM, faults::TOLD, test_cells::add(round, 1));
    let mut told = test_cells::pick(count > sheet::get(sheet, sheet::ROOM), full, FEWER);
    told = test_cells::pick(found == sheet::get(sheet, sheet::WANTED), 0, told);
    let all = sheet::get(sheet, sheet::LISTED) <= sheet::FULL;
    told = test_cells::pick(all, told, faults::TOO_MANY);
    test_cells::pick(refused > 0, refused, told)
}

// Are there rounds behind what is told?
pub(crate) fn reached(told: usize) -> bool {
    let outcome = told / faults::TOLD;
    (outcome < 2) | (outcome == NO_ROOM)
}

// Arc j of the row, or 0.
fn step(sheet: &sheet::Sheet, row: usize, j: usize) -> usize {
    let count = sheet::of_row(sheet, row, sheet::SIZE) % sheet::PAIR;
    let mut at = row;
    for i in j..count {
        at = sheet::of_row(sheet, at, sheet::LINK) / sheet::PAIR;
    }
    let arc = sheet::of_row(sheet, at, sheet::LINK) % sheet::PAIR;
    test_cells::pick(j > count, 0, arc)
}

// One more than number j of the round, or 0 after the last. The label count is the room where there
// were more.
pub(crate) fn fact(sheet: &sheet::Sheet, round: usize, j: usize) -> usize {
    let decided = sheet::get(sheet, test_cells::add(sheet::ROUNDS, round));
    let won = decided / sheet::COUNTS;
    let count = decided % sheet::COUNTS;
    let room = sheet::get(sheet, sheet::ROOM);
    let size = sheet::of_row(sheet, won, sheet::SIZE);
    let mut fact = test_cells::pick(count < room, count, room);
    fact = test_cells::pick(j == ARCS, size % sheet::PAIR, fact);
    fact = test_cells::pick(j == LENGTH, size / sheet::PAIR, fact);
    fact = test_cells::add(test_cells::pick(j == 0, round, fact), 1);
    if j < STEPS {
        fact
    } else {
        step(sheet, won, j - LABELS)
    }
}

// Word i of the slots, or number i of the summaries.
fn value(sheet: &sheet::Sheet, words: bool, i: usize) -> usize {
    let nodes = sheet::get(sheet, sheet::NODES);
    let width = test_cells::pick(words, test_cells::less_one(nodes), SUMMARY);
    if width == 0 {
        return 0;
    }
    let first = test_cells::pick(words, STEPS, LENGTH);
    let fact = fact(
        sheet,
        test_cells::add(i / width, 1),
        test_cells::add(i % width, first),
    );
    test_cells::pick(fact == 0, NO_WORD, test_cells::less_one(fact))
}

// Where the rounds are reached: the slots, or the summaries.
pub(crate) fn leave(sheet: &sheet::Sheet, words: bool, to: &mut [usize]) {
    let width = test_cells::less_one(sheet::get(sheet, sheet::NODES));
    let all = test_cells::mul(
        sheet::get(sheet, sheet::WANTED),
        test_cells::pick(words, width, SUMMARY),
    );
    let count = test_cells::pick(reached(told(sheet)), all, 0);
    for i in 0..count {
        test_cells::put(to, i, value(sheet, words, i));
    }
}
