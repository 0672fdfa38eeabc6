// The refusals in their order. An outcome and the number beside it are told as one number: TOLD
// times the outcome, and one more than the number, or 0 where there is none.
// One number, since a cell of the sheet, whose memory is fixed, holds one: a pair would take two cells.
use crate::sheet;

pub(crate) const TOLD: usize = 65536;

// More arcs or partial routes than can be listed, told as a malformed line 1.
pub(crate) const TOO_MANY: usize = 12 * TOLD + 2;

const NO_TABLE: usize = 13 * TOLD;

const MOST_LENGTH: usize = 1000000;

const MOST_NODES: usize = 65536;

const MOST_B: usize = 1000;

const MOST_ROOM: usize = 65535;

// What is wrong with the record, the lowest of 2 to 6, or 0.
fn record_fault(sheet: &sheet::Sheet, at: usize) -> usize {
    let nodes = sheet::get(sheet, sheet::NODES);
    let from = sheet::of_arc(sheet, at, sheet::FROM);
    let to = sheet::of_arc(sheet, at, sheet::TO);
    let long = sheet::of_arc(sheet, at, sheet::LONG);
    let before = sheet::of_arc(sheet, test_cells::less_one(at), sheet::FROM);
    let mut fault = test_cells::pick((from < before) & (at > 1), 6, 0);
    fault = test_cells::pick((long < 1) | (long > MOST_LENGTH), 4, fault);
    fault = test_cells::pick(from == to, 3, fault);
    test_cells::pick((from >= nodes) | (to >= nodes), 2, fault)
}

// The lowest faulty record.
fn faulty(sheet: &sheet::Sheet) -> Option<usize> {
    let records = sheet::get(sheet, sheet::ARC_COUNT);
    (0..records)
        .map(|before| before + 1)
        .find(|&at| record_fault(sheet, at) > 0)
}

// Are closure bytes lent of another number than the arcs, or is one neither 0 nor 1?
fn misclosed(sheet: &sheet::Sheet) -> bool {
    let bytes = sheet::get(sheet, sheet::CLOSURE_BYTES);
    let lent = sheet::get(sheet, sheet::CLOSURES) > 0;
    (0..bytes).any(|before| sheet::of_arc(sheet, before + 1, sheet::CLOSED) > 1)
        || (lent && bytes != sheet::get(sheet, sheet::ARC_COUNT))
}

// What is wrong with the rest of the call, the lowest of 7 to 10, or 0.
fn call_fault(sheet: &sheet::Sheet) -> usize {
    let nodes = sheet::get(sheet, sheet::NODES);
    let start = sheet::get(sheet, sheet::START);
    let goal = sheet::get(sheet, sheet::GOAL);
    let wanted = sheet::get(sheet, sheet::WANTED);
    let b = sheet::get(sheet, sheet::THRESHOLD_B);
    let words = test_cells::mul(wanted, test_cells::less_one(nodes));
    let short = (sheet::get(sheet, sheet::WORDS) < words)
        | (sheet::get(sheet, sheet::SUMMARIES) < wanted);
    let mut fault = test_cells::pick(short | (sheet::get(sheet, sheet::ROOM) > MOST_ROOM), 10, 0);
    let above = sheet::get(sheet, sheet::THRESHOLD_A) >= b;
    fault = test_cells::pick((b < 1) | (b > MOST_B) | above, 9, fault);
    fault = test_cells::pick((wanted < 1) | (wanted > sheet::MOST_ROUNDS), 8, fault);
    test_cells::pick(
        (start >= nodes) | (goal >= nodes) | (start == goal),
        7,
        fault,
    )
}

// The refusal due as it is told, or 0: of the text first.
pub(crate) fn refusal(sheet: &sheet::Sheet) -> usize {
    let arcs = sheet::get(sheet, sheet::ARC_COUNT);
    let nodes = sheet::get(sheet, sheet::NODES);
    let rest = test_cells::pick(misclosed(sheet), 15, call_fault(sheet));
    let (fault, at) = match faulty(sheet) {
        Some(at) => (record_fault(sheet, at), at),
        None => (rest, 0),
    };
    let size = (nodes < 1) | (nodes > MOST_NODES) | (sheet::get(sheet, sheet::ODD_BYTES) > 0);
    let told = test_cells::pick(size, NO_TABLE, test_cells::place(fault, TOLD, at));
    let bad = sheet::get(sheet, sheet::BAD_LINE);
    let listed = test_cells::pick(arcs > sheet::MOST_ARCS, TOO_MANY, told);
    test_cells::pick(bad > 0, bad, listed)
}
