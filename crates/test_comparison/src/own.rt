// A case, an answer and the tally each stand in an array of one size.
use test_draw::cells;

pub(crate) const CELLS: usize = 128;

pub(crate) type Cells = [usize; CELLS];

// A case, after the arcs: label bytes past the last whole label, and how many arcs are closed.
pub(crate) const ODD_LABEL: usize = cells::ARCS + cells::MOST_ARCS * cells::ARC;

pub(crate) const CLOSED_ARCS: usize = ODD_LABEL + 1;

// The words that the area stands in.
pub(crate) const BUFFER: usize = 80;

// An answer, after the outcome and the number beside it: the summaries of so many routes, the whole
// area, and how many label bytes before the first wrong one.
pub(crate) const SUMS: usize = 2;

pub(crate) const ROUTES: usize = 12;

pub(crate) const NUMBERS: usize = 3 * ROUTES;

pub(crate) const AREA: usize = SUMS + NUMBERS;

pub(crate) const LABELS: usize = AREA + BUFFER;

// Are the rounds reached, so that the buffers are written?
pub(crate) fn reached(answer: &[usize]) -> bool {
    let outcome = test_cells::get(answer, cells::OUTCOME);
    outcome < 2 || outcome == 11
}
