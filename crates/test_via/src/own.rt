// A case, the candidates, an answer, the order of a second table and the tally each stand in an array
// of one size.
use test_draw::cells;

pub(crate) const CELLS: usize = 128;

pub(crate) type Cells = [usize; CELLS];

pub(crate) const MOST_ARCS: usize = 10;

// A case, after the arcs: bytes of working room past those that the nodes need.
pub(crate) const MORE_WORK: usize = cells::ARCS + MOST_ARCS * cells::ARC;

// The words that the area stands in.
pub(crate) const BUFFER: usize = 80;

// An answer, after the outcome and the number beside it: the summaries of so many routes, the whole
// area, and how many bytes of the working room before the first wrong one.
pub(crate) const SUMS: usize = 2;

pub(crate) const ROUTES: usize = 12;

pub(crate) const NUMBERS: usize = 3 * ROUTES;

pub(crate) const AREA: usize = SUMS + NUMBERS;

pub(crate) const WORK: usize = AREA + BUFFER;
