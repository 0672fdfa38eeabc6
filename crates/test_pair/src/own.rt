// A case, an answer and the tally each stand in an array of one size.
pub(crate) const CELLS: usize = 96;

pub(crate) type Cells = [usize; CELLS];

// The words that the area stands in.
pub(crate) const BUFFER: usize = 32;

// An answer, after the outcome and the number beside it: how many summaries are to be written, those
// of so many routes, the whole area, and how many bytes of the working room before the first wrong
// one.
pub(crate) const WRITTEN: usize = 2;

pub(crate) const SUMS: usize = 3;

pub(crate) const ROUTES: usize = 8;

pub(crate) const AREA: usize = SUMS + 3 * ROUTES;

pub(crate) const WORK: usize = AREA + BUFFER;
