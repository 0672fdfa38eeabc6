// A case, an answer and the tally each stand in an array of one size.
use test_draw::cells;

pub(crate) const CELLS: usize = 176;

pub(crate) type Cells = [usize; CELLS];

// A case, after the bytes of working room: words of the list, c and d.
pub(crate) const LIST_WORDS: usize = cells::WORK_BYTES + 1;

pub(crate) const RANGE_C: usize = cells::WORK_BYTES + 2;

pub(crate) const RANGE_D: usize = cells::WORK_BYTES + 3;

// An answer, after the outcome and the number beside it: how many bytes of the working room before
// the first wrong one, the whole area, and the whole list.
pub(crate) const WORK: usize = 2;

pub(crate) const AREA: usize = 3;

// The words that the area and the list stand in.
pub(crate) const BUFFER: usize = 80;

pub(crate) const LIST: usize = AREA + BUFFER;
