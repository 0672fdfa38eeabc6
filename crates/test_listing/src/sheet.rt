// The sheet: all cells of a query, lent as one array. Arcs, rows and rounds are numbered from 1; 0
// stands for none.

pub(crate) const MOST_ARCS: usize = 24;

pub(crate) const MOST_ROWS: usize = 1000;

pub(crate) const MOST_ROUNDS: usize = 12;

// How many rounds have an answer.
pub(crate) const FOUND: usize = 0;

// What is told of the text's first bad line.
pub(crate) const BAD_LINE: usize = 1;

// The head: what was asked. The threshold is A / B; odd bytes are those past the table's last whole
// record. CLOSURES says whether closure bytes are lent, and CLOSURE_BYTES how many.
pub(crate) const NODES: usize = 2;

pub(crate) const ARC_COUNT: usize = 3;

pub(crate) const START: usize = 4;

pub(crate) const GOAL: usize = 5;

pub(crate) const WANTED: usize = 6;

pub(crate) const THRESHOLD_A: usize = 7;

pub(crate) const THRESHOLD_B: usize = 8;

pub(crate) const ROOM: usize = 9;

pub(crate) const WORDS: usize = 10;

pub(crate) const SUMMARIES: usize = 11;

pub(crate) const ODD_BYTES: usize = 12;

pub(crate) const CLOSURES: usize = 13;

pub(crate) const CLOSURE_BYTES: usize = 14;

// The arcs: start node, end node, length, road number, and the closure byte, 0 where none is
// lent.
pub(crate) const ARCS: usize = CLOSURE_BYTES + 1;

pub(crate) const ARC: usize = 5;

pub(crate) const FROM: usize = ARCS - ARC;

pub(crate) const TO: usize = FROM + 1;

pub(crate) const LONG: usize = FROM + 2;

pub(crate) const ROAD: usize = FROM + 3;

pub(crate) const CLOSED: usize = FROM + 4;

const ASKED: usize = ARCS + MOST_ARCS * ARC - NODES;

// The row after the last that is listed.
pub(crate) const LISTED: usize = NODES + ASKED;

// The rows, a partial route each, from row 1, the empty chain. The size is PAIR times the length
// and the number of arcs; the link is PAIR times the row that the row extends and its last arc.
pub(crate) const ROWS: usize = LISTED + 1;

pub(crate) const ROW: usize = 2;

pub(crate) const SIZE: usize = ROWS;

pub(crate) const LINK: usize = ROWS + 1;

pub(crate) const PAIR: usize = 32;

// The first row past the most; it is listed too, so that it shows.
pub(crate) const FULL: usize = MOST_ROWS + 1;

// Of each row, MOST_ROUNDS cells: B times its overlap with the answer of each round. Those of row 0
// say what the threshold permits.
pub(crate) const OVERLAPS: usize = ROWS + (FULL + 1) * ROW;

// Of each round, COUNTS times the row that won and the label count.
pub(crate) const ROUNDS: usize = OVERLAPS + (FULL + 1) * MOST_ROUNDS;

pub(crate) const COUNTS: usize = 2048;

// While a text is read: how many lines have ended, where the next begins, whether the `p` line has
// come, and how many arcs.
pub(crate) const LINE: usize = ROUNDS + MOST_ROUNDS + 2;

pub(crate) const AT: usize = LINE + 1;

pub(crate) const BEGUN: usize = LINE + 2;

pub(crate) const TAKEN: usize = LINE + 3;

pub(crate) const SHEET: usize = LINE + 4;

pub(crate) type Sheet = [usize; SHEET];

pub(crate) fn get(sheet: &Sheet, i: usize) -> usize {
    if i < SHEET { sheet[i] } else { 0 }
}

pub(crate) fn of_arc(sheet: &Sheet, arc: usize, cell: usize) -> usize {
    get(sheet, test_cells::place(arc, ARC, cell))
}

pub(crate) fn of_row(sheet: &Sheet, row: usize, cell: usize) -> usize {
    get(sheet, test_cells::place(row, ROW, cell))
}

// The sheet with the value in cell i.
pub(crate) fn put(sheet: &mut Sheet, i: usize, value: usize) -> &mut Sheet {
    if i < SHEET {
        sheet[i] = value;
    }
    sheet
}

// The sheet with what was asked, the head and the arcs, in its cells.
pub(crate) fn copy<'a>(sheet: &'a mut Sheet, asked: &[usize]) -> &'a mut Sheet {
    for i in 0..ASKED {
        put(sheet, test_cells::add(NODES, i), test_cells::get(asked, i));
    }
    sheet
}
