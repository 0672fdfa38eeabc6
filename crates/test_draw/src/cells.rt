// Cells: a case, an answer and the tally each stand in an array, whose size and last cells are the
// program's own.
ghost use Rattle.std.specs.Prelude.{◌≡◌, ◌-◌, get_or, set};
ghost use Rattle.test_cells.specs.Bounded.{sum, product};
ghost use Rattle.test_draw.specs.Written.{written};

// A case, as test_listing::answer takes it: what is asked, then five numbers of each arc.
pub const NODES: usize = 0;

pub const ARC_COUNT: usize = 1;

pub const START: usize = 2;

pub const GOAL: usize = 3;

pub const ROUTES: usize = 4;

pub const THRESHOLD_A: usize = 5;

pub const THRESHOLD_B: usize = 6;

pub const ROOM: usize = 7;

pub const WORDS: usize = 8;

pub const SUMMARIES: usize = 9;

pub const ODD_BYTES: usize = 10;

pub const CLOSURES: usize = 11;

pub const CLOSURE_BYTES: usize = 12;

pub const ARCS: usize = 13;

pub const MOST_ARCS: usize = 12;

pub const ARC: usize = 5;

pub const FROM: usize = 0;

pub const TO: usize = 1;

pub const LONG: usize = 2;

pub const ROAD: usize = 3;

pub const CLOSED: usize = 4;

// Bytes of working room, after the arcs and one closure byte more.
pub const WORK_BYTES: usize = ARCS + (MOST_ARCS + 1) * ARC;

pub const WORK_NODE: usize = 64;

// An answer: the outcome and the number beside it.
pub const OUTCOME: usize = 0;

pub const NUMBER: usize = 1;

// The cell of number j of arc i.
pub fn place(i: usize, j: usize) -> usize
    ensures { result ≡ sum (sum (product i 5) 13) j }
{
    test_cells::add(test_cells::place(i, ARC, ARCS), j)
}

pub fn of_arc(case: &[usize], i: usize, j: usize) -> usize
    ensures { result ≡ get_or case.now (sum (sum (product i 5) 13) j) 0 }
{
    test_cells::get(case, place(i, j))
}

// The words of a slot.
pub fn width(case: &[usize]) -> usize
    ensures { result ≡ get_or case.now 0 0 - 1 }
{
    test_cells::less_one(test_cells::get(case, NODES))
}

// The words of the k slots.
pub fn wanted(case: &[usize]) -> usize
    ensures { result ≡ product (get_or case.now 4 0) (get_or case.now 0 0 - 1) }
{
    test_cells::mul(test_cells::get(case, ROUTES), width(case))
}

// The bytes of working room that the nodes need.
pub fn work_needed(case: &[usize]) -> usize
    ensures { result ≡ product (get_or case.now 0 0) 64 }
{
    test_cells::mul(test_cells::get(case, NODES), WORK_NODE)
}

// n more in cell i.
pub fn count(cells: &mut [usize], i: usize, n: usize)
    ensures { cells.new ≡ set cells.old i (sum (get_or cells.old i 0) n) }
{
    let before = test_cells::get(cells, i);
    test_cells::put(cells, i, test_cells::add(before, n));
}

// The case gets zeros in place of its road numbers.
pub fn clear_roads(case: &mut [usize])
    ensures { case.new ≡ written (λ i. sum (sum (product i 5) 13) 3) (λ i. 0) 12 case.old }
{
    for i in 0..MOST_ARCS {
        test_cells::put(case, place(i, ROAD), 0);
    }
}
