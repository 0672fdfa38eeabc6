// Faults: each is one cell of a case made wrong.
ghost use Rattle.std.specs.Prelude.{◌≡◌, ◌<◌, ◌≤◌, ◌↔◌, ◌⊎◌, ℕ, IsSome};
ghost use Rattle.test_draw.specs.Written.{written};

use crate::cells;
use crate::draw::{below, rest};

// The cell that is made wrong, and what it becomes.
#[derive(Clone, Copy)]
pub struct Fault {
    pub cell: usize,
    pub value: usize,
}

// What an arc's number becomes, where it is one of these: a node past the last, the arc's own start
// node, a length out of bounds, a start node below the one before, or no closure byte.
fn of_arc(case: &[usize], kind: usize, arc: usize) -> Option<Fault>
    ensures { IsSome result ↔ (kind < 7) }
{
    let (j, value) = match kind {
        0 => (cells::FROM, test_cells::get(case, cells::NODES)),
        1 => (cells::TO, 4294967295),
        2 => (cells::TO, cells::of_arc(case, arc, cells::FROM)),
        3 => (cells::LONG, 0),
        4 => (cells::LONG, 1000001),
        5 => (cells::FROM, 0),
        6 => (cells::CLOSED, 2),
        _ => return None,
    };
    let cell = cells::place(arc, j);
    Some(Fault { cell, value })
}

// Those of the call that all programs have.
fn of_call(case: &[usize], kind: usize) -> Option<Fault>
    ensures { IsSome result ↔ ((7 ≤ kind) × (kind < 16) ⊎ (kind ≡ 18)) }
{
    let arcs = test_cells::get(case, cells::ARC_COUNT);
    let (cell, value) = match kind {
        7 => (cells::NODES, 0),
        8 => (cells::NODES, 65537),
        9 => (cells::ODD_BYTES, 1),
        10 => (cells::CLOSURE_BYTES, test_cells::less_one(arcs)),
        11 => (cells::CLOSURE_BYTES, test_cells::add(arcs, 1)),
        12 => (cells::START, test_cells::get(case, cells::NODES)),
        13 => (cells::GOAL, 4294967295),
        14 => (cells::GOAL, test_cells::get(case, cells::START)),
        15 => (cells::WORDS, test_cells::less_one(cells::wanted(case))),
        18 => (
            cells::WORK_BYTES,
            test_cells::less_one(cells::work_needed(case)),
        ),
        _ => return None,
    };
    Some(Fault { cell, value })
}

// The fault of that kind, of the arc or of the call; 16 and 17, and those from 19 on, are left to the
// programs.
pub fn of_kind(case: &[usize], kind: usize, arc: usize) -> Option<Fault>
    ensures { IsSome result ↔ ((kind < 16) ⊎ (kind ≡ 18)) }
{
    of_arc(case, kind, arc).or(of_call(case, kind))
}

// The case gets one fault of so many kinds, by its number, and as often as not another one too.
pub fn twice<F: Fn(&[usize], usize, usize) -> Option<Fault>>(
    case: &mut [usize],
    number: usize,
    kinds: usize,
    of_kind: F,
)
    requires { F.IsAlwaysCallable of_kind }
    ensures { (at : ℕ → ℕ) × (value : ℕ → ℕ) × (n : ℕ) × (n ≤ 2)
        × (case.new ≡ written at value n case.old) }
{
    let arcs = test_cells::get(case, cells::ARC_COUNT);
    let drawn = below(number, 21, test_cells::mul(kinds, 2));
    let first = (rest(number, kinds), below(number, 20, arcs));
    let second = (drawn, below(number, 22, arcs));
    for (kind, arc) in [first, second] {
        if let Some(wrong) = of_kind(case, kind, arc) {
            test_cells::put(case, wrong.cell, wrong.value);
        }
    }
}
