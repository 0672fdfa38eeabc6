// A case with one cell made wrong, or two.
use crate::own;
use test_draw::{cells, spoil};

const KINDS: usize = 23;

// A number of routes, c or d out of bounds, a list less than a slot, or a fault that all programs have.
fn of_kind(case: &[usize], kind: usize, arc: usize) -> Option<spoil::Fault> {
    let past = test_cells::add(test_cells::get(case, own::RANGE_D), 1);
    let (cell, value) = match kind {
        16 => (cells::ROUTES, 0),
        17 => (cells::ROUTES, 13),
        19 => (own::RANGE_D, 0),
        20 => (own::RANGE_D, 1001),
        21 => (own::RANGE_C, past),
        22 => (own::LIST_WORDS, test_cells::less_one(cells::width(case))),
        _ => return spoil::of_kind(case, kind, arc),
    };
    Some(spoil::Fault { cell, value })
}

pub(crate) fn of(case: own::Cells, number: usize) -> own::Cells {
    let mut spoilt = case;
    spoil::twice(&mut spoilt, number, KINDS, of_kind);
    spoilt
}
