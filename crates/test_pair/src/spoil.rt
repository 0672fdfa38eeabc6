// A case with one cell made wrong, or two.
use crate::own;
use test_draw::{cells, spoil};

const KINDS: usize = 19;

// One summary or none, or a fault that all programs have.
fn of_kind(case: &[usize], kind: usize, arc: usize) -> Option<spoil::Fault> {
    let cell = cells::SUMMARIES;
    match kind {
        16 => Some(spoil::Fault { cell, value: 1 }),
        17 => Some(spoil::Fault { cell, value: 0 }),
        _ => spoil::of_kind(case, kind, arc),
    }
}

pub(crate) fn of(case: own::Cells, number: usize) -> own::Cells {
    let mut spoilt = case;
    spoil::twice(&mut spoilt, number, KINDS, of_kind);
    spoilt
}
