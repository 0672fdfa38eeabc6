// The rounds of a case, one after the other.
ghost use Rattle.std.specs.Prelude.{◌≤◌};
ghost use Rattle.query_rounds.specs.Progress.{Wanted};

use crate::show;
use query::Wish;
use query_rounds::{Stage, Stand};
use search_ask::Ask;

// The rounds of an accepted query for k routes, the labels of each shown before the next begins.
fn rounds(name: &[u8], t: &[u8], ask: Ask, k: usize, labels: &mut [u8], area: &mut [u32])
    requires { (Wanted ask t.now k labels.old area.old) × (1 ≤ k) }
{
    let w = ask.nodes as usize - 1;
    let end = k * w;
    words::fill::fill_part(area, 0, end, labels::field::NONE);
    let mut lens = [0u64; summary::MOST_ROUTES];
    let mut arcs = [0u16; summary::MOST_ROUTES];
    let mut counts = [0u16; summary::MOST_ROUTES];
    let mut x = Stand {
        r: 0,
        stage: Stage::GoesOn,
    };
    while let Stage::GoesOn = x.stage {
        let r = x.r;
        x = query_rounds::step(
            t,
            &t[0..0],
            ask,
            k,
            labels,
            area,
            &mut lens,
            &mut arcs,
            &mut counts,
            r,
        );
        show::round(name, r, &counts, labels);
    }
}

// The rounds of a query for k routes. One that is refused shows nothing.
pub(crate) fn run(name: &[u8], t: &[u8], ask: Ask, k: u32, labels: &mut [u8], area: &mut [u32]) {
    let wanted = k as usize;
    let wish = Wish {
        k,
        lent: wanted,
        closing: false,
    };
    if let Ok(()) = query::refused(t, &t[0..0], ask, wish, labels, area) {
        rounds(name, t, ask, wanted, labels, area);
    }
}
