// The greedy pair: the first route, and the first that shares no arc with it. It is the answer to
// the query for two routes at the threshold 0/1 without road numbers, which test_listing gives.
use crate::own;
use test_draw::cells;

// The outcome and the number beside it, and the total length of the two, 0 where there are not two.
#[derive(Drop)]
pub(crate) struct Greedy {
    pub(crate) outcome: usize,
    pub(crate) number: usize,
    pub(crate) total: usize,
}

pub(crate) fn pair(case: own::Cells) -> Greedy {
    let mut plain = case;
    cells::clear_roads(&mut plain);
    let mut slots = [0usize; 16];
    let mut sums = [0usize; 6];
    let told = test_listing::answer(&plain, &mut slots, &mut sums);
    let both = test_cells::add(sums[0], sums[3]);
    Greedy {
        outcome: told.outcome,
        number: told.number,
        total: test_cells::pick(told.outcome == 0, both, 0),
    }
}
