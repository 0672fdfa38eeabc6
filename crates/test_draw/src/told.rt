// What a call tells that gives summaries.
ghost use Rattle.std.specs.Prelude.{◌≡◌, set};
ghost use Rattle.test_cells.specs.Bounded.{sum, product};
ghost use Rattle.test_draw.specs.Told.{sums_number, with_sums, with_area};

use crate::{cells, lent};
use query_rounds::Got;
use summary::Sums;

const NUMBERS: usize = 3 * summary::MOST_ROUTES;

// Number i of the summaries.
fn of_sums(sums: Sums, i: usize) -> usize
    ensures { result ≡ sums_number sums i }
{
    if i >= NUMBERS {
        return 0;
    }
    let own = summary::at(sums, i / 3);
    match i % 3 {
        0 => own.length as usize,
        1 => own.arcs as usize,
        _ => own.labels as usize,
    }
}

// An answer: the outcome, the number beside it; from that cell on the summaries of so many routes, 0
// for those that are not to be written; the whole area; and the count of right bytes.
pub fn put(answer: &mut [usize], got: Got, sums: usize, routes: usize, area: &[u32], right: usize)
    ensures { let numbers = product routes 3 in
        let with_numbers = with_sums answer.old sums got.sums (product got.n 3) numbers in
        let whole = with_area with_numbers (sum sums numbers) area.now right in
        answer.new ≡ set (set whole 0 got.told.outcome) 1 got.told.number }
{
    let numbers = test_cells::mul(routes, 3);
    let written = test_cells::mul(got.n, 3);
    for i in 0..numbers {
        let number = test_cells::pick(i < written, of_sums(got.sums, i), 0);
        test_cells::put(answer, test_cells::add(sums, i), number);
    }
    let at = test_cells::add(sums, numbers);
    lent::put_area(answer, at, area);
    test_cells::put(answer, test_cells::add(at, area.len()), right);
    test_cells::put(answer, cells::OUTCOME, got.told.outcome as usize);
    test_cells::put(answer, cells::NUMBER, got.told.number as usize);
}
