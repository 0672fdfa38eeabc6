// The library's answer to a case, from buffers that lie in junk.
use crate::own;
use query_rounds::Got;
use test_draw::{cells, lent, told};

// The core of the public call.
fn call(case: &[usize], area: &mut [u32], work: &mut [u8]) -> Got {
    let table = lent::table(case, &lent::BY_NUMBER);
    let closed = lent::closures(case);
    query_pair::core(
        lent::of_table(case, &table),
        lent::number(case, cells::NODES),
        lent::number(case, cells::START),
        lent::number(case, cells::GOAL),
        lent::of_closures(case, &closed),
        area,
        test_cells::get(case, cells::SUMMARIES),
        work,
    )
}

// What the library tells, and how it leaves the buffers, which should stay where the call is to be
// refused.
pub(crate) fn answer(case: &[usize], stays: bool) -> own::Cells {
    let mut work = [lent::JUNK; lent::WORK];
    let mut area = [lent::JUNK_WORD; own::BUFFER];
    let bytes = test_cells::get(case, cells::WORK_BYTES);
    let words = test_cells::get(case, cells::WORDS);
    let got = call(
        case,
        lent::part(&mut area, lent::WORDS_FROM, words),
        lent::part(&mut work, lent::BYTES_FROM, bytes),
    );
    let right = lent::right(&work, test_cells::pick(stays, 0, bytes));
    let mut answer = [0usize; own::CELLS];
    answer[own::WRITTEN] = got.n;
    told::put(&mut answer, got, own::SUMS, own::ROUTES, &area, right);
    answer
}
