// The library's answer to a case, from buffers that lie in junk.
use crate::{order, own};
use query_rounds::Got;
use test_draw::{cells, lent, told};

// The core of the public call.
fn ask(
    case: &[usize],
    first: &[u8],
    second: &[u8],
    closed: &[u8],
    area: &mut [u32],
    work: &mut [u8],
) -> Got {
    query_via::core(
        first,
        second,
        lent::number(case, cells::NODES),
        lent::number(case, cells::START),
        lent::number(case, cells::GOAL),
        lent::number(case, cells::ROUTES),
        lent::number(case, cells::THRESHOLD_A),
        lent::number(case, cells::THRESHOLD_B),
        closed,
        area,
        test_cells::get(case, cells::SUMMARIES),
        work,
    )
}

// The same with both tables and the closures of the case.
fn call(case: &[usize], order: &[usize], area: &mut [u32], work: &mut [u8]) -> Got {
    let first = lent::table(case, &lent::BY_NUMBER);
    let second = lent::table(case, order);
    let closed = lent::closures(case);
    let records = test_cells::get(order, order::RECORDS);
    ask(
        case,
        lent::of_table(case, &first),
        lent::records(&second, records, 0),
        lent::of_closures(case, &closed),
        area,
        work,
    )
}

// What the library tells, and how it leaves the buffers, which should stay where the order is
// wrong.
pub(crate) fn answer(case: &[usize], order: &[usize]) -> own::Cells {
    let mut work = [lent::JUNK; lent::WORK];
    let mut area = [lent::JUNK_WORD; own::BUFFER];
    let more = test_cells::get(case, own::MORE_WORK);
    let bytes = test_cells::add(cells::work_needed(case), more);
    let words = test_cells::get(case, cells::WORDS);
    let got = call(
        case,
        order,
        lent::part(&mut area, lent::WORDS_FROM, words),
        lent::part(&mut work, lent::BYTES_FROM, bytes),
    );
    let stays = test_cells::get(order, order::WRONG) == 1;
    let right = lent::right(&work, test_cells::pick(stays, 0, bytes));
    let mut answer = [0usize; own::CELLS];
    told::put(&mut answer, got, own::SUMS, own::ROUTES, &area, right);
    answer
}
