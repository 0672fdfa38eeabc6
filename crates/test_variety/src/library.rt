// The library's answer to a case, from buffers that lie in junk.
use crate::own;
use outcome::Told;
use test_draw::{cells, lent};

// The core of the public call.
fn call(case: &[usize], list: &mut [u32], area: &mut [u32], work: &mut [u8]) -> Told {
    let table = lent::table(case, &lent::BY_NUMBER);
    let closed = lent::closures(case);
    query_variety::core(
        lent::of_table(case, &table),
        lent::number(case, cells::NODES),
        lent::number(case, cells::START),
        lent::number(case, cells::GOAL),
        lent::number(case, cells::ROUTES),
        lent::number(case, own::RANGE_C),
        lent::number(case, own::RANGE_D),
        lent::of_closures(case, &closed),
        list,
        area,
        work,
    )
}

// What the library tells, and how it leaves the buffers, which should stay where the call is to be
// refused.
pub(crate) fn answer(case: &[usize], stays: bool) -> own::Cells {
    let mut work = [lent::JUNK; lent::WORK];
    let mut area = [lent::JUNK_WORD; own::BUFFER];
    let mut list = [lent::JUNK_WORD; own::BUFFER];
    let bytes = test_cells::get(case, cells::WORK_BYTES);
    let words = test_cells::get(case, cells::WORDS);
    let list_words = test_cells::get(case, own::LIST_WORDS);
    let told = call(
        case,
        lent::part(&mut list, lent::WORDS_FROM, list_words),
        lent::part(&mut area, lent::WORDS_FROM, words),
        lent::part(&mut work, lent::BYTES_FROM, bytes),
    );
    let mut answer = [0usize; own::CELLS];
    answer[cells::OUTCOME] = told.outcome as usize;
    answer[cells::NUMBER] = told.number as usize;
    answer[own::WORK] = lent::right(&work, test_cells::pick(stays, 0, bytes));
    lent::put_area(&mut answer, own::AREA, &area);
    lent::put_area(&mut answer, own::LIST, &list);
    answer
}
