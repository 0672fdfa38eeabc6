// The library's answer to a case, from buffers that lie in junk.
use crate::own;
use query_rounds::Got;
use test_draw::{cells, lent, told};

pub(crate) const LABELS: usize = 8528;

const LABEL: usize = 128;

// The numbers of a call.
#[derive(Drop)]
struct Numbers {
    nodes: u32,
    s: u32,
    goal: u32,
    k: u32,
    a: u32,
    b: u32,
    lent: usize,
}

fn asked(case: &[usize]) -> Numbers {
    Numbers {
        nodes: lent::number(case, cells::NODES),
        s: lent::number(case, cells::START),
        goal: lent::number(case, cells::GOAL),
        k: lent::number(case, cells::ROUTES),
        a: lent::number(case, cells::THRESHOLD_A),
        b: lent::number(case, cells::THRESHOLD_B),
        lent: test_cells::get(case, cells::SUMMARIES),
    }
}

// The core of the public call without closures.
fn ask(case: &[usize], labels: &mut [u8], area: &mut [u32]) -> Got {
    let table = lent::table(case, &lent::BY_NUMBER);
    let q = asked(case);
    query::core(
        lent::of_table(case, &table),
        q.nodes,
        q.s,
        q.goal,
        q.k,
        q.a,
        q.b,
        labels,
        area,
        q.lent,
    )
}

// The same with closures.
fn ask_closed(case: &[usize], labels: &mut [u8], area: &mut [u32]) -> Got {
    let table = lent::table(case, &lent::BY_NUMBER);
    let closed = lent::closures(case);
    let q = asked(case);
    query::core_closed(
        lent::of_table(case, &table),
        q.nodes,
        q.s,
        q.goal,
        q.k,
        q.a,
        q.b,
        lent::of_closures(case, &closed),
        labels,
        area,
        q.lent,
    )
}

fn call(case: &[usize], lent: bool, labels: &mut [u8], area: &mut [u32]) -> Got {
    if lent {
        ask_closed(case, labels, area)
    } else {
        ask(case, labels, area)
    }
}

// What the library tells, and how it leaves the buffers. `lent` says whether closures are lent, and
// `reached` whether the rounds are due.
pub(crate) fn answer(case: &[usize], lent: bool, reached: bool) -> own::Cells {
    let mut labels = [lent::JUNK; LABELS];
    let mut area = [lent::JUNK_WORD; own::BUFFER];
    let odd = test_cells::get(case, own::ODD_LABEL);
    let bytes = test_cells::place(test_cells::get(case, cells::ROOM), LABEL, odd);
    let words = test_cells::get(case, cells::WORDS);
    let got = call(
        case,
        lent,
        lent::part(&mut labels, lent::BYTES_FROM, bytes),
        lent::part(&mut area, lent::WORDS_FROM, words),
    );
    let right = lent::right(&labels, test_cells::pick(reached, bytes, 0));
    let mut answer = [0usize; own::CELLS];
    told::put(&mut answer, got, own::SUMS, own::ROUTES, &area, right);
    answer
}
