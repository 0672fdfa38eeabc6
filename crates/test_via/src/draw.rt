// Queries and tables. A number of a case is settled by the number of the case and of the draw.
use crate::own;
use test_draw::draw::{below, either, once_in};
use test_draw::{cells, drawn};

fn nodes(case: usize) -> usize {
    let few = test_cells::add(below(case, 1, 5), 2);
    test_cells::pick(
        once_in(case, 0, 6),
        few,
        test_cells::add(below(case, 1, 5) / 2, 4),
    )
}

fn records(case: usize) -> usize {
    either(case, 2, 10, 1..11, 9..11)
}

fn routes(case: usize) -> usize {
    let most = test_cells::pick(once_in(case, 4, 2), 3, 12);
    test_cells::add(below(case, 5, most), 1)
}

// Of small ones, equality is frequent.
fn denominator(case: usize) -> usize {
    let most = test_cells::pick(once_in(case, 6, 3), 1000, 5);
    test_cells::add(below(case, 7, most), 1)
}

fn numerator(case: usize, b: usize) -> usize {
    test_cells::pick(
        once_in(case, 8, 2),
        test_cells::less_one(b),
        below(case, 9, b),
    )
}

fn roads(case: usize) -> drawn::Roads {
    match below(case, 15, 5) {
        1 => drawn::Roads::BothSides,
        2 => drawn::Roads::Few(test_cells::add(below(case, 16, 5), 2)),
        3 => drawn::Roads::Greatest,
        _ => drawn::Roads::None,
    }
}

// A query and its table.
pub(crate) fn case(number: usize) -> own::Cells {
    let table = drawn::Table {
        case: number,
        nodes: nodes(number),
        arcs: records(number),
        lie: drawn::Lie::Anyhow,
        lengths: 3,
        roads: roads(number),
    };
    let k = routes(number);
    let b = denominator(number);
    let mut case = [0usize; own::CELLS];
    table.put(&mut case, k);
    case[cells::THRESHOLD_A] = numerator(number, b);
    case[cells::THRESHOLD_B] = b;
    case[cells::SUMMARIES] = test_cells::pick(once_in(number, 11, 2), k, 12);
    case[own::MORE_WORK] = table.more_work();
    case
}
