// The lister's answer to a case, and what the library's buffers should hold by it.
use crate::{library, own};
use test_draw::{cells, lent};

// The outcome, the number beside it, the summaries, and that every label byte should be right.
fn told(told: test_listing::Told, sums: &[usize]) -> own::Cells {
    let mut due = [0usize; own::CELLS];
    for i in 0..own::NUMBERS {
        test_cells::put(
            &mut due,
            test_cells::add(own::SUMS, i),
            test_cells::get(sums, i),
        );
    }
    test_cells::put(&mut due, cells::OUTCOME, told.outcome);
    test_cells::put(&mut due, cells::NUMBER, told.number);
    test_cells::put(&mut due, own::LABELS, library::LABELS);
    due
}

// How many words the slots have; none where the rounds are not reached.
fn words(case: &[usize], due: &[usize]) -> usize {
    test_cells::pick(own::reached(due), cells::wanted(case), 0)
}

pub(crate) fn answer(case: &[usize]) -> own::Cells {
    let mut slots = [0usize; 80];
    let mut sums = [0usize; own::NUMBERS];
    let a = test_listing::answer(case, &mut slots, &mut sums);
    let mut due = told(a, &sums);
    let words = words(case, &due);
    lent::put_due(&mut due, own::AREA, own::BUFFER, words, |i| {
        test_cells::get(&slots, i)
    });
    due
}

// The greatest label count of a round.
fn greatest(due: &[usize]) -> usize {
    let mut most = 0;
    for j in 0..own::ROUTES {
        let count = test_cells::get(due, test_cells::place(j, 3, own::SUMS + 2));
        most = test_cells::pick(most < count, count, most);
    }
    most
}

// The room as drawn, or by what the query needs.
fn room(drawn: usize, most: usize) -> usize {
    let fewer = test_cells::pick(drawn == 66, test_cells::less_one(most), drawn);
    test_cells::pick(drawn == 65, most, fewer)
}

fn with_room(case: own::Cells, room: usize) -> own::Cells {
    let mut fitted = case;
    test_cells::put(&mut fitted, cells::ROOM, room);
    fitted
}

// The case with its room.
pub(crate) fn fitted(case: own::Cells) -> own::Cells {
    let ample = with_room(case, 64);
    let due = answer(&ample);
    let drawn = test_cells::get(&case, cells::ROOM);
    with_room(case, room(drawn, greatest(&due)))
}
