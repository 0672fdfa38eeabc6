// The library's calls, on buffers that lie in junk.
use crate::draw::Kind;
use crate::{area, cells, draw, model, report};
use outcome::Told;

// What is called. What it leaves is told by no contract here.
fn call(asked: draw::Asked, file: &mut [u8], slots: &mut [u32]) -> Told {
    let plan = area::narrow(asked.plan);
    let routes = area::narrow(asked.routes);
    let width = area::narrow(asked.width);
    match asked.kind {
        Kind::Store => plan_store::store(file, plan, slots, routes, width),
        Kind::Fetch => plan_fetch::fetch(file, plan, slots, width),
        Kind::Withdraw => plan_change::withdraw(file, plan),
        Kind::Collect => plan_change::collect(file),
    }
}

// Byte i of the file that is due: as it was under a refusal.
pub(crate) fn byte_due(cells: &cells::Cells, file: &area::File, due: Told, i: usize) -> usize {
    if due.outcome == 0 {
        model::byte(cells, i) as usize
    } else {
        area::at(file, i)
    }
}

// Word i of the slots that is due: as it was, but for a plan that was fetched.
pub(crate) fn word_due(cells: &cells::Cells, asked: draw::Asked, due: Told, i: usize) -> usize {
    if (due.outcome == 0) & (asked.kind == Kind::Fetch) {
        model::fetched(cells, asked, i)
    } else {
        draw::word(asked, i)
    }
}

// How many bytes of the file are not as due, and how many words of the slots.
pub(crate) fn bytes_off(
    cells: &cells::Cells,
    file: &area::File,
    due: Told,
    left: &area::File,
) -> usize {
    (0..area::FILE)
        .filter(|&i| byte_due(cells, file, due, i) != area::at(left, i))
        .count()
}

fn words_off(cells: &cells::Cells, asked: draw::Asked, due: Told, left: &area::Words) -> usize {
    (0..area::WORDS)
        .filter(|&i| word_due(cells, asked, due, i) != area::word(left, i))
        .count()
}

// Does the library answer what is due, and leave file and slots as is due? The cells hold what is
// known after the call. The first difference is printed.
pub(crate) fn agrees(
    cells: &cells::Cells,
    asked: draw::Asked,
    file: &area::File,
    due: Told,
) -> bool {
    let mut left = *file;
    let mut slots = draw::slots(asked);
    let e = area::end(asked.bytes);
    let w = area::words_end(asked.words);
    let told = call(
        asked,
        &mut left[area::FROM..e],
        &mut slots[area::WORDS_FROM..w],
    );
    let off = test_cells::add(
        bytes_off(cells, file, due, &left),
        words_off(cells, asked, due, &slots),
    );
    let same = (told == due) & (off == 0);
    if !same & (cells::get(cells, cells::DIFFERENT) == 0) {
        report::answers(asked, due, told);
        report::files(cells, file, due, &left);
        report::slots(cells, asked, due, &slots);
    }
    same
}
