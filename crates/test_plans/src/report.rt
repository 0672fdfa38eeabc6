// The first difference, in full.
use crate::{area, cells, draw, library};
use outcome::Told;

fn row(x: usize, y: usize, z: usize) {
    io::print_decimal(1, x as u64);
    io::write_all(1, b" ");
    io::print_decimal(1, y as u64);
    io::write_all(1, b" ");
    io::print_decimal(1, z as u64);
    io::write_all(1, b"\n");
}

// An answer as one number: 65,536 times the outcome, and the number beside it.
fn packed(told: Told) -> usize {
    test_cells::place(area::wide(told.outcome), 65536, area::wide(told.number))
}

// The call: its number, kind and plan; routes, width and words; bytes, what is due and what is told.
pub(crate) fn answers(asked: draw::Asked, due: Told, told: Told) {
    io::write_all(1, b"differs\n");
    row(asked.call, asked.kind as usize, asked.plan);
    row(asked.routes, asked.width, asked.words);
    row(asked.bytes, packed(due), packed(told));
}

// Each byte before the call, as it is due after it, and as it is left; and each word.
pub(crate) fn files(cells: &cells::Cells, file: &area::File, due: Told, left: &area::File) {
    for i in 0..area::FILE {
        let byte = library::byte_due(cells, file, due, i);
        row(area::at(file, i), byte, area::at(left, i));
    }
}

pub(crate) fn slots(cells: &cells::Cells, asked: draw::Asked, due: Told, left: &area::Words) {
    for i in 0..area::WORDS {
        let word = library::word_due(cells, asked, due, i);
        row(draw::word(asked, i), word, area::word(left, i));
    }
}
