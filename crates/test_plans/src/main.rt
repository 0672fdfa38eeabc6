// The store of accepted plans against a model kept in plain arrays: histories of stores, fetches,
// withdrawals and collections from a fixed generator, with wrong requests and damaged files among
// them. After each call the answer, every byte of the file and every word of the slots, with the
// junk around them, are held against the model's. Prints how many agreed and how often each outcome
// occurred, and the first difference in full; then the limit of a slot's width.
#![tactic(auto)]

mod area;
mod cells;
mod damage;
mod draw;
mod library;
mod limits;
mod model;
mod report;

use draw::Kind;
use outcome::Outcome;

const HISTORIES: usize = 1000;

const STEPS: usize = 24;

// A call, held against the model; the cells are then as after it.
fn ask(cells: &mut cells::Cells, asked: draw::Asked, file: &area::File, wrong: bool) {
    let words = draw::slots(asked);
    let due = model::due(cells, asked, &words, wrong);
    if due.outcome == 0 {
        model::change(cells, asked, &words);
    }
    let same = library::agrees(cells, asked, file, due);
    let outcome = area::wide(due.outcome);
    cells::count(
        cells,
        test_cells::place(asked.kind as usize, cells::CALL, outcome),
    );
    cells::count(
        cells,
        test_cells::pick(same, cells::AGREED, cells::DIFFERENT),
    );
}

// A file out of form, with each kind of call.
fn refused(cells: &mut cells::Cells, file: &area::File, call: usize) {
    let before = cells::get(cells, cells::DIFFERENT);
    for kind in [Kind::Store, Kind::Fetch, Kind::Withdraw, Kind::Collect] {
        let asked = draw::request(cells, call, kind);
        ask(cells, asked, file, true);
    }
    if cells::get(cells, cells::DIFFERENT) == before {
        cells::count(cells, cells::REFUSED);
    }
}

// A file that is still in form: the model goes on from it, if it reads it rightly.
fn taken(cells: &mut cells::Cells, file: &area::File) {
    damage::take(cells, file);
    let found = Outcome::Found.plain();
    let off = library::bytes_off(cells, file, found, file);
    if (off > 0) & (cells::get(cells, cells::DIFFERENT) == 0) {
        report::files(cells, file, found, file);
    }
    let right = test_cells::pick(off == 0, cells::TAKEN, cells::DIFFERENT);
    cells::count(cells, right);
}

fn damaged(cells: &mut cells::Cells, file: &area::File, call: usize) {
    let n = cells::records(cells);
    let other = damage::damaged(file, call, n);
    cells::count(cells, cells::DAMAGED);
    if damage::wrong(&other, n) {
        refused(cells, &other, call);
    } else {
        taken(cells, &other);
    }
}

fn step(cells: &mut cells::Cells, call: usize) {
    let file = model::file(cells);
    match draw::step(call) {
        Some(kind) => {
            let asked = draw::request(cells, call, kind);
            ask(cells, asked, &file, false);
        }
        None => damaged(cells, &file, call),
    }
}

fn history(cells: &mut cells::Cells, number: usize) {
    let first = test_cells::mul(number, STEPS);
    let before = cells::get(cells, cells::DIFFERENT);
    cells::begin(cells, draw::records(first));
    for i in 0..STEPS {
        step(cells, test_cells::add(first, i));
    }
    if cells::get(cells, cells::DIFFERENT) == before {
        cells::count(cells, cells::HISTORIES);
    }
}

fn line(name: &[u8], of: usize, n: usize) {
    io::write_all(1, name);
    io::print_decimal(1, of as u64);
    io::write_all(1, b": ");
    io::print_decimal(1, n as u64);
    io::write_all(1, b"\n");
}

// A line for each outcome of a kind of call.
fn outcomes(name: &[u8], cells: &cells::Cells, kind: Kind) {
    for i in 0..cells::CALL {
        let n = cells::get(cells, test_cells::place(kind as usize, cells::CALL, i));
        if n > 0 {
            line(name, i, n);
        }
    }
}

fn show(cells: &cells::Cells) {
    let agreed = cells::get(cells, cells::AGREED);
    let calls = test_cells::add(agreed, cells::get(cells, cells::DIFFERENT));
    line(
        b"histories agreed, of ",
        HISTORIES,
        cells::get(cells, cells::HISTORIES),
    );
    line(b"calls agreed, of ", calls, agreed);
}

fn show_damaged(cells: &cells::Cells) {
    let damaged = cells::get(cells, cells::DAMAGED);
    let refused = cells::get(cells, cells::REFUSED);
    let agreed = test_cells::add(refused, cells::get(cells, cells::TAKEN));
    line(b"damaged files agreed, of ", damaged, agreed);
    line(b"out of form, with four calls each, of ", damaged, refused);
}

fn show_outcomes(cells: &cells::Cells) {
    outcomes(b"store, outcome ", cells, Kind::Store);
    outcomes(b"fetch, outcome ", cells, Kind::Fetch);
    outcomes(b"withdraw, outcome ", cells, Kind::Withdraw);
    outcomes(b"collect, outcome ", cells, Kind::Collect);
}

fn show_limits() {
    line(b"outcome of a slot of words ", 65535, limits::stored(65535));
    line(b"outcome of a slot of words ", 65536, limits::stored(65536));
}

fn main() {
    let mut cells = [0usize; cells::CELLS];
    for i in 0..HISTORIES {
        history(&mut cells, i);
    }
    show(&cells);
    show_damaged(&cells);
    show_outcomes(&cells);
    show_limits();
}
