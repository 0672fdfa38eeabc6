// The tally, and the first difference in full.
ghost use Rattle.std.specs.Prelude.{◌≡◌, ◌≢◌, get_or, set, IsTrue};
ghost use Rattle.test_cells.specs.Bounded.{sum};

use crate::cells;

pub fn row(name: &[u8], cells: &[usize]) {
    io::write_all(1, name);
    for &cell in cells {
        io::write_all(1, b" ");
        io::print_decimal(1, cell as u64);
    }
    io::write_all(1, b"\n");
}

pub fn case(case: &[usize]) {
    row(b"difference: the case", case);
}

pub fn answers(due: &[usize], got: &[usize]) {
    row(b"due", due);
    row(b"found", got);
}

pub fn difference(of: &[usize], due: &[usize], got: &[usize]) {
    case(of);
    answers(due, got);
}

// Counts, in that cell of the tally, a call that gave something else than is due. Is it the first?
pub fn differs(tally: &mut [usize], cell: usize, due: &[usize], got: &[usize]) -> bool
    ensures differs { IsTrue result → due.now ≢ got.now }
    ensures first { IsTrue result → get_or tally.old cell 0 ≡ 0 }
    ensures told { due.now ≢ got.now → get_or tally.old cell 0 ≡ 0 → IsTrue result }
    ensures alike { due.now ≡ got.now
        → tally.new ≡ set tally.old cell (sum (get_or tally.old cell 0) 0) }
    ensures apart { due.now ≢ got.now
        → tally.new ≡ set tally.old cell (sum (get_or tally.old cell 0) 1) }
{
    let differs = due != got;
    let first = test_cells::get(tally, cell) == 0;
    cells::count(tally, cell, differs as usize);
    differs && first
}

// The same, where the first is printed.
pub fn compare(tally: &mut [usize], cell: usize, case: &[usize], due: &[usize], got: &[usize])
    ensures alike { due.now ≡ got.now
        → tally.new ≡ set tally.old cell (sum (get_or tally.old cell 0) 0) }
    ensures apart { due.now ≢ got.now
        → tally.new ≡ set tally.old cell (sum (get_or tally.old cell 0) 1) }
{
    if differs(tally, cell, due, got) {
        difference(case, due, got);
    }
}

// Where the line that begins at `from` ends.
fn line_end(text: &[u8], from: usize) -> usize {
    for i in from..text.len() {
        if test_cells::byte(text, i) == b'\n' {
            return test_cells::add(i, 1);
        }
    }
    text.len()
}

// Each number of the tally, before its line of the text.
pub fn show(tally: &[usize], lines: usize, text: &[u8]) {
    let mut at = 0;
    for i in 0..lines {
        let end = line_end(text, at);
        io::print_decimal(1, test_cells::get(tally, i) as u64);
        io::write_all(1, test_cells::between(text, at, end));
        at = end;
    }
}
