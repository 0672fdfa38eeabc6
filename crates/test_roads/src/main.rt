// Road files. Standard input holds the texts, `NAME{TEXT}` and a newline, or `NAME{TEXT}ROOM` where
// only so many bytes are lent. For each text a line: its name, and what is due by the second reader
// (outcome, the number beside it, bytes, nodes), with DIFFERS where the library answers otherwise
// or leaves a byte of its area, or around that, otherwise. Where a text reads well, the library
// writes its table back and reads that text again: WRITTEN DIFFERS where it writes anything but
// what is due by the second writer, or reads it otherwise; after `NAME{TEXT}+` its text is printed.
// Then the first text, a good one, damaged at each byte in turn: how many such texts there are, and
// how many are answered alike; the first that is not is printed. Then what the writer refuses.
#![tactic(auto)]

mod area;
mod back;
mod both;
mod damage;
mod reader;
mod refusals;
mod writer;

const MOST: usize = 16384;

const NEWLINE: u8 = 10;

// The case whose name begins at `name` and whose text ends at `close`; and where the next begins.
fn case(file: &[u8], name: usize, close: usize) -> usize {
    let open = reader::find(file, name, b'{');
    let end = reader::find(file, close, NEWLINE);
    let room = test_cells::between(file, test_cells::add(close, 1), end);
    let text = test_cells::between(file, test_cells::add(open, 1), close);
    io::write_all(1, test_cells::between(file, name, open));
    io::write_all(1, b":");
    both::show(text, reader::number(room));
    if test_cells::byte(room, 0) == b'+' {
        back::print(text);
    }
    test_cells::add(end, 1)
}

fn cases(file: &[u8]) {
    let mut name = 0;
    for i in 0..file.len() {
        if test_cells::byte(file, i) == b'}' {
            name = case(file, name, i);
        }
    }
}

fn damaged(text: &[u8]) {
    let agreed = damage::agreed(text);
    io::write_all(1, b"damaged texts agreed, of ");
    io::print_decimal(1, test_cells::mul(text.len(), damage::DAMAGES) as u64);
    io::write_all(1, b": ");
    io::print_decimal(1, agreed as u64);
    io::write_all(1, b"\n");
}

// The first text of the file.
fn first(file: &[u8]) -> &[u8] {
    let open = reader::find(file, 0, b'{');
    test_cells::between(file, test_cells::add(open, 1), reader::find(file, 0, b'}'))
}

fn main() {
    let mut file = [0u8; MOST];
    let n = io::read_full(0, &mut file);
    cases(&file[..n]);
    damaged(first(&file[..n]));
    refusals::all();
}
