// A road table as a road file.
use crate::shell;
use outcome::Refusal;
use road_made::Made;

// A table of as many bytes, or more, is refused with 10: one of 16,384 arcs is taken.
const MOST_TABLE: usize = 262160;

// The longest road file of such a table: a line of 17 bytes, and 16,384 of 22.
const MOST_TEXT: usize = 360465;

// The text of the first n bytes.
fn made(table: &[u8; MOST_TABLE], n: usize, nodes: u32, text: &mut [u8]) -> Result<Made, Refusal> {
    road_write::write(shell::taken(&table[..], n)?, nodes, text)
}

fn turn(table: &[u8; MOST_TABLE], n: usize, nodes: u32, text: &mut [u8]) {
    match made(table, n, nodes, text) {
        Ok(made) => shell::show(text, made.bytes),
        Err(refusal) => shell::refuse(refusal),
    }
}

pub(crate) fn run(nodes: u32) {
    let mut table = [0u8; MOST_TABLE];
    let n = io::read_full(0, &mut table);
    let mut text = [0u8; MOST_TEXT];
    turn(&table, n, nodes, &mut text);
}
