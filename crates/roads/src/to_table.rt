// A road file as a road table; its node count is told on standard error.
use crate::shell;
use outcome::Refusal;
use road_made::Made;

// A text of as many bytes, or more, is refused with 10.
const MOST_TEXT: usize = 524288;

// A text of more than 16,384 arcs too.
const MOST_TABLE: usize = 262144;

// The table of the first n bytes.
fn made(text: &[u8; MOST_TEXT], n: usize, table: &mut [u8]) -> Result<Made, Refusal> {
    road_read::read(shell::taken(&text[..], n)?, table)
}

fn turn(text: &[u8; MOST_TEXT], n: usize, table: &mut [u8]) {
    match made(text, n, table) {
        Ok(made) => {
            shell::show(table, made.bytes);
            shell::nodes(made.nodes);
        }
        Err(refusal) => shell::refuse(refusal),
    }
}

pub(crate) fn run() {
    let mut text = [0u8; MOST_TEXT];
    let n = io::read_full(0, &mut text);
    let mut table = [0u8; MOST_TABLE];
    turn(&text, n, &mut table);
}
