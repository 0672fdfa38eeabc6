// What the library makes of a text, written back: by the library from its own table, by the second
// writer from the second reader's; and the library's text, read again.
use crate::{area, both, writer};

// The library's call. What it leaves is told by no contract here.
pub(crate) fn write(table: &[u8], nodes: usize, text: &mut [u8]) -> area::Answer {
    both::told(road_write::write(table, (nodes % 4294967296) as u32, text))
}

// The library reads the text into `room` bytes and writes the table that it made.
fn written(text: &[u8], room: usize, out: &mut [u8]) -> area::Answer {
    let mut area = [area::JUNK; area::AREA];
    let e = both::end(room);
    let read = both::read(text, &mut area[area::FROM..e]);
    write(area::part(&area, read.bytes), read.nodes, out)
}

// Are the answer, the text and the junk around it what is due for what was read?
fn right(answer: area::Answer, out: &area::Area, read: area::Answer, left: &area::Area) -> bool {
    let mut other = [area::JUNK; area::AREA];
    let due = area::Answer {
        outcome: 0,
        number: 0,
        bytes: writer::write(left, read.nodes, read.bytes / 16, &mut other),
        nodes: 0,
    };
    (answer == due) & (*out == other)
}

// Where the text reads well: does the library write what is due, and read that as it is to read the
// text?
pub(crate) fn holds(text: &[u8], room: usize, due: area::Answer, left: &area::Area) -> bool {
    let mut out = [area::JUNK; area::AREA];
    let answer = written(text, room, &mut out[area::FROM..area::FROM + area::AMPLE]);
    let again = both::gives(area::part(&out, answer.bytes), area::AMPLE, due, left);
    (due.outcome > 0) | (again & right(answer, &out, due, left))
}

// The text that the library writes.
pub(crate) fn print(text: &[u8]) {
    let mut out = [area::JUNK; area::AREA];
    let answer = written(
        text,
        area::AMPLE,
        &mut out[area::FROM..area::FROM + area::AMPLE],
    );
    io::write_all(1, area::part(&out, answer.bytes));
}
