// A second writer of road files, for numbers of at most seven digits: from the area as the second
// reader leaves it, a digit for each power of ten that a number reaches.
use crate::area;

const NEWLINE: u8 = 10;

const SPACE: u8 = 32;

const DIGITS: usize = 7;

// Byte number `at` of the text, and the number of the next.
fn put(text: &mut area::Area, at: usize, byte: u8) -> usize {
    area::put(text, test_cells::add(area::FROM, at), byte);
    test_cells::add(at, 1)
}

// The digit for a power of ten; only the last stands for a number below its power.
fn digit(text: &mut area::Area, at: usize, x: usize, ten: usize) -> usize {
    if ten == 0 {
        return at;
    }
    if (x < ten) & (ten > 1) {
        return at;
    }
    put(text, at, test_cells::byte(b"0123456789", x / ten % 10))
}

// A space and a number.
fn number(text: &mut area::Area, at: usize, x: usize) -> usize {
    let mut next = put(text, at, SPACE);
    let mut ten = 1000000;
    for i in 0..DIGITS {
        next = digit(text, next, x, ten);
        ten = ten / 10;
    }
    next
}

// Number j of a record, of its four; no number of seven digits has more than three bytes.
fn of_record(area: &area::Area, record: usize, j: usize) -> usize {
    let at = test_cells::place(record, 16, test_cells::place(j, 4, area::FROM));
    let low = test_cells::byte(area, at) as usize;
    let middle = test_cells::byte(area, test_cells::add(at, 1)) as usize;
    let high = test_cells::byte(area, test_cells::add(at, 2)) as usize;
    test_cells::place(test_cells::place(high, 256, middle), 256, low)
}

fn sizes(text: &mut area::Area, nodes: usize, arcs: usize) -> usize {
    let first = put(text, 0, b'p');
    let second = put(text, first, SPACE);
    let third = put(text, second, b's');
    let fourth = put(text, third, b'p');
    let fifth = number(text, fourth, nodes);
    let last = number(text, fifth, arcs);
    put(text, last, NEWLINE)
}

// The line of a record, with nodes counted from 1.
fn arc(text: &mut area::Area, at: usize, area: &area::Area, record: usize) -> usize {
    let first = put(text, at, b'a');
    let second = number(text, first, test_cells::add(of_record(area, record, 0), 1));
    let third = number(text, second, test_cells::add(of_record(area, record, 1), 1));
    let last = number(text, third, of_record(area, record, 2));
    put(text, last, NEWLINE)
}

// The text that is due for the table in an area; how many bytes it is.
pub(crate) fn write(area: &area::Area, nodes: usize, arcs: usize, text: &mut area::Area) -> usize {
    let mut next = sizes(text, nodes, arcs);
    for i in 0..arcs {
        next = arc(text, next, area, i);
    }
    next
}
