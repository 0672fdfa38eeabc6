// What the writer refuses, and the least that it takes. For each a line with what the library
// answers, and CHANGED where a byte changed that is not of its text; then the text. At the end, the
// tables with a road number in one or two bytes: how many there are, and how many are refused as is
// due by a search of all bytes.
use crate::{area, back, both};

// The bytes of the good table, and how many of them hold road numbers.
const TABLE: usize = 48;

const ROAD_BYTES: usize = 12;

fn put_arc(table: &mut area::Area, record: usize, from: u8, to: u8, long: u8) {
    let at = test_cells::place(record, 16, area::FROM);
    area::put(table, at, from);
    area::put(table, test_cells::add(at, 4), to);
    area::put(table, test_cells::add(at, 8), long);
}

// A good table of three nodes; its text takes 36 bytes.
fn good() -> area::Area {
    let mut table = [0u8; area::AREA];
    put_arc(&mut table, 0, 0, 1, 5);
    put_arc(&mut table, 1, 1, 2, 70);
    put_arc(&mut table, 2, 2, 1, 200);
    table
}

fn show(name: &[u8], answer: area::Answer, text: &area::Area) {
    io::write_all(1, b"write, ");
    io::write_all(1, name);
    both::print(answer);
    both::unless(area::untouched(text, answer.bytes), b" CHANGED");
    io::write_all(1, b"\n");
    io::write_all(1, area::part(text, answer.bytes));
}

fn line(name: &[u8], table: &[u8], nodes: usize, room: usize) {
    let mut text = [area::JUNK; area::AREA];
    let e = both::end(room);
    let answer = back::write(table, nodes, &mut text[area::FROM..e]);
    show(name, answer, &text);
}

// So many bytes of the good table, as one of so many nodes.
fn sized(name: &[u8], bytes: usize, nodes: usize, room: usize) {
    let table = good();
    line(name, area::part(&table, bytes), nodes, room);
}

// The good table with another byte at two places.
fn spoilt(at: usize, other: usize, byte: u8) -> area::Area {
    let mut table = good();
    area::put(&mut table, test_cells::add(area::FROM, at), byte);
    area::put(&mut table, test_cells::add(area::FROM, other), byte);
    table
}

fn twice(name: &[u8], at: usize, other: usize, byte: u8, room: usize) {
    let table = spoilt(at, other, byte);
    line(name, area::part(&table, TABLE), 3, room);
}

// The good table with another byte at one place.
fn changed(name: &[u8], at: usize, byte: u8, room: usize) {
    twice(name, at, at, byte, room);
}

// The lowest record with a byte that is not zero after its first twelve; past all where there is
// none.
fn numbered(table: &area::Area) -> usize {
    let mut lowest = TABLE;
    for i in 0..TABLE {
        let byte = test_cells::byte(table, area::FROM + i);
        let lower = (i % 16 > 11) & (byte > 0) & (i / 16 < lowest);
        lowest = test_cells::pick(lower, i / 16, lowest);
    }
    lowest
}

// Byte i of those that hold road numbers, four in a record.
fn road_byte(i: usize) -> usize {
    test_cells::place(i / 4, 16, 12 + i % 4)
}

// Is a table with road numbers in these two bytes refused as is due, and the text left?
fn refused(at: usize, other: usize) -> bool {
    let table = spoilt(at, other, 255);
    let due = area::Answer {
        outcome: 27,
        number: numbered(&table),
        bytes: 0,
        nodes: 0,
    };
    let mut text = [area::JUNK; area::AREA];
    let lent = &mut text[area::FROM..area::FROM + area::AMPLE];
    let answer = back::write(area::part(&table, TABLE), 3, lent);
    (answer == due) & area::untouched(&text, 0)
}

fn agreed() -> usize {
    let mut agreed = 0;
    for x in 0..ROAD_BYTES * ROAD_BYTES {
        let right = refused(road_byte(x / ROAD_BYTES), road_byte(x % ROAD_BYTES));
        agreed = test_cells::add(agreed, right as usize);
    }
    agreed
}

fn sizes() {
    sized(b"36 bytes for 36:", TABLE, 3, 36);
    sized(b"35 bytes for 36:", TABLE, 3, 35);
    sized(b"no arcs in 9 bytes:", 0, 1, 9);
    sized(b"nodes 0:", TABLE, 0, area::AMPLE);
    sized(b"nodes 65537:", TABLE, 65537, area::AMPLE);
    sized(b"table of 17 bytes:", 17, 3, area::AMPLE);
}

// A record's start stands in its bytes from 0 on, its end from 4, its length from 8, its road number
// from 12.
fn arcs() {
    changed(b"start not below the nodes:", 32, 3, area::AMPLE);
    changed(b"end not below the nodes:", 20, 3, area::AMPLE);
    changed(b"start is end:", 36, 2, area::AMPLE);
    changed(b"length 0:", 40, 0, area::AMPLE);
}

fn records() {
    changed(b"start nodes falling:", 32, 0, area::AMPLE);
    changed(b"4 before 10:", 40, 0, 0);
}

fn roads() {
    changed(b"byte 12 not zero:", 28, 1, area::AMPLE);
    changed(b"byte 15 not zero:", 31, 1, area::AMPLE);
    twice(b"road numbers in records 2 and 1:", 44, 31, 1, area::AMPLE);
    twice(b"6 before 27 in record 0:", 0, 12, 2, area::AMPLE);
    changed(b"27 before 10:", 28, 1, 0);
    io::write_all(1, b"write, road numbers agreed, of ");
    io::print_decimal(1, (ROAD_BYTES * ROAD_BYTES) as u64);
    io::write_all(1, b": ");
    io::print_decimal(1, agreed() as u64);
    io::write_all(1, b"\n");
}

pub(crate) fn all() {
    sizes();
    arcs();
    records();
    roads();
}
