// Document 01's figures for the road table: of each table the outcome and the number beside it, and
// of table T the parts that hold the arcs of each node.
use outcome::{Outcome, Told};

// The table's outcome, and the number beside it.
fn outcome(name: &[u8], t: &[u8], nodes: u32) {
    let told = match table::fault::check(t, nodes) {
        Ok(()) => Outcome::Found.plain(),
        Err(refusal) => Told::from(refusal),
    };
    io::write_all(1, name);
    io::write_all(1, b": ");
    io::print_decimal(1, told.outcome as u64);
    io::write_all(1, b" ");
    io::print_decimal(1, told.number as u64);
    io::write_all(1, b"\n");
}

// The number of bytes that hold the arcs of node v, and the end node of the first of them.
fn part(name: &[u8], t: &[u8], nodes: u32, v: u32) {
    let p = table::run::arcs_from(t, nodes, v);
    io::write_all(1, name);
    io::write_all(1, b": ");
    io::print_decimal(1, p.len() as u64);
    if table::arc::RECORD <= p.len() {
        io::write_all(1, b" ");
        io::print_decimal(1, table::arc::to_of(p, 0) as u64);
    }
    io::write_all(1, b"\n");
}

// Every record of the table: an arc from node 0 to node 1.
fn put_arcs(t: &mut [u8]) {
    for i in 0..t.len() / table::arc::RECORD {
        table::arc::put(t, i, 0, 1, 1);
    }
}

// "Nodes go to 65,536"
fn nodes() {
    let mut t = [0u8; 16];
    table::arc::put(&mut t, 0, 0, 1, 1);
    outcome(b"nodes 0", &t, 0);
    outcome(b"nodes 2", &t, 2);
    outcome(b"nodes 65536", &t, 65536);
    outcome(b"nodes 65537", &t, 65537);
    outcome(b"empty table", &t[..0], 1);
}

// "arc length: 1 to 1,000,000"
fn length(name: &[u8], len: u32) {
    let mut t = [0u8; 16];
    table::arc::put(&mut t, 0, 0, 1, len);
    outcome(name, &t, 2);
}

fn lengths() {
    length(b"length 0", 0);
    length(b"length 1", 1);
    length(b"length 1000000", 1000000);
    length(b"length 1000001", 1000001);
}

// "table bytes not a multiple of 16"
fn bytes() {
    let t = [0u8; 17];
    outcome(b"bytes 1", &t[..1], 4);
    outcome(b"bytes 15", &t[..15], 4);
    outcome(b"bytes 17", &t, 4);
}

// "arcs to 262,144": as many as an array of a program has room for. tests/calls.c has the most, and
// one more.
fn many_records() {
    let mut t = [0u8; 524288];
    put_arcs(&mut t);
    outcome(b"records 32768", &t, 2);
}

// An arc that is good but for byte `at`.
fn byte(name: &[u8], at: usize, v: u8) {
    let mut t = [0u8; 16];
    table::arc::put(&mut t, 0, 0, 1, 1000000);
    test_cells::put(&mut t, at, v);
    outcome(name, &t, 4);
}

// Each field at its first byte and its last.
fn fields() {
    byte(b"start node, first byte", 0, 4);
    byte(b"start node, last byte", 3, 1);
    byte(b"end node, first byte", 4, 4);
    byte(b"end node, last byte", 7, 1);
    byte(b"length, first byte", 8, 65);
    byte(b"length, last byte", 11, 1);
    byte(b"road number, first byte", 12, 1);
    byte(b"road number, last byte", 15, 128);
}

// A good record and then one with faults, and with a road number below 256.
fn both(name: &[u8], from: u32, to: u32, len: u32, road: u8) {
    let mut t = [0u8; 32];
    table::arc::put(&mut t, 0, 1, 2, 1);
    table::arc::put(&mut t, 1, from, to, len);
    test_cells::put(&mut t, 28, road);
    outcome(name, &t, 4);
}

fn two_faults() {
    both(b"2 and 3 in one record", 4, 4, 1, 0);
    both(b"3 and 4 in one record", 1, 1, 0, 0);
    both(b"4 and 6 in a record with a road number", 0, 2, 0, 1);
    both(b"6 in a record with a road number", 0, 2, 1, 1);
    both(b"2 and 6 in one record", 0, 4, 1, 0);
}

// A good record with a road number below 256, and then another.
fn two(name: &[u8], road: u8, from: u32, to: u32) {
    let mut t = [0u8; 32];
    table::arc::put(&mut t, 0, 1, 2, 1);
    test_cells::put(&mut t, 12, road);
    table::arc::put(&mut t, 1, from, to, 1);
    outcome(name, &t, 4);
}

fn orders() {
    two(b"a road number in record 0, 2 in record 1", 1, 1, 4);
    two(b"2 in record 1", 0, 1, 4);
    two(b"3 in record 1", 0, 1, 1);
    two(b"equal start nodes", 0, 1, 3);
    two(b"falling start nodes", 0, 0, 3);
}

// The parts that hold the arcs of each node; none for node 4, and none where the table has a fault:
// 2 with 3 nodes, 13 with 65,537.
fn parts(t: &[u8]) {
    part(b"part of node 0", t, 4, 0);
    part(b"part of node 1", t, 4, 1);
    part(b"part of node 2", t, 4, 2);
    part(b"part of node 3", t, 4, 3);
    part(b"part of node 4", t, 4, 4);
    part(b"part of node 0 of 3", t, 3, 0);
    part(b"part of node 0 of 65537", t, 65537, 0);
}

// "Table T"
fn table_t() {
    let mut t = [0u8; 80];
    table::arc::put(&mut t, 0, 0, 1, 2);
    table::arc::put(&mut t, 1, 0, 2, 3);
    table::arc::put(&mut t, 2, 1, 2, 1);
    table::arc::put(&mut t, 3, 1, 3, 2);
    table::arc::put(&mut t, 4, 2, 3, 2);
    outcome(b"table T", &t, 4);
    parts(&t);
}

pub(crate) fn all() {
    nodes();
    lengths();
    bytes();
    many_records();
    fields();
    two_faults();
    orders();
    table_t();
}
