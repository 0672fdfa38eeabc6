// Document 01's figures: of each table its fault; and through the desk program's function, of each
// text the answer, and the answers to a good text that is damaged at each byte in turn.
#![tactic(auto)]

mod damage;
mod tables;
mod text;

// Table T, after a query's line.
fn on_t(name: &[u8], line: &[u8]) {
    let mut t = [0u8; text::MOST];
    let n = text::append(&mut t, 0, line);
    let m = text::append(&mut t, n, b"0 1 2\n0 2 3\n1 2 1\n1 3 2\n2 3 2\n");
    text::show(name, &t, m);
}

// One arc from node 0 to node 1.
fn one_arc(name: &[u8], arc: &[u8]) {
    let mut t = [0u8; text::MOST];
    let n = text::append(&mut t, 0, b"2 1 0 1 1 1 2\n");
    let m = text::append(&mut t, n, arc);
    text::show(name, &t, m);
}

fn whole(name: &[u8], s: &[u8]) {
    let mut t = [0u8; text::MOST];
    let n = text::append(&mut t, 0, s);
    text::show(name, &t, n);
}

fn proved_cases() {
    on_t(b"P1", b"4 5 0 3 1 1 2\n");
    on_t(b"P2", b"4 5 0 3 4 1 2\n");
    on_t(b"P3", b"4 5 0 3 3 0 1\n");
    on_t(b"P4", b"4 5 0 3 2 2 5\n");
    on_t(b"P5", b"4 5 0 3 3 999 1000\n");
    on_t(b"P9", b"4 5 3 0 2 1 2\n");
    on_t(b"P10", b"4 5 2 3 2 0 1\n");
    whole(b"P11", b"2 2 0 1 2 0 1\n0 1 5\n0 1 5\n");
    on_t(b"P12", b"4 5 0 3 1 1 1\n");
}

fn run_only() {
    one_arc(b"length 0", b"0 1 0\n");
    one_arc(b"length 1", b"0 1 1\n");
    one_arc(b"length 1000000", b"0 1 1000000\n");
    one_arc(b"length 1000001", b"0 1 1000001\n");
    on_t(b"k 0", b"4 5 0 3 0 1 2\n");
    on_t(b"k 12", b"4 5 0 3 12 1 2\n");
    on_t(b"k 13", b"4 5 0 3 13 1 2\n");
    whole(b"empty table", b"2 0 0 1 1 1 2\n");
    one_arc(b"2 and 3 in one record", b"2 2 1\n");
    one_arc(b"3 and 4 in one record", b"1 1 0\n");
}

fn lines() {
    whole(b"nothing", b"");
    whole(b"nodes 0", b"0 0 0 1 1 1 2\n");
    whole(b"nodes 1024", b"1024 0 0 1 1 1 2\n");
    whole(b"nodes 1025", b"1025 0 0 1 1 1 2\n");
    whole(b"arcs 4096", b"2 4096 0 1 1 1 2\n");
    whole(b"arcs 4097", b"2 4097 0 1 1 1 2\n");
    whole(b"number 4294967295", b"2 0 4294967295 1 1 1 2\n");
    whole(b"number 4294967296", b"2 0 4294967296 1 1 1 2\n");
    whole(b"text after the last line", b"2 0 0 1 1 1 2\n\n");
    whole(b"missing line", b"2 1 0 1 1 1 2\n");
    whole(b"12 before 7", b"2 1 1 1 1 1 2\n0 1\n");
}

fn main() {
    tables::all();
    proved_cases();
    run_only();
    lines();
    damage::all(b"4 5 0 3 4 1 2\n0 1 2\n0 2 3\n1 2 1\n1 3 2\n2 3 2\n");
}
