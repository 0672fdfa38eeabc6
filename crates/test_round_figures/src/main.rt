// Document 01's figures P2, P5 and P7, round by round: each label before the labels are cleared, by
// its last arc, the label it extends, and its overlaps with the earlier answers.
#![tactic(auto)]

mod run;
mod show;

use search_ask::Ask;

// A case on table T.
fn on_t(name: &[u8], k: u32, a: u32, b: u32, labels: &mut [u8]) {
    let mut t = [0u8; 80];
    table::arc::put(&mut t, 0, 0, 1, 2);
    table::arc::put(&mut t, 1, 0, 2, 3);
    table::arc::put(&mut t, 2, 1, 2, 1);
    table::arc::put(&mut t, 3, 1, 3, 2);
    table::arc::put(&mut t, 4, 2, 3, 2);
    let mut area = [0u32; 12];
    let ask = Ask {
        nodes: 4,
        s: 0,
        goal: 3,
        a,
        b,
    };
    run::run(name, &t, ask, k, labels, &mut area);
}

// "ample room"
fn ample(name: &[u8], k: u32, a: u32, b: u32) {
    let mut labels = [0u8; 64 * labels::field::LABEL];
    on_t(name, k, a, b, &mut labels);
}

// "room 4"
fn four() {
    let mut labels = [0u8; 4 * labels::field::LABEL];
    on_t(b"P7", 2, 1, 2, &mut labels);
}

fn main() {
    ample(b"P2", 4, 1, 2);
    ample(b"P5", 3, 999, 1000);
    four();
}
