// A line for each label of a round.

fn number(text: &[u8], n: u64) {
    io::write_all(1, text);
    io::print_decimal(1, n);
}

fn arc(a: u32) {
    if a == labels::field::NONE {
        io::write_all(1, b" arc -");
    } else {
        number(b" arc ", a as u64);
    }
}

// The overlaps of label i with r earlier answers.
fn overlaps(labels: &[u8], i: usize, r: usize) {
    for j in 0..r {
        if i < labels.len() / labels::field::LABEL && j < labels::field::MOST_EARLIER {
            number(b" ", labels::field::overlap(labels, i, j));
        }
    }
}

// Label i of the round after r answers.
fn label(name: &[u8], r: usize, labels: &[u8], i: usize) {
    if i < labels.len() / labels::field::LABEL {
        io::write_all(1, name);
        number(b" round ", test_cells::add(r, 1) as u64);
        number(b" label ", i as u64);
        arc(labels::field::last_arc(labels, i));
        number(b" extends ", labels::field::extends(labels, i) as u64);
        io::write_all(1, b" overlaps");
        overlaps(labels, i, r);
        io::write_all(1, b"\n");
    }
}

// All labels of the round after r answers, as it left them.
pub(crate) fn round(name: &[u8], r: usize, counts: &[u16], labels: &[u8]) {
    if r < counts.len() {
        for i in 0..counts[r] as usize {
            label(name, r, labels, i);
        }
    }
}
