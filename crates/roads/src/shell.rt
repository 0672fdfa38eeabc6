// What the programs take of their input, what they write to standard output, and what they say on
// standard error.
use outcome::{Outcome, Refusal, Told};

// The n bytes that were read, where the buffer is longer; else more may be to come.
pub(crate) fn taken(buffer: &[u8], n: usize) -> Result<&[u8], Refusal> {
    if n < buffer.len() {
        Ok(&buffer[..n])
    } else {
        Err(Refusal::plain(Outcome::Buffers))
    }
}

// The first n bytes, to standard output.
pub(crate) fn show(bytes: &[u8], n: usize) {
    if n <= bytes.len() {
        io::write_all(1, &bytes[0..n]);
    }
}

fn number(v: u32) {
    io::write_all(2, b" ");
    io::print_decimal(2, v as u64);
}

pub(crate) fn nodes(v: u32) {
    io::write_all(2, b"nodes");
    number(v);
    io::write_all(2, b"\n");
}

// An outcome, and the number beside it.
pub(crate) fn refuse(refusal: Refusal) {
    let told = Told::from(refusal);
    io::write_all(2, b"refused");
    number(told.outcome);
    number(told.number);
    io::write_all(2, b"\n");
}

pub(crate) fn usage() {
    io::write_all(2, b"usage: table-to-roads NODES < TABLE\n");
}
