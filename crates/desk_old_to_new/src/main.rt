// The converter: reads a text of the desk program's old form from standard input, and writes one of
// the new form, or the line of the refusal that it got.
#![tactic(auto)]

// The first n bytes, to standard output.
fn show(out: &[u8; desk_old::MOST_TURNED], n: usize) {
    let whole = &out[..];
    if n <= whole.len() {
        io::write_all(1, &whole[0..n]);
    }
}

fn main() {
    let mut text = [0u8; desk_old::MOST_READ];
    let n = io::read_full(0, &mut text);
    let mut out = [0u8; desk_old::MOST_TURNED];
    let m = desk_old::from_buffer(&text, n, &mut out);
    show(&out, m);
}
