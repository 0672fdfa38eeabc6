// Texts of the old form put together, and the answers to them: through the converter, and the desk
// program for what it gives.

pub(crate) const MOST: usize = 64;

// The bytes of s at place `at`, and the place after them; nothing where they do not fit.
pub(crate) fn append(t: &mut [u8], at: usize, s: &[u8]) -> usize {
    if t.len() < at {
        return at;
    }
    if t.len() - at < s.len() {
        return at;
    }
    text_put::bytes(t, at, s)
}

// What the desk program prints for a text of the new form.
fn print(t: &[u8]) {
    let mut out = [0u8; desk_text::MOST_TEXT];
    let m = desk_text::desk(t, &mut out);
    io::write_all(1, test_cells::between(&out, 0, m));
}

// What the converter gives: a line of a refusal as it is, and a text through the desk program.
fn given(t: &[u8]) {
    if test_cells::byte(t, 0) == b'r' {
        io::write_all(1, t);
    } else {
        print(t);
    }
}

// What is printed for the first n bytes.
fn answer(t: &[u8], n: usize) {
    if n <= t.len() {
        let mut new = [0u8; desk_old::MOST_TURNED];
        let m = desk_old::turn(&t[0..n], &mut new);
        given(test_cells::between(&new, 0, m));
    }
}

// A name, and the answer to the first n bytes.
pub(crate) fn show(name: &[u8], t: &[u8], n: usize) {
    io::write_all(1, name);
    io::write_all(1, b": ");
    answer(t, n);
}
