// A good text, damaged at each byte in turn.
use crate::text;

// The text with s in place of its bytes i up to e, which is damage to byte i.
fn splice(name: &[u8], t: &[u8], i: usize, e: usize, s: &[u8]) {
    if i <= e && e <= t.len() {
        let mut d = [0u8; text::MOST];
        let n = text::append(&mut d, 0, &t[0..i]);
        let m = text::append(&mut d, n, s);
        let l = text::append(&mut d, m, &t[e..]);
        io::write_all(1, name);
        io::print_decimal(1, i as u64);
        text::show(b"", &d, l);
    }
}

// Byte i deleted, doubled, and replaced by bytes of each kind.
fn at(t: &[u8], i: usize) {
    if i < t.len() {
        let e = i + 1;
        splice(b"deleted ", t, i, e, b"");
        splice(b"doubled ", t, i, i, &t[i..e]);
        splice(b"space ", t, i, e, b" ");
        splice(b"newline ", t, i, e, b"\n");
        splice(b"zero ", t, i, e, b"0");
        splice(b"nine ", t, i, e, b"9");
        splice(b"letter ", t, i, e, b"a");
    }
}

pub(crate) fn all(t: &[u8]) {
    for i in 0..t.len() {
        at(t, i);
    }
}
