// A text that is told otherwise, in full.

pub(crate) fn text(text: &[u8], due: &[u8], found: &[u8]) {
    io::write_all(1, b"difference: the text, what is due, what is found\n");
    io::write_all(1, text);
    io::write_all(1, due);
    io::write_all(1, found);
}
