// The lister: reads standard input whole, and writes what the definition gives for it.
#![tactic(auto)]

fn main() {
    let mut text = [0u8; 262144];
    let mut out = [0u8; 4096];
    let n = io::read_full(0, &mut text);
    let m = test_listing::desk(&text[..n], &mut out);
    io::write_all(1, test_cells::between(&out, 0, m));
}
