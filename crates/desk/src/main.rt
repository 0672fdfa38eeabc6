// The desk program: feeds standard input part by part, and writes what is due for it.
#![tactic(auto)]

// More parts than any input has: a loop ends.
const MOST_PARTS: u64 = u64::MAX;

// The first n bytes, to standard output.
fn show(out: &[u8; desk_text::MOST_TEXT], n: usize) {
    let whole = &out[..];
    if n <= whole.len() {
        io::write_all(1, &whole[0..n]);
    }
}

fn main() {
    let mut first = [0u8; desk_feed::FIRST];
    let mut table = [0u8; desk_feed::TABLE];
    let mut part = [0u8; desk_text::parts::PART];
    let mut x = desk_feed::begin();
    for _ in 0..MOST_PARTS {
        let n = io::read_full(0, &mut part);
        if n == 0 {
            break;
        }
        x = desk_text::parts::feed(x, &part, n, &mut first, &mut table);
    }
    let mut out = [0u8; desk_text::MOST_TEXT];
    let m = desk_text::parts::finish(x, &first, &mut table, &mut out);
    show(&out, m);
}
