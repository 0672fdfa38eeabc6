// A good text, damaged at each byte in turn: the desk program's function against the lister's.
use crate::report;
use test_draw::damage;

// The bytes that stand in the place of a damaged one.
pub(crate) const KINDS: &[u8] = b" \n019a";

// The desk program's function. What it writes is told by no contract here.
fn desk(text: &[u8], out: &mut [u8]) -> usize {
    desk_text::desk(text, out)
}

fn finds(text: &[u8], due: &[u8], first: bool) -> bool {
    let mut out = [0u8; desk_text::MOST_TEXT];
    let n = desk(text, &mut out);
    let found = test_cells::between(&out, 0, n);
    if first && found != due {
        report::text(text, due, found);
    }
    found == due
}

fn agrees(text: &[u8], first: bool) -> bool {
    let mut out = [0u8; 4096];
    let n = test_listing::desk(text, &mut out);
    finds(text, test_cells::between(&out, 0, n), first)
}

// How many of the damaged texts agree.
pub(crate) fn all(text: &[u8]) -> usize {
    damage::agreed(text, KINDS, agrees)
}
