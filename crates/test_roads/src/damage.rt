// A good text, damaged at each byte in turn.
use crate::both;

const MOST: usize = 64;

// How a byte is damaged: up to DELETED, a byte of each kind stands in its place.
pub(crate) const DAMAGES: usize = 11;

const DELETED: usize = 9;

const DOUBLED: usize = 10;

// Byte p of the text that is damaged at byte i.
fn byte(text: &[u8], i: usize, damage: usize, p: usize) -> u8 {
    if (p == i) & (damage < DELETED) {
        return test_cells::byte(b" \n019ac\x00\xff", damage);
    }
    let after = test_cells::pick(damage == DELETED, test_cells::add(p, 1), p);
    let doubled = (damage == DOUBLED) & (p > i);
    let from = test_cells::pick(doubled, test_cells::less_one(p), after);
    test_cells::byte(text, test_cells::pick(p < i, p, from))
}

fn damaged(text: &[u8], i: usize, damage: usize) -> [u8; MOST] {
    let mut bytes = [0u8; MOST];
    for p in 0..MOST {
        bytes[p] = byte(text, i, damage, p);
    }
    bytes
}

fn held(text: &[u8], first: bool) -> bool {
    let same = both::agree(text);
    if first & !same {
        io::write_all(1, b"differs: ");
        io::write_all(1, text);
    }
    same
}

fn agrees(text: &[u8], i: usize, damage: usize, first: bool) -> bool {
    let bytes = damaged(text, i, damage);
    let fewer = test_cells::less_one(text.len());
    let length = test_cells::pick(damage == DELETED, fewer, text.len());
    let n = test_cells::add(length, (damage == DOUBLED) as usize);
    held(test_cells::between(&bytes, 0, n), first)
}

// How many of the damaged texts are answered alike.
pub(crate) fn agreed(text: &[u8]) -> usize {
    let texts = test_cells::mul(text.len(), DAMAGES);
    let mut agreed = 0;
    for x in 0..texts {
        let same = agrees(text, x / DAMAGES, x % DAMAGES, agreed == x);
        agreed = test_cells::add(agreed, same as usize);
    }
    agreed
}
