// The area that a table or a text is made in, which lies in junk; and what a call answers.

pub(crate) const AREA: usize = 512;

pub(crate) type Area = [u8; AREA];

// What of the area lies before the part that is lent, and what every byte of it holds.
pub(crate) const FROM: usize = 64;

pub(crate) const JUNK: u8 = 85;

// The most that is lent: more than any table or text of a case takes, with junk after it.
pub(crate) const AMPLE: usize = 400;

// The outcome, the number beside it, the bytes that were made and a table's nodes.
#[derive(Clone, Copy, PartialEq, Eq)]
pub(crate) struct Answer {
    pub outcome: usize,
    pub number: usize,
    pub bytes: usize,
    pub nodes: usize,
}

pub(crate) fn put(area: &mut Area, i: usize, byte: u8) {
    if i < AREA {
        area[i] = byte;
    }
}

// The first bytes of the part that is lent.
pub(crate) fn part(area: &Area, bytes: usize) -> &[u8] {
    test_cells::between(area, FROM, test_cells::add(FROM, bytes))
}

// Is all junk but the first bytes of the part that is lent?
pub(crate) fn untouched(area: &Area, bytes: usize) -> bool {
    let end = test_cells::add(FROM, bytes);
    (0..AREA).all(|i| area[i] == JUNK || (FROM <= i && i < end))
}
