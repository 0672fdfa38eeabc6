// The areas that the file and the slots lie in, with junk around what is lent.
ghost use Rattle.std.specs.Prelude.{◌≤◌};

pub(crate) const FILE: usize = 1408;

pub(crate) type File = [u8; FILE];

// What of it lies before the part that is lent, the most that is lent, and what every byte around
// holds.
pub(crate) const FROM: usize = 48;

const MOST_BYTES: usize = 1312;

pub(crate) const JUNK: u8 = 85;

pub(crate) const WORDS: usize = 400;

pub(crate) type Words = [u32; WORDS];

pub(crate) const WORDS_FROM: usize = 16;

pub(crate) const MOST_WORDS: usize = 368;

// An arc number, so that a word read from outside what is lent is seen.
pub(crate) const JUNK_WORD: usize = 77;

pub(crate) const NONE: usize = 4294967295;

// An arc number is below it.
pub(crate) const ARCS: usize = 262144;

pub(crate) fn wide(x: u32) -> usize {
    x as usize
}

pub(crate) fn narrow(x: usize) -> u32 {
    (x % 4294967296) as u32
}

pub(crate) fn at(file: &File, i: usize) -> usize {
    test_cells::byte(file, i) as usize
}

pub(crate) fn word(words: &Words, i: usize) -> usize {
    if i < WORDS { wide(words[i]) } else { 0 }
}

// Byte j of the number, of four.
pub(crate) fn byte_of(x: usize, j: usize) -> u8 {
    let low = test_cells::pick(j == 0, x, x / 256);
    let high = test_cells::pick(j == 2, x / 65536, x / 16777216);
    (test_cells::pick(j < 2, low, high) % 256) as u8
}

pub(crate) fn rest(x: usize, n: usize) -> usize {
    if n == 0 { 0 } else { x % n }
}

pub(crate) fn over(x: usize, n: usize) -> usize {
    if n == 0 { 0 } else { x / n }
}

// How much more x is than y, or 0.
pub(crate) fn past(x: usize, y: usize) -> usize {
    if y < x { x - y } else { 0 }
}

// The ends of the parts that are lent.
pub(crate) fn end(bytes: usize) -> usize
    ensures { (48 ≤ result) × (result ≤ 1360) }
{
    if bytes < MOST_BYTES {
        FROM + bytes
    } else {
        FROM + MOST_BYTES
    }
}

pub(crate) fn words_end(words: usize) -> usize
    ensures { (16 ≤ result) × (result ≤ 384) }
{
    if words < MOST_WORDS {
        WORDS_FROM + words
    } else {
        WORDS_FROM + MOST_WORDS
    }
}
