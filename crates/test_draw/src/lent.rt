// What is lent to a call, from buffers that lie in junk.
ghost use Rattle.std.specs.Prelude.{◌≡◌, ◌≤◌, ◌<◌, ◌-◌, ℕ, length, get_or, min};
ghost use Rattle.test_cells.specs.Bounded.{sum, product, part};
ghost use Rattle.test_draw.specs.Written.{written};
ghost use Rattle.test_draw.specs.Held.{byte_at, table_byte, closure_byte};

use crate::cells;

// What of a buffer of bytes or words lies before the part that is lent, and what every byte and word
// around what is lent holds: no arc number, and no closure byte.
pub const BYTES_FROM: usize = 48;

pub const WORDS_FROM: usize = 8;

pub const JUNK: u8 = 85;

pub const JUNK_WORD: u32 = 77;

// The working room, and what a program's list and area stand in.
pub const WORK: usize = 512;

const TABLE: usize = 256;

const RECORD: usize = 16;

const MOST_RECORDS: usize = TABLE / RECORD;

const CLOSED: usize = 32;

const CLOSED_FROM: usize = 8;

// The order of a table's records that is that of the arcs.
pub const BY_NUMBER: [usize; MOST_RECORDS] = [0, 1, 2, 3, 4, 5, 6, 7, 8, 9, 10, 11, 12, 13, 14, 15];

// What is asked, but for road numbers, is far below the limit.
pub fn number(case: &[usize], i: usize) -> u32
    ensures { result ≡ min (get_or case.now i 0) 4294967295 }
{
    let x = test_cells::get(case, i);
    if x < 4294967296 { x as u32 } else { 4294967295 }
}

// Byte j of the number, of four.
pub fn byte_of(x: usize, j: usize) -> u8
    ensures { result ≡ byte_at x j }
{
    let low = test_cells::pick(j == 0, x, x / 256);
    let high = test_cells::pick(j == 2, x / 65536, x / 16777216);
    (test_cells::pick(j < 2, low, high) % 256) as u8
}

// The table in that order: four numbers of each arc.
pub fn table(case: &[usize], order: &[usize]) -> [u8; TABLE]
    ensures { (i : ℕ) → i < 256 → get_or result i 0 ≡ table_byte case.now order.now i }
{
    let mut table = [0u8; TABLE];
    for (i, byte) in table.iter_mut().enumerate() {
        let arc = test_cells::get(order, i / RECORD);
        *byte = byte_of(cells::of_arc(case, arc, i / 4 % 4), i % 4);
    }
    table
}

// Closure byte i, or junk past those that are lent.
fn closure(case: &[usize], i: usize) -> u8
    ensures { result ≡ closure_byte case.now i }
{
    if i < test_cells::get(case, cells::CLOSURE_BYTES) {
        byte_of(cells::of_arc(case, i, cells::CLOSED), 0)
    } else {
        JUNK
    }
}

pub fn closures(case: &[usize]) -> [u8; CLOSED]
    ensures before { (i : ℕ) → i < 8 → get_or result i 0 ≡ 85 }
    ensures lent { (i : ℕ) → 8 ≤ i → i < 32 → get_or result i 0 ≡ closure_byte case.now (i - 8) }
{
    let mut closed = [JUNK; CLOSED];
    for i in CLOSED_FROM..CLOSED {
        closed[i] = closure(case, i - CLOSED_FROM);
    }
    closed
}

// So many records of a table, and some bytes past them.
pub fn records(table: &[u8], records: usize, odd: usize) -> &[u8]
    ensures { result.now ≡ part table.now 0 (sum (product records 16) odd) }
{
    test_cells::between(table, 0, test_cells::place(records, RECORD, odd))
}

// The part of the table, and of the closure bytes, that is lent.
pub fn of_table<'a>(case: &[usize], table: &'a [u8]) -> &'a [u8]
    ensures { result.now
        ≡ part table.now 0 (sum (product (get_or case.now 1 0) 16) (get_or case.now 10 0)) }
{
    let odd = test_cells::get(case, cells::ODD_BYTES);
    records(table, test_cells::get(case, cells::ARC_COUNT), odd)
}

pub fn of_closures<'a>(case: &[usize], closed: &'a [u8]) -> &'a [u8]
    ensures { result.now ≡ part closed.now 8 (sum 8 (get_or case.now 12 0)) }
{
    let end = test_cells::add(CLOSED_FROM, test_cells::get(case, cells::CLOSURE_BYTES));
    test_cells::between(closed, CLOSED_FROM, end)
}

// The part of `count` from `from` on, or what there is of it.
pub fn part<T>(buffer: &mut [T], from: usize, count: usize) -> &mut [T]
    ensures { length result.now ≡ min count (length buffer.old - from) }
{
    let most = buffer.len();
    let start = from.min(most);
    let end = start + count.min(most - start);
    &mut buffer[start..end]
}

// How many bytes before the first that is not as it should be: 0 in the `count` from where the lent
// part begins, and junk elsewhere.
pub fn right(bytes: &[u8], count: usize) -> usize
    ensures { result ≤ length bytes.now }
{
    for (i, &byte) in bytes.iter().enumerate() {
        let lent = i >= BYTES_FROM && i - BYTES_FROM < count;
        if byte != (if lent { 0 } else { JUNK }) {
            return i;
        }
    }
    bytes.len()
}

// The whole area in an answer, from that cell on.
pub fn put_area(answer: &mut [usize], at: usize, area: &[u32])
    ensures { answer.new
        ≡ written (λ i. sum at i) (λ i. get_or area.now i 0) (length area.now) answer.old }
{
    for (i, &word) in area.iter().enumerate() {
        test_cells::put(answer, test_cells::add(at, i), word as usize);
    }
}

// So many words of junk.
pub fn put_junk(due: &mut [usize], at: usize, words: usize)
    ensures { due.new ≡ written (λ i. sum at i) (λ i. 77) words due.old }
{
    for i in 0..words {
        test_cells::put(due, test_cells::add(at, i), JUNK_WORD as usize);
    }
}

// The area as it is due, from that cell on: so many words from where the lent part begins, and junk
// around them.
pub fn put_due<F: Fn(usize) -> usize>(
    due: &mut [usize],
    at: usize,
    area: usize,
    words: usize,
    word: F,
)
    requires { F.IsAlwaysCallable word }
    ensures { (value : ℕ → ℕ)
        × ((i : ℕ) → i < min words (area - 8) → F.post word i (value i))
        × (due.new ≡ written (λ i. sum (sum at 8) i) value (min words (area - 8))
        (written (λ i. sum at i) (λ i. 77) area due.old)) }
{
    put_junk(due, at, area);
    let first = test_cells::add(at, WORDS_FROM);
    for i in 0..words.min(area.saturating_sub(WORDS_FROM)) {
        test_cells::put(due, test_cells::add(first, i), word(i));
    }
}
