// The desk program's input, fed byte by byte: its first bytes are kept, since the query line is
// among them, and of the road file only what its reader keeps, and the arcs as records in file
// order. So the input may be of any length, and come in parts.
#![tactic(auto)]

ghost use Rattle.std.specs.Prelude.{◌≡◌, ◌&&◌, ◌*◌, ◌≤◌, length};
ghost use Rattle.outcome.specs.Outcome.{told_by};
ghost use Rattle.road_sort.specs.Sorted.{Placed, sorted_table};
ghost use Rattle.road_fill.specs.Filled.{cleared};
ghost use Rattle.desk_feed.specs.Taken.{table_bytes, begun_with, kept_by, kept_to, sized_by};
ghost use Rattle.desk_feed.specs.Taken.{stored_by, road_taken, road_stored, taken_by, table_by};
ghost use Rattle.desk_feed.specs.Taken.{state, state_from, above_by, sized_first, judged_by};

use outcome::{Outcome, Refusal};
use road_file::Reader;

const NEWLINE: u8 = b'\n';

// How many of the first bytes are kept: a line of seven numbers has at most 77.
pub const FIRST: usize = 80;

// A table of as many arcs as are taken.
pub const TABLE: usize = 65536;

// How many of the first bytes stand; whether the first line has ended; the road file's reader; the
// number of its `p` line, or 0.
#[derive(Clone, Copy)]
pub struct Taken {
    pub first: usize,
    pub started: bool,
    pub reader: Reader,
    pub sized: u32,
}

// Before the first byte. To the reader the query line is a comment, so that it counts all lines.
pub fn begin() -> Taken
    ensures { result ≡ begun_with }
{
    Taken {
        first: 0,
        started: false,
        reader: road_file::feed(road_file::begin(), b'c'),
        sized: 0,
    }
}

// A byte is kept where there is room for it.
#[tactic(auto, using(crate::proofs::Tests::tests), unfolding(crate::specs::Taken::kept_by, crate::specs::Taken::kept_to))]
fn keep(first: &mut [u8], n: usize, byte: u8) -> usize
    ensures { (first.new ≡ kept_by first.old n byte)
        × (result ≡ kept_to first.old n) }
{
    if n < first.len() {
        first[n] = byte;
        return n + 1;
    }
    n
}

// The number of the `p` line, if that has come now.
#[tactic(auto, using(crate::proofs::Tests::tests), unfolding(crate::specs::Taken::sized_by))]
fn sized_next(sized: u32, begun: bool, r: Reader) -> u32
    ensures { result ≡ sized_by sized begun r }
{
    if !begun && r.begun { r.lines } else { sized }
}

// The reader's last arc at its place, where one has come and there is room for it.
#[tactic(auto, using(crate::proofs::Tests::tests), unfolding(crate::specs::Taken::stored_by))]
fn store(table: &mut [u8], before: u32, r: Reader)
    requires { table_bytes ≤ length table.old }
    ensures { table.new ≡ stored_by table.old before r }
{
    if r.count != before && before < desk_line::MOST_ARCS {
        road_fill::fill::place(table, before, r.from, r.to, r.len);
    }
}

// A byte of the road file.
fn road_byte(x: Taken, first: usize, byte: u8, table: &mut [u8]) -> Taken
    requires { table_bytes ≤ length table.old }
    ensures { (result ≡ road_taken x first byte)
        × (table.new ≡ road_stored table.old x byte) }
{
    let reader = road_file::feed(x.reader, byte);
    store(table, x.reader.count, reader);
    Taken {
        first,
        started: true,
        reader,
        sized: sized_next(x.sized, x.reader.begun, reader),
    }
}

// A byte of the input: of the first line only its newline goes to the reader.
fn take(x: Taken, byte: u8, first: &mut [u8], table: &mut [u8]) -> Taken
    requires { table_bytes ≤ length table.old }
    ensures { (result ≡ taken_by x (kept_to first.old x.first) byte)
        × (first.new ≡ kept_by first.old x.first byte)
        × (table.new ≡ table_by table.old x byte) }
{
    let n = keep(first, x.first, byte);
    if x.started || byte == NEWLINE {
        return road_byte(x, n, byte, table);
    }
    Taken {
        first: n,
        started: false,
        reader: x.reader,
        sized: x.sized,
    }
}

// A part of the input, behind what was fed before. Inlined, since where it is called a byte of a
// comment takes three tenths more instructions.
#[inline(always)]
pub fn feed(x: Taken, part: &[u8], first: &mut [u8], table: &mut [u8]) -> Taken
    requires { table_bytes ≤ length table.old }
    ensures { state result first.new table.new
        ≡ state_from (state x first.old table.old) part.now }
{
    let mut y = x;
    for &byte in part {
        y = take(y, byte, first, table);
    }
    y
}

// Whether the `p` line is above the limits.
#[tactic(auto, using(crate::proofs::Tests::tests), unfolding(crate::specs::Taken::above_by))]
fn above(r: Reader) -> bool
    ensures { result ≡ above_by r }
{
    desk_line::MOST_NODES < r.nodes || desk_line::MOST_ARCS < r.wanted
}

// Whether it comes before the first wrong line, 0 for none.
#[tactic(auto, using(crate::proofs::Tests::tests), unfolding(crate::specs::Taken::sized_first))]
fn sized_first(sized: u32, wrong: u32) -> bool
    ensures { result ≡ sized_first sized wrong }
{
    wrong == 0 || sized < wrong
}

// Whether it is above the limits, and comes before the first wrong line.
fn too_large(r: Reader, sized: u32, wrong: u32) -> bool
    ensures { result ≡ (above_by r && sized_first sized wrong) }
{
    above(r) && sized_first(sized, wrong)
}

// 12 or 14 of a road file that ends here, with the line, where one is due: the lower line decides.
pub fn judge(r: Reader, sized: u32) -> Result<(), Refusal>
    ensures { told_by result ≡ judged_by r sized }
{
    let wrong = road_file::wrong_line(r);
    if too_large(r, sized, wrong) {
        return Err(Refusal {
            outcome: Outcome::Text,
            number: sized,
        });
    }
    if wrong == 0 {
        return Ok(());
    }
    Err(Refusal {
        outcome: Outcome::File,
        number: wrong,
    })
}

// The n arcs that were stored, in order.
pub fn order(table: &mut [u8], n: usize)
    requires { Placed table.old n }
    ensures { table.new ≡ cleared n (sorted_table n table.old) }
{
    road_sort::sort(table, n);
    road_fill::clear::clear(table, n);
}
