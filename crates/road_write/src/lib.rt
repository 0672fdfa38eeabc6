// The road file of a table, written into a lent buffer.
#![tactic(auto)]

ghost use Rattle.std.specs.Prelude.{◌≡◌, ◌+◌, ◌≤◌, ◌<◌, length, MatchOption};
ghost use Rattle.net.specs.Limits.{most_arcs};
ghost use Rattle.text_put.specs.Put.{Appended};
ghost use Rattle.table.specs.Table.{records, arc_at, arcs_of};
ghost use Rattle.road_made.specs.Made.{answer_of};
ghost use Rattle.road_write.specs.Text.{sizes_text, line_text, arc_text, ended, lines_text};
ghost use Rattle.road_write.specs.Written.{text_of, first_road, Written};

use outcome::{Outcome, Refusal};
use road_made::Made;

// How many bytes the first line takes.
fn sizes_bytes(nodes: u32, arcs: usize) -> usize
    ensures { result ≡ length (ended (sizes_text nodes arcs)) }
{
    numerals::digit_count(nodes as u64) + numerals::digit_count(arcs as u64) + 7
}

// How many bytes the line of arc i takes.
fn arc_bytes(table: &[u8], i: usize) -> usize
    requires { i < records table.now }
    ensures { result ≡ length (ended (arc_text (arc_at table.now i))) }
{
    let from = numerals::digit_count(table::arc::from_of(table, i) as u64 + 1);
    let to = numerals::digit_count(table::arc::to_of(table, i) as u64 + 1);
    let len = numerals::digit_count(table::arc::length_of(table, i) as u64);
    from + to + len + 5
}

// How many bytes the text takes.
fn needed(table: &[u8], nodes: u32) -> usize
    requires { records table.now ≤ most_arcs }
    ensures { result ≡ length (text_of nodes table.now) }
{
    let n = table.len() / table::arc::RECORD;
    let mut bytes = sizes_bytes(nodes, n);
    for i in 0..n {
        bytes += arc_bytes(table, i);
    }
    bytes
}

// The first line.
fn sizes(out: &mut [u8], at: usize, nodes: u32, arcs: usize) -> usize
    requires { at + length (ended (sizes_text nodes arcs)) ≤ length out.old }
    ensures { Appended out.old at (ended (sizes_text nodes arcs))
        out.new result }
{
    let first = text_put::bytes(out, at, b"p sp ");
    let second = numerals::put(out, first, nodes as u64);
    let last = text_put::spaced(out, second, arcs as u64);
    out[last] = b'\n';
    last + 1
}

// A line of tail, head and length.
fn line(out: &mut [u8], at: usize, tail: u64, head: u64, len: u64) -> usize
    requires { at + length (ended (line_text tail head len)) ≤ length out.old }
    ensures { Appended out.old at (ended (line_text tail head len))
        out.new result }
{
    let first = text_put::bytes(out, at, b"a ");
    let second = numerals::put(out, first, tail);
    let third = text_put::spaced(out, second, head);
    let last = text_put::spaced(out, third, len);
    out[last] = b'\n';
    last + 1
}

// The line of arc i, with nodes counted from 1.
fn arc_line(out: &mut [u8], at: usize, table: &[u8], i: usize) -> usize
    requires { (i < records table.now)
        × (at + length (ended (arc_text (arc_at table.now i))) ≤ length out.old) }
    ensures { Appended out.old at
        (ended (arc_text (arc_at table.now i))) out.new result }
{
    let tail = table::arc::from_of(table, i) as u64 + 1;
    let head = table::arc::to_of(table, i) as u64 + 1;
    let len = table::arc::length_of(table, i) as u64;
    line(out, at, tail, head, len)
}

// The lines of all arcs, in their order.
fn lines(out: &mut [u8], at: usize, table: &[u8]) -> usize
    requires { at + length (lines_text (arcs_of table.now)) ≤ length out.old }
    ensures { Appended out.old at (lines_text (arcs_of table.now))
        out.new result }
{
    let mut next = at;
    for i in 0..table.len() / table::arc::RECORD {
        next = arc_line(out, next, table, i);
    }
    next
}

// The text at place `at`, where there is room for it; the place after it.
pub fn put(table: &[u8], nodes: u32, text: &mut [u8], at: usize) -> usize
    requires { at + length (text_of nodes table.now) ≤ length text.old }
    ensures { Appended text.old at (text_of nodes table.now)
        text.new result }
{
    let first = sizes(text, at, nodes, table.len() / table::arc::RECORD);
    lines(text, first, table)
}

// The lowest record with a road number, which no road file carries.
fn first_road(table: &[u8]) -> Option<usize>
    ensures { MatchOption result (first_road table.now ≡ records table.now)
        (λ i. (i < records table.now) × (i ≡ first_road table.now)) }
{
    for i in 0..table.len() / table::arc::RECORD {
        if table::arc::road_of(table, i) != 0 {
            return Some(i);
        }
    }
    None
}

// The road file of a table of so many nodes, at the front of `text`. A faulty table is refused as
// everywhere, then one with a road number, with 27 and the lowest such record, then a buffer
// shorter than the file, with 10; a refusal changes nothing.
pub fn write(table: &[u8], nodes: u32, text: &mut [u8]) -> Result<Made, Refusal>
    ensures { Written nodes table.now text.old
        (answer_of result) text.new }
{
    table::fault::check(table, nodes)?;
    if let Some(road) = first_road(table) {
        return Err(Refusal {
            outcome: Outcome::Numbered,
            number: road as u32,
        });
    }
    if text.len() < needed(table, nodes) {
        return Err(Refusal::plain(Outcome::Buffers));
    }
    Ok(Made {
        bytes: put(table, nodes, text, 0),
        nodes: 0,
    })
}
