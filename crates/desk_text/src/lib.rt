// The desk program's work, from text to text.
#![tactic(auto)]

pub mod parts;
pub mod print;

ghost use Rattle.std.specs.Prelude.{◌≤◌, length};
ghost use Rattle.desk_line.specs.Limits.{most_nodes_read};
ghost use Rattle.text_put.specs.Put.{Appended};
ghost use Rattle.desk_text.specs.Desk.{desk_words, read_query, reply_text, desk_text};
ghost use Rattle.desk_text.specs.Finished.{Kept, RoadKept, Finished, RoadFinished};
ghost use Rattle.desk_text.specs.Shown.{KnownEnd, Known, ShownEnd, Shown};
ghost use Rattle.desk_text.specs.Written.{Written, most_text};

use desk_feed::Taken;
use desk_query::Query;
use outcome::Told;
use query_rounds::Got;

// The room that any answer fits in.
pub const MOST_TEXT: usize = 294912;

pub const DESK_LABELS: usize = 512;

// Slots for twelve routes among 1,024 nodes.
pub const DESK_WORDS: usize = 12276;

// What is asked of a road table.
#[derive(Clone, Copy)]
pub struct Asked {
    pub nodes: u32,
    pub s: u32,
    pub goal: u32,
    pub k: u32,
    pub a: u32,
    pub b: u32,
}

// The lines of the rounds of a query that gave `g`.
fn show_rounds(out: &mut [u8], g: Got, nodes: u32, k: u32, area: &[u32]) -> usize
    requires { (most_text ≤ length out.old) × (nodes ≤ most_nodes_read)
        × (desk_words ≤ length area.now) × (KnownEnd g nodes k area.now) }
    ensures { ShownEnd g nodes k area.now
        out.old out.new result }
{
    let w = nodes as usize - 1;
    print::ended(out, g.told.outcome, k as usize, w, g.sums, area)
}

// The lines of any query that gave `g`: of its rounds, where it has summaries to write.
fn show(out: &mut [u8], g: Got, nodes: u32, k: u32, area: &[u32]) -> usize
    requires { (most_text ≤ length out.old) × (nodes ≤ most_nodes_read)
        × (desk_words ≤ length area.now) × (Known g nodes k area.now) }
    ensures { Shown g nodes k area.now
        out.old out.new result }
{
    if g.n == 0 {
        return print::refused(out, g.told);
    }
    show_rounds(out, g, nodes, k, area)
}

// The reply to a query over the road table.
fn reply(out: &mut [u8], table: &[u8], x: Asked) -> usize
    requires { (most_text ≤ length out.old) × (x.nodes ≤ most_nodes_read) }
    ensures { Appended out.old 0 (reply_text (read_query x table.now))
        out.new result }
{
    let mut labels = [0u8; DESK_LABELS * labels::field::LABEL];
    let mut area = [0u32; DESK_WORDS];
    let g = query::core(
        table,
        x.nodes,
        x.s,
        x.goal,
        x.k,
        x.a,
        x.b,
        &mut labels,
        &mut area,
        summary::MOST_ROUTES,
    );
    show(out, g, x.nodes, x.k, &area)
}

// What is due for a road file under a query, where the input ends: its refusal, or the reply over
// the table made of its arcs.
fn finish_road(x: Taken, q: Query, table: &mut [u8], out: &mut [u8]) -> usize
    requires { (most_text ≤ length out.old) × (RoadKept x table.old) }
    ensures { RoadFinished x q table.old
        out.old out.new result }
{
    let reader = x.reader;
    if let Err(refusal) = desk_feed::judge(reader, x.sized) {
        return print::refused(out, Told::from(refusal));
    }
    let n = reader.count as usize;
    desk_feed::order(table, n);
    let asked = Asked {
        nodes: reader.nodes,
        s: q.s,
        goal: q.goal,
        k: q.k,
        a: q.a,
        b: q.b,
    };
    let m = n * table::arc::RECORD;
    reply(out, &table[0..m], asked)
}

// What is due where an input ends, of what was kept of it, into a buffer that any answer fits in.
pub fn finish(x: Taken, first: &[u8], table: &mut [u8], out: &mut [u8]) -> usize
    requires { (most_text ≤ length out.old) × (Kept x first.now table.old) }
    ensures { Finished x first.now table.old
        out.old out.new result }
{
    let n = x.first;
    match desk_query::read(&first[0..n]) {
        Ok(q) => finish_road(x, q, table, out),
        Err(refusal) => print::refused(out, Told::from(refusal)),
    }
}

// The answer to a text, into a buffer that any answer fits in.
fn answer(text: &[u8], out: &mut [u8]) -> usize
    requires { most_text ≤ length out.old }
    ensures { Appended out.old 0 (desk_text text.now)
        out.new result }
{
    let mut first = [0u8; desk_feed::FIRST];
    let mut table = [0u8; desk_feed::TABLE];
    let x = desk_feed::feed(desk_feed::begin(), text, &mut first, &mut table);
    finish(x, &first, &mut table, out)
}

// What the desk program prints for a text, at the front of `out`; how many bytes it is.
pub fn desk(text: &[u8], out: &mut [u8]) -> usize
    ensures { Written text.now out.old out.new result }
{
    if out.len() < MOST_TEXT {
        return 0;
    }
    answer(text, out)
}
