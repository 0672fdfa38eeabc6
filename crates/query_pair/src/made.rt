// The pair made: two searches, the marks between them, and the two walks.
ghost use Rattle.std.specs.Prelude.{◌≡◌, ◌*◌, ◌≤◌, ◌<◌, length, []};
ghost use Rattle.table.specs.Table.{net_of};
ghost use Rattle.table.specs.Fault.{table_fault, good};
ghost use Rattle.search_ask.specs.Ask.{Accepted, query_for, width};
ghost use Rattle.node_queue.specs.Queue.{Roomy};
ghost use Rattle.query_pair.specs.Made.{Prepared, got_of, none_got, Made};

use outcome::Outcome;
use pair_walks::Ways;
use query_rounds::Got;
use search_ask::Ask;
use summary::Sums;

// Whether there is a pair, by two searches. Where there is one, its marks stand in the room.
fn prepare(table: &[u8], closed: &[u8], nodes: u32, s: u32, goal: u32, room: &mut [u8]) -> bool
    requires { (table_fault nodes table.now ≡ good) × (s < nodes) × (goal < nodes)
        × (Roomy nodes room.old) }
    ensures { (length room.new ≡ length room.old)
        × (Prepared (net_of nodes table.now closed.now) s goal
        room.new result) }
{
    run_notes::leaving(table, nodes, room);
    reach::forward::search(table, closed, nodes, s, pair_room::first(), room);
    if pair_room::FAR <= working_room::long(room, pair_room::DIST, goal as usize) {
        return false;
    }
    pair_marks::first(table, closed, nodes, s, goal, room);
    pair_search::search(table, closed, nodes, s, goal, room);
    if pair_room::FURTHER <= working_room::long(room, pair_room::DIST_AGAIN, goal as usize) {
        return false;
    }
    pair_marks::settle(table, closed, nodes, s, goal, room);
    true
}

// No pair: two summaries of three zeros.
fn none_got() -> Got
    ensures { result ≡ none_got }
{
    Got {
        told: Outcome::NoPair.plain(),
        sums: Sums::NONE,
        n: 2,
    }
}

// The pair's summaries, with label count 0.
fn got_of(x: Ways) -> Got
    requires { (x.first.arcs < 65536) × (x.second.arcs < 65536) }
    ensures { result ≡ got_of x }
{
    let p = x.first;
    let q = x.second;
    let one = summary::with(Sums::NONE, 0, p.length, p.arcs as u16, 0);
    Got {
        told: Outcome::Found.plain(),
        sums: summary::with(one, 1, q.length, q.arcs as u16, 0),
        n: 2,
    }
}

// The pair in the first two slots, with its summaries, or neither; the room is zero afterwards.
pub(crate) fn all(table: &[u8], closed: &[u8], ask: Ask, area: &mut [u32], room: &mut [u8]) -> Got
    requires { (Accepted ask table.now) × (2 * width ask ≤ length area.old)
        × (Roomy ask.nodes room.old) }
    ensures { Made (query_for ask table.now closed.now []) (width ask)
        area.old room.old result area.new room.new }
{
    let nodes = ask.nodes;
    let s = ask.s;
    let goal = ask.goal;
    if prepare(table, closed, nodes, s, goal, room) {
        let x = pair_walks::pair(table, closed, nodes, s, goal, room, area);
        words::fill::fill(room, 0);
        return got_of(x);
    }
    let end = 2 * (nodes as usize - 1);
    words::fill::fill_part(area, 0, end, labels::field::NONE);
    words::fill::fill(room, 0);
    none_got()
}
