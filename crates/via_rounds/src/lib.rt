// The profile of a query: the candidates in order of rule 3, each kept if it is within the threshold
// of all kept before.
#![tactic(auto)]

ghost use Rattle.std.specs.Prelude.{◌≡◌, true, cond, [], ◌+◌, ◌*◌, ◌≤◌, ◌<◌, ltb, length};
ghost use Rattle.lists.specs.Tests.{every};
ghost use Rattle.words.specs.Part.{patch};
ghost use Rattle.outcome.specs.Outcome.{plain, found, fewer};
ghost use Rattle.net.specs.Route.{length_of};
ghost use Rattle.table.specs.Table.{records, arcs_of};
ghost use Rattle.labels.specs.Chain.{slot_of};
ghost use Rattle.search_ask.specs.Ask.{Accepted, net_for, query_for, width};
ghost use Rattle.working_room.specs.Field.{room_bytes, long_at};
ghost use Rattle.node_queue.specs.Queue.{Queue};
ghost use Rattle.first_routes.specs.Firsts.{far};
ghost use Rattle.via_chains.specs.Chains.{Prepared, joined_in, both_in};
ghost use Rattle.via_rounds.specs.Turn.{Begun, going_on, Taking, Left, Taken};
ghost use Rattle.via_rounds.specs.Profiled.{Profiling, Profiled};

use node_queue::winner::KEY;
use outcome::{Outcome, Told};
use query_rounds::Got;
use search_ask::Ask;
use summary::Sums;
use via_chains::{BACK, FORTH, NO_KEY};

// Between two routes: how many were kept, the node whose candidate is the first left, and the
// summaries.
#[derive(Drop)]
struct Turn {
    r: usize,
    root: usize,
    sums: Sums,
}

// The length of the candidate of node v.
fn length_at(room: &[u8], v: usize) -> u64
    requires { (v * room_bytes + room_bytes ≤ length room.now) × (long_at 12 room.now v < far)
        × (long_at 32 room.now v < far) }
    ensures { result ≡ long_at 12 room.now v + long_at 32 room.now v }
{
    working_room::long(room, FORTH, v) + working_room::long(room, BACK, v)
}

// Whether one more is to be kept after r of k, where `root` is the first left.
fn going_on(room: &[u8], root: usize, r: usize, k: usize) -> bool
    requires { root * room_bytes + room_bytes ≤ length room.now }
    ensures { result ≡ going_on r k room.now root }
{
    r < k && working_room::long(room, KEY, root) < NO_KEY
}

// The candidates that share too much with a kept route leave the queue, if that is not the last one.
fn drop_near(
    table: &[u8],
    closed: &[u8],
    ask: Ask,
    last: bool,
    route: &[u32],
    len: u64,
    room: &mut [u8],
    root: usize,
) -> usize
    requires { (Accepted ask table.now)
        × (Prepared (net_for ask table.now closed.now) ask.s ask.goal room.old)
        × (Queue ask.nodes room.old root)
        × (every (λ a. ltb a (records table.now)) route.now ≡ true)
        × (len ≡ length_of (arcs_of table.now) route.now) }
    ensures { Left (query_for ask table.now closed.now []) last
        route.now room.old room.new root result }
{
    if last {
        root
    } else {
        via_drop::near(table, closed, ask, route, len, room, root)
    }
}

// The candidate of node v into slot r. How many arcs it has.
fn put(
    table: &[u8],
    closed: &[u8],
    ask: Ask,
    room: &[u8],
    v: usize,
    area: &mut [u32],
    r: usize,
) -> usize
    requires { (Accepted ask table.now)
        × (Prepared (net_for ask table.now closed.now) ask.s ask.goal room.now)
        × (v < ask.nodes) × (both_in ask.nodes room.now v ≡ true)
        × (length (joined_in (net_for ask table.now closed.now) ask.s ask.goal
        room.now v) ≤ width ask) × (r * width ask + width ask ≤ length area.old) }
    ensures { (area.new ≡ patch (r * width ask) (r * width ask + width ask)
        area.old (slot_of (width ask) (joined_in (net_for ask table.now
        closed.now) ask.s ask.goal room.now v)))
        × (result ≡ length (joined_in (net_for ask table.now closed.now)
        ask.s ask.goal room.now v)) }
{
    let w = ask.nodes as usize - 1;
    let from = r * w;
    let to = from + w;
    via_chains::write(table, closed, ask, room, v, &mut area[from..to])
}

// One route more: that of the first left.
fn step(
    table: &[u8],
    closed: &[u8],
    ask: Ask,
    k: usize,
    area: &mut [u32],
    room: &mut [u8],
    x: Turn,
) -> Turn
    requires { Taking ask table.now closed.now k area.old room.old x.r x.root }
    ensures { Taken (query_for ask table.now closed.now [])
        (width ask) k (joined_in (net_for ask table.now closed.now)
        ask.s ask.goal room.old x.root) area.old
        room.old x area.new room.new result }
{
    let r = x.r;
    let v = x.root;
    let len = length_at(room, v);
    let m = put(table, closed, ask, room, v, area, r);
    let from = r * search_ask::width(ask);
    let end = from + m;
    let root = drop_near(
        table,
        closed,
        ask,
        r + 1 == k,
        &area[from..end],
        len,
        room,
        v,
    );
    Turn {
        r: r + 1,
        root,
        sums: summary::with(x.sums, r, len, m as u16, 0),
    }
}

// The slots blank, and all candidates in the queue. The node whose candidate is the first.
fn begin(
    table: &[u8],
    second: &[u8],
    closed: &[u8],
    ask: Ask,
    k: usize,
    area: &mut [u32],
    room: &mut [u8],
) -> usize
    requires { Profiling ask table.now second.now k area.old room.old }
    ensures { Begun ask table.now closed.now k area.old
        room.old area.new room.new result }
{
    let w = ask.nodes as usize - 1;
    let end = k * w;
    words::fill::fill_part(area, 0, end, labels::field::NONE);
    via_chains::prepare(table, second, closed, ask, room);
    via_chains::line_up(table, closed, ask, room)
}

// What a profile of r routes tells, where k were wanted.
fn tell(r: usize, k: usize) -> Told
    ensures { result ≡ plain (cond (ltb r k) fewer found) }
{
    let outcome = if r < k {
        Outcome::Fewer
    } else {
        Outcome::Found
    };
    outcome.plain()
}

// The summaries are an argument here, for a variable of their own is one more copy on the stack.
fn got_of(told: Told, sums: Sums, n: usize) -> Got
    ensures { result ≡ record { told = told; sums = sums; n = n } }
{
    Got { told, sums, n }
}

// k routes at most, in their slots, with their summaries; the working room is zero afterwards.
pub fn all(
    table: &[u8],
    second: &[u8],
    closed: &[u8],
    ask: Ask,
    k: usize,
    area: &mut [u32],
    room: &mut [u8],
) -> Got
    requires { Profiling ask table.now second.now k area.old room.old }
    ensures { Profiled (query_for ask table.now closed.now [])
        (width ask) k area.old room.old result area.new
        room.new }
{
    let mut x = Turn {
        r: 0,
        root: begin(table, second, closed, ask, k, area, room),
        sums: Sums::NONE,
    };
    while going_on(room, x.root, x.r, k) {
        x = step(table, closed, ask, k, area, room, x);
    }
    words::fill::fill(room, 0);
    got_of(tell(x.r, k), x.sums, k)
}
