// The candidates of all nodes: for each the first route from s to it joined to the first route from
// it to the goal, read from the working room.
#![tactic(auto)]

pub mod chain;
pub mod key;

ghost use Rattle.std.specs.Prelude.{◌≡◌, true, false, ℕ, ◌<◌, ◌≤◌, length};
ghost use Rattle.labels.specs.Chain.{slot_of};
ghost use Rattle.second.specs.Second.{wrong_second};
ghost use Rattle.search_ask.specs.Ask.{Accepted, net_for};
ghost use Rattle.working_room.specs.Field.{Within};
ghost use Rattle.node_queue.specs.Queue.{key_at, Roomy, Queue};
ghost use Rattle.via_chains.specs.Chains.{Prepared, joined_in, both_in, key_for};

use search_ask::Ask;

pub const NO_KEY: u64 = 9223372036854775808;

// Where a node's record has its distance from s, the last arc of the route from s, the first arc of
// the route to the goal, and its distance to the goal.
pub const FORTH: usize = 12;

pub const LAST: usize = 20;

pub const FIRST: usize = 28;

pub const BACK: usize = 32;

// The distances and the first routes, from s and to the goal, over the arcs that are not closed.
pub fn prepare(table: &[u8], second: &[u8], closed: &[u8], ask: Ask, room: &mut [u8])
    requires { (Accepted ask table.now)
        × (wrong_second ask.nodes table.now second.now ≡ false)
        × (Roomy ask.nodes room.old) }
    ensures { (length room.new ≡ length room.old)
        × (Prepared (net_for ask table.now closed.now) ask.s ask.goal
        room.new) }
{
    run_notes::note(table, second, ask.nodes, room);
    reach::backward::search(
        table,
        second,
        closed,
        ask.nodes,
        ask.goal,
        first_routes::back(),
        room,
    );
    first_routes::pick::all(table, closed, ask.nodes, ask.goal, room);
    reach::forward::search(table, closed, ask.nodes, ask.s, first_routes::forth(), room);
    first_routes::walk::all(table, closed, ask.nodes, ask.s, room);
}

// The queue of all candidates. The node whose candidate is the first.
pub fn line_up(table: &[u8], closed: &[u8], ask: Ask, room: &mut [u8]) -> usize
    requires { (Accepted ask table.now)
        × (Prepared (net_for ask table.now closed.now) ask.s ask.goal room.old) }
    ensures { (Within 0 12 room.old room.new)
        × (Queue ask.nodes room.new result)
        × ((v : ℕ) → v < ask.nodes → key_at room.new v
        ≡ key_for ask.nodes room.old v) }
{
    let n = ask.nodes as usize;
    node_queue::fill(room, n, NO_KEY);
    let mut root = 0;
    for v in 0..n {
        root = key::enter(room, n, v, root);
    }
    root
}

// The candidate of node v into a slot: its arcs first, the remaining words 4,294,967,295. How many
// arcs it has.
pub fn write(
    table: &[u8],
    closed: &[u8],
    ask: Ask,
    room: &[u8],
    v: usize,
    slot: &mut [u32],
) -> usize
    requires { (Accepted ask table.now)
        × (Prepared (net_for ask table.now closed.now) ask.s ask.goal room.now)
        × (v < ask.nodes) × (both_in ask.nodes room.now v ≡ true)
        × (length (joined_in (net_for ask table.now closed.now) ask.s ask.goal
        room.now v) ≤ length slot.old) }
    ensures { (slot.new ≡ slot_of (length slot.old)
        (joined_in (net_for ask table.now closed.now) ask.s ask.goal
        room.now v))
        × (result ≡ length (joined_in (net_for ask table.now closed.now)
        ask.s ask.goal room.now v)) }
{
    let k = chain::arcs(table, closed, ask, room, v);
    chain::write_to(table, closed, ask, room, v, slot, k);
    let end = chain::write_on(table, closed, ask, room, v, slot, k);
    let size = slot.len();
    words::fill::fill_part(slot, end, size, labels::field::NONE);
    end
}
