// The two parts of a node's candidate: back to s by last arcs, and on to the goal by first arcs.
ghost use Rattle.std.specs.Prelude.{◌≡◌, ◌++◌, ◌+◌, ◌≤◌, ◌<◌, length, take, drop};
ghost use Rattle.reach.specs.Stand.{dist_in};
ghost use Rattle.first_routes.specs.Firsts.{far, forth, back};
ghost use Rattle.via_chains.specs.Candidate.{Ready, to_of, on_of};

use crate::{FIRST, LAST};
use search_ask::Ask;

// How many arcs the first route from s to v has.
pub fn arcs(table: &[u8], closed: &[u8], ask: Ask, room: &[u8], v: usize) -> usize
    requires { (Ready ask table.now closed.now room.now) × (v < ask.nodes)
        × (dist_in forth ask.nodes room.now v < far) }
    ensures { result ≡ length (to_of ask table.now closed.now
        room.now v) }
{
    let mut k = 0;
    let mut x = v;
    while x != ask.s as usize {
        let a = working_room::word(room, LAST, x) as usize;
        x = table::arc::from_of(table, a) as usize;
        k += 1;
    }
    k
}

// The first route from s to v, of n arcs, in the first words of the slot.
pub fn write_to(
    table: &[u8],
    closed: &[u8],
    ask: Ask,
    room: &[u8],
    v: usize,
    slot: &mut [u32],
    n: usize,
)
    requires { (Ready ask table.now closed.now room.now) × (v < ask.nodes)
        × (dist_in forth ask.nodes room.now v < far)
        × (n ≡ length (to_of ask table.now closed.now room.now v))
        × (n ≤ length slot.old) }
    ensures { slot.new ≡ to_of ask table.now closed.now
        room.now v ++ drop n slot.old }
{
    let mut k = n;
    let mut x = v;
    while x != ask.s as usize {
        let a = working_room::word(room, LAST, x);
        k -= 1;
        slot[k] = a;
        x = table::arc::from_of(table, a as usize) as usize;
    }
}

// The first route from v to the goal, in the words from `at` on. Where it ends.
pub fn write_on(
    table: &[u8],
    closed: &[u8],
    ask: Ask,
    room: &[u8],
    v: usize,
    slot: &mut [u32],
    at: usize,
) -> usize
    requires { (Ready ask table.now closed.now room.now) × (v < ask.nodes)
        × (dist_in back ask.nodes room.now v < far)
        × (at + length (on_of ask table.now closed.now room.now v) ≤ length slot.old) }
    ensures { (result ≡ at + length (on_of ask table.now closed.now
        room.now v)) × (length slot.new ≡ length slot.old)
        × (take result slot.new ≡ take at slot.old
        ++ on_of ask table.now closed.now room.now v) }
{
    let mut k = at;
    let mut x = v;
    while x != ask.goal as usize {
        let a = working_room::word(room, FIRST, x);
        slot[k] = a;
        k += 1;
        x = table::arc::to_of(table, a as usize) as usize;
    }
    k
}
