// The answer made: the list, the choice from it, and the chosen in their slots.
ghost use Rattle.std.specs.Prelude.{◌≡◌, false, ◌+◌, ◌-◌, ◌*◌, ◌≤◌, length, replicate};
ghost use Rattle.words.specs.Part.{patch};
ghost use Rattle.net.specs.Limits.{most_routes};
ghost use Rattle.labels.specs.Field.{no_number};
ghost use Rattle.outcome.specs.Outcome.{plain, number_of};
ghost use Rattle.search_ask.specs.Ask.{Accepted, net_for, width};
ghost use Rattle.variety.specs.Variety.{near, range_wrong, variety_reply};
ghost use Rattle.remaining.specs.Standing.{Roomy};
ghost use Rattle.query_variety.specs.Made.{slots_of, Listing, Left};

use crate::Wish;
use outcome::{Outcome, Told};
use search_ask::Ask;

const MOST_LISTED: usize = 4294967295;

// How many routes may be listed: as many as the list has whole slots of w words, and as the number
// beside the outcome can tell.
#[tactic(auto, using(query::proofs::Tests::tests), unfolding(crate::specs::Made::slots_of))]
fn slots_of(words: usize, w: usize) -> usize
    requires { 1 ≤ w }
    ensures { result ≡ slots_of words w }
{
    (words / w).min(MOST_LISTED)
}

// Lists the routes in range, in at most `slots` slots; the area's first slot holds one of them while
// it is made. How many there are, or none where they are more than the slots.
fn listed(
    table: &[u8],
    closed: &[u8],
    ask: Ask,
    wish: Wish,
    slots: usize,
    list: &mut [u32],
    area: &mut [u32],
    room: &mut [u8],
) -> Option<usize>
    requires { (Accepted ask table.now) × (range_wrong wish.c wish.d ≡ false)
        × (width ask ≤ length area.old) × (Roomy ask.nodes room.old)
        × (slots * width ask ≤ length list.old) }
    ensures { Listing table.now (width ask) slots
        (near (net_for ask table.now closed.now) ask.s ask.goal
        wish.c wish.d) list.old area.old room.old
        list.new area.new room.new result }
{
    let nodes = ask.nodes;
    let w = nodes as usize - 1;
    let c = wish.c as u64;
    let d = wish.d as u64;
    let s = ask.s;
    let goal = ask.goal;
    let n = near_list::list(
        table,
        closed,
        nodes,
        s,
        goal,
        c,
        d,
        slots,
        list,
        &mut area[0..w],
        room,
    );
    words::fill::fill(room, 0);
    n
}

// 23 or 24: every word of the list and of the slots to `end` is blank.
fn none(outcome: Outcome, end: usize, list: &mut [u32], area: &mut [u32]) -> Told
    requires { end ≤ length area.old }
    ensures { (result ≡ plain (number_of outcome))
        × (list.new ≡ replicate (length list.old) no_number)
        × (area.new ≡ patch 0 end area.old (replicate (end - 0) no_number)) }
{
    words::fill::fill(list, labels::field::NONE);
    words::fill::fill_part(area, 0, end, labels::field::NONE);
    outcome.plain()
}

// The list and the chosen, or 23 or 24; the room is zero afterwards.
pub(crate) fn all(
    table: &[u8],
    closed: &[u8],
    ask: Ask,
    wish: Wish,
    list: &mut [u32],
    area: &mut [u32],
    room: &mut [u8],
) -> Told
    requires { (Accepted ask table.now) × (range_wrong wish.c wish.d ≡ false)
        × (1 ≤ wish.k) × (wish.k ≤ most_routes) × (wish.k * width ask ≤ length area.old)
        × (Roomy ask.nodes room.old) }
    ensures { Left (variety_reply (net_for ask table.now closed.now)
        ask.s ask.goal wish.c wish.d wish.k
        (slots_of (length list.old) (width ask))) (width ask) wish.k
        list.old area.old room.old result list.new
        area.new room.new }
{
    let nodes = ask.nodes;
    let w = nodes as usize - 1;
    let k = wish.k as usize;
    let slots = slots_of(list.len(), w);
    let Some(n) = listed(table, closed, ask, wish, slots, list, area, room) else {
        return none(Outcome::ListFull, k * w, list, area);
    };
    if n < k {
        return none(Outcome::TooFew, k * w, list, area);
    }
    near_pick::pick(table, nodes, list, w, n, k, area, room);
    words::fill::fill(room, 0);
    Outcome::Found.beside(n as u32)
}
