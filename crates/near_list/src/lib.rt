// The list of the near-shortest routes: every simple route whose length times d is at most d + c
// times the shortest.
#![tactic(auto)]

ghost use Rattle.std.specs.Prelude.{◌≡◌, ◌-◌, ◌*◌, ◌≤◌, length};
ghost use Rattle.table.specs.Table.{net_of};
ghost use Rattle.table.specs.Fault.{table_fault, good};
ghost use Rattle.net.specs.Limits.{most_d};
ghost use Rattle.variety.specs.Variety.{near};
ghost use Rattle.near_list.specs.Near.{Asks, Lists};

use near_routes::Range;

// Lists them in at most `slots` slots; `path` holds one of them while it is made, and the room is
// scratch. How many there are, or none where they are more than the slots.
pub fn list(
    table: &[u8],
    closed: &[u8],
    nodes: u32,
    start: u32,
    goal: u32,
    c: u64,
    d: u64,
    slots: usize,
    list: &mut [u32],
    path: &mut [u32],
    room: &mut [u8],
) -> Option<usize>
    requires { (Asks table.now nodes start goal c d path.old room.old)
        × (slots * (nodes - 1) ≤ length list.old) }
    ensures { (Lists table.now (nodes - 1) slots
        (near (net_of nodes table.now closed.now) start goal c d)
        list.old list.new result)
        × (length list.new ≡ length list.old)
        × (length path.new ≡ length path.old)
        × (length room.new ≡ length room.old) }
{
    words::fill::fill(room, 0);
    remaining::distances(table, closed, nodes, goal, room);
    let shortest = working_room::long(room, remaining::DISTANCE, start as usize);
    if remaining::FAR <= shortest {
        return Some(0);
    }
    working_room::put_word(room, near_routes::step::SEEN, start as usize, 1);
    let most = (d + c) * shortest;
    let x = Range {
        nodes,
        start,
        goal,
        d,
        most,
        slots,
    };
    near_routes::deeper(table, closed, x, list, path, room, 0, start, 0, 0)
}
