// "The listing goes deeper one unvisited node at a time": every route in range, put in its place in
// the list when it is found.
#![tactic(auto)]

pub mod step;

ghost use Rattle.std.specs.Prelude.{◌≡◌};
ghost use Rattle.near_routes.specs.Deep.{Deep, Went};

// What is in range, and how many slots the list has: from start to goal, d times a length being at
// most `most`.
#[derive(Clone, Copy)]
pub struct Range {
    pub nodes: u32,
    pub start: u32,
    pub goal: u32,
    pub d: u64,
    pub most: u64,
    pub slots: usize,
}

// Lists the routes in range that go on from a path of `depth` arcs and this length to node v, beside
// the n listed. How many are listed then, or none where they are more than the slots.
pub fn deeper(
    table: &[u8],
    closed: &[u8],
    x: Range,
    list: &mut [u32],
    path: &mut [u32],
    room: &mut [u8],
    depth: usize,
    v: u32,
    size: u64,
    n: usize,
) -> Option<usize>
    requires { Deep x table.now closed.now list.old path.old room.old depth v size n }
    ensures { Went x table.now closed.now list.old
        path.old room.old depth n list.new path.new
        room.new result }
{
    let nodes = x.nodes;
    if v == x.goal {
        return step::arrive(table, nodes, x.slots, list, path, depth, size, n);
    }
    let end = table::run::run_start(table, nodes, v + 1);
    let mut found = n;
    for a in table::run::run_start(table, nodes, v)..end {
        if step::goes(table, closed, x, room, a, size) {
            let u = table::arc::to_of(table, a);
            let on = size + table::arc::length_of(table, a) as u64;
            step::enter(path, room, depth, a, u as usize);
            let listed = deeper(table, closed, x, list, path, room, depth + 1, u, on, found);
            step::leave(room, u as usize);
            found = listed?;
        }
    }
    Some(found)
}
