// The chosen in their slots.
#![tactic(auto)]

ghost use Rattle.std.specs.Prelude.{◌≡◌, ◌+◌, ◌*◌, ◌≤◌, length};
ghost use Rattle.words.specs.Part.{patch, slot};
ghost use Rattle.net.specs.Limits.{most_routes};
ghost use Rattle.table.specs.Table.{arcs_of};
ghost use Rattle.search_ask.specs.Earlier.{earlier_in};
ghost use Rattle.query_rounds.specs.Area.{area_with};
ghost use Rattle.variety.specs.Variety.{picked, chosen};
ghost use Rattle.near_choice.specs.Choosing.{Routes, Blank};
ghost use Rattle.near_pick.specs.Pick.{routes_at, Fits};

// Route r of the list written to slot j of the area.
fn put_route(list: &[u32], w: usize, r: usize, area: &mut [u32], j: usize)
    requires { (r * w + w ≤ length list.now) × (j * w + w ≤ length area.old) }
    ensures { area.new ≡ patch (j * w) (j * w + w) area.old
        (slot w r list.now) }
{
    let at = j * w;
    let end = at + w;
    route_list::copy(route_list::slot(list, w, r), &mut area[at..end]);
}

// The routes of these ranks written to the area's first slots.
fn put_routes(list: &[u32], w: usize, ranks: &[usize], area: &mut [u32])
    requires { Fits w list.now ranks.now area.old }
    ensures { area.new ≡ area_with w (length ranks.now) area.old
        (routes_at w list.now ranks.now) }
{
    for (j, &r) in ranks.iter().enumerate() {
        put_route(list, w, r, area, j);
    }
}

// As many of n routes as `best` has places, the most different, written to the area's first slots;
// `ranks`, `best` and the room are scratch.
fn pick_by(
    table: &[u8],
    nodes: u32,
    list: &[u32],
    w: usize,
    n: usize,
    area: &mut [u32],
    room: &mut [u8],
    ranks: &mut [usize],
    best: &mut [usize],
)
    requires { (Routes table.now nodes w n list.now) × (Blank nodes room.old)
        × (length ranks.old ≡ length best.old) × (length best.old ≤ n)
        × (length best.old * w ≤ length area.old) }
    ensures { (area.new ≡ area_with w (length best.old) area.old
        (picked (earlier_in w n list.now) (chosen (arcs_of table.now)
        (earlier_in w n list.now) (length best.old))))
        × (length room.new ≡ length room.old) }
{
    near_choice::choose(table, nodes, list, w, n, room, ranks, best);
    put_routes(list, w, best, area);
}

// The k most different of n routes written to the area's first slots; the room is scratch.
pub fn pick(
    table: &[u8],
    nodes: u32,
    list: &[u32],
    w: usize,
    n: usize,
    k: usize,
    area: &mut [u32],
    room: &mut [u8],
)
    requires { (Routes table.now nodes w n list.now) × (Blank nodes room.old)
        × (k ≤ n) × (k ≤ most_routes) × (k * w ≤ length area.old) }
    ensures { (area.new ≡ area_with w k area.old
        (picked (earlier_in w n list.now)
        (chosen (arcs_of table.now) (earlier_in w n list.now) k)))
        × (length room.new ≡ length room.old) }
{
    let mut ranks = [0usize; summary::MOST_ROUTES];
    let mut best = [0usize; summary::MOST_ROUTES];
    pick_by(
        table,
        nodes,
        list,
        w,
        n,
        area,
        room,
        &mut ranks[0..k],
        &mut best[0..k],
    );
}
