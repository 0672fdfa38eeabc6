// How varied a choice is with one rank more.
ghost use Rattle.std.specs.Prelude.{◌≡◌, [], ◌∷◌, ◌++◌, ◌*◌, ◌≤◌, ◌<◌, length};
ghost use Rattle.net.specs.Limits.{most_nodes, most_length};
ghost use Rattle.products.specs.Product.{most_factor};
ghost use Rattle.variety.specs.Variety.{lower};
ghost use Rattle.remaining.specs.Standing.{Roomy};
ghost use Rattle.route_apart.specs.Marks.{Unmarked};
ghost use Rattle.near_choice.specs.Choosing.{Routes, Blank, Few, Tells, Below};
ghost use Rattle.near_choice.specs.Choosing.{Shares, lowest, aparts_by};

use products::Fraction;

// The lower of the two, x where they are equal.
fn lower(x: Fraction, y: Fraction) -> Fraction
    requires { (Few x) × (Few y) }
    ensures { (result ≡ lower x y) × (Few result) }
{
    if y.is_less(x) { y } else { x }
}

// The least of a fraction and the dissimilarities of the ranks' routes and the marked one, of this
// length.
fn lowest(
    table: &[u8],
    nodes: u32,
    list: &[u32],
    w: usize,
    n: usize,
    room: &[u8],
    ranks: &[usize],
    least: Fraction,
    size: u64,
) -> Fraction
    requires { (Routes table.now nodes w n list.now) × (Roomy nodes room.now)
        × (Below n ranks.now) × (least.over < most_factor) × (least.under < most_factor)
        × (Shares table.now w list.now room.now size ranks.now)
        × (size ≤ most_nodes * most_length) }
    ensures { (result ≡ lowest least (aparts_by table.now w list.now
        room.now size ranks.now))
        × (result.over < most_factor) × (result.under < most_factor) }
{
    let mut x = least;
    for &i in ranks {
        let one = route_list::slot(list, w, i);
        let y = route_apart::apart(table, nodes, one, room, size);
        x = lower(x, y);
    }
    x
}

// How varied the ranks are with rank r more; `least` tells it of them without.
pub fn with_rank(
    table: &[u8],
    nodes: u32,
    list: &[u32],
    w: usize,
    n: usize,
    room: &mut [u8],
    ranks: &[usize],
    least: Fraction,
    r: usize,
) -> Fraction
    requires { (Routes table.now nodes w n list.now) × (Blank nodes room.old)
        × (Below n ranks.now) × (Tells table.now w n list.now ranks.now least) × (r < n) }
    ensures { (Tells table.now w n list.now
        (ranks.now ++ (r ∷ [])) result)
        × (length room.new ≡ length room.old)
        × (Unmarked room.new) }
{
    let one = route_list::slot(list, w, r);
    let size = route_list::length(table, nodes, one);
    route_apart::put_marks(table, nodes, one, room, true);
    let x = lowest(table, nodes, list, w, n, room, ranks, least, size);
    route_apart::put_marks(table, nodes, one, room, false);
    x
}
