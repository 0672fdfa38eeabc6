// "choose the k whose least pairwise dissimilarity is greatest": a search over the ranks that goes
// deeper only where what is chosen may still become better than the best so far.
#![tactic(auto)]

pub mod least;

ghost use Rattle.std.specs.Prelude.{◌≡◌, ◌≤◌, length};
ghost use Rattle.std.proofs.Math.Option.{some};
ghost use Rattle.table.specs.Table.{arcs_of};
ghost use Rattle.search_ask.specs.Earlier.{earlier_in};
ghost use Rattle.variety.specs.Variety.{chosen};
ghost use Rattle.near_choice.specs.Choosing.{Routes, Blank, hope_by, Weighed};
ghost use Rattle.near_choice.specs.Choosing.{Seeks, Sought};

use products::Fraction;

// Whether a choice as varied as x is better than the best so far, if there is one.
fn hope(best: Option<Fraction>, x: Fraction) -> bool
    ensures { result ≡ hope_by best x }
{
    match best {
        Some(y) => y.is_less(x),
        None => true,
    }
}

// A whole choice, as varied as `least` tells, becomes the best if it is better than that so far.
fn whole(
    ranks: &[usize],
    best: &mut [usize],
    least: Fraction,
    known: Option<Fraction>,
) -> Option<Fraction>
    requires { length ranks.now ≡ length best.old }
    ensures { Weighed ranks.now best.old least known
        best.new result }
{
    if hope(known, least) {
        route_list::copy(ranks, best);
        return Some(least);
    }
    known
}

// Seeks the best choice that begins with the first `depth` ranks and goes on with ranks from `from`
// on; `least` tells how varied the beginning is, and `known` the best choice so far, whose ranks stand
// in `best`.
fn seek(
    table: &[u8],
    nodes: u32,
    list: &[u32],
    w: usize,
    n: usize,
    room: &mut [u8],
    ranks: &mut [usize],
    best: &mut [usize],
    depth: usize,
    from: usize,
    least: Fraction,
    known: Option<Fraction>,
) -> Option<Fraction>
    requires { Seeks table.now nodes w n list.now room.old ranks.old best.old
        depth from least known }
    ensures { Sought table.now nodes w n list.now room.old
        ranks.old best.old depth from known room.new
        ranks.new best.new result }
{
    if depth == ranks.len() {
        return whole(ranks, best, least, known);
    }
    let mut found = known;
    for i in from..n {
        let x = least::with_rank(table, nodes, list, w, n, room, &ranks[0..depth], least, i);
        if hope(found, x) {
            ranks[depth] = i;
            found = seek(
                table,
                nodes,
                list,
                w,
                n,
                room,
                ranks,
                best,
                depth + 1,
                i + 1,
                x,
                found,
            );
        }
    }
    found
}

// The ranks of the best choice of as many of n routes as `best` has places, the first of the best;
// `ranks` is scratch.
pub fn choose(
    table: &[u8],
    nodes: u32,
    list: &[u32],
    w: usize,
    n: usize,
    room: &mut [u8],
    ranks: &mut [usize],
    best: &mut [usize],
)
    requires { (Routes table.now nodes w n list.now) × (Blank nodes room.old)
        × (length ranks.old ≡ length best.old) × (length best.old ≤ n) }
    ensures { (some best.new ≡ chosen (arcs_of table.now)
        (earlier_in w n list.now) (length best.old))
        × (length room.new ≡ length room.old) }
{
    let one = Fraction { over: 1, under: 1 };
    seek(table, nodes, list, w, n, room, ranks, best, 0, 0, one, None);
}
