// Shares of one route with those before it.
ghost use Rattle.std.specs.Prelude.{◌≡◌, [], ◌+◌, ◌*◌, ◌≤◌, ◌<◌, length, take};
ghost use Rattle.words.specs.Part.{slot};
ghost use Rattle.net.specs.Limits.{most_nodes};
ghost use Rattle.net.specs.Route.{overlap};
ghost use Rattle.search_ask.specs.Ask.{Accepted, net_for, width};
ghost use Rattle.search_ask.specs.Earlier.{route_in, earlier_in};
ghost use Rattle.ratios.specs.Ratios.{greater_of, share_with, greatest_share};
ghost use Rattle.ratios.specs.Routes.{Arcs, Routes, route_at};

use products::Fraction;
use search_ask::Ask;

// The first words of slot j.
fn route(area: &[u32], ask: Ask, j: usize, count: usize) -> &[u32]
    requires { (1 ≤ ask.nodes) × (j * width ask + width ask ≤ length area.now)
        × (count ≤ width ask) }
    ensures { result.now ≡ take count (slot (width ask) j area.now) }
{
    let slot = search_ask::slot(area, ask, j);
    &slot[0..count]
}

// The overlap of a route with another, arc by arc.
fn overlap(table: &[u8], ask: Ask, q: &[u32], p: &[u32]) -> u64
    requires { (Accepted ask table.now) × (Arcs table.now q.now)
        × (length q.now ≤ most_nodes) × (Arcs table.now p.now) }
    ensures { result ≡ overlap (net_for ask table.now []) q.now
        (route_in p.now) }
{
    let mut total = 0;
    for &arc in q {
        total += search_driven::shared(table, ask, p, arc as usize);
    }
    total
}

// The share of route i with route j.
fn share(
    table: &[u8],
    ask: Ask,
    area: &[u32],
    lens: &[u64],
    counts: &[u16],
    i: usize,
    j: usize,
) -> Fraction
    requires { (Routes ask table.now area.now lens.now counts.now (i + 1)) × (j < i) }
    ensures { result ≡ share_with (net_for ask table.now [])
        (route_at ask area.now i) (route_at ask area.now j) }
{
    let q = route(area, ask, i, counts[i] as usize);
    let p = route(area, ask, j, counts[j] as usize);
    Fraction {
        over: overlap(table, ask, q, p),
        under: lens[j],
    }
}

// The greater of two, the former of equal ones.
fn greater_of(f: Fraction, x: Fraction) -> Fraction
    ensures { result ≡ greater_of f x }
{
    if f.is_less(x) { x } else { f }
}

// The greatest share of route i with one before it.
pub(crate) fn greatest(
    table: &[u8],
    ask: Ask,
    area: &[u32],
    lens: &[u64],
    counts: &[u16],
    i: usize,
) -> Fraction
    requires { Routes ask table.now area.now lens.now counts.now (i + 1) }
    ensures { result ≡ greatest_share (net_for ask table.now [])
        (route_at ask area.now i) (earlier_in (width ask) i area.now) }
{
    let mut f = Fraction { over: 0, under: 1 };
    for j in 0..i {
        f = greater_of(f, share(table, ask, area, lens, counts, i, j));
    }
    f
}
