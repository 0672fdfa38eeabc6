// The two figures that the dispatcher's screen shows of a route: by value, and written to a lent
// slice of records.
#![tactic(auto)]

mod share;

ghost use Rattle.std.specs.Prelude.{◌≡◌, [], ◌+◌, ◌<◌, ◌≤◌, length};
ghost use Rattle.products.specs.Product.{most_factor};
ghost use Rattle.net.specs.Limits.{most_routes};
ghost use Rattle.search_ask.specs.Ask.{net_for, width};
ghost use Rattle.search_ask.specs.Earlier.{earlier_in};
ghost use Rattle.ratios.specs.Ratios.{quotient, ratios_of, ratios_for};
ghost use Rattle.ratios.specs.Rows.{record_at, set_entry, firsts, written};
ghost use Rattle.ratios.specs.Routes.{Routes, Answered, answered_in, route_at};

use products::Fraction;
use search_ask::Ask;
use summary::Sums;

// The greatest overlap ratio with an earlier route, and the length over the first route's.
#[repr(C)]
#[derive(Clone, Copy)]
pub struct Ratios {
    pub overlap: f64,
    pub detour: f64,
}

// The ratios of all rounds by value: a row of numbers for each field.
#[derive(Clone, Copy)]
pub struct Rows {
    pub overlap: [f64; summary::MOST_ROUTES],
    pub detour: [f64; summary::MOST_ROUTES],
}

// The one division.
fn quotient(f: Fraction) -> f64
    requires { (f.over < most_factor) × (0 < f.under) × (f.under < most_factor) }
    ensures { result ≡ quotient f }
{
    f.over as f64 / f.under as f64
}

// The record of round i, from 0.
pub fn at(t: Rows, i: usize) -> Ratios
    requires { i < most_routes }
    ensures { result ≡ record_at t i }
{
    Ratios {
        overlap: t.overlap[i],
        detour: t.detour[i],
    }
}

// The rows with the record of round i, from 0.
pub fn with(t: Rows, i: usize, x: Ratios) -> Rows
    requires { i < most_routes }
    ensures { result ≡ set_entry t i x }
{
    let mut t = t;
    t.overlap[i] = x.overlap;
    t.detour[i] = x.detour;
    t
}

// The two figures of route i, from 0, whose length is `lens[i]` and whose number of arcs
// `counts[i]`.
pub fn of(table: &[u8], ask: Ask, area: &[u32], lens: &[u64], counts: &[u16], i: usize) -> Ratios
    requires { Routes ask table.now area.now lens.now counts.now (i + 1) }
    ensures { result ≡ ratios_of (net_for ask table.now [])
        (route_at ask area.now i) (earlier_in (width ask) i area.now) }
{
    let detour = Fraction {
        over: lens[i],
        under: lens[0],
    };
    Ratios {
        overlap: quotient(share::greatest(table, ask, area, lens, counts, i)),
        detour: quotient(detour),
    }
}

// How many of the first n rounds have an answer.
fn answered(counts: &[u16], n: usize) -> usize
    requires { n ≤ length counts.now }
    ensures { result ≡ answered_in counts.now n }
{
    for i in 0..n {
        if counts[i] == 0 {
            return i;
        }
    }
    n
}

// The rows of n rounds: 0 and 0 where a round has no answer.
pub fn all(table: &[u8], ask: Ask, area: &[u32], sums: Sums, n: usize) -> Rows
    requires { Answered ask table.now area.now sums n }
    ensures { firsts result n ≡ ratios_for (net_for ask table.now []) n
        (earlier_in (width ask) (answered_in sums.arcs n) area.now) }
{
    let lens = sums.length;
    let counts = sums.arcs;
    let m = answered(&counts, n);
    let zeros = [0f64; summary::MOST_ROUTES];
    let mut t = Rows {
        overlap: zeros,
        detour: zeros,
    };
    for i in 0..m {
        t = with(t, i, of(table, ask, area, &lens, &counts, i));
    }
    t
}

// The first n records are those of t; the others stay.
pub fn write(s: &mut [Ratios], t: Rows, n: usize)
    requires { (n ≤ most_routes) × (n ≤ length s.old) }
    ensures { s.new ≡ written t n s.old }
{
    for i in 0..n {
        s[i] = at(t, i);
    }
}
