// The summaries of a query: by value, and written to a lent slice of records.
#![tactic(auto)]

ghost use Rattle.std.specs.Prelude.{◌≡◌, ◌<◌, ◌≤◌, length};
ghost use Rattle.net.specs.Limits.{most_routes};
ghost use Rattle.summary.specs.Sums.{record_at, set_entry, written};

// The most routes that a query may want.
pub const MOST_ROUTES: usize = 12;

// Length, number of arcs and label count of one round.
#[repr(C)]
#[derive(Clone, Copy)]
pub struct Summary {
    pub length: u64,
    pub arcs: u64,
    pub labels: u64,
}

// The summaries of all rounds by value: a row of numbers for each field.
#[derive(Clone, Copy)]
pub struct Sums {
    pub length: [u64; MOST_ROUTES],
    pub arcs: [u16; MOST_ROUTES],
    pub labels: [u16; MOST_ROUTES],
}

impl Sums {
    // Of rounds that gave no route: zeros.
    pub const NONE: Sums = Sums {
        length: [0; MOST_ROUTES],
        arcs: [0; MOST_ROUTES],
        labels: [0; MOST_ROUTES],
    };
}

// The summary of round i, from 0.
pub fn at(t: Sums, i: usize) -> Summary
    requires { i < most_routes }
    ensures { result ≡ record_at t i }
{
    Summary {
        length: t.length[i],
        arcs: t.arcs[i] as u64,
        labels: t.labels[i] as u64,
    }
}

// The summaries with that of round i, from 0.
pub fn with(t: Sums, i: usize, length: u64, arcs: u16, labels: u16) -> Sums
    requires { i < most_routes }
    ensures { result
        ≡ set_entry t i (record { length = length; arcs = arcs; labels = labels }) }
{
    let mut t = t;
    t.length[i] = length;
    t.arcs[i] = arcs;
    t.labels[i] = labels;
    t
}

// The first n records are those of t; the others stay.
pub fn write(s: &mut [Summary], t: Sums, n: usize)
    requires { (n ≤ most_routes) × (n ≤ length s.old) }
    ensures { s.new ≡ written t n s.old }
{
    for i in 0..n {
        s[i] = at(t, i);
    }
}
