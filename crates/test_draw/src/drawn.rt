// Drawn tables: what is asked of a table, and its arcs.
ghost use Rattle.std.specs.Prelude.{◌≡◌, ◌≤◌, ◌<◌, ◌-◌, ℕ, length, get_or, IsTrue};
ghost use Rattle.test_cells.specs.Bounded.{sum, product};

use crate::cells;
use crate::draw::{below, either, once_in, rest};

// The draws of each arc, from FIRST on.
const FIRST: usize = 32;

const OF_ARC: usize = 16;

// How the arcs lie: anyhow; in a row of the nodes, from the start to the goal, where most lead to the
// next node or, longer, past it; or anyhow, with many that lead to the goal.
#[derive(Clone, Copy, PartialEq, Eq)]
pub enum Lie {
    Anyhow,
    InRow,
    ToGoal,
}

// The manners in which arcs have road numbers: none; one for both sides of a street; few, of so many;
// the greatest.
#[derive(Clone, Copy)]
pub enum Roads {
    None,
    BothSides,
    Few(usize),
    Greatest,
}

// A table: the number of its case, its nodes and arcs, how they lie, how many lengths are common, and
// the road numbers.
#[derive(Clone, Copy)]
pub struct Table {
    pub case: usize,
    pub nodes: usize,
    pub arcs: usize,
    pub lie: Lie,
    pub lengths: usize,
    pub roads: Roads,
}

// One number for both directions between two nodes.
pub fn street(from: usize, to: usize) -> usize
    ensures up { from < to → result ≡ sum (sum (product to 8) from) 1 }
    ensures down { to ≤ from → result ≡ sum (sum (product from 8) to) 1 }
{
    let low = test_cells::pick(from < to, from, to);
    let high = test_cells::pick(from < to, to, from);
    test_cells::add(test_cells::place(high, 8, low), 1)
}

// One of the three greatest numbers, or 0.
pub fn greatest(x: usize) -> usize
    ensures none { x ≡ 0 → result ≡ 0 }
    ensures one { 0 < x → x ≤ 3 → result ≡ 4294967296 - x }
    ensures past { 3 < x → result ≡ 0 }
{
    if x == 0 || x > 3 { 0 } else { 4294967296 - x }
}

// Draw j of arc i.
fn of_arc(i: usize, j: usize) -> usize {
    test_cells::add(test_cells::place(i, OF_ARC, FIRST), j)
}

impl Table {
    fn width(self) -> usize
        ensures { result ≡ self.nodes - 1 }
    {
        test_cells::less_one(self.nodes)
    }

    // Another node than v: number x of them.
    fn other(self, x: usize, v: usize) -> usize {
        let y = rest(x, self.width());
        test_cells::pick(y < v, y, test_cells::add(y, 1))
    }

    fn first_node(self) -> usize {
        match self.lie {
            Lie::InRow => 0,
            _ => below(self.case, 12, self.nodes),
        }
    }

    fn goal(self) -> usize {
        match self.lie {
            Lie::InRow => self.width(),
            _ => self.other(below(self.case, 13, 60), self.first_node()),
        }
    }

    // The start nodes never fall, and each is that of about as many arcs.
    fn start(self, i: usize) -> usize {
        let x = test_cells::place(i, self.nodes, below(self.case, of_arc(i, 0), self.nodes));
        if self.arcs == 0 { 0 } else { x / self.arcs }
    }

    // The end nodes go round, but one time in three any is drawn, which may lay two arcs beside each
    // other.
    fn any_end(self, i: usize, from: usize) -> usize {
        let any = below(self.case, of_arc(i, 2), 60);
        let drawn = once_in(self.case, of_arc(i, 1), 3);
        let round = test_cells::add(below(self.case, 19, 60), i);
        self.other(test_cells::pick(drawn, any, round), from)
    }

    // Where many lead to the goal, one time in four.
    fn end(self, i: usize, from: usize) -> usize {
        let next = test_cells::add(from, 1);
        let to = test_cells::add(next, below(self.case, of_arc(i, 8), 2));
        let goal = self.goal();
        let there = once_in(self.case, of_arc(i, 7), 4) && from != goal;
        match self.lie {
            Lie::InRow if to < self.nodes => to,
            Lie::ToGoal if there => goal,
            _ => self.any_end(i, from),
        }
    }

    // Mostly short, so that ties are common; in a row more for an arc past a node; now and then the
    // longest.
    fn length(self, i: usize, from: usize, to: usize) -> usize {
        let past = self.lie == Lie::InRow && to == test_cells::add(from, 2);
        let least = test_cells::pick(past, 3, 1);
        let any = test_cells::add(below(self.case, of_arc(i, 3), self.lengths), least);
        let most = once_in(self.case, of_arc(i, 4), 60);
        test_cells::pick(most, 1000000, any)
    }

    // The road number of arc i, which leads from `from` to `to`.
    fn road(self, i: usize, from: usize, to: usize) -> usize {
        let draw = of_arc(i, 5);
        match self.roads {
            Roads::None => 0,
            Roads::BothSides => street(from, to),
            Roads::Few(n) => below(self.case, draw, n),
            Roads::Greatest => greatest(below(self.case, draw, 6)),
        }
    }

    // The closure byte of arc i: in three quarters of the cases all are open.
    fn closure(self, i: usize) -> usize {
        let manner = test_cells::add(below(self.case, 18, 4), 3);
        let closed = once_in(self.case, of_arc(i, 6), manner);
        test_cells::pick(once_in(self.case, 17, 4), closed as usize, 0)
    }

    #[tactic(auto, using(crate::proofs::Places::asked_kept))]
    fn put_arc(self, case: &mut [usize], i: usize)
        ensures { (k : ℕ) → k < 13 → get_or case.new k 0 ≡ get_or case.old k 0 }
    {
        let from = self.start(i);
        let to = self.end(i, from);
        test_cells::put(case, cells::place(i, cells::FROM), from);
        test_cells::put(case, cells::place(i, cells::TO), to);
        test_cells::put(case, cells::place(i, cells::LONG), self.length(i, from, to));
        test_cells::put(case, cells::place(i, cells::ROAD), self.road(i, from, to));
        test_cells::put(case, cells::place(i, cells::CLOSED), self.closure(i));
    }

    // Words of the area: those of so many slots, and some more.
    pub fn words(self, routes: usize) -> usize
        ensures { (n : ℕ) × (n ≤ 3) × (result ≡ sum (product (self.nodes - 1) routes) n) }
    {
        test_cells::place(self.width(), routes, below(self.case, 10, 4))
    }

    // Bytes of working room past those that the nodes need.
    pub fn more_work(self) -> usize
        ensures { result ≤ 63 }
    {
        below(self.case, 14, 64)
    }

    // A query for so many routes on the table, with closures, the words of its slots and room for all
    // labels; what else is asked, the program puts there.
    pub fn put(self, case: &mut [usize], routes: usize)
        ensures same_length { length case.new ≡ length case.old }
        ensures nodes { 13 ≤ length case.old → get_or case.new 0 0 ≡ self.nodes }
        ensures arcs { 13 ≤ length case.old → get_or case.new 1 0 ≡ self.arcs }
        ensures routes { 13 ≤ length case.old → get_or case.new 4 0 ≡ routes }
        ensures closures { 13 ≤ length case.old
            → (get_or case.new 11 0 ≡ 1) × (get_or case.new 12 0 ≡ self.arcs) }
    {
        test_cells::put(case, cells::NODES, self.nodes);
        test_cells::put(case, cells::ARC_COUNT, self.arcs);
        test_cells::put(case, cells::START, self.first_node());
        test_cells::put(case, cells::GOAL, self.goal());
        test_cells::put(case, cells::ROUTES, routes);
        test_cells::put(case, cells::ROOM, 1000);
        test_cells::put(case, cells::WORDS, self.words(routes));
        test_cells::put(case, cells::CLOSURES, 1);
        test_cells::put(case, cells::CLOSURE_BYTES, self.arcs);
        for i in 0..self.arcs {
            self.put_arc(case, i);
        }
    }
}

// A table that has many routes: in a row, or many to the goal. Half of the tables have no road numbers.
pub fn many(case: usize, in_row: bool) -> Table
    ensures number { result.case ≡ case }
    ensures nodes { (2 ≤ result.nodes) × (result.nodes < 7) }
    ensures arcs { (1 ≤ result.arcs) × (result.arcs < 13) }
    ensures lengths { IsTrue in_row → result.lengths ≡ 2 }
{
    let lengths = test_cells::pick(once_in(case, 16, 2), 3, 9);
    Table {
        case,
        nodes: either(case, 0, 6, 2..7, 4..7),
        arcs: either(case, 2, 10, 1..13, 9..13),
        lie: if in_row { Lie::InRow } else { Lie::ToGoal },
        lengths: test_cells::pick(in_row, 2, lengths),
        roads: match below(case, 15, 4) {
            1 => Roads::BothSides,
            2 => Roads::Few(3),
            _ => Roads::None,
        },
    }
}

// The query for so many routes at 0/1 on such a table, with the working room.
pub fn put_many(case: &mut [usize], table: Table, routes: usize)
    ensures same_length { length case.new ≡ length case.old }
    ensures nodes { 13 ≤ length case.old → get_or case.new 0 0 ≡ table.nodes }
    ensures threshold { 13 ≤ length case.old → get_or case.new 6 0 ≡ 1 }
    ensures room { 78 < length case.old
        → (n : ℕ) × (n ≤ 63) × (get_or case.new 78 0 ≡ sum (product table.nodes 64) n) }
{
    let nodes = test_cells::mul(table.nodes, cells::WORK_NODE);
    table.put(case, routes);
    test_cells::put(case, cells::THRESHOLD_B, 1);
    test_cells::put(
        case,
        cells::WORK_BYTES,
        test_cells::add(nodes, table.more_work()),
    );
}
