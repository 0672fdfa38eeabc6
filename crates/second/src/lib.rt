// The second table of 02.9: the arcs of the first, bytes and all, in order of end node and then arc
// number. Judged and walked without room of its own.
#![tactic(auto)]

mod find;
mod judge;

ghost use Rattle.std.specs.Prelude.{◌≡◌, false, ◌≤◌, ◌<◌, length};
ghost use Rattle.table.specs.Table.{records};
ghost use Rattle.table.specs.Fault.{table_fault, good};
ghost use Rattle.second.specs.Second.{wrong_second};
ghost use Rattle.second.specs.Lookup.{coming_start, coming_of, part_by, run_by};

// Which arcs of a node: those that leave it, or those that come to it.
#[derive(Clone, Copy, Debug, PartialEq, Eq)]
pub enum Direction {
    Leaving,
    Coming,
}

// Whether the second table is not the arcs of a good first one in their order. Start nodes come again
// soon, so where their arcs start is kept.
fn wrong_by(table: &[u8], second: &[u8], nodes: u32, starts: &mut [u32]) -> bool
    requires { (table_fault nodes table.now ≡ good) × (131 ≤ length starts.old) }
    ensures { result ≡ wrong_second nodes table.now second.now }
{
    if second.len() != table.len() {
        return true;
    }
    let mut end = 0;
    let mut lo = 0;
    for j in 0..table.len() / table::arc::RECORD {
        let first = run_starts::kept(table, nodes, table::arc::from_of(second, j), starts);
        let Some(a) = judge::found_for(table, second, nodes, j, first, end, lo) else {
            return true;
        };
        end = table::arc::to_of(second, j);
        lo = a + 1;
    }
    false
}

pub fn wrong(table: &[u8], second: &[u8], nodes: u32) -> bool
    requires { table_fault nodes table.now ≡ good }
    ensures { result ≡ wrong_second nodes table.now second.now }
{
    let mut starts = [0u32; run_starts::KEPT];
    wrong_by(table, second, nodes, &mut starts)
}

// Where the arcs that come to v start in a right second table, by halves.
pub fn coming_start(table: &[u8], second: &[u8], nodes: u32, v: u32) -> usize
    requires { (table_fault nodes table.now ≡ good)
        × (wrong_second nodes table.now second.now ≡ false) }
    ensures { result ≡ coming_start second.now v }
{
    let mut from = 0;
    let mut to = second.len() / table::arc::RECORD;
    while from < to {
        let mid = from + (to - from) / 2;
        if table::arc::to_of(second, mid) < v {
            from = mid + 1;
        } else {
            to = mid;
        }
    }
    from
}

// The records of a right second table that end at v.
#[tactic(auto, using(crate::proofs::ComingLaws::coming_bounds), unfolding(crate::specs::Lookup::coming_of))]
fn coming_of<'a>(table: &'a [u8], second: &'a [u8], nodes: u32, v: u32) -> &'a [u8]
    requires { (table_fault nodes table.now ≡ good)
        × (wrong_second nodes table.now second.now ≡ false) × (v < nodes) }
    ensures { result.now ≡ coming_of second.now v }
{
    let from = coming_start(table, second, nodes, v) * table::arc::RECORD;
    let to = coming_start(table, second, nodes, v + 1) * table::arc::RECORD;
    &second[from..to]
}

// The run of node v by direction, of a good table and a right second one.
#[tactic(auto, unfolding(crate::specs::Lookup::part_by))]
fn part_by<'a>(
    table: &'a [u8],
    second: &'a [u8],
    nodes: u32,
    direction: Direction,
    v: u32,
) -> &'a [u8]
    requires { (table_fault nodes table.now ≡ good)
        × (wrong_second nodes table.now second.now ≡ false) × (v < nodes) }
    ensures { result.now
        ≡ part_by direction table.now second.now v }
{
    match direction {
        Direction::Leaving => table::run::run_of(table, nodes, v),
        Direction::Coming => coming_of(table, second, nodes, v),
    }
}

// The run of node v, a part of the one table or the other; an empty part where either table is
// refused or v is no node.
pub fn run<'a>(
    table: &'a [u8],
    second: &'a [u8],
    nodes: u32,
    direction: Direction,
    v: u32,
) -> &'a [u8]
    ensures { result.now
        ≡ run_by nodes table.now second.now direction v }
{
    if nodes <= v || table::fault::check(table, nodes).is_err() || wrong(table, second, nodes) {
        return &[];
    }
    part_by(table, second, nodes, direction, v)
}
