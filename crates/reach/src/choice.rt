// An open arc told by its two nodes and its length.
ghost use Rattle.std.specs.Prelude.{◌≡◌, ◌<◌};
ghost use Rattle.table.specs.Table.{records};
ghost use Rattle.table.specs.Fault.{table_fault, good};
ghost use Rattle.table.specs.Run.{run_start};
ghost use Rattle.reach.specs.Choice.{fits, Chosen};

use crate::step;

// Whether arc a comes to v, has this length and is open.
#[tactic(auto, unfolding(crate::specs::Choice::fits))]
fn fits(table: &[u8], closed: &[u8], a: usize, v: u32, len: u32) -> bool
    requires { a < records table.now }
    ensures { result ≡ fits table.now closed.now v len a }
{
    table::arc::to_of(table, a) == v
        && table::arc::length_of(table, a) == len
        && step::is_open(closed, a)
}

// An open arc of this length from w to v, if there is one. The arcs of w start at `first`.
pub fn open_arc(
    table: &[u8],
    closed: &[u8],
    nodes: u32,
    w: u32,
    first: usize,
    v: u32,
    len: u32,
) -> Option<usize>
    requires { (table_fault nodes table.now ≡ good) × (first ≡ run_start table.now w) }
    ensures { Chosen table.now closed.now w v len result }
{
    for a in first..table.len() / table::arc::RECORD {
        if table::arc::from_of(table, a) != w {
            return None;
        }
        if fits(table, closed, a, v, len) {
            return Some(a);
        }
    }
    None
}
