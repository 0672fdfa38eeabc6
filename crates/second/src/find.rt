// The arc that goes from one node to another, from a number on.
ghost use Rattle.std.specs.Prelude.{◌≡◌, ◌≤◌};
ghost use Rattle.table.specs.Table.{records};
ghost use Rattle.table.specs.Fault.{table_fault, good};
ghost use Rattle.table.specs.Run.{run_start};
ghost use Rattle.second.specs.Find.{next_from, IsArc};

// The first arc from `first` on, in or after the run of u, that goes from u to v.
fn walk(table: &[u8], nodes: u32, u: u32, v: u32, first: usize) -> Option<usize>
    requires { (table_fault nodes table.now ≡ good)
        × (run_start table.now u ≤ first) × (first ≤ records table.now) }
    ensures { IsArc table.now (next_from table.now u v first) result }
{
    for a in first..table.len() / table::arc::RECORD {
        if table::arc::from_of(table, a) != u {
            return None;
        }
        if table::arc::to_of(table, a) == v {
            return Some(a);
        }
    }
    None
}

// The first arc from `lo` on that goes from u to v; u's arcs start at `first`.
pub fn next(table: &[u8], nodes: u32, u: u32, first: usize, v: u32, lo: usize) -> Option<usize>
    requires { (table_fault nodes table.now ≡ good) × (first ≡ run_start table.now u)
        × (lo ≤ records table.now) }
    ensures { IsArc table.now (next_from table.now u v lo) result }
{
    walk(table, nodes, u, v, lo.max(first))
}
