// The whole table.
ghost use Rattle.std.specs.Prelude.{◌≡◌, ◌++◌, ◌*◌, ◌≤◌, length, drop};
ghost use Rattle.table.specs.Table.{table_of};
ghost use Rattle.road_file.specs.File.{unfed, feed};
ghost use Rattle.net.specs.Small.{AllSmall};
ghost use Rattle.road_order.specs.Ordered.{ordered};

use crate::{clear, fill};

// The n arcs of a text in order, in front of what lies past them.
pub fn make(text: &[u8], table: &mut [u8], n: usize)
    requires { (n ≡ length (feed unfed text.now).said.arcs) × (n * 16 ≤ length table.old)
        × (n ≤ 4294967295) × AllSmall (feed unfed text.now).said.arcs }
    ensures { table.new
        ≡ table_of (ordered (feed unfed text.now).said.arcs)
        ++ drop (n * 16) table.old }
{
    fill::fill(text, table);
    road_sort::sort(table, n);
    clear::clear(table, n);
}
