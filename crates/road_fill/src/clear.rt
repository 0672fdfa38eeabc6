// After sorting the places in bytes 12 to 15 go.
ghost use Rattle.std.specs.Prelude.{◌≡◌, ◌*◌, ◌≤◌, length};
ghost use Rattle.road_fill.specs.Filled.{cleared};

const RECORD: usize = 16;

const PLACE: usize = 12;

// Bytes 12 to 15 of the first n records.
pub fn clear(table: &mut [u8], n: usize)
    requires { n * 16 ≤ length table.old }
    ensures { table.new ≡ cleared n table.old }
{
    for i in 0..n {
        words::number::write32(table, i * RECORD + PLACE, 0);
    }
}
