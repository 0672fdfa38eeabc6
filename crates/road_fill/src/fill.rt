// The arcs of a text as records in file order, each with its place.
ghost use Rattle.std.specs.Prelude.{◌≡◌, ◌+◌, ◌*◌, ◌≤◌, length};
ghost use Rattle.words.specs.Number.{put};
ghost use Rattle.table.specs.Table.{put_arc};
ghost use Rattle.road_file.specs.File.{unfed, feed};
ghost use Rattle.road_fill.specs.Filled.{filled, place_next};

use road_file::Reader;

const RECORD: usize = 16;

const PLACE: usize = 12;

// Record i, and its place.
pub fn place(table: &mut [u8], i: u32, from: u32, to: u32, len: u32)
    requires { i * 16 + 16 ≤ length table.old }
    ensures { table.new
        ≡ put 4 (put_arc table.old i (record { from = from; to = to; len = len }))
        (i * 16 + 12) i }
{
    table::arc::write(table, i as usize, from, to, len);
    words::number::write32(table, i as usize * RECORD + PLACE, i);
}

// The reader's last arc, where one has come.
fn place_next(table: &mut [u8], before: u32, r: Reader)
    requires { r.count * 16 ≤ length table.old × before ≤ r.count }
    ensures { table.new ≡ place_next table.old before r }
{
    if r.count != before {
        place(table, before, r.from, r.to, r.len);
    }
}

// Every arc of the text in the record of its place in the file.
pub fn fill(text: &[u8], table: &mut [u8])
    requires { length (feed unfed text.now).said.arcs * 16 ≤ length table.old }
    ensures { table.new
        ≡ filled (feed unfed text.now).said.arcs table.old }
{
    let mut r = road_file::begin();
    for &byte in text {
        let before = r.count;
        r = road_file::feed(r, byte);
        place_next(table, before, r);
    }
}
