// The fields of an arc by its number, and an arc as a record.
ghost use Rattle.std.specs.Prelude.{◌≡◌, ◌+◌, ◌*◌, ◌≤◌, ◌<◌, length};
ghost use Rattle.table.specs.Table.{records, from_at, to_at, len_at, road_at, record_bytes};
ghost use Rattle.table.specs.Table.{put_arc, with_record};

pub const RECORD: usize = 16;

const FROM: usize = 0;

const TO: usize = 4;

const LENGTH: usize = 8;

const ROAD: usize = 12;

pub fn from_of(table: &[u8], arc: usize) -> u32
    requires { arc < records table.now }
    ensures { result ≡ from_at table.now arc }
{
    words::number::read32(table, arc * RECORD + FROM)
}

pub fn to_of(table: &[u8], arc: usize) -> u32
    requires { arc < records table.now }
    ensures { result ≡ to_at table.now arc }
{
    words::number::read32(table, arc * RECORD + TO)
}

pub fn length_of(table: &[u8], arc: usize) -> u32
    requires { arc < records table.now }
    ensures { result ≡ len_at table.now arc }
{
    words::number::read32(table, arc * RECORD + LENGTH)
}

// The road number; 0 where the arc is a road of its own.
pub fn road_of(table: &[u8], arc: usize) -> u32
    requires { arc < records table.now }
    ensures { result ≡ road_at table.now arc }
{
    words::number::read32(table, arc * RECORD + ROAD)
}

// An arc as record i. Bytes 12 to 15 of the record stay.
pub fn write(table: &mut [u8], i: usize, from: u32, to: u32, len: u32)
    requires { i * record_bytes + record_bytes ≤ length table.old }
    ensures { table.new
        ≡ put_arc table.old i (record { from = from; to = to; len = len }) }
{
    words::number::write32(table, i * RECORD + FROM, from);
    words::number::write32(table, i * RECORD + TO, to);
    words::number::write32(table, i * RECORD + LENGTH, len);
}

// The same for any number: where there is no such record, nothing is written.
pub fn put(table: &mut [u8], i: usize, from: u32, to: u32, len: u32)
    ensures { table.new
        ≡ with_record table.old i (record { from = from; to = to; len = len }) }
{
    if i < table.len() / RECORD {
        write(table, i, from, to, len);
    }
}
