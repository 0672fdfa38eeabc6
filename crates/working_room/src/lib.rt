// The working room lent beside a table: a record of 64 bytes for each node, its fields by their
// offsets.
#![tactic(auto)]

ghost use Rattle.std.specs.Prelude.{◌≡◌, ◌+◌, ◌*◌, ◌≤◌, length};
ghost use Rattle.working_room.specs.Field.{room_bytes, long_at, word_at, put_long, put_word};

pub const NODE: usize = 64;

pub fn long(room: &[u8], field: usize, v: usize) -> u64
    requires { (v * room_bytes + room_bytes ≤ length room.now) × (field + 8 ≤ room_bytes) }
    ensures { result ≡ long_at field room.now v }
{
    words::number::read64(room, v * NODE + field)
}

pub fn word(room: &[u8], field: usize, v: usize) -> u32
    requires { (v * room_bytes + room_bytes ≤ length room.now) × (field + 4 ≤ room_bytes) }
    ensures { result ≡ word_at field room.now v }
{
    words::number::read32(room, v * NODE + field)
}

pub fn put_long(room: &mut [u8], field: usize, v: usize, x: u64)
    requires { (v * room_bytes + room_bytes ≤ length room.old) × (field + 8 ≤ room_bytes) }
    ensures { room.new ≡ put_long field room.old v x }
{
    words::number::write64(room, v * NODE + field, x);
}

pub fn put_word(room: &mut [u8], field: usize, v: usize, x: u32)
    requires { (v * room_bytes + room_bytes ≤ length room.old) × (field + 4 ≤ room_bytes) }
    ensures { room.new ≡ put_word field room.old v x }
{
    words::number::write32(room, v * NODE + field, x);
}
