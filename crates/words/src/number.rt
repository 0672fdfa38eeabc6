ghost use Rattle.std.specs.Prelude.{◌≡◌, ◌+◌, ◌*◌, ◌≤◌, length};
ghost use Rattle.words.specs.Number.{num, put};

fn join2(a: u8, b: u8) -> u16
    ensures { result ≡ a + b * 256 }
{
    (a as u16) + (b as u16) * 256
}

fn join4(a: u8, b: u8, c: u8, d: u8) -> u32
    ensures { result ≡ a + b * 256 + c * 65536 + d * 16777216 }
{
    (a as u32) + (b as u32) * 256 + (c as u32) * 65536 + (d as u32) * 16777216
}

fn join8(low: u32, high: u32) -> u64
    ensures { result ≡ low + high * 4294967296 }
{
    (low as u64) + (high as u64) * 4294967296
}

// The number of 16 bits at `at`.
pub fn read16(b: &[u8], at: usize) -> u16
    requires { at + 2 ≤ length b.now }
    ensures { result ≡ num 2 b.now at }
{
    join2(b[at], b[at + 1])
}

// The number of 32 bits at `at`.
pub fn read32(b: &[u8], at: usize) -> u32
    requires { at + 4 ≤ length b.now }
    ensures { result ≡ num 4 b.now at }
{
    join4(b[at], b[at + 1], b[at + 2], b[at + 3])
}

// The number of 64 bits at `at`.
pub fn read64(b: &[u8], at: usize) -> u64
    requires { at + 8 ≤ length b.now }
    ensures { result ≡ num 8 b.now at }
{
    join8(read32(b, at), read32(b, at + 4))
}

pub fn write16(b: &mut [u8], at: usize, v: u16)
    requires { at + 2 ≤ length b.old }
    ensures { b.new ≡ put 2 b.old at v }
{
    b[at] = (v % 256) as u8;
    b[at + 1] = (v / 256 % 256) as u8;
}

pub fn write32(b: &mut [u8], at: usize, v: u32)
    requires { at + 4 ≤ length b.old }
    ensures { b.new ≡ put 4 b.old at v }
{
    b[at] = (v % 256) as u8;
    b[at + 1] = (v / 256 % 256) as u8;
    b[at + 2] = (v / 65536 % 256) as u8;
    b[at + 3] = (v / 16777216 % 256) as u8;
}

pub fn write64(b: &mut [u8], at: usize, v: u64)
    requires { at + 8 ≤ length b.old }
    ensures { b.new ≡ put 8 b.old at v }
{
    write32(b, at, (v % 4294967296) as u32);
    write32(b, at + 4, (v / 4294967296) as u32);
}
