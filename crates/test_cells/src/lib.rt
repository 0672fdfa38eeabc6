// Guarded reads, stores and sums for the programs that test the library: an index past the end
// reads 0 and stores nothing, and a sum or a product of numbers past its bound stays at a bound.
#![tactic(auto)]

ghost use Rattle.std.specs.Prelude.{◌≡◌, cond, ◌-◌, get_or, set};
ghost use Rattle.test_cells.specs.Bounded.{sum, product, part};

pub fn get(s: &[usize], i: usize) -> usize
    ensures { result ≡ get_or s.now i 0 }
{
    s.get(i).copied().unwrap_or(0)
}

pub fn put<T: Copy>(s: &mut [T], i: usize, v: T)
    ensures { s.new ≡ set s.old i v }
{
    if i < s.len() {
        s[i] = v;
    }
}

pub fn byte(s: &[u8], i: usize) -> u8
    ensures { result ≡ get_or s.now i 0 }
{
    s.get(i).copied().unwrap_or(0)
}

#[tactic(auto, unfolding(crate::specs::Bounded::sum))]
pub fn add(a: usize, b: usize) -> usize
    ensures { result ≡ sum a b }
{
    if a < 1099511627776 && b < 1099511627776 {
        a + b
    } else {
        1099511627776
    }
}

#[tactic(auto, unfolding(crate::specs::Bounded::product))]
pub fn mul(a: usize, b: usize) -> usize
    ensures { result ≡ product a b }
{
    if a < 4294967296 && b < 4294967296 {
        a * b
    } else {
        18446744073709551615
    }
}

// Cell j of row i, where a row has w cells.
pub fn place(i: usize, w: usize, j: usize) -> usize
    ensures { result ≡ sum (product i w) j }
{
    add(mul(i, w), j)
}

// `yes` where the test holds, and else `no`.
pub fn pick(test: bool, yes: usize, no: usize) -> usize
    ensures { result ≡ cond test yes no }
{
    if test { yes } else { no }
}

// One less, but not below 0.
pub fn less_one(x: usize) -> usize
    ensures { result ≡ x - 1 }
{
    x.saturating_sub(1)
}

// The bytes from i up to e; none where there are no such.
#[tactic(auto, unfolding(crate::specs::Bounded::part))]
pub fn between(s: &[u8], i: usize, e: usize) -> &[u8]
    ensures { result.now ≡ part s.now i e }
{
    s.get(i..e).unwrap_or(&[])
}
