// Products too wide for 64 bits, compared without loss, and fractions compared by them.
#![tactic(auto)]

ghost use Rattle.std.specs.Prelude.{◌≡◌, ◌*◌, ltb};

// Whether x times w is less than z times y.
pub fn less(x: u64, w: u64, z: u64, y: u64) -> bool
    ensures { result ≡ ltb (x * w) (z * y) }
{
    u128::from(x) * u128::from(w) < u128::from(z) * u128::from(y)
}

// A fraction of two whole numbers, not reduced: `==` compares the two numbers, `is_less` the values.
#[derive(Clone, Copy, Debug, PartialEq, Eq)]
pub struct Fraction {
    pub over: u64,
    pub under: u64,
}

impl Fraction {
    // Whether it is less than the other, by cross-multiplication.
    pub fn is_less(self, other: Fraction) -> bool
        ensures { result ≡ ltb (self.over * other.under) (other.over * self.under) }
    {
        less(self.over, other.under, other.over, self.under)
    }
}
