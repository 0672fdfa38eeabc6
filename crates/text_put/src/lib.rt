// Text put into a lent buffer, piece after piece.
#![tactic(auto)]

ghost use Rattle.std.specs.Prelude.{◌∷◌, ◌+◌, ◌≤◌, length};
ghost use Rattle.numerals.specs.Decimal.{decimal};
ghost use Rattle.text_put.specs.Put.{Appended, space};

// The bytes of s at place `at`; the place after them.
pub fn bytes(out: &mut [u8], at: usize, s: &[u8]) -> usize
    requires { at + length s.now ≤ length out.old }
    ensures { Appended out.old at s.now out.new result }
{
    let next = at + s.len();
    out[at..next].copy_from_slice(s);
    next
}

// A space and a number.
pub fn spaced(out: &mut [u8], at: usize, v: u64) -> usize
    requires { at + length (space ∷ decimal v) ≤ length out.old }
    ensures { Appended out.old at (space ∷ decimal v)
        out.new result }
{
    out[at] = b' ';
    numerals::put(out, at + 1, v)
}
