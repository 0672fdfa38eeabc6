ghost use Rattle.std.specs.Prelude.{◌≡◌, ◌-◌, ◌≤◌, length, replicate};
ghost use Rattle.words.specs.Part.{patch};

pub fn fill<T: Copy>(b: &mut [T], v: T)
    ensures { b.new ≡ replicate (length b.old) v }
{
    for x in b.iter_mut() {
        *x = v;
    }
}

// The elements from `a` to `e`.
pub fn fill_part<T: Copy>(b: &mut [T], a: usize, e: usize, v: T)
    requires { (a ≤ e) × (e ≤ length b.old) }
    ensures { b.new ≡ patch a e b.old (replicate (e - a) v) }
{
    fill(&mut b[a..e], v);
}
