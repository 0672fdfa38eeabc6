// The order of two candidates by their arc numbers, by a walk back over the labels: the longer
// chain first to the other's number of arcs, then both together until they meet.
//
//   0 ---3---> 1 ---7---> 4 ---2---> 6 ..9..>     3 7 2 9
//              1 ---5---> 2 ..8..>                3 5 8
//
// Label 6 is left for label 4, from which arc 2 goes on: 2 against 8, the first comes first. Then
// both step back, by 7 against 5: the second comes first. At label 1 they meet.
//
// Where the far ancestor does not pass the walk's end, the walk goes there: so it costs a logarithm
// of the number of arcs. What is passed over does not count, since far ancestors that differ stand
// for chains that differ.
#![tactic(auto)]

ghost use Rattle.std.specs.Prelude.{◌≡◌, [], ◌∷◌, ◌++◌, ◌⊎◌, ◌≤◌, ◌<◌, length, take, get_or};
ghost use Rattle.lists.specs.Tests.{lex};
ghost use Rattle.net.specs.Route.{numbers_first};
ghost use Rattle.labels.specs.Chain.{chain_at};
ghost use Rattle.labels.specs.Standing.{Down, Jumping, Comparable};
ghost use Rattle.label_ties.specs.Together.{together};

use labels::field;

// A label, and the arc by which a chain goes on from it.
#[derive(Drop)]
struct Left {
    label: usize,
    arc: u32,
}

// Of two numbers that differ the lower comes first; equal ones leave it to what comes after them.
#[tactic(auto, using(std::proofs::lemmas::Bool::Decides::nat_tests), unfolding(lists::specs::Tests::lex))]
fn decide(p: u32, q: u32, after: bool) -> bool
    ensures { result ≡ lex p q after }
{
    p < q || p == q && after
}

// Of a chain and one arc more: the label of its first d arcs, and the arc after those.
fn climb(labels: &[u8], n: usize, label: usize, arc: u32, d: u16) -> Left
    requires { (Down labels.now n) × (Jumping labels.now n) × (label < n)
        × (d ≤ length (chain_at labels.now label)) }
    ensures { (result.label < n)
        × (chain_at labels.now result.label ≡ take d (chain_at labels.now label))
        × (result.arc ≡ get_or (chain_at labels.now label ++ (arc ∷ [])) d 0) }
{
    let mut at = label;
    let mut next = arc;
    let mut e = field::depth(labels, label);
    while e > d {
        let far = field::far(labels, at) as usize;
        let f = field::depth(labels, far);
        if f > d {
            at = far;
            e = f;
            continue;
        }
        next = field::last_arc(labels, at);
        at = field::extends(labels, at) as usize;
        e -= 1;
    }
    Left {
        label: at,
        arc: next,
    }
}

// Two chains of as many arcs compared from the start; where all are equal, `after`.
fn together(labels: &[u8], n: usize, u: usize, v: usize, after: bool) -> bool
    requires { (Comparable labels.now n) × (u < n) × (v < n)
        × (length (chain_at labels.now u) ≡ length (chain_at labels.now v)) }
    ensures { result ≡ together (chain_at labels.now u)
        (chain_at labels.now v) after }
{
    let mut x = u;
    let mut y = v;
    let mut r = after;
    while x != y {
        let x_far = field::far(labels, x) as usize;
        let y_far = field::far(labels, y) as usize;
        if x_far != y_far {
            x = x_far;
            y = y_far;
            continue;
        }
        let x_extends = field::extends(labels, x) as usize;
        let y_extends = field::extends(labels, y) as usize;
        r = decide(field::last_arc(labels, x), field::last_arc(labels, y), r);
        x = x_extends;
        y = y_extends;
    }
    r
}

// Whether the arc numbers of label i's chain with arc a come before those of label j's with arc c.
pub fn numbers_first(labels: &[u8], n: usize, i: usize, a: u32, j: usize, c: u32) -> bool
    requires { (Comparable labels.now n) × (i < n) × (j < n) }
    ensures { result ≡ numbers_first (chain_at labels.now i ++ (a ∷ []))
        (chain_at labels.now j ++ (c ∷ [])) }
{
    let k = field::depth(labels, i);
    let m = field::depth(labels, j);
    let d = k.min(m);
    let x = climb(labels, n, i, a, d);
    let y = climb(labels, n, j, c, d);
    together(labels, n, x.label, y.label, decide(x.arc, y.arc, k < m))
}
