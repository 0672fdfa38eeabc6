// The winner tree over the labels' own candidates. Blocks of 1, 2, 4, .. labels stand side by side in
// twos; the label with which the second of two begins has the winner of both:
//
//   label       0    1    2    3    4    5    6    7
//   winner of       0-1  0-3  2-3  0-7  4-5  4-7  6-7
//
// Labels from n on do not play.
ghost use Rattle.std.specs.Prelude.{◌≡◌, ◌+◌, ◌*◌, ◌/◌, ◌%◌, ◌≤◌, ◌<◌};
ghost use Rattle.net.specs.Limits.{most_labels};
ghost use Rattle.labels.specs.Standing.{Comparable};
ghost use Rattle.search_tree.specs.Tree.{First, Tree, TreeBut, Climbs, Enters, Block};
ghost use Rattle.search_queue.specs.Working.{winner_at};
ghost use Rattle.search_queue.specs.Only.{Only};
ghost use Rattle.search_queue.specs.Order.{sooner, NotAfter, Chosen};

use crate::working;

// Whether label i's candidate comes before label j's.
fn is_sooner(labels: &[u8], n: usize, i: usize, j: usize) -> bool
    requires { (Comparable labels.now n) × (i < n) × (j < n) }
    ensures { result ≡ sooner labels.now i j }
{
    let k = working::key(labels, i);
    let m = working::key(labels, j);
    if k != m {
        return k < m;
    }
    let a = working::cursor(labels, i);
    let c = working::cursor(labels, j);
    label_ties::numbers_first(labels, n, i, a, j, c)
}

// Of labels i and j the one whose candidate comes first.
fn choose(labels: &[u8], n: usize, i: usize, j: usize) -> usize
    requires { (Comparable labels.now n) × (i < n) × (j < n) }
    ensures { Chosen labels.now i j result }
{
    if is_sooner(labels, n, j, i) { j } else { i }
}

// The first of the block of `half` labels from e on, next to block j of as many, in which i stands.
fn first_of(labels: &[u8], n: usize, i: usize, j: usize, half: usize, w: usize, e: usize) -> usize
    requires { (Comparable labels.now n) × (n ≤ most_labels) × (i < n) × (half < n)
        × (Climbs (NotAfter labels.now) (winner_at labels.now) n i half j w)
        × (Block e half) × (e < n) }
    ensures { First (NotAfter labels.now) n e (e + half) result }
{
    let s = search_tree::narrow(e, half, n);
    if s == 1 {
        return e;
    }
    working::winner(labels, e + s / 2) as usize
}

// One level up from label i, w the first of block j of `half` labels, in which i stands: the winner
// of this block and the one next to it, written.
fn level(labels: &mut [u8], n: usize, i: usize, j: usize, half: usize, w: usize) -> usize
    requires { (Comparable labels.old n) × (n ≤ most_labels) × (i < n) × (half < n)
        × (Climbs (NotAfter labels.old) (winner_at labels.old) n i half j w) }
    ensures { (Only 28 2 n labels.old labels.new)
        × (Climbs (NotAfter labels.old) (winner_at labels.new)
        n i (half * 2) (j / 2) result) }
{
    let from = j * half;
    if j % 2 == 1 {
        let v = first_of(labels, n, i, j, half, w, from - half);
        let u = choose(labels, n, w, v);
        working::put_winner(labels, from, u as u16);
        return u;
    }
    let mid = from + half;
    if n <= mid {
        return w;
    }
    let v = first_of(labels, n, i, j, half, w, mid);
    let u = choose(labels, n, w, v);
    working::put_winner(labels, mid, u as u16);
    u
}

// After label i's candidate changed, or label i came in: the winners over it anew. The first of all.
pub fn update(labels: &mut [u8], n: usize, i: usize) -> usize
    requires { (Comparable labels.old n) × (n ≤ most_labels) × (i < n)
        × (TreeBut (NotAfter labels.old) (winner_at labels.old) n i) }
    ensures { (Only 28 2 n labels.old labels.new)
        × (Tree (NotAfter labels.new) (winner_at labels.new) n)
        × (First (NotAfter labels.new) n 0 n result) }
{
    let mut w = i;
    let mut half = 1;
    let mut j = i;
    while half < n {
        w = level(labels, n, i, j, half, w);
        j = j / 2;
        half = half * 2;
    }
    w
}

// The winner of label n's block, the second of two, in which it is alone, and the block before it.
fn join(labels: &mut [u8], n: usize, j: usize, half: usize) -> usize
    requires { (Comparable labels.old (n + 1)) × (n < most_labels)
        × (Tree (NotAfter labels.old) (winner_at labels.old) n)
        × (Climbs (NotAfter labels.old) (winner_at labels.old) (n + 1) n half j n)
        × (n ≡ j * half) × (j % 2 ≡ 1) }
    ensures { (Only 28 2 (n + 1) labels.old labels.new)
        × (Enters (NotAfter labels.old) (winner_at labels.new)
        n (half * 2) (j / 2) result) }
{
    let v = first_of(labels, n + 1, n, j, half, n, n - half);
    let u = choose(labels, n + 1, v, n);
    working::put_winner(labels, n, u as u16);
    u
}

// The way up from label n, which came in and is the first of block `block` of `size` labels, in
// which it stands: it takes the place of the winners that do not come before it, up to the first
// that does. The first of all.
fn rise(labels: &mut [u8], n: usize, root: usize, block: usize, size: usize) -> usize
    requires { (Comparable labels.old (n + 1)) × (n < most_labels)
        × (First (NotAfter labels.old) n 0 n root)
        × (Enters (NotAfter labels.old) (winner_at labels.old) n size block n) }
    ensures { (Only 28 2 (n + 1) labels.old labels.new)
        × (Tree (NotAfter labels.new) (winner_at labels.new) (n + 1))
        × (First (NotAfter labels.new) (n + 1) 0 (n + 1) result) }
{
    let mut j = block;
    let mut half = size;
    while half <= n {
        if j % 2 == 0 {
            j = j / 2;
            half = half * 2;
            continue;
        }
        let at = j * half;
        let w = working::winner(labels, at) as usize;
        if is_sooner(labels, n + 1, w, n) {
            return root;
        }
        working::put_winner(labels, at, n as u16);
        j = j / 2;
        half = half * 2;
    }
    n
}

// After label n came in behind the others, of which `root` is the first: the winners over it. As
// `update(labels, n + 1, n)`, but the way up ends where label n does not win. The first of all.
pub fn enter(labels: &mut [u8], n: usize, root: usize) -> usize
    requires { (Comparable labels.old (n + 1)) × (n < most_labels)
        × (Tree (NotAfter labels.old) (winner_at labels.old) n)
        × (First (NotAfter labels.old) n 0 n root) }
    ensures { (Only 28 2 (n + 1) labels.old labels.new)
        × (Tree (NotAfter labels.new) (winner_at labels.new) (n + 1))
        × (First (NotAfter labels.new) (n + 1) 0 (n + 1) result) }
{
    let mut j = n;
    let mut half = 1;
    while j % 2 == 0 {
        j = j / 2;
        half = half * 2;
    }
    let u = join(labels, n, j, half);
    if u != n {
        return root;
    }
    rise(labels, n, root, j / 2, half * 2)
}
