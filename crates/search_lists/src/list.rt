// A list of labels by their links: which of its labels covers, and which are covered.
ghost use Rattle.std.specs.Prelude.{◌≡◌, ◌+◌, ◌*◌, ◌≤◌, ◌<◌, length};
ghost use Rattle.lists.specs.Tests.{any};
ghost use Rattle.labels.specs.Field.{label_bytes, most_earlier};
ghost use Rattle.search_lists.specs.Link.{list_at, Linked, covers_at, Swept};
ghost use Rattle.search_lists.specs.Listed.{none_greater};

use crate::link;

// Whether label k has no greater overlap with each earlier answer.
fn no_greater(labels: &[u8], k: usize, own: &[u64]) -> bool
    requires { (k * label_bytes + label_bytes ≤ length labels.now)
        × (length own.now ≤ most_earlier) }
    ensures { result ≡ none_greater labels.now k own.now }
{
    (0..own.len()).all(|j| labels::field::overlap(labels, k, j) <= own[j])
}

// Whether a label of the list from a head on has no greater overlap with each earlier answer.
pub fn has_covering(labels: &[u8], n: usize, head: usize, own: &[u64]) -> bool
    requires { (Linked labels.now n) × (head ≤ n) × (length own.now ≤ most_earlier) }
    ensures { result ≡ any (λ k. none_greater labels.now k own.now)
        (list_at labels.now head) }
{
    let mut h = head;
    while h != 0 {
        let k = h - 1;
        if no_greater(labels, k, own) {
            return true;
        }
        h = link::link(labels, k) as usize;
    }
    false
}

// Whether label k has no greater overlap than label i with each of r earlier answers.
fn covers(labels: &[u8], r: usize, k: usize, i: usize) -> bool
    requires { (k * label_bytes + label_bytes ≤ length labels.now)
        × (i * label_bytes + label_bytes ≤ length labels.now) × (r ≤ most_earlier) }
    ensures { result ≡ covers_at labels.now r k i }
{
    (0..r).all(|j| labels::field::overlap(labels, k, j) <= labels::field::overlap(labels, i, j))
}

// Takes out of the list behind label i what it covers.
pub fn sweep(labels: &mut [u8], n: usize, r: usize, i: usize)
    requires { (Linked labels.old n) × (r ≤ most_earlier) × (i < n) }
    ensures { Swept labels.old n i r labels.new }
{
    let mut p = i;
    let mut h = link::link(labels, i) as usize;
    while h != 0 {
        let k = h - 1;
        let next = link::link(labels, k);
        if covers(labels, r, i, k) {
            link::put_link(labels, p, next);
            h = next as usize;
            continue;
        }
        p = k;
        h = next as usize;
    }
}
