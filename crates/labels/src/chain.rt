// The chain of a label, by the labels that it extends.
ghost use Rattle.std.specs.Prelude.{◌≡◌, ◌≤◌, ◌<◌, length};
ghost use Rattle.labels.specs.Chain.{chain_at, slot_of};
ghost use Rattle.labels.specs.Standing.{Down};

use crate::field;

// How many arcs the chain of a label has, of n labels.
pub fn arcs(labels: &[u8], n: usize, label: usize) -> usize
    requires { (Down labels.now n) × (label < n) }
    ensures { result ≡ length (chain_at labels.now label) }
{
    let mut k = 0;
    let mut j = label;
    while j != 0 {
        j = field::extends(labels, j) as usize;
        k += 1;
    }
    k
}

// The chain of a label in the first words of the slot, and `NONE` in those after it.
pub fn write(labels: &[u8], n: usize, label: usize, slot: &mut [u32])
    requires { (Down labels.now n) × (label < n)
        × (length (chain_at labels.now label) ≤ length slot.old) }
    ensures { slot.new
        ≡ slot_of (length slot.old) (chain_at labels.now label) }
{
    words::fill::fill(slot, field::NONE);
    let mut k = arcs(labels, n, label);
    let mut j = label;
    while j != 0 {
        k -= 1;
        slot[k] = field::last_arc(labels, j);
        j = field::extends(labels, j) as usize;
    }
}
