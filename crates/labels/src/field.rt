// The fields of a label by its number. Callers never see offsets.
ghost use Rattle.std.specs.Prelude.{◌≡◌, ◌≢◌, ◌+◌, ◌*◌, ◌≤◌, ◌<◌, length};
ghost use Rattle.net.specs.Limits.{most_labels};
ghost use Rattle.labels.specs.Field.{label_bytes, head_bytes, most_earlier, put_head, puts};
ghost use Rattle.labels.specs.Field.{last_arc_at, extends_at, length_at, end_at, overlap_at};
ghost use Rattle.labels.specs.Field.{far_at, depth_at, far_of, depth_of};
ghost use Rattle.labels.specs.Standing.{Down, Jumping};

// A label has its overlap with each of so many earlier routes.
pub const MOST_EARLIER: usize = 11;

// The bytes of a label: its head, and its overlaps.
pub const LABEL: usize = HEAD + 8 * MOST_EARLIER;

const HEAD: usize = 40;

// No arc: the last arc of the empty chain, and what fills a slot after its arcs.
pub const NONE: u32 = 4294967295;

// Where each field stands. Label numbers, nodes and numbers of arcs have 16 bits: there are at most
// 65,535 labels and 65,536 nodes, each numbered from 0, and a chain has at most 65,535 arcs. An arc
// number, below 262,144, needs 18 bits and has 32.
const LAST_ARC: usize = 0;

const EXTENDS: usize = 4;

const FAR: usize = 6;

const LENGTH: usize = 8;

const END: usize = 16;

const DEPTH: usize = 18;

pub fn last_arc(labels: &[u8], label: usize) -> u32
    requires { label * label_bytes + label_bytes ≤ length labels.now }
    ensures { result ≡ last_arc_at labels.now label }
{
    words::number::read32(labels, label * LABEL + LAST_ARC)
}

pub fn extends(labels: &[u8], label: usize) -> u16
    requires { label * label_bytes + label_bytes ≤ length labels.now }
    ensures { result ≡ extends_at labels.now label }
{
    words::number::read16(labels, label * LABEL + EXTENDS)
}

pub fn length(labels: &[u8], label: usize) -> u64
    requires { label * label_bytes + label_bytes ≤ length labels.now }
    ensures { result ≡ length_at labels.now label }
{
    words::number::read64(labels, label * LABEL + LENGTH)
}

pub fn end(labels: &[u8], label: usize) -> u32
    requires { label * label_bytes + label_bytes ≤ length labels.now }
    ensures { result ≡ end_at labels.now label }
{
    words::number::read16(labels, label * LABEL + END) as u32
}

// A far ancestor: a lower label whose chain begins this one's.
pub fn far(labels: &[u8], label: usize) -> u16
    requires { label * label_bytes + label_bytes ≤ length labels.now }
    ensures { result ≡ far_at labels.now label }
{
    words::number::read16(labels, label * LABEL + FAR)
}

// How many arcs its chain has.
pub fn depth(labels: &[u8], label: usize) -> u16
    requires { label * label_bytes + label_bytes ≤ length labels.now }
    ensures { result ≡ depth_at labels.now label }
{
    words::number::read16(labels, label * LABEL + DEPTH)
}

// The overlap of its chain with the r-th earlier route, from 0.
pub fn overlap(labels: &[u8], label: usize, r: usize) -> u64
    requires { (label * label_bytes + label_bytes ≤ length labels.now) × (r < most_earlier) }
    ensures { result ≡ overlap_at labels.now label r }
{
    words::number::read64(labels, label * LABEL + (HEAD + 8 * r))
}

// The far ancestor of a label behind those that there are, by the label that it extends.
fn far_of(labels: &[u8], label: usize, extends: u16) -> u16
    requires { (Down labels.now label) × (Jumping labels.now label)
        × (label ≢ 0 → extends < label) }
    ensures { result ≡ far_of labels.now label extends }
{
    if label == 0 {
        return 0;
    }
    let next = far(labels, extends as usize);
    let after = far(labels, next as usize);
    let d = depth(labels, extends as usize);
    let e = depth(labels, next as usize);
    let f = depth(labels, after as usize);
    if d - e == e - f {
        return after;
    }
    extends
}

// How many arcs its chain has.
fn depth_of(labels: &[u8], label: usize, extends: u16) -> u16
    requires { (Down labels.now label) × (Jumping labels.now label)
        × (label ≢ 0 → extends < label) × (label < most_labels) }
    ensures { result ≡ depth_of labels.now label extends }
{
    if label == 0 {
        return 0;
    }
    depth(labels, extends as usize) + 1
}

// The head of a label behind those that there are is made of the four, and of what follows from
// the label that it extends. Label 0 extends none.
pub fn put_head(labels: &mut [u8], label: usize, arc: u32, extends: u16, len: u64, end: u16)
    requires { (label * label_bytes + label_bytes ≤ length labels.old)
        × (Down labels.old label) × (Jumping labels.old label)
        × (label ≢ 0 → extends < label) × (label < most_labels) }
    ensures { labels.new
        ≡ put_head labels.old label arc extends len end }
{
    let far = far_of(labels, label, extends);
    let depth = depth_of(labels, label, extends);
    let at = label * LABEL;
    words::number::write32(labels, at + LAST_ARC, arc);
    words::number::write16(labels, at + EXTENDS, extends);
    words::number::write16(labels, at + FAR, far);
    words::number::write64(labels, at + LENGTH, len);
    words::number::write16(labels, at + END, end);
    words::number::write16(labels, at + DEPTH, depth);
}

// The label's overlaps, with as many earlier routes as there are.
pub fn put_overlaps(labels: &mut [u8], label: usize, overlaps: &[u64])
    requires { (label * label_bytes + label_bytes ≤ length labels.old)
        × (length overlaps.now ≤ most_earlier) }
    ensures { labels.new ≡ puts labels.old
        (label * label_bytes + head_bytes) overlaps.now }
{
    for (r, &overlap) in overlaps.iter().enumerate() {
        words::number::write64(labels, label * LABEL + (HEAD + 8 * r), overlap);
    }
}
