// The working fields of a label by its number. Callers never see offsets.
ghost use Rattle.std.specs.Prelude.{◌≡◌, ◌+◌, ◌*◌, ◌≤◌, length};
ghost use Rattle.labels.specs.Field.{label_bytes};
ghost use Rattle.search_queue.specs.Working.{cursor_at, winner_at, key_at, put_winner, put_own};

use labels::field;

const CURSOR: usize = 24;

const WINNER: usize = 28;

const KEY: usize = 32;

// The last arc of the label's own next candidate.
pub fn cursor(labels: &[u8], label: usize) -> u32
    requires { label * label_bytes + label_bytes ≤ length labels.now }
    ensures { result ≡ cursor_at labels.now label }
{
    words::number::read32(labels, label * field::LABEL + CURSOR)
}

// That candidate's key.
pub fn key(labels: &[u8], label: usize) -> u64
    requires { label * label_bytes + label_bytes ≤ length labels.now }
    ensures { result ≡ key_at labels.now label }
{
    words::number::read64(labels, label * field::LABEL + KEY)
}

// The winner of the two blocks, the second of which begins with this label.
pub fn winner(labels: &[u8], label: usize) -> u16
    requires { label * label_bytes + label_bytes ≤ length labels.now }
    ensures { result ≡ winner_at labels.now label }
{
    words::number::read16(labels, label * field::LABEL + WINNER)
}

pub fn put_winner(labels: &mut [u8], label: usize, w: u16)
    requires { label * label_bytes + label_bytes ≤ length labels.old }
    ensures { labels.new ≡ put_winner labels.old label w }
{
    words::number::write16(labels, label * field::LABEL + WINNER, w);
}

// The label's own next candidate has this last arc and this key.
pub fn put_own(labels: &mut [u8], label: usize, arc: u32, key: u64)
    requires { label * label_bytes + label_bytes ≤ length labels.old }
    ensures { labels.new ≡ put_own labels.old label arc key }
{
    let at = label * field::LABEL;
    words::number::write32(labels, at + CURSOR, arc);
    words::number::write64(labels, at + KEY, key);
}
