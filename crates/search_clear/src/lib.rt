// The working bytes of labels made zero again.
#![tactic(auto)]

ghost use Rattle.std.specs.Prelude.{◌≡◌, ◌*◌, ◌≤◌, length};
ghost use Rattle.labels.specs.Field.{label_bytes};
ghost use Rattle.search_clear.specs.Clear.{clear_work};

const WORKING: usize = 20;

// Those of the first n labels.
pub fn clear_work(labels: &mut [u8], n: usize)
    requires { n * label_bytes ≤ length labels.old }
    ensures { labels.new ≡ clear_work n labels.old }
{
    for i in 0..n {
        let at = i * labels::field::LABEL + WORKING;
        words::number::write32(labels, at, 0);
        words::number::write64(labels, at + 4, 0);
        words::number::write64(labels, at + 12, 0);
    }
}
