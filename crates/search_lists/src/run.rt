// The start of a label's run, by the label's number. Callers never see offsets.
ghost use Rattle.std.specs.Prelude.{◌≡◌, ◌+◌, ◌*◌, ◌≤◌, length};
ghost use Rattle.labels.specs.Field.{label_bytes};
ghost use Rattle.search_lists.specs.Run.{run_at, put_run};

const RUN: usize = 20;

pub fn run(labels: &[u8], label: usize) -> u32
    requires { label * label_bytes + label_bytes ≤ length labels.now }
    ensures { result ≡ run_at labels.now label }
{
    words::number::read32(labels, label * labels::field::LABEL + RUN)
}

pub fn put_run(labels: &mut [u8], label: usize, arc: u32)
    requires { label * label_bytes + label_bytes ≤ length labels.old }
    ensures { labels.new ≡ put_run labels.old label arc }
{
    words::number::write32(labels, label * labels::field::LABEL + RUN, arc);
}
