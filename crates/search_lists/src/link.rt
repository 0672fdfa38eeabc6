// The link of a label by its number: the number, and one more, of the label that comes after it in
// its list; 0 ends the list. Callers never see offsets. A number and no Option: a list is mended, and
// a head becomes a link, by writing the number that was read.
ghost use Rattle.std.specs.Prelude.{◌≡◌, ◌+◌, ◌*◌, ◌≤◌, length};
ghost use Rattle.labels.specs.Field.{label_bytes};
ghost use Rattle.search_lists.specs.Link.{link_at, put_link};

const LINK: usize = 30;

pub fn link(labels: &[u8], label: usize) -> u16
    requires { label * label_bytes + label_bytes ≤ length labels.now }
    ensures { result ≡ link_at labels.now label }
{
    words::number::read16(labels, label * labels::field::LABEL + LINK)
}

pub fn put_link(labels: &mut [u8], label: usize, next: u16)
    requires { label * label_bytes + label_bytes ≤ length labels.old }
    ensures { labels.new ≡ put_link labels.old label next }
{
    words::number::write16(labels, label * labels::field::LABEL + LINK, next);
}
