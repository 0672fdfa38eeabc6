// What a search is asked, and its candidates.
#![tactic(auto)]

ghost use Rattle.std.specs.Prelude.{◌≡◌, ◌+◌, ◌-◌, ◌*◌, ◌≤◌, length};
ghost use Rattle.words.specs.Part.{slot};
ghost use Rattle.net.specs.Route.{length_of};
ghost use Rattle.table.specs.Table.{arcs_of};
ghost use Rattle.search_ask.specs.Ask.{width, Searching, Among, chain_of};

// What is asked of a round, beside the table.
#[derive(Clone, Copy)]
pub struct Ask {
    pub nodes: u32,
    pub s: u32,
    pub goal: u32,
    pub a: u32,
    pub b: u32,
}

// A label and an arc that leaves its end; `NO_ARC` where there is none.
#[derive(Clone, Copy)]
pub struct Candidate {
    pub label: usize,
    pub arc: usize,
}

// A number, as in the bytes of a label, which each turn reads and writes.
pub const NO_ARC: usize = 4294967295;

// The words of a slot.
pub fn width(ask: Ask) -> usize
    requires { 1 ≤ ask.nodes }
    ensures { result ≡ width ask }
{
    ask.nodes as usize - 1
}

// Slot j of the area, from 0.
#[tactic(auto, unfolding(words::specs::Part::slot))]
pub fn slot(area: &[u32], ask: Ask, j: usize) -> &[u32]
    requires { (1 ≤ ask.nodes) × (j * width ask + width ask ≤ length area.now) }
    ensures { result.now ≡ slot (width ask) j area.now }
{
    let w = width(ask);
    let from = j * w;
    let to = from + w;
    &area[from..to]
}

// The length of a candidate.
pub fn length_of(table: &[u8], ask: Ask, labels: &[u8], n: usize, c: Candidate) -> u64
    requires { (Searching ask table.now labels.now n) × (Among table.now n c) }
    ensures { result
        ≡ length_of (arcs_of table.now) (chain_of labels.now c) }
{
    labels::field::length(labels, c.label) + table::arc::length_of(table, c.arc) as u64
}
