// The labels at each node, in a list, the newest first: of a node's labels those that no newer one
// of them covers. The heads stand in the round's own slot of the route area, a word for each node
// but s, whose first label covers everything that comes back to it.
#![tactic(auto)]

mod head;
mod link;
mod list;
pub mod run;

ghost use Rattle.std.specs.Prelude.{◌≡◌, ◌≢◌, ◌+◌, ◌*◌, ◌≤◌, ◌<◌, length, set, replicate};
ghost use Rattle.words.specs.Part.{slot};
ghost use Rattle.net.specs.Limits.{most_labels};
ghost use Rattle.labels.specs.Field.{label_bytes, no_number, most_earlier, end_at};
ghost use Rattle.table.specs.Fault.{table_fault, good};
ghost use Rattle.table.specs.Run.{run_start};
ghost use Rattle.search_ask.specs.Ask.{width};
ghost use Rattle.search_queue.specs.Only.{Only};
ghost use Rattle.search_lists.specs.Listed.{Listed, FirstAt, place_of, covered_at};
ghost use Rattle.search_lists.specs.Run.{Runs, put_run};

use search_ask::Ask;

// Label 0, just put, is in no list: it is the one label at s.
pub fn begin(ask: Ask, r: usize, area: &[u32], labels: &mut [u8])
    requires { (label_bytes ≤ length labels.old) × (FirstAt ask r labels.old)
        × (r * width ask + width ask ≤ length area.now)
        × (slot (width ask) r area.now ≡ replicate (width ask) no_number) }
    ensures { (Only 30 2 1 labels.old labels.new)
        × (Listed ask r area.now labels.new 1) }
{
    link::put_link(labels, 0, 0);
}

// Label n, just put, gets the start of its run: that of the label that is the head of its node's
// list, or else found by halves.
pub fn start(table: &[u8], ask: Ask, r: usize, area: &[u32], labels: &mut [u8], n: usize)
    requires { (table_fault ask.nodes table.now ≡ good)
        × (Listed ask r area.now labels.old n) × (Runs table.now labels.old n)
        × (n * label_bytes + label_bytes ≤ length labels.old)
        × (end_at labels.old n < ask.nodes) × (end_at labels.old n ≢ ask.s) }
    ensures { labels.new ≡ put_run labels.old n
        (run_start table.now (end_at labels.old n)) }
{
    let nodes = ask.nodes;
    let v = labels::field::end(labels, n);
    let place = head::place(ask, r, area, v);
    let h = head::head(area[place]);
    if h == 0 {
        run::put_run(labels, n, table::run::run_start(table, nodes, v) as u32);
        return;
    }
    let start = run::run(labels, h - 1);
    run::put_run(labels, n, start);
}

// Label n, just put, goes before the list of its node, and what it covers is taken out.
pub fn enlist(ask: Ask, r: usize, area: &mut [u32], labels: &mut [u8], n: usize)
    requires { (Listed ask r area.old labels.old n) × (n ≢ 0) × (n < most_labels)
        × (n * label_bytes + label_bytes ≤ length labels.old) × (r ≤ most_earlier)
        × (end_at labels.old n < ask.nodes) × (end_at labels.old n ≢ ask.s) }
    ensures { (Only 30 2 (n + 1) labels.old labels.new)
        × (area.new ≡ set area.old
        (r * width ask + place_of ask.s (end_at labels.old n)) (n + 1))
        × (Listed ask r area.new labels.new (n + 1)) }
{
    let place = head::place(ask, r, area, labels::field::end(labels, n));
    let old = area[place];
    let new = (n + 1) as u32;
    link::put_link(labels, n, head::head(old) as u16);
    list::sweep(labels, n + 1, r, n);
    area[place] = new;
}

// Whether one of n labels covers a candidate with these overlaps that ends there.
pub fn covered(ask: Ask, area: &[u32], labels: &[u8], n: usize, end: u32, own: &[u64]) -> bool
    requires { (Listed ask (length own.now) area.now labels.now n) × (n ≢ 0)
        × (length own.now ≤ most_earlier) × (end < ask.nodes) }
    ensures { result ≡ covered_at labels.now n end own.now }
{
    if end == ask.s {
        return true;
    }
    let place = head::place(ask, own.len(), area, end);
    list::has_covering(labels, n, head::head(area[place]), own)
}
