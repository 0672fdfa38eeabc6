// The whole search of a round: its turns, after which nothing of their work is left.
#![tactic(auto)]

ghost use Rattle.std.specs.Prelude.{◌≡◌, ◌≢◌, length};
ghost use Rattle.search_ask.specs.Ask.{width, query_for};
ghost use Rattle.search_ask.specs.Earlier.{earlier_of};
ghost use Rattle.round_label.specs.Stage.{Ready};
ghost use Rattle.round_label.specs.declared.Stage.TheVariants.{GoesOn};
ghost use Rattle.round_label.specs.Lists.{Blank};
ghost use Rattle.round_search.specs.Search.{Finished};

use round_label::State;
use search_ask::Ask;

// All turns of a round after the earlier answers, whose lengths are `lens`, over the arcs that are
// not closed. Then the working bytes of its labels are zero again, and its slot is blank again.
pub fn search(
    table: &[u8],
    closed: &[u8],
    ask: Ask,
    area: &mut [u32],
    lens: &[u64],
    labels: &mut [u8],
) -> State
    requires { (Ready ask table.now area.old lens.now labels.old)
        × (Blank (width ask) (length lens.now) area.old) }
    ensures { (result.stage ≢ GoesOn)
        × (Finished (query_for ask table.now closed.now labels.old)
        (earlier_of ask area.old lens.now)
        labels.old labels.new result)
        × (area.new ≡ area.old) }
{
    let x = round_turn::turns(table, closed, ask, area, lens, labels);
    let n = x.n;
    search_clear::clear_work(labels, n);
    let w = ask.nodes as usize - 1;
    let from = lens.len() * w;
    let to = from + w;
    words::fill::fill_part(area, from, to, labels::field::NONE);
    x
}
