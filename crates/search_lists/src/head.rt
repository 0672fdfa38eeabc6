// The head of a node's list: a word of the round's own slot of the route area, the number, and one
// more, of its first label; a blank word where there is none.
ghost use Rattle.std.specs.Prelude.{◌≡◌, ◌≢◌, ◌+◌, ◌*◌, ◌≤◌, ◌<◌, length};
ghost use Rattle.search_ask.specs.Ask.{width};
ghost use Rattle.search_lists.specs.Listed.{place_of, head_of};

use search_ask::Ask;

// Where in the area the word of node v stands, after r earlier answers. No word is for s.
#[tactic(auto, unfolding(crate::specs::Listed::place_of))]
pub fn place(ask: Ask, r: usize, area: &[u32], v: u32) -> usize
    requires { (r * width ask + width ask ≤ length area.now)
        × (v < ask.nodes) × (v ≢ ask.s) × (ask.s < ask.nodes) }
    ensures { (result ≡ r * width ask + place_of ask.s v)
        × (result < length area.now) }
{
    let first = r * (ask.nodes as usize - 1);
    if ask.s < v {
        return first + (v as usize - 1);
    }
    first + v as usize
}

// The head that a word is: 0 where there is no list.
#[tactic(auto, unfolding(crate::specs::Listed::head_of))]
pub fn head(word: u32) -> usize
    ensures { result ≡ head_of word }
{
    if word == labels::field::NONE {
        return 0;
    }
    word as usize
}
