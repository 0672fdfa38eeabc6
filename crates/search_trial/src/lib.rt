// The two tests on a candidate, by its overlaps and those that the labels hold: it is within the
// threshold of every earlier answer, and no label at its end covers it.
#![tactic(auto)]

pub mod overlap;

ghost use Rattle.std.specs.Prelude.{◌≡◌, ◌≢◌, ◌<◌, length};
ghost use Rattle.search_lists.specs.Listed.{Listed};
ghost use Rattle.search_trial.specs.Trial.{Measured, within_each, passes_at};

use search_ask::{Ask, Candidate};

// A candidate on trial, after r earlier answers and with n labels.
#[derive(Drop)]
pub struct Trial {
    pub r: usize,
    pub n: usize,
    pub c: Candidate,
}

// Whether each overlap is within the threshold of the earlier answer's length.
fn within(ask: Ask, lens: &[u64], own: &[u64]) -> bool
    requires { Measured ask lens.now own.now }
    ensures { result ≡ within_each ask.a ask.b lens.now own.now }
{
    let above = ask.a as u64;
    let below = ask.b as u64;
    for (j, overlap) in own.iter().enumerate() {
        if above * lens[j] < below * *overlap {
            return false;
        }
    }
    true
}

// Whether a candidate that ends there passes both tests.
pub fn passes(
    ask: Ask,
    area: &[u32],
    lens: &[u64],
    labels: &[u8],
    n: usize,
    end: u32,
    own: &[u64],
) -> bool
    requires { (Measured ask lens.now own.now)
        × (Listed ask (length own.now) area.now labels.now n) × (n ≢ 0)
        × (end < ask.nodes) }
    ensures { result ≡ passes_at ask lens.now labels.now n end
        own.now }
{
    within(ask, lens, own) && !search_lists::covered(ask, area, labels, n, end, own)
}
