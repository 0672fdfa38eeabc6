// The first routes from s to all nodes, and from all nodes to the goal, by the distances: no two
// chains are compared.
#![tactic(auto)]

pub mod pick;
pub mod walk;

ghost use Rattle.std.specs.Prelude.{◌≡◌};
ghost use Rattle.first_routes.specs.Firsts.{forth, back};

use reach::Stand;

// Beyond every length of a route.
pub const FAR: u64 = 1099511627776;

// The number of a node that was not entered.
pub const NONE: u32 = 4294967295;

pub const RANK: usize = 24;

const FORTH: usize = 12;

const LAST: usize = 20;

const BACK: usize = 32;

const FIRST: usize = 28;

// The fields of the search from s.
pub fn forth() -> Stand
    ensures { result ≡ forth }
{
    Stand {
        dist: FORTH,
        last: LAST,
        far: FAR,
    }
}

// The fields of the search to the goal.
pub fn back() -> Stand
    ensures { result ≡ back }
{
    Stand {
        dist: BACK,
        last: FIRST,
        far: FAR,
    }
}
