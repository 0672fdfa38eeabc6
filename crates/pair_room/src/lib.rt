// The working room of the pair: what each node's record holds, and the fields of the two searches.
#![tactic(auto)]

ghost use Rattle.std.specs.Prelude.{◌≡◌};
ghost use Rattle.pair_room.specs.Room.{first, again};

use reach::Stand;

// Beyond every length of a route, and beyond every length in the second search.
pub const FAR: u64 = 1099511627776;

pub const FURTHER: u64 = 4611686018427387904;

// The mark of a node that has none.
pub const NONE: u32 = 4294967295;

// The distance from s and the last arc, by the first search and by the second.
pub const DIST: usize = 12;

pub const LAST: usize = 20;

pub const DIST_AGAIN: usize = 24;

pub const LAST_AGAIN: usize = 32;

// The marks: the arc of the first route that leaves the node and is kept, and that of the second
// search's route that is added.
pub const KEPT: usize = 36;

pub const ADDED: usize = 40;

// The fields of the first search.
pub fn first() -> Stand
    ensures { result ≡ first }
{
    Stand {
        dist: DIST,
        last: LAST,
        far: FAR,
    }
}

// The fields of the second search.
pub fn again() -> Stand
    ensures { result ≡ again }
{
    Stand {
        dist: DIST_AGAIN,
        last: LAST_AGAIN,
        far: FURTHER,
    }
}
