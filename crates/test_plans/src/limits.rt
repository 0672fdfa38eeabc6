// The limit of a slot's width: a plan of one arc, stored from a slot of 65,535 words and of one more.
ghost use Rattle.std.specs.Prelude.{◌≤◌};

use crate::area;

const WIDE: usize = 65552;

fn end(width: usize) -> usize
    ensures { (8 ≤ result) × (result ≤ 65552) }
{
    if width < WIDE - 8 { width + 8 } else { WIDE }
}

// The outcome.
pub(crate) fn stored(width: usize) -> usize {
    let mut words = [4294967295u32; WIDE];
    let mut file = [0u8; 32];
    let e = end(width);
    words[8] = 262143;
    let told = plan_store::store(&mut file, 1, &words[8..e], 1, area::narrow(width));
    area::wide(told.outcome)
}
