// The faults of a road file's arcs, found from its text: which record of the table made is the
// lowest faulty one, and what its number is after ordering.
#![tactic(auto)]

ghost use Rattle.std.specs.Prelude.{◌≡◌, ℕ};
ghost use Rattle.road_file.specs.File.{unfed, feed};
ghost use Rattle.road_file.specs.Reader.{reader_of};
ghost use Rattle.road_order.specs.Lowest.{better, rank};
ghost use Rattle.road_judge.specs.Judged.{fault_by, pick_of, pick_at, pick_in};
ghost use Rattle.road_judge.specs.Judged.{last_by, pick_next, stands_by, stands_next};

pub mod faulty;

use faulty::{Faulty, Place};
use road_file::Reader;

// A text read whole, and its faulty arc.
#[derive(Clone, Copy)]
pub struct Judged {
    pub reader: Reader,
    pub faulty: Option<Faulty>,
}

// The reader's last arc, which is the i-th, is judged.
fn judge(faulty: Option<Faulty>, r: Reader, i: u32) -> Option<Faulty>
    ensures { pick_of result ≡ better (fault_by r.nodes) i (pick_of faulty) (last_by r) }
{
    let Some(fault) = table::fault::fault_of(r.nodes, 0, r.from, r.to, r.len) else {
        return faulty;
    };
    if let Some(lowest) = faulty {
        if lowest.place.start <= r.from {
            return faulty;
        }
    }
    Some(Faulty {
        fault,
        place: Place {
            start: r.from,
            at: i,
        },
    })
}

// The same after one byte more: where an arc has come it is judged.
fn judge_next(faulty: Option<Faulty>, before: u32, r: Reader) -> Option<Faulty>
    ensures { pick_of result ≡ pick_next (pick_of faulty) before r }
{
    if r.count == before {
        return faulty;
    }
    judge(faulty, r, before)
}

// The whole text.
pub fn judge_text(text: &[u8]) -> Judged
    ensures { (result.reader ≡ reader_of (feed unfed text.now))
        × (pick_of result.faulty ≡ pick_in (feed unfed text.now)) }
{
    let mut reader = road_file::begin();
    let mut faulty = None;
    for &byte in text {
        let before = reader.count;
        reader = road_file::feed(reader, byte);
        faulty = judge_next(faulty, before, reader);
    }
    Judged { reader, faulty }
}

// 1 if the reader's last arc, which is the i-th, stands before that place after ordering, else 0.
fn stands(place: Place, r: Reader, i: u32) -> u32
    ensures { result ≡ stands_by place r i }
{
    if r.from != place.start {
        return u32::from(r.from < place.start);
    }
    u32::from(i < place.at)
}

fn stands_next(place: Place, before: u32, r: Reader) -> u32
    ensures { result ≡ stands_next place before r }
{
    if r.count == before {
        return 0;
    }
    stands(place, r, before)
}

// How many arcs of the text stand before that place after ordering.
pub fn rank_text(text: &[u8], place: Place) -> u32
    ensures { (fault : ℕ) → result ≡ rank (pick_at fault place) (feed unfed text.now).said.arcs }
{
    let mut r = road_file::begin();
    let mut n = 0;
    for &byte in text {
        let before = r.count;
        r = road_file::feed(r, byte);
        n += stands_next(place, before, r);
    }
    n
}
