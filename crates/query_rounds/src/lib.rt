// The rounds of a query, one after the other.
#![tactic(auto)]

ghost use Rattle.std.specs.Prelude.{◌≡◌, cond, ◌<◌, ◌≤◌, eqb, length, set};
ghost use Rattle.net.specs.Limits.{most_routes};
ghost use Rattle.search_ask.specs.Ask.{query_for, width};
ghost use Rattle.query_rounds.specs.Progress.{
  Wanted,
  Underway,
  Stepped,
  after_of,
  outcome_at,
  progress,
  Zeros,
};
ghost use Rattle.query_rounds.specs.declared.Stage.TheVariants.{GoesOn, Found};
ghost use Rattle.query_rounds.specs.Finished.{Finished};

use outcome::{Outcome, Refusal, Told};
use round::Ended;
use search_ask::Ask;
use summary::{Summary, Sums};

// The outcome, the summaries, and how many of them are to be written: none under a refusal.
#[derive(Drop)]
pub struct Got {
    pub told: Told,
    pub sums: Sums,
    pub n: usize,
}

impl From<Refusal> for Got {
    ghost use Rattle.std.specs.Prelude.{◌≡◌};
    ghost use Rattle.outcome.specs.Outcome.{told_of};

    ghost from_gives = { λ refusal got. (got.told ≡ told_of refusal) × (got.n ≡ 0) };

    fn from(refusal: Refusal) -> Got {
        Got {
            told: Told::from(refusal),
            sums: Sums::NONE,
            n: 0,
        }
    }
}

// Where a query is: it goes on, or it ends with all its routes, with fewer, or refused for room.
#[derive(Clone, Copy, Debug, PartialEq, Eq)]
pub enum Stage {
    GoesOn,
    Found,
    Fewer,
    NoRoom,
}

// How many rounds were answered, and the stage.
#[derive(Clone, Copy)]
pub struct Stand {
    pub r: usize,
    pub stage: Stage,
}

// What a round adds to the progress: the new number of answers, the stage, and its summary.
#[derive(Clone, Copy)]
struct Added {
    r: usize,
    stage: Stage,
    row: Summary,
}

// The stage after r answers.
fn stage_after(r: usize, k: usize) -> Stage
    ensures { result ≡ cond (eqb r k) Found GoesOn }
{
    if r == k { Stage::Found } else { Stage::GoesOn }
}

// What a round that ended so adds to a progress of r answers; `room` is the room for labels.
fn after(e: Ended, r: usize, k: usize, room: usize) -> Added
    requires { r < most_routes }
    ensures { result ≡ after_of e r k room }
{
    match e {
        Ended::Answer(l, m, n) => Added {
            r: r + 1,
            stage: stage_after(r + 1, k),
            row: Summary {
                length: l,
                arcs: m as u64,
                labels: n as u64,
            },
        },
        Ended::NoAnswer(n) => Added {
            r,
            stage: Stage::Fewer,
            row: Summary {
                length: 0,
                arcs: 0,
                labels: n as u64,
            },
        },
        Ended::Refused => Added {
            r,
            stage: Stage::NoRoom,
            row: Summary {
                length: 0,
                arcs: 0,
                labels: room as u64,
            },
        },
    }
}

// The summary of round r, from 0, in the lent rows.
fn note(lens: &mut [u64], arcs: &mut [u16], counts: &mut [u16], r: usize, row: Summary)
    requires { (r < length lens.old) × (r < length arcs.old) × (r < length counts.old)
        × (row.arcs < 65536) × (row.labels < 65536) }
    ensures { (lens.new ≡ set lens.old r row.length)
        × (arcs.new ≡ set arcs.old r row.arcs)
        × (counts.new ≡ set counts.old r row.labels) }
{
    lens[r] = row.length;
    arcs[r] = row.arcs as u16;
    counts[r] = row.labels as u16;
}

// One round more, after r answers. The summaries are rows of numbers that the caller lends, so that
// they stand on the stack once.
pub fn step(
    table: &[u8],
    closed: &[u8],
    ask: Ask,
    k: usize,
    labels: &mut [u8],
    area: &mut [u32],
    lens: &mut [u64],
    arcs: &mut [u16],
    counts: &mut [u16],
    r: usize,
) -> Stand
    requires { (Wanted ask table.now k labels.old area.old)
        × (Underway (query_for ask table.now closed.now labels.old) (width ask) k
        area.old (progress r GoesOn lens.old arcs.old counts.old)) }
    ensures { (length labels.new ≡ length labels.old)
        × (Stepped (query_for ask table.now closed.now
        labels.old) (width ask) k area.old
        (progress r GoesOn lens.old arcs.old counts.old)
        area.new
        (progress result.r result.stage lens.new arcs.new counts.new)) }
{
    let e = round::round(table, closed, ask, area, &lens[0..r], labels);
    let y = after(e, r, k, labels.len() / labels::field::LABEL);
    note(lens, arcs, counts, r, y.row);
    Stand {
        r: y.r,
        stage: y.stage,
    }
}

// What the stage that ends a query tells after r answers.
fn tell(stage: Stage, r: usize) -> Told
    requires { r ≤ most_routes }
    ensures { result ≡ outcome_at stage r }
{
    match stage {
        Stage::GoesOn | Stage::Found => Outcome::Found.plain(),
        Stage::Fewer => Outcome::Fewer.plain(),
        Stage::NoRoom => Outcome::Room.beside(r as u32 + 1),
    }
}

// All rounds of a query for k routes, into rows of zeros: the slots are blank at first, and the
// labels are cleared at the end.
pub fn all(
    table: &[u8],
    closed: &[u8],
    ask: Ask,
    k: usize,
    labels: &mut [u8],
    area: &mut [u32],
    lens: &mut [u64],
    arcs: &mut [u16],
    counts: &mut [u16],
) -> Told
    requires { (Wanted ask table.now k labels.old area.old) × (1 ≤ k)
        × (Zeros lens.old arcs.old counts.old) }
    ensures { Finished (query_for ask table.now closed.now
        labels.old) (width ask) k labels.old area.old
        (record {
          told = result;
          sums = record {
            length = lens.new;
            arcs = arcs.new;
            labels = counts.new;
          };
          n = k;
        })
        labels.new area.new }
{
    let w = ask.nodes as usize - 1;
    let end = k * w;
    words::fill::fill_part(area, 0, end, labels::field::NONE);
    let mut x = Stand {
        r: 0,
        stage: Stage::GoesOn,
    };
    while let Stage::GoesOn = x.stage {
        x = step(table, closed, ask, k, labels, area, lens, arcs, counts, x.r);
    }
    words::fill::fill(labels, 0);
    tell(x.stage, x.r)
}
