// A file of accepted plans as a whole: what is wrong with it, which plans it has, and its free
// records.
#![tactic(auto)]

ghost use Rattle.std.specs.Prelude.{◌≡◌, true, ◌&&◌, cond, ◌+◌, ◌-◌, ◌≤◌, ◌<◌, eqb, length};
ghost use Rattle.lists.specs.Tests.{up_from, any};
ghost use Rattle.plan_record.specs.Record.{records, plan_at, rank_at, part_at, part_arcs};
ghost use Rattle.plan_file.specs.File.{is_part, is_double, follows, has_gap, wrong_at, wrong_file};
ghost use Rattle.plan_file.specs.Pass.{Lower, Highest, Passed};
ghost use Rattle.plan_file.specs.Meaning.{has_plan, free_in};

use plan_record::RECORD;

// Whether a part comes right after another of its plan, of rank `earlier` and number `before`: as
// the first part of the next rank, or as the next part of a rank after a full one.
fn after(rank: u8, part: u16, earlier: u8, before: u16, used: u8) -> bool
    ensures { result ≡ cond (eqb part 0) (eqb (earlier + 1) rank)
        (eqb earlier rank
        && (eqb (before + 1) part && eqb used part_arcs)) }
{
    if part == 0 {
        earlier as u32 + 1 == rank as u32
    } else {
        earlier == rank && before as u32 + 1 == part as u32 && used as usize == plan_record::PART
    }
}

// Whether record i comes right after record j.
fn follows(file: &[u8], i: usize, j: usize) -> bool
    requires { (i < records file.now) × (j < records file.now) }
    ensures { result ≡ follows file.now i j }
{
    plan_record::plan(file, j) == plan_record::plan(file, i)
        && after(
            plan_record::rank(file, i),
            plan_record::part(file, i),
            plan_record::rank(file, j),
            plan_record::part(file, j),
            plan_record::used(file, j),
        )
}

// Whether record k is this part of this rank of the plan.
fn is_part(file: &[u8], plan: u32, rank: u8, part: u16, k: usize) -> bool
    requires { k < records file.now }
    ensures { result ≡ is_part file.now plan rank part k }
{
    plan_record::plan(file, k) == plan
        && plan_record::rank(file, k) == rank
        && plan_record::part(file, k) == part
}

// Whether a record before it is the same part.
fn double(file: &[u8], i: usize) -> bool
    requires { i < records file.now }
    ensures { result ≡ is_double file.now i }
{
    let plan = plan_record::plan(file, i);
    let rank = plan_record::rank(file, i);
    let part = plan_record::part(file, i);
    (0..i).any(|k| is_part(file, plan, rank, part, k))
}

// Whether record i comes right after some record.
fn led(file: &[u8], i: usize) -> bool
    requires { i < records file.now }
    ensures { result ≡ any (follows file.now i)
        (up_from 0 (records file.now)) }
{
    (0..file.len() / RECORD).any(|j| follows(file, i, j))
}

// Whether record i is the first part of the first rank.
fn first(file: &[u8], i: usize) -> bool
    requires { i < records file.now }
    ensures { result
        ≡ eqb (rank_at file.now i) 0 && eqb (part_at file.now i) 0 }
{
    plan_record::rank(file, i) == 0 && plan_record::part(file, i) == 0
}

// Whether record i comes right after the record just before it.
fn next(file: &[u8], i: usize) -> bool
    requires { i < records file.now }
    ensures { result ≡ true → (0 < i) × (follows file.now i (i - 1) ≡ true) }
{
    i != 0 && follows(file, i, i - 1)
}

// Whether nothing stands in the file that record i comes after. The record just before it is
// looked at first.
fn gap(file: &[u8], i: usize) -> bool
    requires { i < records file.now }
    ensures { result ≡ has_gap file.now i }
{
    !(first(file, i) || next(file, i) || led(file, i))
}

// Whether record k is none of the plan of record i, or a lower part of it.
fn below(file: &[u8], i: usize, k: usize) -> bool
    requires { (i < records file.now) × (k < records file.now) }
    ensures { result ≡ true → plan_at file.now k ≡ plan_at file.now i
        → Lower file.now k i }
{
    plan_record::plan(file, k) != plan_record::plan(file, i)
        || plan_record::rank(file, k) < plan_record::rank(file, i)
        || (plan_record::rank(file, k) == plan_record::rank(file, i)
            && plan_record::part(file, k) < plan_record::part(file, i))
}

// Whether record i has the highest part so far of its plan, by a look at each record before it.
fn all_below(file: &[u8], i: usize) -> bool
    requires { i < records file.now }
    ensures { result ≡ true → Highest file.now i }
{
    (0..i).all(|k| below(file, i, k))
}

// Whether record i has the highest part so far of its plan: where its plan number is above all so
// far, or it comes right after a record that had, without a look at the records before.
fn highest(file: &[u8], i: usize, top: u32, run: bool) -> bool
    requires { (i < records file.now) × (Passed file.now i top run) }
    ensures { result ≡ true → Highest file.now i }
{
    let plan = plan_record::plan(file, i);
    plan != 0 && (top < plan || (run && next(file, i)) || all_below(file, i))
}

// Whether record i is wrong, where it may be known to have the highest part so far of its plan.
fn wrong_at(file: &[u8], i: usize, highest: bool) -> bool
    requires { (i < records file.now) × (highest ≡ true → Highest file.now i) }
    ensures { result ≡ wrong_at file.now i }
{
    !plan_record::formed(file, i)
        || (plan_record::plan(file, i) != 0 && ((!highest && double(file, i)) || gap(file, i)))
}

// Whether one of the records is wrong.
fn wrong_records(file: &[u8]) -> bool
    ensures { result ≡ any (wrong_at file.now)
        (up_from 0 (records file.now)) }
{
    let mut top = 0;
    let mut run = false;
    for i in 0..file.len() / RECORD {
        run = highest(file, i, top, run);
        if wrong_at(file, i, run) {
            return true;
        }
        top = top.max(plan_record::plan(file, i));
    }
    false
}

// Whether the file is out of form: 16.
pub fn wrong(file: &[u8]) -> bool
    ensures { result ≡ wrong_file file.now }
{
    file.len() % RECORD != 0 || wrong_records(file)
}

// Whether a record belongs to the plan.
pub fn has_plan(file: &[u8], plan: u32) -> bool
    ensures { result ≡ has_plan file.now plan }
{
    (0..file.len() / RECORD).any(|i| plan_record::plan(file, i) == plan)
}

// How many records are free.
pub fn free_count(file: &[u8]) -> usize
    ensures { result ≡ length (free_in file.now) }
{
    (0..file.len() / RECORD)
        .filter(|&i| plan_record::plan(file, i) == 0)
        .count()
}
