// A plan withdrawn from a file of accepted plans, and the file's records collected.
#![tactic(auto)]

ghost use Rattle.std.specs.Prelude.{◌≡◌, ◌%◌, ◌≤◌, ◌<◌, length};
ghost use Rattle.outcome.specs.Outcome.{plain, told_by};
ghost use Rattle.plan_record.specs.Record.{record_bytes, records, with_record};
ghost use Rattle.plan_change.specs.Change.{withdrawn_in, withdraw_outcome, Withdrawn};
ghost use Rattle.plan_change.specs.Change.{collected_in, Collected};
ghost use Rattle.plan_change.specs.Moved.{withdrawn_at, moved_to, moved_next, Moved};

use outcome::{Outcome, Refusal, Told};

// The refusals in their order.
fn refused(file: &[u8], plan: u32) -> Result<(), Refusal>
    ensures { told_by result ≡ plain (withdraw_outcome file.now plan) }
{
    if plan_file::wrong(file) {
        return Err(Refusal::plain(Outcome::PlanFile));
    }
    if plan == 0 {
        return Err(Refusal::plain(Outcome::PlanRequest));
    }
    if !plan_file::has_plan(file, plan) {
        return Err(Refusal::plain(Outcome::PlanThere));
    }
    Ok(())
}

// Record i made free where it is the plan's.
fn clear_of(file: &mut [u8], i: usize, plan: u32)
    requires { i < records file.old }
    ensures { file.new
        ≡ with_record file.old i (withdrawn_at file.old plan i) }
{
    if plan_record::plan(file, i) == plan {
        plan_record::clear(file, i);
    }
}

// Every record of the plan made free.
fn clear_all(file: &mut [u8], plan: u32)
    requires { length file.old % record_bytes ≡ 0 }
    ensures { file.new ≡ withdrawn_in file.old plan }
{
    for i in 0..file.len() / plan_record::RECORD {
        clear_of(file, i, plan);
    }
}

// The records of a plan made free. A file out of form is refused with 16, plan number zero with 17,
// an absent plan with 18; a refusal changes nothing.
pub fn withdraw(file: &mut [u8], plan: u32) -> Told
    ensures { Withdrawn file.old plan result file.new }
{
    if let Err(refusal) = refused(file, plan) {
        return refusal.into();
    }
    clear_all(file, plan);
    Outcome::Found.plain()
}

// Record i as record w, which is not after it, where it is in use; the record for the next.
fn move_record(file: &mut [u8], w: usize, i: usize) -> usize
    requires { (w ≤ i) × (i < records file.old) }
    ensures { (file.new ≡ moved_to file.old w i)
        × (result ≡ moved_next file.old w i) }
{
    if plan_record::plan(file, i) == 0 {
        return w;
    }
    plan_record::copy(file, w, i);
    w + 1
}

// The records in use moved to the front in their order; how many there are.
fn move_all(file: &mut [u8]) -> usize
    ensures { Moved file.old result file.new }
{
    let mut w = 0;
    for i in 0..file.len() / plan_record::RECORD {
        w = move_record(file, w, i);
    }
    w
}

// The records in use moved to the front in their order, and zeros after them.
fn collect_all(file: &mut [u8])
    requires { length file.old % record_bytes ≡ 0 }
    ensures { file.new ≡ collected_in file.old }
{
    let from = move_all(file) * plan_record::RECORD;
    let end = file.len();
    words::fill::fill_part(file, from, end, 0);
}

// The records in use moved to the front in their order, and zeros after them. A file out of form is
// refused with 16 and not changed.
pub fn collect(file: &mut [u8]) -> Told
    ensures { Collected file.old result file.new }
{
    if plan_file::wrong(file) {
        return Outcome::PlanFile.plain();
    }
    collect_all(file);
    Outcome::Found.plain()
}
