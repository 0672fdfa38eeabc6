// A plan fetched from a file of accepted plans.
#![tactic(auto)]

ghost use Rattle.std.specs.Prelude.{◌≡◌, false, ◌&&◌, cond, ◌≢◌, ◌+◌, ◌*◌, ◌≤◌, ◌<◌, ltb, leb, eqb, length};
ghost use Rattle.lists.specs.Tests.{any};
ghost use Rattle.words.specs.Part.{patch};
ghost use Rattle.outcome.specs.Outcome.{found, buffers, beside, plain};
ghost use Rattle.plan_record.specs.Record.{records, plan_at, rank_at, used_at, part_at};
ghost use Rattle.plan_record.specs.Record.{part_arcs, arcs_at};
ghost use Rattle.plan_file.specs.File.{wrong_file};
ghost use Rattle.plan_file.specs.Meaning.{plan_in};
ghost use Rattle.plan_fetch.specs.Fetch.{too_small, slots_with, told_with, Fetched};

use outcome::{Outcome, Refusal, Told};

// How many ranks there are so far, with record i: it counts where it is of the plan.
fn counted(file: &[u8], i: usize, plan: u32, count: usize) -> usize
    requires { i < records file.now }
    ensures { result ≡ cond (eqb (plan_at file.now i) plan
        && leb count (rank_at file.now i)) (rank_at file.now i + 1) count }
{
    if plan_record::plan(file, i) == plan {
        count.max(plan_record::rank(file, i) as usize + 1)
    } else {
        count
    }
}

// How many routes the plan has: one more than its greatest rank.
fn routes(file: &[u8], plan: u32) -> usize
    requires { (wrong_file file.now ≡ false) × (plan ≢ 0) }
    ensures { result ≡ length (plan_in file.now plan) }
{
    let mut count = 0;
    for i in 0..file.len() / plan_record::RECORD {
        count = counted(file, i, plan, count);
    }
    count
}

// Whether record i is one of the plan whose arcs reach past `width` words.
fn reaches(file: &[u8], i: usize, plan: u32, width: usize) -> bool
    requires { i < records file.now }
    ensures { result ≡ (eqb (plan_at file.now i) plan
        && ltb width (part_at file.now i * part_arcs + used_at file.now i)) }
{
    plan_record::plan(file, i) == plan
        && width
            < plan_record::part(file, i) as usize * plan_record::PART
                + plan_record::used(file, i) as usize
}

// Whether a route of the plan is longer than `width`.
fn narrow(file: &[u8], plan: u32, width: usize) -> bool
    requires { (wrong_file file.now ≡ false) × (plan ≢ 0) }
    ensures { result ≡ any (λ p. ltb width (length p)) (plan_in file.now plan) }
{
    (0..file.len() / plan_record::RECORD).any(|i| reaches(file, i, plan, width))
}

// The arcs of record i in their place among slots of `width` words.
fn put_part(file: &[u8], i: usize, slots: &mut [u32], width: usize)
    requires { (i < records file.now) × (used_at file.now i ≤ part_arcs)
        × (rank_at file.now i * width + (part_at file.now i * part_arcs + used_at file.now i)
        ≤ length slots.old) }
    ensures { slots.new ≡ patch
        (rank_at file.now i * width + part_at file.now i * part_arcs)
        (rank_at file.now i * width + part_at file.now i * part_arcs
        + used_at file.now i)
        slots.old (arcs_at file.now i) }
{
    let slot = plan_record::rank(file, i) as usize * width;
    let at = slot + plan_record::part(file, i) as usize * plan_record::PART;
    let used = plan_record::used(file, i) as usize;
    for j in 0..used {
        slots[at + j] = plan_record::arc(file, i, j);
    }
}

// Each route of the plan in its slot.
fn lay(file: &[u8], plan: u32, slots: &mut [u32], width: usize, routes: usize)
    requires { (wrong_file file.now ≡ false) × (plan ≢ 0)
        × (routes ≡ length (plan_in file.now plan))
        × (too_small (plan_in file.now plan) slots.old width ≡ false) }
    ensures { slots.new
        ≡ slots_with width (plan_in file.now plan) slots.old }
{
    words::fill::fill_part(slots, 0, routes * width, labels::field::NONE);
    for i in 0..file.len() / plan_record::RECORD {
        if plan_record::plan(file, i) == plan {
            put_part(file, i, slots, width);
        }
    }
}

// The routes of a plan that is there, where the slots are wide enough and enough; their number.
fn answer(file: &[u8], plan: u32, slots: &mut [u32], width: u32) -> Result<u32, Refusal>
    requires { (wrong_file file.now ≡ false) × (plan ≢ 0) }
    ensures told { told_with result
        ≡ cond (too_small (plan_in file.now plan) slots.old width)
        (plain buffers) (beside found (length (plan_in file.now plan))) }
    ensures area { slots.new
        ≡ cond (too_small (plan_in file.now plan) slots.old width)
        slots.old
        (slots_with width (plan_in file.now plan) slots.old) }
{
    let words = width as usize;
    if narrow(file, plan, words) {
        return Err(Refusal::plain(Outcome::Buffers));
    }
    let count = routes(file, plan);
    if slots.len() < count * words {
        return Err(Refusal::plain(Outcome::Buffers));
    }
    lay(file, plan, slots, words, count);
    Ok(count as u32)
}

// The refusals in their order; where none holds, the number of routes.
fn fetched(file: &[u8], plan: u32, slots: &mut [u32], width: u32) -> Result<u32, Refusal>
    ensures { Fetched file.now plan slots.old width (told_with result)
        slots.new }
{
    if plan_file::wrong(file) {
        return Err(Refusal::plain(Outcome::PlanFile));
    }
    if plan == 0 {
        return Err(Refusal::plain(Outcome::PlanRequest));
    }
    if !plan_file::has_plan(file, plan) {
        return Err(Refusal::plain(Outcome::PlanThere));
    }
    answer(file, plan, slots, width)
}

// The routes of a plan in slots of a given width; their number stands beside the outcome. A file
// out of form is refused with 16, plan number zero with 17, an absent plan with 18, slots too
// narrow or too few with 10; a refusal changes nothing.
pub fn fetch(file: &[u8], plan: u32, slots: &mut [u32], width: u32) -> Told
    ensures { Fetched file.now plan slots.old width result
        slots.new }
{
    match fetched(file, plan, slots, width) {
        Ok(routes) => Outcome::Found.beside(routes),
        Err(refusal) => refusal.into(),
    }
}
