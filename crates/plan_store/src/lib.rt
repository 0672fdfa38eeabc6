// A plan stored in a file of accepted plans.
#![tactic(auto)]

mod place;
mod slots;

ghost use Rattle.std.specs.Prelude.{◌≡◌};
ghost use Rattle.outcome.specs.Outcome.{plain, told_by};
ghost use Rattle.plan_store.specs.Store.{store_outcome, Stored};

use outcome::{Outcome, Refusal, Told};

// The refusals in their order.
fn refused(file: &[u8], plan: u32, slots: &[u32], routes: u32, width: u32) -> Result<(), Refusal>
    ensures { told_by result
        ≡ plain (store_outcome file.now plan slots.now routes width) }
{
    if plan_file::wrong(file) {
        return Err(Refusal::plain(Outcome::PlanFile));
    }
    if slots::wrong_request(plan, slots, routes, width) {
        return Err(Refusal::plain(Outcome::PlanRequest));
    }
    if plan_file::has_plan(file, plan) {
        return Err(Refusal::plain(Outcome::PlanThere));
    }
    let needed = slots::needed(slots, routes as usize, width as usize);
    if plan_file::free_count(file) < needed {
        return Err(Refusal::plain(Outcome::PlanRoom));
    }
    Ok(())
}

// The routes in the slots stored under a plan number, in the lowest free records. A file out of
// form is refused with 16, a request with 17, a number that is taken with 18, too few free records
// with 19; a refusal changes nothing.
pub fn store(file: &mut [u8], plan: u32, slots: &[u32], routes: u32, width: u32) -> Told
    ensures { Stored file.old plan slots.now routes width result
        file.new }
{
    if let Err(refusal) = refused(file, plan, slots, routes, width) {
        return refusal.into();
    }
    place::put_routes(file, plan, slots, routes as usize, width as usize);
    Outcome::Found.plain()
}
