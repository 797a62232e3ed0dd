// Single arrows.
ghost use Rattle.std.specs.Prelude.{◌≡◌, ◌≤◌, pos, IsTrue};
ghost use Rattle.assign_core.specs.Numbered.{IsNumber};
ghost use Rattle.group_checker.specs.Groups.{IsArrow, IsMove};
ghost use Rattle.group_checker.specs.inside.Reading.{IsPlanOf};

use super::plan::Plan;
use super::shown::{is_shown_in_pairs, is_shown_in_row};
use cost_lists::{CostLists, Object, Price, Source};

// Whether the pair at a place shows that the person of an object could have another one.
fn is_move(lists: &CostLists<'_>, plan: Plan<'_>, place: usize, from: Object, to: Object) -> bool
    requires plan { IsPlanOf lists.now plan }
    requires object { IsNumber lists.now.m to }
    ensures { let p = plan.entry in IsTrue result
        → IsMove lists.now p.objects.now p.prices.now from to }
{
    // This call shows the prover that persons are few enough.
    let _persons = lists.persons();
    match lists.source() {
        Source::Dense(costs) => is_shown_in_row(plan, costs, place, from, to),
        Source::Listed(pairs) => is_shown_in_pairs(plan, pairs, place, from, to),
    }
}

// Whether a price is 0.
fn is_zero(price: Price) -> bool
    ensures { IsTrue result → price ≡ pos 0 }
{
    price == 0
}

// Whether somebody has an object whose price is 0.
fn is_leavable(plan: Plan<'_>, lists: &CostLists<'_>, object: Object) -> bool
    requires plan { IsPlanOf lists.now plan }
    requires object { IsNumber lists.now.m object }
    ensures { let p = plan.entry in IsTrue result
        → IsArrow lists.now p.objects.now p.prices.now 0 object }
{
    let place = object as usize - 1;
    plan.owned[place] && is_zero(plan.prices[place])
}

// Whether an arrow leads from one vertex to another. If a person has the first one, the pair at the
// place shows it.
pub fn is_arrow(lists: &CostLists<'_>, plan: Plan<'_>, from: u32, to: u32, place: usize) -> bool
    requires plan { IsPlanOf lists.now plan }
    requires from { from ≤ lists.now.m }
    requires to { to ≤ lists.now.m }
    ensures { let p = plan.entry in IsTrue result
        → IsArrow lists.now p.objects.now p.prices.now from to }
{
    if from == 0 {
        return to != 0 && is_leavable(plan, lists, to);
    }
    if !plan.owned[from as usize - 1] {
        return to == 0;
    }
    to != 0 && is_move(lists, plan, place, from, to)
}
