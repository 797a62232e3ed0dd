// Whether numbers fall in rows of costs.
ghost use Rattle.std.specs.Prelude.{◌≡◌, ◌<◌, ◌≤◌, ◌≤ℤ◌, ◌<ℤ◌, ◌+◌, ◌+ℤ◌, ℕ, IsTrue, length, slice_index_or, All};
ghost use Rattle.assign_core.specs.Numbered.{IsNumber};
ghost use Rattle.assign_core.specs.Rows.{IsCost};
ghost use Rattle.cost_lists.specs.Exact.{IsPriceInLimits};
ghost use Rattle.cost_lists.specs.Own.{minimised};
ghost use Rattle.cost_lists.specs.Source.{AreCosts};
ghost use Rattle.group_checker.specs.inside.Reading.{AllExceed, IsPlan, PartFalls, RowFalls, RowsFall};

use super::plan::{Group, Plan, group_of, own_sum};
use assign_core::{Cost, Sense};
use cost_lists::{GREATEST_NUMBER, Person, Price, part};
use exact_checker::sum_of;

/// Whether an object costs more than a sum, or its number isn't higher than this one. Nothing branches
/// on a cost, since many may be equal.
pub fn is_behind(
    sense: Sense,
    cost: Cost,
    price: Price,
    number: Group,
    sum: Cost,
    group: Group,
) -> bool
    requires cost { IsCost cost }
    requires price { IsPriceInLimits price }
    ensures { IsTrue result → (minimised sense cost +ℤ price) ≤ℤ sum → number ≤ group }
{
    (sum_of(sense, cost, price) > sum) | (number <= group)
}

// The highest number.
fn highest_of(groups: &[Group]) -> Group
    ensures { (j : ℕ) → j < length groups.now → slice_index_or groups.now j 0 ≤ result }
{
    let mut highest = 0;
    for j in 0..groups.len() {
        highest = groups[j].max(highest);
    }
    highest
}

// How many costs of a row are looked at together.
const BLOCK: usize = 32;

// Whether an object costs more than a sum.
fn exceeds(sense: Sense, cost: Cost, price: Price, sum: Cost) -> bool
    requires cost { IsCost cost }
    requires price { IsPriceInLimits price }
    ensures { IsTrue result → sum <ℤ (minimised sense cost +ℤ price) }
{
    sum_of(sense, cost, price) > sum
}

// Whether all objects of a block cost more than a sum. It reads on after one that doesn't, so that
// several are looked at in one step.
fn all_exceed(plan: Plan<'_>, row: &[Cost], from: usize, sum: Cost) -> bool
    requires plan { (n : ℕ) × IsPlan n (length row.now) plan }
    requires few { length row.now ≤ GREATEST_NUMBER }
    requires costs { All IsCost row.now }
    requires room { from + BLOCK ≤ length row.now }
    ensures { IsTrue result → AllExceed plan.entry row.now sum from (from + BLOCK) }
{
    let mut all = true;
    for j in from..from + BLOCK {
        all = exceeds(plan.sense, row[j], plan.prices[j], sum) & all;
    }
    all
}

// Whether the numbers fall from one place of a row up to another. It reads on after one that doesn't.
fn part_falls(plan: Plan<'_>, row: &[Cost], from: usize, to: usize, sum: Cost, group: Group) -> bool
    requires plan { (n : ℕ) × IsPlan n (length row.now) plan }
    requires few { length row.now ≤ GREATEST_NUMBER }
    requires costs { All IsCost row.now }
    requires to { to ≤ length row.now }
    ensures { IsTrue result → PartFalls plan.entry row.now sum group from to }
{
    let mut all = true;
    for j in from..to {
        all = is_behind(
            plan.sense,
            row[j],
            plan.prices[j],
            plan.groups[j],
            sum,
            group,
        ) & all;
    }
    all
}

// The same of a block. Mostly there is no more to read of it than the costs.
fn block_falls(plan: Plan<'_>, row: &[Cost], from: usize, sum: Cost, group: Group) -> bool
    requires plan { (n : ℕ) × IsPlan n (length row.now) plan }
    requires few { length row.now ≤ GREATEST_NUMBER }
    requires costs { All IsCost row.now }
    requires room { from + BLOCK ≤ length row.now }
    ensures { IsTrue result → PartFalls plan.entry row.now sum group from (from + BLOCK) }
{
    all_exceed(plan, row, from, sum) || part_falls(plan, row, from, from + BLOCK, sum, group)
}

// Whether the numbers of a person's row fall.
fn row_falls(plan: Plan<'_>, person: Person, row: &[Cost]) -> bool
    requires plan { (n : ℕ) × IsPlan n (length row.now) plan × IsNumber n person }
    requires few { length row.now ≤ GREATEST_NUMBER }
    requires costs { All IsCost row.now }
    ensures { IsTrue result → RowFalls plan.entry person row.now }
{
    let sum = own_sum(plan, person);
    let group = group_of(plan, plan.objects[person as usize - 1]);
    let mut at = 0;
    while row.len() - at >= BLOCK {
        if !block_falls(plan, row, at, sum, group) {
            return false;
        }
        at += BLOCK;
    }
    part_falls(plan, row, at, row.len(), sum, group)
}

// The same, if no number is higher than this one: there is nothing to read where a person's own object
// has it.
fn falls_below(plan: Plan<'_>, person: Person, row: &[Cost], highest: Group) -> bool
    requires plan { (n : ℕ) × IsPlan n (length row.now) plan × IsNumber n person }
    requires few { length row.now ≤ GREATEST_NUMBER }
    requires costs { All IsCost row.now }
    requires highest { (j : ℕ) → j < length plan.groups.now → slice_index_or plan.groups.now j 0 ≤ highest }
    ensures { IsTrue result → RowFalls plan.entry person row.now }
{
    if group_of(plan, plan.objects[person as usize - 1]) >= highest {
        return true;
    }
    row_falls(plan, person, row)
}

// Whether the numbers of all rows fall.
pub fn rows_fall(plan: Plan<'_>, costs: &[Cost]) -> bool
    requires plan { IsPlan (length plan.own.now) (length plan.prices.now) plan }
    requires persons { length plan.own.now ≤ GREATEST_NUMBER }
    requires objects { length plan.prices.now ≤ GREATEST_NUMBER }
    requires costs { AreCosts (length plan.own.now) (length plan.prices.now) costs.now }
    ensures { IsTrue result → RowsFall plan.entry costs.now }
{
    let m = plan.prices.len();
    let highest = highest_of(plan.groups);
    for i in 0..plan.own.len() {
        if !falls_below(plan, i as u32 + 1, part(costs, i, m), highest) {
            return false;
        }
    }
    true
}
