// Verdicts on drawn lists, compared with those of the rules read plainly.
ghost use Rattle.std.specs.Prelude.{◌≡◌, ◌*◌, length, All, IfOk};
ghost use Rattle.assign_core.specs.Rows.{IsCost, IsSize};

use super::plain::{Table, low, plain_verdict, price_at};
use assign_core::{Cost, GREATEST_COST, Object, Price, Problem, Sense};
use dual_checker::{Verdict, check};
use std::alloc::{AllocError, Global};
use std::test::Fail;
use test_helpers::{cost_in_range, draw, draw_wide, drawn_sense, next_number, size};

// One of a few costs: near 0, or as wide as they may be.
fn drawn_cost(seed: &mut u64, is_wide: bool) -> Cost
    ensures { IsCost result }
{
    let unit = if is_wide { GREATEST_COST / 3 } else { 1 };
    let cost = (Cost::from(draw(seed, 7)) - 3).wrapping_mul(unit);
    cost_in_range(cost.wrapping_add(Cost::from(draw(seed, 3))))
}

fn drawn_costs(alloc: Global, first: u64, count: usize) -> Result<Vec<Cost>, AllocError>
    ensures { IfOk result (λ costs. All IsCost costs.items) }
{
    let mut seed = first;
    let mut costs = Vec::new(alloc);
    for _pair in 0..count {
        costs.push(drawn_cost(&mut seed, first % 2 == 0))?;
    }
    Ok(costs)
}

// An object for each of n persons, mostly different ones. One in sixteen may be out of range,
// and one in sixteen is left out.
fn drawn_objects(alloc: Global, seed: &mut u64, n: u16) -> Result<Vec<Object>, AllocError> {
    let first = draw_wide(seed, u64::from(n));
    let mut objects = Vec::new(alloc);
    for k in 0..n {
        let next = first.wrapping_add(u64::from(k)).checked_rem(u64::from(n));
        match draw(seed, 16) {
            0 => {}
            1 => objects.push(Object(draw(seed, 6).min(n.wrapping_add(1))))?,
            _ => {
                let place = u16::try_from(next.unwrap_or(0)).unwrap_or(0);
                objects.push(Object(place.wrapping_add(1)))?;
            }
        }
    }
    Ok(objects)
}

// Raises the prices until a person prefers none of them to its own object.
fn raise(table: &Table<'_>, person: u16, own: Object, prices: &mut [Price]) {
    let most = low(table, person, own).wrapping_add(price_at(prices, own));
    let mut number = 1u16;
    for price in prices {
        *price = (*price).max(most.wrapping_sub(low(table, person, Object(number))));
        number = number.wrapping_add(1);
    }
}

// The least prices that prove these objects best, if any do: multiples of one more than the
// objects. One list in twenty has a price too many.
fn raised(
    alloc: Global,
    seed: &mut u64,
    table: &Table<'_>,
    objects: &[Object],
) -> Result<Vec<Price>, AllocError> {
    let more = if draw(seed, 20) == 0 { 1 } else { 0 };
    let mut prices = vec![in alloc; 0; (table.n as usize).wrapping_add(more)]?;
    for _ in 0..4 {
        let mut person = 0u16;
        for object in objects {
            person = person.wrapping_add(1);
            raise(table, person, *object, prices.as_mut_slice());
        }
    }
    Ok(prices)
}

// A change of a price, mostly by 0.
fn drawn_change(seed: &mut u64, step: Price) -> Price {
    match draw(seed, 40) {
        0 => 1,
        1 => -1,
        2 => 2,
        3 => -2,
        4 => step,
        5 => step.wrapping_neg(),
        6 => step.wrapping_add(1),
        7 => 10_000_000_000_000_000_000_000,
        8 => -1_000_000_000_000_000_000_000,
        _ => 0,
    }
}

// Raises all prices alike, mostly by no multiple of the step, and changes a few.
fn shift(seed: &mut u64, step: Price, prices: &mut [Price]) {
    let all: Price = match draw(seed, 5) {
        0 => 0,
        1 => 2,
        2 => 3,
        3 => 1_000_000_000_000_000_001,
        _ => 9_000_000_000_000_000_000_002,
    };
    for price in prices {
        *price = (*price)
            .wrapping_add(all)
            .wrapping_add(drawn_change(seed, step));
    }
}

// The numbers of verdicts of each kind: where the first price is at most 1 above a multiple of the
// step, and then of those elsewhere.
type Counts = [u32; 12];

// The place of a verdict's kind.
fn kind(verdict: Verdict) -> usize {
    match verdict {
        Verdict::Length => 0,
        Verdict::Unlisted(_) => 1,
        Verdict::Twice(_) => 2,
        Verdict::PriceRange(_) => 3,
        Verdict::Slack(_, _) => 4,
        Verdict::Yes => 5,
    }
}

// The place of the plain verdict's kind.
fn place_of(table: &Table<'_>, objects: &[Object], prices: &[Price]) -> usize {
    let step = Price::from(table.n) + 1;
    let rest = price_at(prices, Object(1)).checked_rem(step).unwrap_or(0);
    let apart = if rest > 1 { 6 } else { 0 };
    kind(plain_verdict(table, objects, prices)).wrapping_add(apart)
}

fn count(place: usize, counts: &mut Counts) {
    if let Some(count) = counts.get_mut(place) {
        *count = (*count).saturating_add(1);
    }
}

// Whether the call gives the plain verdict on these lists.
fn are_plain(
    alloc: Global,
    n: u16,
    costs: &[Cost],
    sense: Sense,
    objects: &[Object],
    prices: &[Price],
) -> Result<bool, AllocError>
    requires size { IsSize n }
    requires count { length costs.now ≡ n * n }
    requires costs { All IsCost costs.now }
{
    let problem = Problem::dense(alloc, n, costs)?;
    let verdict = check(alloc, &problem, sense, objects, prices)?;
    Ok(verdict == plain_verdict(&Table { n, sense, costs }, objects, prices))
}

// Whether it does on lists that are drawn for these costs.
fn lists_agree(
    alloc: Global,
    seed: &mut u64,
    n: u16,
    costs: &[Cost],
    counts: &mut Counts,
) -> Result<bool, AllocError>
    requires size { IsSize n }
    requires count { length costs.now ≡ n * n }
    requires costs { All IsCost costs.now }
{
    let sense = drawn_sense(seed);
    let table = Table { n, sense, costs };
    let objects = drawn_objects(alloc, seed, n)?;
    let objects = objects.as_slice();
    let mut prices = raised(alloc, seed, &table, objects)?;
    shift(seed, Price::from(n) + 1, prices.as_mut_slice());
    let prices = prices.as_slice();
    count(place_of(&table, objects, prices), counts);
    are_plain(alloc, n, costs, sense, objects, prices)
}

// Whether it does in one more case: one to four persons.
fn case_agrees(alloc: Global, seed: &mut u64, counts: &mut Counts) -> Result<bool, AllocError> {
    let n = size(draw(seed, 4) + 1);
    let costs = drawn_costs(alloc, next_number(seed), n as usize * n as usize)?;
    let costs = costs.as_slice();
    if costs.len() != n as usize * n as usize {
        return Ok(false);
    }
    lists_agree(alloc, seed, n, costs, counts)
}

// The least of the counts after 3000 cases, if the call gives the plain verdict in each.
fn least_count(alloc: Global) -> Result<Option<u32>, AllocError> {
    let mut seed = 1u64;
    let mut counts: Counts = [0; 12];
    for _ in 0..3000 {
        if !case_agrees(alloc, &mut seed, &mut counts)? {
            return Ok(None);
        }
    }
    Ok(counts.iter().copied().min())
}

#[test]
fn drawn_lists(rt: HostRuntime) -> Result<(), Fail> {
    let least = least_count(rt.alloc())?;
    assert!(rt; least > Some(5));
    Ok(())
}
