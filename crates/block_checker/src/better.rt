// Pairs that are better than their persons' own.
ghost use Rattle.std.specs.Prelude.{◌≡◌, ◌<◌, ◌≤◌, ◌<ℤ◌, ◌↔◌, ℕ, IsTrue, pos, length, All, IfSome};
ghost use Rattle.assign_core.specs.declared.sense.Sense.{Sense};
ghost use Rattle.assign_core.specs.Dense.{rows_cut};
ghost use Rattle.cost_lists.specs.Exact.{IsPriceInLimits};
ghost use Rattle.cost_lists.specs.Given.{rows_given};
ghost use Rattle.cost_lists.specs.ListedCosts.{IsCount};
ghost use Rattle.cost_lists.specs.Source.{AreCosts, ArePairs, triples_in};
ghost use Rattle.block_checker.specs.Pairs.{AreWritten, IsBetterPair};
ghost use Rattle.block_checker.specs.inside.Reading.{IsRead};

use super::selection::Selected;
use assign_core::Cost;
use cost_lists::{CostLists, Object, Pairs, Person, Price, Source, part};
use exact_checker::sum_of;

// A pair with its cost.
#[derive(Clone, Copy)]
struct Pair {
    person: Person,
    object: Object,
    cost: Cost,
}

// The selected pair of all costs of `n` persons and `m` objects, if there is one.
fn pair_of_rows(costs: &[Cost], n: Person, m: Object, selected: Selected) -> Option<Pair>
    requires persons { IsCount n }
    requires objects { IsCount m }
    requires costs { AreCosts n m costs.now }
    ensures { (sense : Sense) → IfSome result
        (λ p. IsRead sense (rows_cut m n costs.now) n m p.person p.object p.cost) }
{
    let Selected { row, at } = selected;
    if row >= n as usize || at >= m as usize {
        return None;
    }
    let costs = part(costs, row, m as usize);
    Some(Pair {
        person: row as u32 + 1,
        object: at as u32 + 1,
        cost: costs[at],
    })
}

// The selected one of listed pairs, if there is one.
fn pair_of_pairs(pairs: Pairs<'_>, n: Person, m: Object, selected: Selected) -> Option<Pair>
    requires pairs { ArePairs n m pairs }
    ensures { (sense : Sense) → let p = pairs.entry in IfSome result
        (λ r. IsRead sense (rows_given sense (triples_in p) m 1 n) n m r.person r.object r.cost) }
{
    let at = selected.at;
    if at >= pairs.persons.len() {
        return None;
    }
    Some(Pair {
        person: pairs.persons[at],
        object: pairs.objects[at],
        cost: pairs.costs[at],
    })
}

// The selected pair of the lists, if there is one.
fn pair_of(lists: &CostLists<'_>, selected: Selected) -> Option<Pair>
    ensures { let l = lists.now in IfSome result
        (λ p. IsRead l.sense l.rows (length l.rows) l.m p.person p.object p.cost) }
{
    let (n, m) = (lists.persons(), lists.objects());
    match lists.source() {
        Source::Dense(costs) => pair_of_rows(costs, n, m, selected),
        Source::Listed(pairs) => pair_of_pairs(pairs, n, m, selected),
    }
}

// The selected pair, if its sum is below its person's number.
fn better_pair(
    lists: &CostLists<'_>,
    numbers: &[Cost],
    prices: &[Price],
    selected: Selected,
) -> Option<Pair>
    requires persons { length numbers.now ≡ length lists.now.rows }
    requires objects { length prices.now ≡ lists.now.m }
    requires in_range { All IsPriceInLimits prices.now }
    ensures { IfSome result
        (λ p. IsBetterPair lists.now prices.now numbers.now p.person p.object p.cost) }
{
    let pair = pair_of(lists, selected)?;
    let sum = sum_of(lists.sense(), pair.cost, prices[pair.object as usize - 1]);
    if sum < numbers[pair.person as usize - 1] {
        Some(pair)
    } else {
        None
    }
}

/// Writes those of the pairs selected by `look` whose sums of cost and price are below their persons' row
/// numbers, as far as the three lists reach, and says how many. What follows the written part stays.
///
/// That each written pair is given and better is proved; which of them are written is only tested. The time is
/// linear in the selected pairs. It takes no memory.
pub fn write_better(
    lists: &CostLists<'_>,
    numbers: &[Cost],
    prices: &[Price],
    selected: &[Selected],
    persons: &mut [Person],
    objects: &mut [Object],
    costs: &mut [Cost],
) -> usize
    requires persons { length numbers.now ≡ length lists.now.rows }
    requires objects { length prices.now ≡ lists.now.m }
    requires in_range { All IsPriceInLimits prices.now }
    requires objects_long { length objects.old ≡ length persons.old }
    requires costs_long { length costs.old ≡ length persons.old }
    ensures { AreWritten lists.now prices.now numbers.now result
        (record { persons = persons.old; objects = objects.old; costs = costs.old })
        (record { persons = persons.new; objects = objects.new; costs = costs.new }) }
{
    let mut count = 0;
    for one in selected {
        if let Some(pair) = better_pair(lists, numbers, prices, *one)
            && count < persons.len()
        {
            persons[count] = pair.person;
            objects[count] = pair.object;
            costs[count] = pair.cost;
            count += 1;
        }
    }
    count
}
