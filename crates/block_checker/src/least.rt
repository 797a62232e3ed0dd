// A look at a block: the least sum of each person's listed costs and their prices, and its best pairs.
ghost use Rattle.std.specs.Prelude.{◌≡◌, ◌<◌, ◌≤◌, ◌≤ℤ◌, ◌⊎◌, ℕ, pos, length, replicate, slice_index, slice_index_or, slice_set, All, IfOk, OnOk};
ghost use Rattle.std.specs.Int.{int_min};
ghost use Rattle.assign_core.specs.Numbered.{IsNumber};
ghost use Rattle.assign_core.specs.Rows.{IsCost};
ghost use Rattle.cost_lists.specs.Exact.{IsPriceInLimits};
ghost use Rattle.cost_lists.specs.Source.{AreCosts, ArePairs, IsGiven, part_of, rows_in};
ghost use Rattle.exact_checker.specs.inside.Sums.{sum_at};
ghost use Rattle.block_checker.specs.Sums.{AreLeastSums};
ghost use Rattle.block_checker.specs.inside.Least.{AreLeastOf, IsLeastOfRow};

use super::selecting::BestPairs;
use super::selection::Selected;
use assign_core::{Cost, Sense};
use cost_lists::{CostLists, Pairs, Price, Source, UNLISTED, part};
use exact_checker::sum_of;
use std::alloc::{AllocError, Global};

// The least sum of a row, or the mark if the row is empty.
fn least_of_row(sense: Sense, costs: &[Cost], prices: &[Price]) -> Cost
    requires long { length costs.now ≡ length prices.now }
    requires costs { All IsCost costs.now }
    requires in_range { All IsPriceInLimits prices.now }
    ensures { IsLeastOfRow sense costs.now prices.now (length costs.now) result }
{
    let mut least = UNLISTED;
    for j in 0..costs.len() {
        least = least.min(sum_of(sense, costs[j], prices[j]));
    }
    least
}

// Sets each person's least sum, of all costs, and adds its best pairs while its row is near.
fn set_of_rows(
    least: &mut [Cost],
    sense: Sense,
    costs: &[Cost],
    prices: &[Price],
    numbers: &[Cost],
    most: usize,
    best: &mut BestPairs,
) -> Result<(), AllocError>
    requires costs { AreCosts (length least.old) (length prices.now) costs.now }
    requires in_range { All IsPriceInLimits prices.now }
    requires numbers { length numbers.now ≡ length least.old }
    ensures { OnOk result ((i : ℕ) → i < length least.new → IsLeastOfRow sense
        (part_of (length prices.now) i costs.now) prices.now (length prices.now)
        (slice_index_or least.new i (pos 0))) }
{
    let m = prices.len();
    for i in 0..least.len() {
        let row = part(costs, i, m);
        least[i] = least_of_row(sense, row, prices);
        if least[i] < numbers[i] {
            best.add_row(i, sense, row, prices, least[i], numbers[i], most)?;
        }
    }
    Ok(())
}

// Lowers the number at a place to a sum, if that is less.
fn lower(least: &mut [Cost], place: usize, sum: Cost)
    requires { place < length least.old }
    ensures { least.new ≡ slice_set least.old place
        (int_min (slice_index_or least.old place (pos 0)) sum) }
{
    least[place] = least[place].min(sum);
}

// Sets each person's least sum, of listed pairs. The sums are marks at first.
fn set_of_pairs(least: &mut [Cost], sense: Sense, pairs: Pairs<'_>, prices: &[Price])
    requires mark { least.old ≡ replicate (length least.old) UNLISTED }
    requires pairs { ArePairs (length least.old) (length prices.now) pairs }
    requires in_range { All IsPriceInLimits prices.now }
    ensures { let p = pairs.entry in AreLeastOf sense p prices.now (length p.persons.now) least.new }
{
    for k in 0..pairs.persons.len() {
        let price = prices[pairs.objects[k] as usize - 1];
        lower(
            least,
            pairs.persons[k] as usize - 1,
            sum_of(sense, pairs.costs[k], price),
        );
    }
}

// Sets each person's least sum, and adds its best pairs. The sums are marks at first.
fn set_least(
    alloc: Global,
    least: &mut [Cost],
    sense: Sense,
    source: Source<'_>,
    prices: &[Price],
    numbers: &[Cost],
    most: usize,
    best: &mut BestPairs,
) -> Result<(), AllocError>
    requires mark { least.old ≡ replicate (length least.old) UNLISTED }
    requires given { IsGiven (length least.old) (length prices.now) source }
    requires in_range { All IsPriceInLimits prices.now }
    requires numbers { length numbers.now ≡ length least.old }
    ensures { OnOk result (AreLeastSums sense
        (rows_in sense (length least.old) (length prices.now) source.entry) prices.now least.new) }
{
    match source {
        Source::Dense(costs) => set_of_rows(least, sense, costs, prices, numbers, most, best),
        Source::Listed(pairs) => {
            set_of_pairs(least, sense, pairs, prices);
            best.add_pairs(alloc, sense, pairs, prices, numbers, most)
        }
    }
}

/// What a look at a block finds.
#[derive(Drop)]
pub struct Looked {
    /// For each person the least sum of a cost that it lists and the object's price (under `Max` the price
    /// less the cost), or `UNLISTED` if it lists nothing.
    pub least: Vec<Cost>,
    /// Pairs for `write_better`.
    pub selected: Vec<Selected>,
}

/// Looks at a block at these prices and row numbers: finds the least sum of each person, and selects pairs
/// whose sums are below their persons' numbers, at most `most` of a person, those of the least sums, in the
/// order of persons, of all costs then of objects.
///
/// The least sums are proved; which pairs are selected is only tested. The time is linear in the costs, on
/// average, as of Hoare's quickselect.
///
/// # Errors
/// `AllocError` if memory is refused.
pub fn look(
    alloc: Global,
    lists: &CostLists<'_>,
    numbers: &[Cost],
    prices: &[Price],
    most: usize,
) -> Result<Looked, AllocError>
    requires persons { length numbers.now ≡ length lists.now.rows }
    requires objects { length prices.now ≡ lists.now.m }
    requires in_range { All IsPriceInLimits prices.now }
    ensures { IfOk result
        (λ looked. AreLeastSums lists.now.sense lists.now.rows prices.now looked.least.items) }
{
    // This call shows the prover that objects are few enough.
    let _objects = lists.objects();
    let mut least: Vec<Cost> = vec![in alloc; UNLISTED; lists.persons() as usize]?;
    let mut best = BestPairs::new(alloc);
    set_least(
        alloc,
        least.as_mut_slice(),
        lists.sense(),
        lists.source(),
        prices,
        numbers,
        most,
        &mut best,
    )?;
    Ok(Looked {
        least,
        selected: best.selected,
    })
}
