// Whether a block lists persons' own objects at their row numbers.
ghost use Rattle.std.specs.Prelude.{◌≡◌, length, All, IfOk};
ghost use Rattle.assign_core.specs.Prices.{price_of};
ghost use Rattle.cost_lists.specs.Exact.{IsPriceInLimits};
ghost use Rattle.cost_lists.specs.Own.{AreOwnCosts};
ghost use Rattle.block_checker.specs.Sums.{AreMarks};
ghost use Rattle.block_checker.specs.inside.Marks.{AreMarksOf, IsMarkOf, IsOwnCost};

use assign_core::Cost;
use cost_lists::{CostLists, Object, Price, UNLISTED};
use std::alloc::{AllocError, Global};

// The price of an object, or 0 if there is no object with this number.
fn price_at(prices: &[Price], object: Object) -> Price
    requires { All IsPriceInLimits prices.now }
    ensures is { result ≡ price_of prices.now object }
    ensures in_range { IsPriceInLimits result }
{
    if object == 0 || object as usize > prices.len() {
        return 0;
    }
    prices[object as usize - 1]
}

// 1 if a turned cost isn't the mark, and its sum with the price is the number; else 0.
fn mark_of(own: Cost, price: Price, number: Cost) -> u8
    requires cost { IsOwnCost own }
    requires price { IsPriceInLimits price }
    ensures { IsMarkOf own price number result }
{
    if own == UNLISTED {
        return 0;
    }
    if own + price == number { 1 } else { 0 }
}

// A mark for each person.
fn set_marks(marks: &mut [u8], own: &[Cost], objects: &[Object], numbers: &[Cost], prices: &[Price])
    requires own { length own.now ≡ length marks.old }
    requires costs { All IsOwnCost own.now }
    requires objects { length objects.now ≡ length marks.old }
    requires numbers { length numbers.now ≡ length marks.old }
    requires in_range { All IsPriceInLimits prices.now }
    ensures { AreMarksOf own.now objects.now numbers.now prices.now (length marks.new) marks.new }
{
    for i in 0..marks.len() {
        let price = price_at(prices, objects[i]);
        marks[i] = mark_of(own[i], price, numbers[i]);
    }
}

// Marks each person whose own object stands in the lists at its row number. The own costs are those of
// the objects.
fn mark_own(
    marks: &mut [u8],
    lists: &CostLists<'_>,
    own: &[Cost],
    objects: &[Object],
    numbers: &[Cost],
    prices: &[Price],
)
    requires long { length marks.old ≡ length lists.now.rows }
    requires own { AreOwnCosts lists.now.sense lists.now.rows objects.now own.now }
    requires objects { length objects.now ≡ length lists.now.rows }
    requires numbers { length numbers.now ≡ length lists.now.rows }
    requires in_range { All IsPriceInLimits prices.now }
    ensures { AreMarks lists.now objects.now prices.now numbers.now marks.new }
{
    // This call shows the prover that the costs are in range.
    let _persons = lists.persons();
    set_marks(marks, own, objects, numbers, prices);
}

/// For each person 1 if the lists have its own object for it, at a sum of cost and price that is its
/// row number, and 0 if not. Objects and row numbers may be any numbers.
///
/// The time is linear in the persons, and in the listed pairs.
///
/// # Errors
/// `AllocError` if memory is refused.
pub fn own_marks(
    alloc: Global,
    lists: &CostLists<'_>,
    objects: &[Object],
    numbers: &[Cost],
    prices: &[Price],
) -> Result<Vec<u8>, AllocError>
    requires objects { length objects.now ≡ length lists.now.rows }
    requires numbers { length numbers.now ≡ length lists.now.rows }
    requires in_range { All IsPriceInLimits prices.now }
    ensures { IfOk result
        (λ marks. AreMarks lists.now objects.now prices.now numbers.now marks.items) }
{
    let own = lists.own_costs(alloc, objects)?;
    let mut marks = vec![in alloc; 0u8; lists.persons() as usize]?;
    mark_own(
        marks.as_mut_slice(),
        lists,
        own.as_slice(),
        objects,
        numbers,
        prices,
    );
    Ok(marks)
}
