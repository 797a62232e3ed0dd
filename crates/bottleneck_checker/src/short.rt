// Whether persons are short of objects at better costs.
ghost use Rattle.std.specs.Prelude.{◌≡◌, ◌↔◌, IfOk, IsTrue, false, pos, length, replicate};
ghost use Rattle.assign_core.specs.Rows.{IsCost};
ghost use Rattle.cost_lists.specs.Own.{minimised};
ghost use Rattle.bottleneck_checker.specs.Bottleneck.{AreShort};
ghost use Rattle.bottleneck_checker.specs.inside.Marks.{AreFewer, AreSet, NoneBelow};

use assign_core::{Cost, GREATEST_COST};
use cost_lists::{CostLists, Object, Person, Price, are_within, rises};
use dual_checker::mark_numbers;
use exact_checker::first_under_value;
use std::alloc::{AllocError, Global};

/// The value of persons who aren't looked at: no sum of a cost and a price is below it.
pub const LOWEST: Cost = i64::MIN;

/// The price of objects that aren't looked at: with it no cost is below another one.
pub const EXPENSIVE: Price = 3 * GREATEST_COST;

// Sets what is marked to a value.
fn set_marked(list: &mut [i64], marks: &[bool], value: i64)
    requires { length marks.now ≡ length list.old }
    ensures long { length list.new ≡ length list.old }
    ensures each { AreSet list.old marks.now value list.new }
{
    for k in 0..list.len() {
        if marks[k] {
            list[k] = value;
        }
    }
}

// Whether both lists rise and are in range, and there are fewer objects than persons.
fn are_fewer(lists: &CostLists<'_>, persons: &[Person], objects: &[Object]) -> bool
    ensures { IsTrue result ↔ AreFewer lists.now persons.now objects.now }
{
    rises(persons)
        && rises(objects)
        && are_within(lists.persons(), persons)
        && are_within(lists.objects(), objects)
        && objects.len() < persons.len()
}

// Whether no marked person lists an object without a mark at a turned cost below the worst one. At first
// values and prices are those of what has no mark; a expensive object is below nobody's value.
fn none_below(
    values: &mut [Cost],
    prices: &mut [Price],
    chosen: &[bool],
    named: &[bool],
    lists: &CostLists<'_>,
    worst: Cost,
) -> bool
    requires values { values.old ≡ replicate (length lists.now.rows) LOWEST }
    requires prices { prices.old ≡ replicate lists.now.m (pos 0) }
    requires chosen { length chosen.now ≡ length lists.now.rows }
    requires named { length named.now ≡ lists.now.m }
    requires worst { IsCost worst }
    ensures { IsTrue result ↔ NoneBelow lists.now chosen.now named.now worst }
{
    // This call shows the prover that costs are in range.
    let _persons = lists.persons();
    set_marked(values, chosen, worst);
    set_marked(prices, named, EXPENSIVE);
    match first_under_value(lists, values, prices) {
        None => true,
        Some(_) => false,
    }
}

// Whether these persons list only these objects at turned costs below the worst one. There is a mark for
// each person and each object, none of which is set at first.
fn list_only(
    chosen: &mut [bool],
    named: &mut [bool],
    values: &mut [Cost],
    prices: &mut [Price],
    lists: &CostLists<'_>,
    worst: Cost,
    persons: &[Person],
    objects: &[Object],
) -> bool
    requires chosen { chosen.old ≡ replicate (length lists.now.rows) false }
    requires named { named.old ≡ replicate lists.now.m false }
    requires values { values.old ≡ replicate (length lists.now.rows) LOWEST }
    requires prices { prices.old ≡ replicate lists.now.m (pos 0) }
    requires worst { IsCost worst }
    requires fewer { AreFewer lists.now persons.now objects.now }
    ensures { IsTrue result ↔ AreShort lists.now.sense lists.now.m lists.now.rows
        (minimised lists.now.sense worst) persons.now objects.now }
{
    mark_numbers(chosen, persons);
    mark_numbers(named, objects);
    none_below(values, prices, chosen, named, lists, worst)
}

/// Whether these persons list, at costs better than one, only these objects, which are fewer. The worst
/// cost is turned, so that less is better.
pub fn are_short(
    alloc: Global,
    lists: &CostLists<'_>,
    worst: Cost,
    persons: &[Person],
    objects: &[Object],
) -> Result<bool, AllocError>
    requires { IsCost worst }
    ensures { IfOk result (λ are. IsTrue are
        ↔ AreShort lists.now.sense lists.now.m lists.now.rows
        (minimised lists.now.sense worst) persons.now objects.now) }
{
    if !are_fewer(lists, persons, objects) {
        return Ok(false);
    }
    let (n, m) = (lists.persons() as usize, lists.objects() as usize);
    let mut chosen = vec![in alloc; false; n]?;
    let mut named = vec![in alloc; false; m]?;
    let mut values: Vec<Cost> = vec![in alloc; LOWEST; n]?;
    let mut prices: Vec<Price> = vec![in alloc; 0; m]?;
    let (chosen, named) = (chosen.as_mut_slice(), named.as_mut_slice());
    let (values, prices) = (values.as_mut_slice(), prices.as_mut_slice());
    Ok(list_only(
        chosen, named, values, prices, lists, worst, persons, objects,
    ))
}
