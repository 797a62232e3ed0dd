// The pairs of finite costs, each at its cost in units.
ghost use Rattle.std.specs.Prelude.{◌≡◌, ◌<◌, ◌≤◌, ◌+◌, ◌*◌, ◌/◌, ◌^◌, ℕ, pos, List, [], All, IfOk, IsTrue, length};
ghost use lib.Ieee.{Float};
ghost use Rattle.assign_core.specs.Numbered.{IsNumber};
ghost use Rattle.cost_lists.specs.ListedCosts.{IsCount};
ghost use Rattle.double_costs.specs.DoubleRows.{rows_of_doubles};
ghost use Rattle.double_costs.specs.Margins.{AreRowsBeside};
ghost use Rattle.double_costs.specs.Units.{is_number};
ghost use Rattle.wide_checker.specs.WideNumbers.{IsInCosts, IsWideCost, wide_value};
ghost use Rattle.c_wide.specs.exact.Given.{IsScaled};
ghost use Rattle.c_wide.specs.exact.Pairs.{HasPlaces, IsPushed};
ghost use Rattle.c_wide.specs.exact.Units.{IsInUnits, IsMultiple, IsUnit, IsWithin};

use super::parts::parts_of;
use c_calls::Shape;
use cost_lists::{GREATEST_NUMBER, Object, Person};
use double_checker::is_number;
use std::alloc::{AllocError, Global};
use wide_checker::{Wide, WideLists, WidePairs};

/// The pairs of finite costs, each at its cost in units.
#[derive(Drop)]
pub struct UnitPairs {
    pub persons: Vec<Person>,
    pub objects: Vec<Object>,
    pub costs: Vec<Wide>,
}

// A number with so many binary places after it.
fn shifted(significand: u64, by: u64) -> i128
    requires by { by ≤ 100 }
    requires small { significand * 2 ^ by ≤ 2 ^ 100 }
    ensures { result ≡ pos (significand * 2 ^ by) }
{
    (u128::from(significand) << by) as i128
}

// A cost in units.
fn units_in(cost: f64, unit: u64) -> i128
    requires finite { IsTrue (is_number cost) }
    requires multiple { IsMultiple unit cost }
    requires within { IsWithin unit cost }
    ensures units { IsInUnits unit cost result }
    ensures range { IsInCosts result }
{
    let parts = parts_of(cost);
    if parts.significand == 0 {
        return 0;
    }
    let size = shifted(parts.significand, parts.exponent - unit);
    if parts.negative { -size } else { size }
}

/// The same in two words.
pub fn wide_in(cost: f64, unit: u64) -> Wide
    requires finite { IsTrue (is_number cost) }
    requires multiple { IsMultiple unit cost }
    requires within { IsWithin unit cost }
    ensures units { IsInUnits unit cost (wide_value result) }
    ensures range { IsWideCost result }
{
    Wide::of(units_in(cost, unit))
}

// No pairs.
fn no_pairs(alloc: Global) -> UnitPairs
    ensures persons { result.persons.items ≡ [] }
    ensures objects { result.objects.items ≡ [] }
    ensures costs { result.costs.items ≡ [] }
{
    UnitPairs {
        persons: Vec::new(alloc),
        objects: Vec::new(alloc),
        costs: Vec::new(alloc),
    }
}

// Adds a pair.
fn push_pair(
    pairs: &mut UnitPairs,
    person: Person,
    object: Object,
    cost: Wide,
) -> Result<(), AllocError>
    ensures { IfOk result (λ _. IsPushed pairs.old (person, object, cost) pairs.new) }
{
    pairs.persons.push(person)?;
    pairs.objects.push(object)?;
    pairs.costs.push(cost)?;
    Ok(())
}

// Adds the pair at a place of the costs, if its cost is finite.
fn push_place(
    pairs: &mut UnitPairs,
    place: usize,
    m: Object,
    costs: &[f64],
    unit: u64,
) -> Result<(), AllocError>
    requires place { place < length costs.now }
    requires objects { IsCount m }
    requires person { place / m < GREATEST_NUMBER }
    requires unit { IsUnit unit costs.now }
    requires within { All (IsWithin unit) costs.now }
    ensures { IfOk result (λ _. (n : ℕ) → length costs.now ≡ n * m
        → HasPlaces unit n m costs.now place pairs.old
        → HasPlaces unit n m costs.now (place + 1) pairs.new) }
{
    if !is_number(costs[place]) {
        return Ok(());
    }
    let person = (place / m as usize) as u32 + 1;
    let object = (place % m as usize) as u32 + 1;
    let cost = wide_in(costs[place], unit);
    push_pair(pairs, person, object, cost)?;
    Ok(())
}

/// The pairs of `n` persons and `m` objects at finite costs.
pub fn unit_pairs(
    alloc: Global,
    n: Person,
    m: Object,
    costs: &[f64],
    unit: u64,
) -> Result<UnitPairs, AllocError>
    requires persons { IsCount n }
    requires objects { IsCount m }
    requires long { length costs.now ≡ n * m }
    requires unit { IsUnit unit costs.now }
    requires within { All (IsWithin unit) costs.now }
    ensures { IfOk result (HasPlaces unit n m costs.now (length costs.now)) }
{
    let mut pairs = no_pairs(alloc);
    for place in 0..costs.len() {
        push_place(&mut pairs, place, m, costs, unit)?;
    }
    Ok(pairs)
}

/// The pairs as a problem of costs of 128 bits.
pub fn lists_of_pairs<'a>(shape: Shape, pairs: &'a UnitPairs) -> WideLists<'a>
    requires persons { IsCount shape.n }
    requires objects { IsCount shape.m }
    requires objects_long { length pairs.now.objects.items ≡ length pairs.now.persons.items }
    requires costs_long { length pairs.now.costs.items ≡ length pairs.now.persons.items }
    requires persons_in { All (IsNumber shape.n) pairs.now.persons.items }
    requires objects_in { All (IsNumber shape.m) pairs.now.objects.items }
    requires costs_in { All IsWideCost pairs.now.costs.items }
    ensures sense { result.sense ≡ shape.sense }
    ensures persons { length result.rows ≡ shape.n }
    ensures objects { result.m ≡ shape.m }
    ensures rows { (unit : ℕ) (costs : List Float) → length costs ≡ shape.n * shape.m
        → HasPlaces unit shape.n shape.m costs (length costs) pairs.now
        → AreRowsBeside (IsScaled unit) (rows_of_doubles shape.m shape.n costs) result.rows }
{
    let Shape { sense, n, m } = shape;
    let listed = WidePairs {
        persons: pairs.persons.as_slice(),
        objects: pairs.objects.as_slice(),
        costs: pairs.costs.as_slice(),
    };
    WideLists::sparse(sense, n, m, listed)
}
