// The costs of a problem in units: all of them where each is finite, or else the pairs of finite ones.
ghost use Rattle.std.specs.Prelude.{◌≡◌, ◌↔◌, ◌*◌, List, ℕ, length, map, All, IfOk, IsTrue};
ghost use lib.Ieee.{Float};
ghost use Rattle.assign_core.specs.Dense.{rows_cut};
ghost use Rattle.cost_lists.specs.ListedCosts.{IsCount};
ghost use Rattle.double_costs.specs.DoubleRows.{rows_of_doubles};
ghost use Rattle.double_costs.specs.Margins.{AreRowsBeside};
ghost use Rattle.wide_checker.specs.WideNumbers.{wide_value};
ghost use Rattle.wide_checker.specs.WideSources.{AreWideCosts};
ghost use Rattle.c_wide.specs.exact.Costs.{AreCostsOf, AreFinite, AreInUnits, HasCosts};
ghost use Rattle.c_wide.specs.exact.Given.{IsScaled};
ghost use Rattle.c_wide.specs.exact.Units.{IsUnit, IsWithin};

use super::pairs::{UnitPairs, lists_of_pairs, unit_pairs, wide_in};
use c_calls::Shape;
use double_checker::is_number;
use std::alloc::{AllocError, Global};
use wide_checker::{Wide, WideLists};

/// The costs of a problem in units.
#[derive(Drop)]
pub enum UnitCosts {
    /// The cost of each person and each object, row by row.
    Dense(Vec<Wide>),
    /// The pairs of finite costs.
    Listed(UnitPairs),
}

// Whether each cost is finite.
fn are_finite(costs: &[f64]) -> bool
    ensures { IsTrue result ↔ AreFinite costs.now }
{
    for k in 0..costs.len() {
        if !is_number(costs[k]) {
            return false;
        }
    }
    true
}

// All costs in units.
fn all_in_units(alloc: Global, costs: &[f64], unit: u64) -> Result<Vec<Wide>, AllocError>
    requires finite { AreFinite costs.now }
    requires unit { IsUnit unit costs.now }
    requires within { All (IsWithin unit) costs.now }
    ensures { IfOk result (λ units. AreInUnits unit costs.now units.items) }
{
    let mut units = Vec::with_capacity(alloc, costs.len())?;
    for k in 0..costs.len() {
        units.push(wide_in(costs[k], unit))?;
    }
    Ok(units)
}

/// The costs of `n` persons and `m` objects in units.
pub fn unit_costs(
    alloc: Global,
    shape: Shape,
    costs: &[f64],
    unit: u64,
) -> Result<UnitCosts, AllocError>
    requires persons { IsCount shape.n }
    requires objects { IsCount shape.m }
    requires long { length costs.now ≡ shape.n * shape.m }
    requires unit { IsUnit unit costs.now }
    requires within { All (IsWithin unit) costs.now }
    ensures form { IfOk result (AreCostsOf shape.n shape.m) }
    ensures units { IfOk result (HasCosts unit shape.n shape.m costs.now) }
{
    if are_finite(costs) {
        return Ok(UnitCosts::Dense(all_in_units(alloc, costs, unit)?));
    }
    let Shape { n, m, .. } = shape;
    Ok(UnitCosts::Listed(unit_pairs(alloc, n, m, costs, unit)?))
}

// All costs as a problem of costs of 128 bits.
fn lists_of_all<'a>(shape: Shape, units: &'a [Wide]) -> WideLists<'a>
    requires persons { IsCount shape.n }
    requires objects { IsCount shape.m }
    requires costs { AreWideCosts shape.n shape.m units.now }
    ensures sense { result.sense ≡ shape.sense }
    ensures persons { length result.rows ≡ shape.n }
    ensures objects { result.m ≡ shape.m }
    ensures rows { result.rows ≡ rows_cut shape.m shape.n (map wide_value units.now) }
{
    let Shape { sense, n, m } = shape;
    WideLists::dense(sense, n, m, units)
}

/// The costs as a problem of costs of 128 bits.
pub fn lists_in_units<'a>(shape: Shape, costs: &'a UnitCosts) -> WideLists<'a>
    requires persons { IsCount shape.n }
    requires objects { IsCount shape.m }
    requires form { AreCostsOf shape.n shape.m costs.now }
    ensures sense { result.sense ≡ shape.sense }
    ensures persons { length result.rows ≡ shape.n }
    ensures objects { result.m ≡ shape.m }
    ensures rows { (unit : ℕ) (given : List Float) → length given ≡ shape.n * shape.m
        → HasCosts unit shape.n shape.m given costs.now
        → AreRowsBeside (IsScaled unit) (rows_of_doubles shape.m shape.n given) result.rows }
{
    match costs {
        UnitCosts::Dense(units) => lists_of_all(shape, units.as_slice()),
        UnitCosts::Listed(pairs) => lists_of_pairs(shape, pairs),
    }
}
