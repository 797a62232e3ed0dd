// The ranges of a report's numbers, by its version: version 1 has no sense.
ghost use Rattle.std.specs.Prelude.{◌≡◌, pos};
ghost use Rattle.report.specs.Reports;

use crate::limits::{FIRST_GREATEST_COST, FIRST_PRICE_END};
use assign_core::{Cost, GREATEST_COST, MOST_PERSONS, Object, PRICE_END, Price, Sense};

// The greatest absolute value of a pair's cost.
fn cost_limit(sense: Option<Sense>) -> u64
    ensures { result ≡ Reports.cost_limit sense }
{
    match sense {
        None => FIRST_GREATEST_COST.unsigned_abs(),
        Some(_) => GREATEST_COST.unsigned_abs(),
    }
}

// Prices are below this.
fn price_end(sense: Option<Sense>) -> Price
    ensures { result ≡ pos (Reports.price_end sense) }
{
    match sense {
        None => FIRST_PRICE_END,
        Some(_) => PRICE_END,
    }
}

fn is_cost(sense: Option<Sense>, cost: Cost) -> bool
    ensures { result ≡ Reports.is_cost sense cost }
{
    cost.unsigned_abs() <= cost_limit(sense)
}

/// Whether this may be the cost of all pairs.
pub fn is_total(sense: Option<Sense>, cost: Cost) -> bool
    ensures { result ≡ Reports.is_total sense cost }
{
    cost.unsigned_abs() <= u64::from(MOST_PERSONS) * cost_limit(sense)
}

/// Whether a pair may have this object and this cost.
pub fn is_entry(sense: Option<Sense>, object: Object, cost: Cost) -> bool
    ensures { result ≡ Reports.is_entry sense (object, cost) }
{
    object.0 > 0 && object.0 <= MOST_PERSONS && is_cost(sense, cost)
}

/// Whether an object may have this price.
pub fn is_price(sense: Option<Sense>, price: Price) -> bool
    ensures { result ≡ Reports.is_price sense price }
{
    price >= 0 && price < price_end(sense)
}
