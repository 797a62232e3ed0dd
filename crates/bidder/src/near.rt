// The best two of a row of pairs, in 64 bits.
ghost use Rattle.std.specs.Prelude.{◌≡◌, ℤ, ◌+ℤ◌, ◌<ℤ◌, ◌<◌, List, [], ◌∷◌, ◌++◌, length, take, All, IfSome, IsTrue, MatchBool, cond, ◌≤◌, ◌≤ℤ◌};
ghost use Rattle.assign_core.specs.Numbered.{IsNumber};
ghost use Rattle.assign_core.specs.Rows.{Listing};
ghost use Rattle.assign_core.specs.Benefits.{IsBenefit};
ghost use Rattle.assign_core.specs.Prices.{IsNarrow, IsNarrowed, price_of};
ghost use Rattle.scaled_values.specs.Scaled.{IsBenefitRow};
ghost use Rattle.bidder.specs.BestTwo.{IsBestTwo};
ghost use Rattle.bidder.specs.inside.Near.{IsNear};

use super::scan::BestTwo;
use assign_core::{Benefit, Object, Prices};

// The first objects of a row, which change the best two more often than a processor foresees.
const FEW: usize = 32;

// The best two so far at the narrow prices, and an object of the second value.
#[derive(Clone, Copy)]
pub struct Near {
    pub object: Object,
    pub best: i64,
    pub other: Object,
    pub second: i64,
}

// A benefit less a narrow price.
fn difference(benefit: Benefit, narrow: i64) -> i64
    requires benefit { IsBenefit benefit }
    requires narrow { IsNarrow narrow }
    ensures { result +ℤ narrow ≡ benefit }
{
    benefit - narrow
}

// An object's value at its narrow price.
fn value_of(object: Object, benefit: Benefit, narrow: &[i64]) -> i64
    requires object { IsNumber (length narrow.now) object }
    requires benefit { IsBenefit benefit }
    requires narrow { All IsNarrow narrow.now }
    ensures { result +ℤ price_of narrow.now object ≡ benefit }
{
    difference(benefit, narrow[object.place()])
}

// Whether an object's narrow price is its price.
fn is_own(object: Object, narrow: &[i64], prices: &Prices) -> bool
    requires object { IsNumber (length prices.now) object }
    requires narrow { IsNarrowed narrow.now prices.now }
    ensures { IsTrue result → price_of narrow.now object ≡ price_of prices.now object }
{
    i128::from(narrow[object.place()]) == prices.price(object)
}

impl Near {
    // The best two of two objects.
    fn of_two(first: Object, value: i64, next: Object, other: i64) -> Near
        requires { first < next }
        ensures { (narrow : List ℤ) (a b : ℤ) → value +ℤ price_of narrow first ≡ a
            → other +ℤ price_of narrow next ≡ b
            → IsNear ((first, a) ∷ (next, b) ∷ []) narrow result }
    {
        if other > value {
            Near {
                object: next,
                best: other,
                other: first,
                second: value,
            }
        } else {
            Near {
                object: first,
                best: value,
                other: next,
                second: other,
            }
        }
    }

    // The first or else the other, field by field, so that no processor has to foresee which.
    fn one_of(is_first: bool, first: Near, other: Near) -> Near
        ensures { result ≡ cond is_first first other }
    {
        Near {
            object: object_of(is_first, first.object, other.object),
            best: number_of(is_first, first.best, other.best),
            other: object_of(is_first, first.other, other.other),
            second: number_of(is_first, first.second, other.second),
        }
    }

    fn best_is_below(&self, value: i64) -> bool
        ensures { MatchBool result (self.now.best <ℤ value) (value ≤ℤ self.now.best) }
    {
        self.best < value
    }

    fn second_is_below(&self, value: i64) -> bool
        ensures { MatchBool result (self.now.second <ℤ value) (value ≤ℤ self.now.second) }
    {
        self.second < value
    }

    // The best two if an object is above the best.
    fn with_best(&self, object: Object, value: i64) -> Near
        ensures { result ≡ record { object = object; best = value; other = self.now.object; second = self.now.best } }
    {
        Near {
            object,
            best: value,
            other: self.object,
            second: self.best,
        }
    }

    // The best two if an object is above the second alone.
    fn with_second(&self, object: Object, value: i64) -> Near
        ensures { result ≡ record { object = self.now.object; best = self.now.best; other = object; second = value } }
    {
        Near {
            object: self.object,
            best: self.best,
            other: object,
            second: value,
        }
    }

    // The best two with one more object, whose number is above those of the row.
    fn with(self, object: Object, value: i64) -> Near
        ensures { (row : Listing) (narrow : List ℤ) (benefit : ℤ) → IsNear row narrow self
            → All (λ e. e.0 < object) row → value +ℤ price_of narrow object ≡ benefit
            → IsNear (row ++ (object, benefit) ∷ []) narrow result }
    {
        let is_best = self.best_is_below(value);
        let is_second = self.second_is_below(value);
        let best = self.with_best(object, value);
        let second = self.with_second(object, value);
        let lower = Near::one_of(is_second, second, self);
        Near::one_of(is_best, best, lower)
    }

    // Reads one more object, whose number is above those of the row.
    fn read(self, object: Object, benefit: Benefit, narrow: &[i64]) -> Near
        requires object { IsNumber (length narrow.now) object }
        requires benefit { IsBenefit benefit }
        requires narrow { All IsNarrow narrow.now }
        ensures { (row : Listing) → IsNear row narrow.now self → All (λ e. e.0 < object) row
            → IsNear (row ++ (object, benefit) ∷ []) narrow.now result }
    {
        let value = value_of(object, benefit, narrow);
        if value <= self.second {
            return self;
        }
        self.with(object, value)
    }

    // The best two at the prices, if the narrow prices of both objects are their prices. No other
    // narrow price is above its own, so no other object then has a greater value.
    fn exact(self, narrow: &[i64], prices: &Prices) -> Option<BestTwo>
        requires object { IsNumber (length prices.now) self.object }
        requires other { IsNumber (length prices.now) self.other }
        requires narrow { IsNarrowed narrow.now prices.now }
        ensures { IfSome result (λ found. (row : Listing) → IsNear row narrow.now self
            → IsBestTwo row prices.now found) }
    {
        if !is_own(self.object, narrow, prices) {
            return None;
        }
        if !is_own(self.other, narrow, prices) {
            return None;
        }
        Some(BestTwo {
            object: self.object,
            best: i128::from(self.best),
            second: Some(i128::from(self.second)),
        })
    }
}

// The first of two objects, or else the other.
fn object_of(is_first: bool, first: Object, other: Object) -> Object
    ensures { result ≡ cond is_first first other }
{
    if is_first { first } else { other }
}

// The first of two numbers, or else the other.
fn number_of(is_first: bool, first: i64, other: i64) -> i64
    ensures { result ≡ cond is_first first other }
{
    if is_first { first } else { other }
}

// The first two objects of a row of pairs.
fn first_two(row: &[(Object, Benefit)], narrow: &[i64]) -> Near
    requires row { IsBenefitRow (length narrow.now) row.now }
    requires long { 1 < length row.now }
    requires narrow { All IsNarrow narrow.now }
    ensures { IsNear (take 2 row.now) narrow.now result }
{
    let (first, benefit) = row[0];
    let (next, other) = row[1];
    let value = value_of(first, benefit, narrow);
    let second = value_of(next, other, narrow);
    Near::of_two(first, value, next, second)
}

// The best two of the first objects of a row of pairs, without branches on their values.
fn first_few(row: &[(Object, Benefit)], narrow: &[i64], few: usize) -> Near
    requires row { IsBenefitRow (length narrow.now) row.now }
    requires least { 2 ≤ few }
    requires most { few ≤ length row.now }
    requires narrow { All IsNarrow narrow.now }
    ensures { IsNear (take few row.now) narrow.now result }
{
    let mut near = first_two(row, narrow);
    for i in 2..few {
        let (object, benefit) = row[i];
        near = near.with(object, value_of(object, benefit, narrow));
    }
    near
}

// The best two of a row of pairs, if it has two or more, and the narrow prices of the best two are
// their prices.
pub fn narrow_best_two(row: &[(Object, Benefit)], prices: &Prices) -> Option<BestTwo>
    requires { IsBenefitRow (length prices.now) row.now }
    ensures { IfSome result (IsBestTwo row.now prices.now) }
{
    if row.len() < 2 {
        return None;
    }
    let narrow = prices.narrow();
    let few = row.len().min(FEW);
    let mut near = first_few(row, narrow, few);
    for i in few..row.len() {
        let (object, benefit) = row[i];
        near = near.read(object, benefit, narrow);
    }
    near.exact(narrow, prices)
}
