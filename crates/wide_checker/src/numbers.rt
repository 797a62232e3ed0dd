// Numbers of 128 bits in two words, and their limits.
ghost use Rattle.std.specs.Prelude.{◌≡◌, ◌↔◌, ◌<◌, ◌^◌, pos, length, map, slice_index_or, All, IsTrue, MatchOption};
ghost use Rattle.std.specs.Int.{int_div_euclid, int_rem_euclid};
ghost use Rattle.wide_checker.specs.WideNumbers.{IsFirstBeyond, IsInCosts, IsInPrices, IsWideCost, wide_value};

/// The whole number `high * 2^64 + low`.
#[repr(C)]
#[derive(Clone, Copy)]
pub struct Wide {
    pub low: u64,
    pub high: i64,
}

/// The greatest absolute value of a cost.
pub const GREATEST_WIDE_COST: i128 = 1 << 100;

/// The greatest price. A cost and a price together fit 128 bits.
pub const GREATEST_WIDE_PRICE: i128 = 1 << 124;

/// Stands in a list of own costs for a person that doesn't list its object.
pub const UNLISTED: i128 = i128::MAX;

// The number divided by 2^64, rounded down.
fn high_of(value: i128) -> i64
    ensures { result ≡ int_div_euclid value (pos (2 ^ 64)) }
{
    value.div_euclid(1 << 64) as i64
}

// The remainder.
fn low_of(value: i128) -> u64
    ensures { pos result ≡ int_rem_euclid value (pos (2 ^ 64)) }
{
    value.rem_euclid(1 << 64) as u64
}

impl Wide {
    /// The number.
    pub fn value(self) -> i128
        ensures { result ≡ wide_value self }
    {
        self.high as i128 * (1 << 64) + self.low as i128
    }

    /// A number in two words.
    pub fn of(value: i128) -> Wide
        ensures { wide_value result ≡ value }
    {
        Wide {
            low: low_of(value),
            high: high_of(value),
        }
    }
}

/// The number at a place.
pub fn value_at(numbers: &[Wide], place: usize) -> i128
    requires { place < length numbers.now }
    ensures { result ≡ slice_index_or (map wide_value numbers.now) place (pos 0) }
{
    numbers[place].value()
}

/// The cost at a place.
pub fn cost_at(costs: &[Wide], place: usize) -> i128
    requires place { place < length costs.now }
    requires costs { All IsWideCost costs.now }
    ensures value { result ≡ slice_index_or (map wide_value costs.now) place (pos 0) }
    ensures range { IsInCosts result }
{
    value_at(costs, place)
}

/// The price at a place.
pub fn price_at(prices: &[Wide], place: usize) -> i128
    requires place { place < length prices.now }
    requires prices { All IsInPrices (map wide_value prices.now) }
    ensures value { result ≡ slice_index_or (map wide_value prices.now) place (pos 0) }
    ensures range { IsInPrices result }
{
    value_at(prices, place)
}

/// Whether a number is a cost: its absolute value is at most `GREATEST_WIDE_COST`.
pub fn is_wide_cost(cost: Wide) -> bool
    ensures { IsTrue result ↔ IsWideCost cost }
{
    let value = cost.value();
    -GREATEST_WIDE_COST <= value && value <= GREATEST_WIDE_COST
}

/// The place, from 0, of the first number that is no cost.
pub fn first_beyond(costs: &[Wide]) -> Option<usize>
    ensures { MatchOption result (All IsWideCost costs.now)
        (λ k. IsFirstBeyond costs.now k) }
{
    for k in 0..costs.len() {
        if !is_wide_cost(costs[k]) {
            return Some(k);
        }
    }
    None
}
