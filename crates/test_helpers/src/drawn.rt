// Pseudo-random numbers, and problems and prices of these numbers.
ghost use Rattle.std.specs.Prelude.{◌≡◌, ◌<◌, ◌≤ℤ◌, length, IfOk};
ghost use Rattle.assign_core.specs.Rows.{IsSize};
ghost use Rattle.scaled_values.specs.Scaled.{greatest_of};

use super::problems::{Pair, first_prices};
use assign_core::{Cost, GREATEST_FIRST_PRICE, Price, Prices, Sense};
use std::alloc::{AllocError, Global};

/// The next number of a congruential generator, from its high bits.
pub fn next_number(seed: &mut u64) -> u64 {
    *seed = seed
        .wrapping_mul(6364136223846793005)
        .wrapping_add(1442695040888963407);
    *seed >> 33
}

/// A number from 0 to `end` - 1.
pub fn draw(seed: &mut u64, end: u16) -> u16
    requires { 0 < end }
    ensures { result < end }
{
    (next_number(seed) % u64::from(end)) as u16
}

/// A number from 0 to `end` - 1, also for an end beyond 16 bits; 0 for an end of 0.
pub fn draw_wide(seed: &mut u64, end: u64) -> u64 {
    next_number(seed).checked_rem(end).unwrap_or(0)
}

pub fn drawn_sense(seed: &mut u64) -> Sense {
    if draw(seed, 2) == 0 {
        Sense::Min
    } else {
        Sense::Max
    }
}

/// Pairs of n persons: about `share` in four of all pairs, at `costs` different costs, half of them
/// below 0.
pub fn drawn_pairs(
    alloc: Global,
    seed: &mut u64,
    n: u16,
    share: u16,
    costs: u16,
) -> Result<Vec<Pair>, AllocError>
    requires { 0 < costs }
{
    let mut pairs = Vec::new(alloc);
    for i in 1..=n {
        draw_row(seed, i, n, share, costs, &mut pairs)?;
    }
    Ok(pairs)
}

// The pairs of one more person.
fn draw_row(
    seed: &mut u64,
    person: u16,
    n: u16,
    share: u16,
    costs: u16,
    pairs: &mut Vec<Pair>,
) -> Result<(), AllocError>
    requires { 0 < costs }
{
    for object in 1..=n {
        let cost = Cost::from(draw(seed, costs)) - Cost::from(costs / 2);
        if draw(seed, 4) < share {
            pairs.push((person, object, cost))?;
        }
    }
    Ok(())
}

/// First prices, all 0 or not.
pub fn drawn_prices(alloc: Global, seed: &mut u64, n: u16) -> Result<Prices, AllocError>
    requires { IsSize n }
    ensures long { IfOk result (λ prices. length prices ≡ n) }
    ensures low { IfOk result (λ prices. greatest_of prices ≤ℤ GREATEST_FIRST_PRICE) }
{
    let range = if draw(seed, 2) == 0 { 1 } else { 50 };
    let mut given = Vec::new(alloc);
    for _ in 0..n {
        given.push(Price::from(draw(seed, range)))?;
    }
    first_prices(alloc, n, given.as_slice())
}
