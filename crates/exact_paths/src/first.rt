// First prices of a search.
use assign_core::Price;
use std::alloc::{AllocError, Global};

// The greatest first price, in the unit of the costs.
const GREATEST: Price = 1_000_000_000_000_000_000;

// How far a price is above another one, in the unit of the costs of a problem with `n` objects.
fn whole_price(price: Price, least: Price, n: u16) -> i64 {
    let above = price.saturating_sub(least) / (Price::from(n) + 1);
    i64::try_from(above.min(GREATEST)).unwrap_or(0)
}

/// Prices in the unit of the costs, by how far they are above the least one. Prices that are far
/// apart are cut.
pub fn whole_prices(alloc: Global, prices: &[Price], n: u16) -> Result<Vec<i64>, AllocError> {
    let least = prices.iter().copied().min().unwrap_or(0);
    let mut whole = Vec::with_capacity(alloc, prices.len())?;
    for price in prices {
        whole.push(whole_price(*price, least, n))?;
    }
    Ok(whole)
}
