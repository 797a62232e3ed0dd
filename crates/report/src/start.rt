// The prices of a report as the first prices of a run.
ghost use Rattle.std.specs.Prelude.{◌≡◌, ◌<◌, ◌^◌, All, IfErr, IfOk, MatchOption, length};
ghost use Rattle.report.specs.SeenReports.{seen_report};
ghost use Rattle.report.specs.Starts.{HasStartFault, IsFirstPrice, IsFirstTooGreat, IsStart};

use crate::fault::StartFault;
use crate::value::Report;
use assign_core::{GREATEST_FIRST_PRICE, Object, Price};

// The lowest object whose price is too great for a first price.
fn first_too_great(prices: &[Price]) -> Option<Object>
    requires { length prices.now < 2 ^ 16 }
    ensures { MatchOption result (All IsFirstPrice prices.now) (IsFirstTooGreat prices.now) }
{
    for (i, price) in prices.iter().enumerate() {
        if *price > GREATEST_FIRST_PRICE {
            return Some(Object(i as u16 + 1));
        }
    }
    None
}

/// The prices of a report, as the first prices of a run with `n` objects. The other lines of the
/// report don't matter. Prices of a report that was read are at least 0.
///
/// It takes no memory, and reads each price once.
///
/// # Errors
/// The first of these that applies: `NoPrices` for a Hall set or an assignment without prices;
/// `Length`, with the number of prices, if it isn't `n`; `Price`, with the lowest object whose
/// price is above `GREATEST_FIRST_PRICE`.
pub fn start_prices(report: &Report, n: u16) -> Result<&[Price], StartFault>
    ensures prices { IfOk result (λ prices. IsStart (seen_report report.now) n prices.now) }
    ensures fault { IfErr result (HasStartFault (seen_report report.now) n) }
{
    let prices = match report {
        Report::Best {
            prices: Some(prices),
            ..
        } => prices.as_slice(),
        _ => return Err(StartFault::NoPrices),
    };
    if prices.len() != n as usize {
        return Err(StartFault::Length(prices.len()));
    }
    match first_too_great(prices) {
        Some(object) => Err(StartFault::Price(object)),
        None => Ok(prices),
    }
}
