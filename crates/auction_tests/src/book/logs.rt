// What a full log forgets, and how older tables catch up with it.
ghost use Rattle.std.specs.Prelude.{◌≡◌, ◌<ℤ◌, ◌∷◌, [], length, IfOk, IfSome};
ghost use Rattle.assign_core.specs.Prices.{IsBelow, IsPrice, price_of};
ghost use Rattle.assign_core.specs.Numbered.{IsNumber};
ghost use Rattle.price_log.specs.History.{Continues, IsHistory, today};

use assign_core::{Object, PRICE_END, Price, Prices};
use price_log::PriceLog;
use std::alloc::{AllocError, Global};
use std::process::Abort;
use std::test::Fail;

fn one_price(alloc: Global, price: Price) -> Result<Prices, AllocError>
    requires { IsPrice price }
    ensures { IfOk result (λ table. table ≡ price ∷ []) }
{
    let mut table = Prices::zeros(alloc, 1)?;
    table.set(Object(1), price);
    Ok(table)
}

// A price that is 1 above that of object 1, if it is in range.
fn next_level(log: &PriceLog) -> Option<Price>
    ensures object { IfSome result (λ level. IsNumber (length (today log.now)) 1) }
    ensures above { IfSome result (λ level. price_of (today log.now) 1 <ℤ level) }
    ensures price { IfSome result IsPrice }
    ensures log { IsHistory log.now }
{
    if log.prices().as_slice().is_empty() {
        return None;
    }
    let price = log.price(Object(1));
    if price < PRICE_END - 1 {
        Some(price + 1)
    } else {
        None
    }
}

// Raises the price of object 1 by 1.
fn raise_by_one(log: &mut PriceLog) -> Result<(), AllocError>
    ensures continues { IfOk result (λ _. Continues log.old log.new) }
    ensures below { IfOk result (λ _. IsBelow (today log.old) (today log.new)) }
    ensures log { IfOk result (λ _. IsHistory log.new) }
{
    let Some(level) = next_level(log) else {
        return Err(AllocError);
    };
    log.raise(Object(1), level)
}

// Raises the price of object 1 by 1 `times` times.
fn raise_times(log: &mut PriceLog, times: u32) -> Result<(), AllocError>
    ensures continues { IfOk result (λ _. Continues log.old log.new) }
    ensures below { IfOk result (λ _. IsBelow (today log.old) (today log.new)) }
    ensures log { IfOk result (λ _. IsHistory log.new) }
{
    // This call shows the prover that the log is one before the first raise.
    let _log = log.prices();
    for _ in 0..times {
        raise_by_one(log)?;
    }
    Ok(())
}

// The price of a table of one object.
fn only_price(table: &Prices) -> Option<Price> {
    if table.as_slice().len() != 1 {
        return None;
    }
    table.as_slice().first().copied()
}

// The version, the first version kept, and the only price.
type Seen = (u128, u128, Option<Price>);

fn seen(log: &PriceLog) -> Seen {
    (log.version(), log.first_kept(), only_price(log.prices()))
}

// A log of one price after `times` raises.
fn raised_log(alloc: Global, price: Price, times: u32) -> Result<PriceLog, AllocError>
    requires { IsPrice price }
    ensures { IfOk result IsHistory }
{
    let mut log = PriceLog::start(alloc, one_price(alloc, price)?)?;
    raise_times(&mut log, times)?;
    Ok(log)
}

// The version and the price of a table made before `times` raises, before and after it catches up.
fn caught_up(
    alloc: Global,
    log: &mut PriceLog,
    times: u32,
) -> Result<[(u128, Option<Price>); 2], AllocError>
    ensures { IfOk result (λ _. IsHistory log.new) }
{
    let mut table = log.prices().copy(alloc)?;
    let mut version = log.version();
    let before = (version, only_price(&table));
    raise_times(log, times)?;
    log.catch_up(&mut table, &mut version);
    Ok([before, (version, only_price(&table))])
}

// A log as seen before and after further raises, and a table before and after it catches up with
// them.
type Around = (Seen, [(u128, Option<Price>); 2], Seen);

fn seen_around(alloc: Global, log: &mut PriceLog, times: u32) -> Result<Around, AllocError> {
    let before = seen(log);
    let table = caught_up(alloc, log, times)?;
    Ok((before, table, seen(log)))
}

// A log as seen after `first` raises, and after `times` more.
fn seen_after(alloc: Global, first: u32, times: u32) -> Result<Around, AllocError> {
    let mut log = raised_log(alloc, 0, first)?;
    seen_around(alloc, &mut log, times)
}

#[test]
fn a_full_log_forgets_its_raises(rt: HostRuntime) -> Result<(), Fail> {
    let (before, table, after) = seen_after(rt.alloc(), 65_536, 1)?;
    assert_eq!(rt; before, (65_536, 0, Some(65_536)));
    assert_eq!(rt; table, [(65_536, Some(65_536)), (65_537, Some(65_537))]);
    assert_eq!(rt; after, (65_537, 65_536, Some(65_537)));
    Ok(())
}

#[test]
fn an_old_table_is_copied_whole(rt: HostRuntime) -> Result<(), Fail> {
    let (before, table, after) = seen_after(rt.alloc(), 3, 65_534)?;
    assert_eq!(rt; before, (3, 0, Some(3)));
    assert_eq!(rt; table, [(3, Some(3)), (65_537, Some(65_537))]);
    assert_eq!(rt; after, (65_537, 65_536, Some(65_537)));
    Ok(())
}

// A log as seen after its five raises are forgotten.
fn seen_after_trim(alloc: Global) -> Result<Seen, AllocError> {
    let mut log = raised_log(alloc, 7, 5)?;
    let last = log.version();
    log.trim(last);
    Ok(seen(&log))
}

#[test]
fn a_trim_keeps_prices_and_version(rt: HostRuntime) -> Result<(), Fail> {
    let seen = seen_after_trim(rt.alloc())?;
    assert_eq!(rt; seen, (5, 5, Some(12)));
    Ok(())
}

// A raise, which leaves the log as it was if it is refused.
fn raise_or_keep(rt: &impl Abort, log: &mut PriceLog) -> Result<(), AllocError> {
    let before = seen(log);
    let raised = raise_by_one(log);
    assert!(rt; raised.is_ok() || seen(log) == before);
    raised
}

// A log as seen after a thousand of these raises.
fn seen_after_thousand(rt: &impl Abort, log: &mut PriceLog) -> Result<Seen, AllocError> {
    for _ in 0..1000 {
        raise_or_keep(rt, log)?;
    }
    Ok(seen(log))
}

fn thousand_raises(alloc: Global, rt: &impl Abort) -> Result<Seen, AllocError> {
    let mut log = raised_log(alloc, 0, 0)?;
    seen_after_thousand(rt, &mut log)
}

// The refusals come from runs in which one allocation after the other fails.
#[test]
fn a_refused_raise_leaves_the_log(rt: HostRuntime) -> Result<(), Fail> {
    let seen = thousand_raises(rt.alloc(), &rt)?;
    assert_eq!(rt; seen, (1000, 0, Some(1000)));
    Ok(())
}
