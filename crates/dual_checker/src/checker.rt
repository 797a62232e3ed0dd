// The checker: the first fault of the verdicts' order.
ghost use Rattle.std.specs.Prelude.{◌≡◌, ◌↔◌, length, replicate, IfOk};
ghost use Rattle.assign_core.specs.Assignment.{IsBest};
ghost use Rattle.assign_core.specs.Slackness.{IsCertificate};
ghost use Rattle.dual_checker.specs.Counts.{AreCounts};
ghost use Rattle.dual_checker.specs.Verdicts.{IsFault, IsVerdict};

use super::counts::first_given_twice;
use super::listed::first_unlisted;
use super::priced::first_out_of_range;
use super::rounded::set_rounded;
use super::slack::first_short;
use super::verdict::Verdict;
use assign_core::{Object, Price, Problem, Sense};
use std::alloc::{AllocError, Global};

// The first fault of the persons' objects and the objects' prices. There are a count and a
// rounded price for each object; the counts are 0 at first.
pub fn first_fault(
    counts: &mut [u32],
    rounded: &mut [i64],
    problem: &Problem,
    sense: Sense,
    objects: &[Object],
    prices: &[Price],
) -> Verdict
    requires counts { counts.old ≡ replicate (length problem.now) 0 }
    requires rounded { length rounded.old ≡ (length problem.now) }
    ensures fault { IsFault sense (length problem.now) problem.now objects.now prices.now result }
    ensures counts { result ≡ Verdict.Yes → AreCounts counts.new objects.now }
    ensures long { length counts.new ≡ (length problem.now) }
{
    let n = problem.n() as usize;
    if objects.len() != n || prices.len() != n {
        return Verdict::Length;
    }
    if let Some(person) = first_unlisted(problem, objects) {
        return Verdict::Unlisted(person);
    }
    if let Some(number) = first_given_twice(counts, objects) {
        return Verdict::Twice(Object(number as u16));
    }
    if let Some(object) = first_out_of_range(prices) {
        return Verdict::PriceRange(object);
    }
    set_rounded(rounded, prices);
    if let Some((person, object)) = first_short(problem, sense, objects, prices, rounded) {
        return Verdict::Slack(person, object);
    }
    Verdict::Yes
}

/// Whether the objects of persons 1, 2, .. and the prices of objects 1, 2, .. are a certificate
/// under this sense; if not, the first fault in the order of `Verdict`, by its lowest number.
///
/// `Yes` proves the assignment optimal: slackness 1 at benefits scaled by one more than the number
/// of persons (Bertsekas, Network Optimization, 1998, section 7.1). The lists may have any length
/// and hold any numbers. The time is linear in the listed pairs.
///
/// # Errors
/// `AllocError` if memory is refused, before the lists are read.
///
/// # Example
/// The body of `calling::proves_best`:
/// ```
/// let problem = read_dense(alloc, r)?;
/// let verdict = check(alloc, &problem, Sense::Min, objects, prices)?;
/// Ok(verdict == Verdict::Yes)
/// ```
pub fn check(
    alloc: Global,
    problem: &Problem,
    sense: Sense,
    objects: &[Object],
    prices: &[Price],
) -> Result<Verdict, AllocError>
    ensures verdict { IfOk result (λ v. IsVerdict sense problem.now objects.now prices.now v) }
    ensures yes { IfOk result (λ v.
        (v ≡ Verdict.Yes) ↔ IsCertificate sense problem.now objects.now prices.now) }
    ensures best { IfOk result (λ v. v ≡ Verdict.Yes → IsBest sense problem.now objects.now) }
{
    let n = problem.n();
    let mut counts = vec![in alloc; 0u32; n as usize]?;
    let mut rounded = vec![in alloc; 0i64; n as usize]?;
    let (counts, rounded) = (counts.as_mut_slice(), rounded.as_mut_slice());
    Ok(first_fault(counts, rounded, problem, sense, objects, prices))
}
