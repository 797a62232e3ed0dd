// The call that looks for a best plan with fewest changes, as `c/nushbaret.h` declares it.
ghost use Rattle.c_wide.specs.fewest.Ends.{FewestBuffers, IsFewestReported, fewest_buffers, fewest_input};

use c_calls::lists::{Info, either_input};
use c_wide::fewest_on;
use cost_lists::{Object, Person};
use std::alloc::Global;
use wide_checker::Wide;

/// Looks for an optimal assignment that changes fewest persons, of a problem that is dense or sparse as in
/// `nushbaret_check`.
#[unsafe(no_mangle)]
pub extern "C" fn nushbaret_fewest_changes(
    alloc: Global,
    sense: u32,
    n: usize,
    m: usize,
    of_persons: &[Person],
    of_objects: &[Object],
    costs: &[i64],
    kept: &[Object],
    objects: &mut [Object],
    persons: &mut [Person],
    prices: &mut [Wide],
    changed: &mut usize,
    info: &mut Info,
) -> i32
    ensures { let before : FewestBuffers = fewest_buffers objects.old persons.old prices.old changed.old info.old in
        let after : FewestBuffers = fewest_buffers objects.new persons.new prices.new changed.new info.new in
        IsFewestReported
        (fewest_input sense n m of_persons.now of_objects.now costs.now kept.now before)
        kept.now before after result }
{
    let by_person = [kept.len(), objects.len(), persons.len()];
    let by_object = [prices.len()];
    let input = either_input(
        sense, n, m, &by_person, &by_object, of_persons, of_objects, costs,
    );
    fewest_on(alloc, &input, kept, objects, persons, prices, changed, info)
}
