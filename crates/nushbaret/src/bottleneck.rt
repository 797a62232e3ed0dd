// The call that arc scans for a bottleneck, as `c/nushbaret.h` declares it.
ghost use Rattle.std.specs.Prelude.{◌≡◌, ◌≢◌, pos};
ghost use Rattle.c_bottleneck.specs.Bottleneck.{FindsBottleneck, bottleneck_input, buffers};

use c_bottleneck::bottleneck_on;
use c_calls::lists::{Info, either_input};
use cost_lists::{Object, Person};
use list_solver::Record;
use std::alloc::Global;

/// Looks for a plan whose worst pair is as good as possible, of a problem that is dense or sparse as in
/// `nushbaret_check`, and goes on where an earlier call stopped.
#[unsafe(no_mangle)]
pub extern "C" fn nushbaret_bottleneck(
    alloc: Global,
    sense: u32,
    n: usize,
    m: usize,
    of_persons: &[Person],
    of_objects: &[Object],
    costs: &[i64],
    objects: &mut [Object],
    persons: &mut [Person],
    few: &mut [Object],
    budget: u64,
    progress: &mut Record,
    info: &mut Info,
) -> i32
    ensures finds { let before = buffers objects.old persons.old few.old info.old in
        FindsBottleneck (bottleneck_input sense n m of_persons.now of_objects.now costs.now before) budget
        before (buffers objects.new persons.new few.new info.new) result }
    ensures progress { result ≢ pos 21 → progress.new ≡ progress.old }
{
    let by_person = [objects.len(), persons.len(), few.len()];
    let input = either_input(sense, n, m, &by_person, &[], of_persons, of_objects, costs);
    bottleneck_on(alloc, &input, objects, persons, few, budget, progress, info)
}
