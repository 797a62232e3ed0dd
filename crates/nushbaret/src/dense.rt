// The calls that solve dense problems, as `c/nushbaret.h` declares them.
ghost use Rattle.std.specs.Prelude.{◌≡◌, ◌≢◌, [], pos};
ghost use Rattle.c_calls.specs.lists.Ends.{Solves, buffers};
ghost use Rattle.c_calls.specs.lists.Input.{problem_alone};
ghost use Rattle.c_calls.specs.declared.lists.form.Form.TheVariants.{Dense};

use c_calls::lists::{Form, Info, Input, solve_from, solve_input};
use cost_lists::{Object, Person, Price};
use list_solver::Record;
use std::alloc::Global;

/// Solves a dense problem: `n` persons, `m` objects, and the cost of each pair, row by row.
#[unsafe(no_mangle)]
pub extern "C" fn nushbaret_dense(
    alloc: Global,
    sense: u32,
    n: usize,
    m: usize,
    costs: &[i64],
    objects: &mut [Object],
    persons: &mut [Person],
    prices: &mut [Price],
    info: &mut Info,
) -> i32
    ensures { Solves (problem_alone Dense sense n m [] [] costs.now) [] 0
        (buffers objects.old persons.old prices.old info.old)
        (buffers objects.new persons.new prices.new info.new) result }
{
    let by_person = [objects.len(), persons.len()];
    let by_object = [prices.len()];
    let input = Input {
        form: Form::Dense,
        sense,
        n,
        m,
        by_person: &by_person,
        by_object: &by_object,
        persons: &[],
        objects: &[],
        costs,
        first: &[],
    };
    solve_input(alloc, &input, objects, persons, prices, info)
}

/// Solves a dense problem from first prices, if there are any, and from the objects that are given, or
/// goes on where an earlier call stopped. It stops where the budget is spent, if there is one.
#[unsafe(no_mangle)]
pub extern "C" fn nushbaret_dense_from(
    alloc: Global,
    sense: u32,
    n: usize,
    m: usize,
    costs: &[i64],
    first: &[Price],
    objects: &mut [Object],
    persons: &mut [Person],
    prices: &mut [Price],
    budget: u64,
    progress: &mut Record,
    info: &mut Info,
) -> i32
    ensures solves { Solves (problem_alone Dense sense n m [] [] costs.now) first.now budget
        (buffers objects.old persons.old prices.old info.old)
        (buffers objects.new persons.new prices.new info.new) result }
    ensures progress { result ≢ pos 21 → progress.new ≡ progress.old }
{
    let by_person = [objects.len(), persons.len()];
    let by_object = [prices.len()];
    let input = Input {
        form: Form::Dense,
        sense,
        n,
        m,
        by_person: &by_person,
        by_object: &by_object,
        persons: &[],
        objects: &[],
        costs,
        first,
    };
    solve_from(
        alloc, &input, budget, objects, persons, prices, progress, info,
    )
}
