// The calls that solve sparse problems, as `c/nushbaret.h` declares them.
ghost use Rattle.std.specs.Prelude.{◌≡◌, ◌≢◌, [], pos};
ghost use Rattle.c_calls.specs.lists.Ends.{Solves, buffers};
ghost use Rattle.c_calls.specs.lists.Input.{problem_alone};
ghost use Rattle.c_calls.specs.declared.lists.form.Form.TheVariants.{Sparse};

use c_calls::lists::{Form, Info, Input, solve_from, solve_input};
use cost_lists::{Object, Person, Price};
use list_solver::Record;
use std::alloc::Global;

/// Solves a sparse problem: `n` persons, `m` objects, and the persons, the objects and the costs of
/// the listed pairs.
#[unsafe(no_mangle)]
pub extern "C" fn nushbaret_sparse(
    alloc: Global,
    sense: u32,
    n: usize,
    m: usize,
    of_persons: &[Person],
    of_objects: &[Object],
    costs: &[i64],
    objects: &mut [Object],
    persons: &mut [Person],
    prices: &mut [Price],
    info: &mut Info,
) -> i32
    ensures { Solves (problem_alone Sparse sense n m of_persons.now of_objects.now costs.now) [] 0
        (buffers objects.old persons.old prices.old info.old)
        (buffers objects.new persons.new prices.new info.new) result }
{
    let by_person = [objects.len(), persons.len()];
    let by_object = [prices.len()];
    let input = Input {
        form: Form::Sparse,
        sense,
        n,
        m,
        by_person: &by_person,
        by_object: &by_object,
        persons: of_persons,
        objects: of_objects,
        costs,
        first: &[],
    };
    solve_input(alloc, &input, objects, persons, prices, info)
}

/// Solves a sparse problem from first prices, if there are any, and from the objects that are given, or
/// goes on where an earlier call stopped. It stops where the budget is spent, if there is one.
#[unsafe(no_mangle)]
pub extern "C" fn nushbaret_sparse_from(
    alloc: Global,
    sense: u32,
    n: usize,
    m: usize,
    of_persons: &[Person],
    of_objects: &[Object],
    costs: &[i64],
    first: &[Price],
    objects: &mut [Object],
    persons: &mut [Person],
    prices: &mut [Price],
    budget: u64,
    progress: &mut Record,
    info: &mut Info,
) -> i32
    ensures solves { Solves (problem_alone Sparse sense n m of_persons.now of_objects.now costs.now) first.now budget
        (buffers objects.old persons.old prices.old info.old)
        (buffers objects.new persons.new prices.new info.new) result }
    ensures progress { result ≢ pos 21 → progress.new ≡ progress.old }
{
    let by_person = [objects.len(), persons.len()];
    let by_object = [prices.len()];
    let input = Input {
        form: Form::Sparse,
        sense,
        n,
        m,
        by_person: &by_person,
        by_object: &by_object,
        persons: of_persons,
        objects: of_objects,
        costs,
        first,
    };
    solve_from(
        alloc, &input, budget, objects, persons, prices, progress, info,
    )
}
