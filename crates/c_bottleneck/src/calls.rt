// A bottleneck of a caller's problem.
ghost use Rattle.std.specs.Prelude.{◌≡◌, ◌≢◌, ◌≤◌, ◌++◌, IfOk, drop, length, pos};
ghost use Rattle.c_calls.specs.lists.Input.{HasLengths};
ghost use Rattle.c_bottleneck.specs.Answers.{IsAnswer};
ghost use Rattle.c_bottleneck.specs.Bottleneck.{FindsBottleneck, HoldsAnswer, buffers};

use super::answer::{Answer, answer_of};
use assign_core::hall_set_forbids;
use bottleneck_checker::short_means_bottleneck;
use c_calls::lists::{Info, Input, judge, lists_of, refuse};
use c_calls::{Fault, put_hall};
use cost_lists::{CostLists, Object, Person};
use list_solver::{HallSet, Record};
use std::alloc::{AllocError, Global};

// Writes who is short of which objects.
fn put_short(few: &mut [Object], persons: &mut [Person], set: &HallSet, info: &mut Info)
    requires objects { length set.now.objects.items ≤ length few.old }
    requires persons { length set.now.persons.items ≤ length persons.old }
    ensures few { few.new ≡ set.now.objects.items ++ drop (length set.now.objects.items) few.old }
    ensures persons { persons.new
        ≡ set.now.persons.items ++ drop (length set.now.persons.items) persons.old }
    ensures info { info.new ≡ record info.old {
      persons = length set.now.persons.items;
      objects = length set.now.objects.items;
    } }
{
    put_hall(few, persons, set);
    info.persons = set.persons.len() as u64;
    info.objects = set.objects.len() as u64;
}

// Writes an answer, and returns its code. The start is what the search left of the objects.
fn put_answer(
    lists: &CostLists<'_>,
    budget: u64,
    answer: &Answer,
    start: &[Object],
    objects: &mut [Object],
    persons: &mut [Person],
    few: &mut [Object],
    info: &mut Info,
) -> i32
    requires answer { IsAnswer lists.now budget answer.now }
    requires start { length start.now ≡ length lists.now.rows }
    requires objects { length objects.old ≡ length lists.now.rows }
    requires persons { length persons.old ≡ length lists.now.rows }
    requires few { length few.old ≡ length lists.now.rows }
    ensures { HoldsAnswer lists.now budget
        (buffers objects.old persons.old few.old info.old)
        (buffers objects.new persons.new few.new info.new) result }
{
    // These calls show the prover what is meant by persons who are short of objects.
    short_means_bottleneck();
    hall_set_forbids();
    match answer {
        Answer::Best(plan, worst, set) => {
            objects.copy_from_slice(plan.as_slice());
            put_short(few, persons, set, info);
            info.total = *worst;
            0
        }
        Answer::Short(set) => {
            put_short(few, persons, set, info);
            1
        }
        Answer::Stopped => {
            objects.copy_from_slice(start);
            21
        }
        Answer::Open => 23,
    }
}

// An answer with the objects and the record from which the search goes on.
#[derive(Drop)]
struct Searched {
    answer: Answer,
    start: Vec<Object>,
    progress: Record,
}

// Searches from copies of objects and a record.
fn search_from(
    alloc: Global,
    lists: &CostLists<'_>,
    objects: &[Object],
    progress: Record,
    budget: u64,
) -> Result<Searched, AllocError>
    ensures { IfOk result (λ s. IsAnswer lists.now budget s.answer
        × (length s.start.items ≡ length objects.now)) }
{
    let mut start = Vec::from_slice(alloc, objects)?;
    let mut progress = progress;
    let answer = answer_of(alloc, lists, start.as_mut_slice(), &mut progress, budget)?;
    Ok(Searched {
        answer,
        start,
        progress,
    })
}

/// Looks for a plan of a given problem whose worst pair is as good as possible, from where the objects
/// and the record stand. Returns 0 with the plan, the cost of its worst pair, and persons who list at
/// better costs only a few objects, fewer than they are; 1 with a Hall set where there is no plan; 21 with
/// where the search goes on; 23 where nothing was shown; or the code of the first fault.
pub fn bottleneck_on(
    alloc: Global,
    input: &Input<'_>,
    objects: &mut [Object],
    persons: &mut [Person],
    few: &mut [Object],
    budget: u64,
    progress: &mut Record,
    info: &mut Info,
) -> i32
    requires objects { HasLengths input.now → length objects.old ≡ input.now.n }
    requires persons { HasLengths input.now → length persons.old ≡ input.now.n }
    requires few { HasLengths input.now → length few.old ≡ input.now.n }
    ensures finds { FindsBottleneck input.now budget
        (buffers objects.old persons.old few.old info.old)
        (buffers objects.new persons.new few.new info.new) result }
    ensures progress { result ≢ pos 21 → progress.new ≡ progress.old }
{
    let shape = match judge(input) {
        Ok(shape) => shape,
        Err(fault) => return refuse(fault, info),
    };
    let lists = lists_of(shape, input);
    let searched = match search_from(alloc, &lists, objects, *progress, budget) {
        Ok(searched) => searched,
        Err(_) => return refuse(Fault::Memory, info),
    };
    let code = put_answer(
        &lists,
        budget,
        &searched.answer,
        searched.start.as_slice(),
        objects,
        persons,
        few,
        info,
    );
    if code == 21 {
        *progress = searched.progress;
    }
    code
}
