// Calls on lists as a program in C lends them.
use c_calls::doubles::{DoublesInfo, input_of, solve_from, solve_input};
use std::alloc::Global;

/// A record in which nothing is written.
pub fn unwritten() -> DoublesInfo {
    DoublesInfo {
        place: 77,
        persons: 77,
        objects: 77,
        person: 77,
        object: 77,
        by_margin: 77,
    }
}

/// A search from nothing; the sense is 0 for the least sum, 1 for the greatest.
pub fn solve(
    alloc: Global,
    sense: u32,
    n: usize,
    m: usize,
    costs: &[f64],
    objects: &mut [u32],
    persons: &mut [u32],
    prices: &mut [f64],
    info: &mut DoublesInfo,
) -> i32 {
    let by_person = [objects.len(), persons.len()];
    let by_object = [prices.len()];
    let input = input_of(sense, n, m, &by_person, &by_object, costs);
    solve_input(alloc, &input, objects, persons, prices, info)
}

/// A search from the plan and the prices in the lists.
pub fn solve_again(
    alloc: Global,
    sense: u32,
    n: usize,
    m: usize,
    costs: &[f64],
    objects: &mut [u32],
    persons: &mut [u32],
    prices: &mut [f64],
    info: &mut DoublesInfo,
) -> i32 {
    let by_person = [objects.len(), persons.len()];
    let by_object = [prices.len()];
    let input = input_of(sense, n, m, &by_person, &by_object, costs);
    solve_from(alloc, &input, objects, persons, prices, info)
}
