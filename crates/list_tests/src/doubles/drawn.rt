// A drawn problem of 300 persons and objects.
use super::called::{solve, solve_again, unwritten};
use std::num::nearest_i64_to_f64;
use std::test::Fail;

// The next number of a congruential generator, from its high bits.
fn next_number(seed: &mut u64) -> u64 {
    *seed = seed
        .wrapping_mul(6364136223846793005)
        .wrapping_add(1442695040888963407);
    *seed >> 33
}

// From 0 up to 1.
fn next_part(seed: &mut u64) -> f64 {
    nearest_i64_to_f64(next_number(seed).cast_signed()) / 2147483648.0
}

const MANY: usize = 300;

fn draw_parts(seed: &mut u64, costs: &mut [f64]) {
    for k in 0..costs.len() {
        costs[k] = next_part(seed);
    }
}

// What a plan costs; the sum isn't rounded.
fn sum_of(costs: &[f64], objects: &[u32]) -> f64 {
    let mut sum = 0.0;
    for (row, object) in costs.chunks(MANY).zip(objects) {
        let place = (*object as usize).wrapping_sub(1);
        sum += row.get(place).copied().unwrap_or(1000.0);
    }
    sum
}

// SciPy's plan for these costs has this sum. Without two persons' objects the search goes on from the
// others'.
#[test]
fn plans_of_many_persons(rt: HostRuntime) -> Result<(), Fail> {
    let alloc = rt.alloc();
    let mut seed = 7u64;
    let mut costs = vec![in alloc; 0.0; MANY * MANY]?;
    draw_parts(&mut seed, costs.as_mut_slice());
    let (mut objects, mut persons, mut prices) = ([0u32; MANY], [0u32; MANY], [0.0; MANY]);
    let mut info = unwritten();
    let costs = costs.as_slice();
    let code = solve(
        alloc,
        0,
        MANY,
        MANY,
        costs,
        &mut objects,
        &mut persons,
        &mut prices,
        &mut info,
    );
    assert!(rt; code == 0 && info.by_margin == 1);
    assert!(rt; sum_of(costs, &objects) == 3406269952.0 / 2147483648.0);
    let before = objects;
    objects[0] = 0;
    objects[150] = 0;
    let code = solve_again(
        alloc,
        0,
        MANY,
        MANY,
        costs,
        &mut objects,
        &mut persons,
        &mut prices,
        &mut info,
    );
    assert!(rt; code == 0 && info.by_margin == 1);
    assert!(rt; objects == before);
    Ok(())
}
