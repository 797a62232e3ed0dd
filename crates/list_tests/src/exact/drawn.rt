// Drawn problems, and drawn lists to be checked.
use super::problem::Problem;
use assign_core::{Cost, Sense};
use std::alloc::{AllocError, Global};

// The next number of a congruential generator, from its high bits.
fn next_number(seed: &mut u64) -> u64 {
    *seed = seed
        .wrapping_mul(6364136223846793005)
        .wrapping_add(1442695040888963407);
    *seed >> 33
}

/// A number from 0 to `end` - 1; 0 for an end of 0.
pub fn draw(seed: &mut u64, end: u32) -> u32 {
    next_number(seed)
        .checked_rem(u64::from(end))
        .unwrap_or(0)
        .min(1_000_000) as u32
}

/// A cost of one of the kinds: few small ones, near a limit of the widths in bits, or all equal.
pub fn drawn_cost(seed: &mut u64, kind: u32) -> Cost {
    let step = Cost::from(draw(seed, 7));
    let side = if draw(seed, 2) == 0 { 1 } else { -1 };
    let base: Cost = match kind {
        0 => 0,
        1 => 33_554_430,
        2 => 2_147_483_645,
        3 => 1_099_511_627_770,
        4 => 999_999_999_990,
        _ => return 7,
    };
    let cost = step.wrapping_add(base).min(1_000_000_000_000);
    cost.wrapping_mul(side)
}

// All costs of n persons and m objects.
fn draw_rows(seed: &mut u64, problem: &mut Problem, kind: u32) -> Result<(), AllocError> {
    let size = u64::from(problem.n).wrapping_mul(u64::from(problem.m));
    for _ in 0..size {
        problem.costs.push(drawn_cost(seed, kind))?;
    }
    Ok(())
}

// So many pairs, some of them more than once.
fn draw_pairs(
    seed: &mut u64,
    problem: &mut Problem,
    kind: u32,
    count: u32,
) -> Result<(), AllocError> {
    for _ in 0..count {
        let person = draw(seed, problem.n).wrapping_add(1);
        let object = draw(seed, problem.m).wrapping_add(1);
        problem.persons.push(person)?;
        problem.objects.push(object)?;
        problem.costs.push(drawn_cost(seed, kind))?;
    }
    Ok(())
}

/// A problem of up to 4 persons and up to 5 objects.
pub fn drawn_problem(alloc: Global, seed: &mut u64) -> Result<Problem, AllocError> {
    let m = draw(seed, 5).wrapping_add(1);
    let n = draw(seed, 4).wrapping_add(1);
    let sense = if draw(seed, 2) == 0 {
        Sense::Min
    } else {
        Sense::Max
    };
    let kind = draw(seed, 6);
    let is_dense = draw(seed, 3) == 0;
    let mut problem = Problem {
        sense,
        n,
        m,
        is_dense,
        persons: Vec::new(alloc),
        objects: Vec::new(alloc),
        costs: Vec::new(alloc),
    };
    if is_dense {
        draw_rows(seed, &mut problem, kind)?;
    } else {
        let most = n.wrapping_mul(m).wrapping_mul(2);
        let count = draw(seed, most).wrapping_add(1);
        draw_pairs(seed, &mut problem, kind, count)?;
    }
    Ok(problem)
}

/// So many numbers from 0 to `end` - 1.
pub fn drawn_numbers(
    alloc: Global,
    seed: &mut u64,
    count: u32,
    end: u32,
) -> Result<Vec<u32>, AllocError> {
    let mut numbers = Vec::new(alloc);
    for _ in 0..count {
        numbers.push(draw(seed, end))?;
    }
    Ok(numbers)
}

/// Changes one number of a list by one, up or down.
pub fn change_one(seed: &mut u64, numbers: &mut [u32]) {
    let count = numbers.len().min(1000) as u32;
    let up = draw(seed, 2) == 0;
    if let Some(number) = numbers.get_mut(draw(seed, count) as usize) {
        *number = if up {
            number.wrapping_add(1)
        } else {
            number.wrapping_sub(1)
        };
    }
}

/// Changes one price of a list by one, up or down.
pub fn change_price(seed: &mut u64, prices: &mut [i64]) {
    let count = prices.len().min(1000) as u32;
    let up = draw(seed, 2) == 0;
    if let Some(price) = prices.get_mut(draw(seed, count) as usize) {
        *price = if up {
            price.wrapping_add(1)
        } else {
            price.wrapping_sub(1)
        };
    }
}
