// A plain search of all plans, and plain rules of plans and numbers, pair by pair.
use super::held::{Held, Lists};

fn group_of(lists: &Lists, column: u32) -> u32 {
    lists.groups.get(column as usize).copied().unwrap_or(0)
}

fn column_at(lists: &Lists, pair: usize) -> u32 {
    lists.columns.get(pair).copied().unwrap_or(0)
}

// The row of a pair: the last that begins at it or before.
fn row_at(lists: &Lists, pair: usize) -> usize {
    let mut row = 0usize;
    for (place, start) in lists.starts.iter().enumerate() {
        if *start <= pair {
            row = place;
        }
    }
    row
}

// Whether a row may not take both.
fn are_rivals(lists: &Lists, first: usize, second: usize) -> bool {
    let (one, other) = (column_at(lists, first), column_at(lists, second));
    let group = group_of(lists, one);
    row_at(lists, first) == row_at(lists, second)
        && (one == other || (group != 0 && group == group_of(lists, other)))
}

fn has(plan: &[u8], pair: usize) -> bool {
    plan.get(pair).copied().unwrap_or(0) != 0
}

// How many chosen pairs a row has, or a column.
fn row_count(lists: &Lists, plan: &[u8], row: usize) -> u32 {
    let mut count = 0u32;
    for pair in 0..plan.len() {
        if has(plan, pair) && row_at(lists, pair) == row {
            count = count.wrapping_add(1);
        }
    }
    count
}

fn column_count(lists: &Lists, plan: &[u8], column: usize) -> u32 {
    let mut count = 0u32;
    for pair in 0..plan.len() {
        if has(plan, pair) && column_at(lists, pair) as usize == column {
            count = count.wrapping_add(1);
        }
    }
    count
}

fn keeps_rows(lists: &Lists, plan: &[u8]) -> bool {
    let bounds = lists.row_least.iter().zip(&lists.row_most).enumerate();
    for (row, (least, most)) in bounds {
        let count = row_count(lists, plan, row);
        if count < *least || count > *most {
            return false;
        }
    }
    true
}

fn keeps_columns(lists: &Lists, plan: &[u8]) -> bool {
    let bounds = lists
        .column_least
        .iter()
        .zip(&lists.column_most)
        .enumerate();
    for (column, (least, most)) in bounds {
        let count = column_count(lists, plan, column);
        if count < *least || count > *most {
            return false;
        }
    }
    true
}

// Whether another chosen pair is a rival of this one.
fn has_rival(lists: &Lists, plan: &[u8], pair: usize) -> bool {
    for other in 0..plan.len() {
        if other != pair && has(plan, other) && are_rivals(lists, pair, other) {
            return true;
        }
    }
    false
}

fn keeps_groups(lists: &Lists, plan: &[u8]) -> bool {
    for pair in 0..plan.len() {
        if has(plan, pair) && has_rival(lists, plan, pair) {
            return false;
        }
    }
    true
}

/// The cost of a plan; none if it breaks a rule.
pub fn cost_of(lists: &Lists, plan: &[u8]) -> Option<i64> {
    let keeps = keeps_rows(lists, plan) && keeps_columns(lists, plan) && keeps_groups(lists, plan);
    if !keeps || plan.len() != lists.costs.len() {
        return None;
    }
    let mut cost = 0i64;
    for (byte, own) in plan.iter().zip(&lists.costs) {
        if *byte != 0 {
            cost = cost.wrapping_add(*own);
        }
    }
    Some(cost)
}

// The plan of a number: its bits.
fn set_bits(plan: &mut [u8], number: u64) {
    let mut rest = number;
    for byte in plan.iter_mut() {
        *byte = u8::from(rest % 2 == 1);
        rest /= 2;
    }
}

/// The least cost of all plans; none if there is no plan. The list is for the plans that it tries.
pub fn least_cost(lists: &Lists, plan: &mut [u8], plans: u64) -> Option<i64> {
    let mut least = None;
    for number in 0..plans {
        set_bits(plan, number);
        if let Some(cost) = cost_of(lists, plan) {
            least = match least {
                Some(known) if known < cost => Some(known),
                _ => Some(cost),
            };
        }
    }
    least
}

// What is left of a pair's cost without the numbers.
fn rest_of(lists: &Lists, held: &Held, pair: usize) -> i64 {
    let row = held.row_numbers.get(row_at(lists, pair)).copied();
    let column = held
        .column_numbers
        .get(column_at(lists, pair) as usize)
        .copied();
    let cost = lists.costs.get(pair).copied().unwrap_or(0);
    cost.wrapping_sub(row.unwrap_or(0))
        .wrapping_sub(column.unwrap_or(0))
}

// Whether no rival leaves less.
fn is_least(lists: &Lists, held: &Held, pair: usize, rest: i64) -> bool {
    for other in 0..lists.costs.len() {
        if are_rivals(lists, pair, other) && rest_of(lists, held, other) < rest {
            return false;
        }
    }
    true
}

fn keeps_rests(lists: &Lists, held: &Held) -> bool {
    let plan = held.plan.as_slice();
    for pair in 0..plan.len() {
        let rest = rest_of(lists, held, pair);
        let is_kept = if has(plan, pair) {
            rest <= 0 && is_least(lists, held, pair, rest)
        } else {
            rest >= 0 || has_rival(lists, plan, pair)
        };
        if !is_kept {
            return false;
        }
    }
    true
}

fn row_numbers_bind(lists: &Lists, held: &Held) -> bool {
    for (row, number) in held.row_numbers.iter().enumerate() {
        let count = Some(row_count(lists, held.plan.as_slice(), row));
        let is_loose = (*number > 0 && lists.row_least.get(row).copied() != count)
            || (*number < 0 && lists.row_most.get(row).copied() != count);
        if is_loose {
            return false;
        }
    }
    true
}

fn column_numbers_bind(lists: &Lists, held: &Held) -> bool {
    for (column, number) in held.column_numbers.iter().enumerate() {
        let count = Some(column_count(lists, held.plan.as_slice(), column));
        let is_loose = (*number > 0 && lists.column_least.get(column).copied() != count)
            || (*number < 0 && lists.column_most.get(column).copied() != count);
        if is_loose {
            return false;
        }
    }
    true
}

/// Whether the numbers prove the plan best.
pub fn are_numbers(lists: &Lists, held: &Held) -> bool {
    keeps_rests(lists, held) && row_numbers_bind(lists, held) && column_numbers_bind(lists, held)
}
