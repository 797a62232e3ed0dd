// Faults of a caller's lists.
ghost use Rattle.std.specs.Prelude.{◌≡◌, ◌≤◌, ◌<◌, ◌+◌, ◌↔◌, ◌^◌, ℕ, IsTrue, All, MatchOption, length, slice_index, true};
ghost use Rattle.assign_core.specs.Numbered.{IsNumber};
ghost use Rattle.assign_core.specs.Rows.{IsCost};
ghost use Rattle.cost_lists.specs.ListedCosts.{IsCount};
ghost use Rattle.count_checker.specs.CountFaults.{IsFirstPlace};
ghost use Rattle.count_checker.specs.CountLists.{AreBounds, AreCountLists, AreRising};
ghost use Rattle.count_checker.specs.ListFaults.{AreOfLength, AreOfSize, HasListFault, IsFirstLower, IsFirstWithout};

use super::lists::CountLists;
use super::numbers::GREATEST_PAIRS;
use assign_core::{Cost, GREATEST_COST};
use cost_lists::GREATEST_NUMBER;

/// Why lists are no problem: the first of these that applies. Places in a list count from 0.
#[derive(Clone, Copy, Debug, PartialEq, Eq)]
pub enum ListFault {
    /// There are no rows or no columns, more of either than `GREATEST_NUMBER`, or more pairs than
    /// `GREATEST_PAIRS`. The rows are those of the least counts, and so are the columns.
    Size,
    /// The lengths of the lists don't fit each other.
    Length,
    /// The place of the first pair whose row isn't from 1 to the number of rows.
    Row(usize),
    /// The place of the first pair whose row is below that of the pair before.
    Order(usize),
    /// The place of the first pair whose column isn't from 1 to the number of columns.
    Column(usize),
    /// The place of the first group above the number of columns.
    Group(usize),
    /// The place of the first row whose least count is above its greatest.
    RowCounts(usize),
    /// The place of the first column whose least count is above its greatest.
    ColumnCounts(usize),
    /// The place of the first cost whose absolute value is above `GREATEST_COST`.
    Cost(usize),
}

// Whether a problem may have this many rows, or columns.
fn is_count(n: usize) -> bool
    ensures { IsTrue result ↔ IsCount n }
{
    0 < n && n <= GREATEST_NUMBER as usize
}

// Whether there are as many rows, columns and pairs as a problem may have.
fn are_of_size(lists: CountLists<'_>) -> bool
    ensures { IsTrue result ↔ AreOfSize lists.entry }
{
    is_count(lists.row_least.len())
        && is_count(lists.column_least.len())
        && lists.rows.len() <= GREATEST_PAIRS
}

// Whether the lengths of the lists fit each other.
fn are_of_length(lists: CountLists<'_>) -> bool
    ensures { IsTrue result ↔ AreOfLength lists.entry }
{
    lists.columns.len() == lists.rows.len()
        && lists.costs.len() == lists.rows.len()
        && lists.row_most.len() == lists.row_least.len()
        && lists.column_most.len() == lists.column_least.len()
        && lists.groups.len() == lists.column_least.len()
}

// Whether a number is from 1 to n.
fn is_number(n: usize, number: u32) -> bool
    ensures { IsTrue result ↔ IsNumber n number }
{
    number != 0 && number as usize <= n
}

// Whether each number is from 1 to n. Compilers make vectors of this loop and of the two like it.
fn are_numbers(n: usize, numbers: &[u32]) -> bool
    ensures { result ≡ true → All (IsNumber n) numbers.now }
{
    let mut are = true;
    for k in 0..numbers.len() {
        are = are & is_number(n, numbers[k]);
    }
    are
}

// The place of the first number that isn't from 1 to n.
fn first_outside(n: usize, numbers: &[u32]) -> Option<usize>
    ensures { MatchOption result (All (IsNumber n) numbers.now)
        (IsFirstWithout (IsNumber n) numbers.now) }
{
    if are_numbers(n, numbers) {
        return None;
    }
    for k in 0..numbers.len() {
        if !is_number(n, numbers[k]) {
            return Some(k);
        }
    }
    None
}

// Whether no number is below the one before.
fn are_rising(numbers: &[u32]) -> bool
    ensures { result ≡ true → AreRising numbers.now }
{
    let mut are = true;
    for k in 1..numbers.len() {
        are = are & (numbers[k - 1] <= numbers[k]);
    }
    are
}

// The place of the first number that is below the one before.
fn first_lower(numbers: &[u32]) -> Option<usize>
    ensures { MatchOption result (AreRising numbers.now) (IsFirstLower numbers.now) }
{
    if are_rising(numbers) {
        return None;
    }
    for k in 1..numbers.len() {
        if numbers[k] < numbers[k - 1] {
            return Some(k);
        }
    }
    None
}

// The place of the first number above n.
fn first_above(n: usize, numbers: &[u32]) -> Option<usize>
    ensures { MatchOption result (All (λ g. g ≤ n) numbers.now)
        (IsFirstWithout (λ g. g ≤ n) numbers.now) }
{
    for k in 0..numbers.len() {
        if numbers[k] as usize > n {
            return Some(k);
        }
    }
    None
}

// The place of the first least count that is above its greatest.
fn first_crossed(least: &[u32], most: &[u32]) -> Option<usize>
    requires { length most.now ≡ length least.now }
    ensures { MatchOption result (AreBounds least.now most.now)
        (IsFirstPlace (λ k. slice_index most.now k < slice_index least.now k) (length least.now)) }
{
    for k in 0..least.len() {
        if most[k] < least[k] {
            return Some(k);
        }
    }
    None
}

// Whether a cost is in range.
fn is_cost(cost: Cost) -> bool
    ensures { IsTrue result ↔ IsCost cost }
{
    cost >= -GREATEST_COST && cost <= GREATEST_COST
}

// Whether all costs are in range.
fn are_costs(costs: &[Cost]) -> bool
    ensures { result ≡ true → All IsCost costs.now }
{
    let mut are = true;
    for k in 0..costs.len() {
        are = are & is_cost(costs[k]);
    }
    are
}

// The place of the first cost that is out of range.
fn first_cost(costs: &[Cost]) -> Option<usize>
    ensures { MatchOption result (All IsCost costs.now) (IsFirstWithout IsCost costs.now) }
{
    if are_costs(costs) {
        return None;
    }
    for k in 0..costs.len() {
        if !is_cost(costs[k]) {
            return Some(k);
        }
    }
    None
}

/// The first fault of the lists.
pub fn first_list_fault(lists: CountLists<'_>) -> Option<ListFault>
    ensures { MatchOption result (AreCountLists lists.entry) (HasListFault lists.entry) }
{
    if !are_of_size(lists) {
        return Some(ListFault::Size);
    }
    if !are_of_length(lists) {
        return Some(ListFault::Length);
    }
    let (n, m) = (lists.row_least.len(), lists.column_least.len());
    if let Some(place) = first_outside(n, lists.rows) {
        return Some(ListFault::Row(place));
    }
    if let Some(place) = first_lower(lists.rows) {
        return Some(ListFault::Order(place));
    }
    if let Some(place) = first_outside(m, lists.columns) {
        return Some(ListFault::Column(place));
    }
    if let Some(place) = first_above(m, lists.groups) {
        return Some(ListFault::Group(place));
    }
    if let Some(place) = first_crossed(lists.row_least, lists.row_most) {
        return Some(ListFault::RowCounts(place));
    }
    if let Some(place) = first_crossed(lists.column_least, lists.column_most) {
        return Some(ListFault::ColumnCounts(place));
    }
    match first_cost(lists.costs) {
        Some(place) => Some(ListFault::Cost(place)),
        None => None,
    }
}
