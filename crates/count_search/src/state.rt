// What the parts of a search share: the counts, the groups, the plan and the prices.
use super::chosen::next_chosen;
use super::problem::{Problem, Row};
use super::runs::firsts_of;
use super::values::{
    FAR, ONE_LESS, add_count, count_at, price_at, set_byte, set_count, set_price, short, signed,
};
use search_base::{NOBODY, place_at};
use std::alloc::{AllocError, Global};

/// Counts that are no greater than what is listed, the groups' keys, the plan, how many columns each
/// row takes, and prices. The price after those of the columns is that of staying out.
#[derive(Drop)]
pub struct State {
    pub row_least: Vec<u32>,
    pub row_most: Vec<u32>,
    pub column_least: Vec<u32>,
    pub column_most: Vec<u32>,
    pub plan: Vec<u8>,
    pub held: Vec<u32>,
    pub prices: Vec<i64>,
    /// Two columns of a group have one key, and others have different ones, all below the number of
    /// columns.
    pub keys: Vec<u32>,
    pub is_grouped: bool,
    /// The first column of each row whose columns follow one another, nobody for others and short ones.
    pub firsts: Vec<u32>,
    stamps: Vec<u64>,
    stamp: u64,
}

/// The keys of groups, and whether a group has two columns.
#[derive(Drop)]
pub struct Keys {
    pub keys: Vec<u32>,
    pub is_grouped: bool,
}

/// Greater numbers are cut: sums of several of them would reach `FAR`.
pub const MOST_NUMBER: i64 = 1 << 57;

/// The same of numbers that a caller begins with, whose sums grow from path to path.
pub const MOST_FIRST_NUMBER: i64 = 1 << 52;

const UNSEEN: u32 = u32::MAX;

pub fn keys_of(alloc: Global, groups: &[u32], columns: usize) -> Result<Keys, AllocError> {
    let mut known = vec![in alloc; UNSEEN; columns.saturating_add(1)]?;
    let mut keys = vec![in alloc; 0u32; columns]?;
    let mut next = 0u32;
    let mut is_grouped = false;
    for (column, key) in keys.as_mut_slice().iter_mut().enumerate() {
        let group = count_at(groups, column) as usize;
        let seen = if group == 0 {
            UNSEEN
        } else {
            count_at(known.as_slice(), group)
        };
        is_grouped = is_grouped || seen != UNSEEN;
        if seen == UNSEEN {
            set_count(known.as_mut_slice(), group, next);
            *key = next;
            next = next.wrapping_add(1);
        } else {
            *key = seen;
        }
    }
    Ok(Keys { keys, is_grouped })
}

// Counts a row's pairs. Where its columns follow one another, only where that begins and ends.
fn count_row(listed: &mut [u32], steps: &mut [u32], row: Row<'_>, first: u32) {
    if first != NOBODY {
        let first = first as usize;
        add_count(steps, first, 1);
        add_count(steps, first.saturating_add(row.columns.len()), ONE_LESS);
        return;
    }
    for column in row.columns {
        add_count(listed, *column as usize, 1);
    }
}

// How many pairs list each column.
fn listed_of(alloc: Global, problem: &Problem<'_>, firsts: &[u32]) -> Result<Vec<u32>, AllocError> {
    let mut listed = vec![in alloc; 0u32; problem.column_count()]?;
    let mut steps = vec![in alloc; 0u32; problem.column_count()]?;
    for (place, first) in firsts.iter().enumerate() {
        let row = problem.row(place_at(place));
        count_row(listed.as_mut_slice(), steps.as_mut_slice(), row, *first);
    }
    add_steps(listed.as_mut_slice(), steps.as_slice());
    Ok(listed)
}

fn add_steps(listed: &mut [u32], steps: &[u32]) {
    let mut sum = 0u32;
    for (count, step) in listed.iter_mut().zip(steps) {
        sum = sum.wrapping_add(*step);
        *count = count.wrapping_add(sum);
    }
}

/// How many bytes aren't 0.
pub fn count_chosen(plan: &[u8]) -> u32 {
    let mut count = 0u32;
    for byte in plan {
        count = count.wrapping_add(u32::from(*byte != 0));
    }
    count
}

fn cut_to(counts: &mut [u32], most: &[u32]) {
    for (count, bound) in counts.iter_mut().zip(most) {
        *count = (*count).min(*bound);
    }
}

impl State {
    pub fn new(alloc: Global, problem: &Problem<'_>) -> Result<State, AllocError> {
        let (rows, columns) = (problem.row_count(), problem.column_count());
        let Keys { keys, is_grouped } = keys_of(alloc, problem.groups, columns)?;
        let mut state = State {
            row_least: Vec::from_slice(alloc, problem.row_least)?,
            row_most: Vec::from_slice(alloc, problem.row_most)?,
            column_least: Vec::from_slice(alloc, problem.column_least)?,
            column_most: Vec::from_slice(alloc, problem.column_most)?,
            plan: vec![in alloc; 0u8; problem.columns.len()]?,
            held: vec![in alloc; 0u32; rows]?,
            prices: vec![in alloc; 0i64; columns.saturating_add(1)]?,
            keys,
            is_grouped,
            firsts: firsts_of(alloc, problem)?,
            stamps: vec![in alloc; 0u64; columns]?,
            stamp: 0,
        };
        let listed = listed_of(alloc, problem, state.firsts.as_slice())?;
        cut_to(state.column_most.as_mut_slice(), listed.as_slice());
        state.cut_rows(problem);
        Ok(state)
    }

    fn cut_rows(&mut self, problem: &Problem<'_>) {
        for place in 0..self.row_most.len() {
            let groups = self.groups_of(problem.row(place_at(place)));
            if place < self.row_most.len() {
                self.row_most[place] = self.row_most[place].min(groups);
            }
        }
    }

    // How many groups a row lists.
    fn groups_of(&mut self, row: Row<'_>) -> u32 {
        if !self.is_grouped {
            return short(signed(row.columns.len()));
        }
        let stamp = self.next_stamp();
        let mut count = 0u32;
        for column in row.columns {
            if self.mark(*column, stamp) {
                count = count.wrapping_add(1);
            }
        }
        count
    }

    /// A stamp that no group has.
    #[inline(always)]
    pub fn next_stamp(&mut self) -> u64 {
        self.stamp = self.stamp.wrapping_add(1);
        self.stamp
    }

    /// The key of a column's group.
    #[inline(always)]
    pub fn key(&self, column: u32) -> usize {
        match self.keys.get(column as usize) {
            Some(key) => *key as usize,
            None => usize::MAX,
        }
    }

    /// Whether the group of a column has this stamp.
    #[inline(always)]
    pub fn is_marked(&self, column: u32, stamp: u64) -> bool {
        self.stamps.get(self.key(column)).copied() == Some(stamp)
    }

    /// Gives the group of a column a stamp. Returns whether it had another.
    #[inline(always)]
    pub fn mark(&mut self, column: u32, stamp: u64) -> bool {
        let key = self.key(column);
        if key < self.stamps.len() && self.stamps[key] != stamp {
            self.stamps[key] = stamp;
            return true;
        }
        false
    }

    /// Stamps the groups that a row takes.
    pub fn mark_taken(&mut self, row: Row<'_>, stamp: u64) {
        for (k, column) in row.columns.iter().enumerate() {
            if self.is_chosen(place_at(row.first.wrapping_add(k))) {
                let _ = self.mark(*column, stamp);
            }
        }
    }

    /// The place of staying out among the prices: the number of columns.
    #[inline(always)]
    pub fn outside(&self) -> usize {
        self.keys.len()
    }

    #[inline(always)]
    pub fn price(&self, column: usize) -> i64 {
        price_at(self.prices.as_slice(), column)
    }

    #[inline(always)]
    pub fn is_chosen(&self, pair: u32) -> bool {
        match self.plan.get(pair as usize) {
            Some(byte) => *byte != 0,
            None => false,
        }
    }

    /// The prices of a row's columns, where these follow one another.
    #[inline(always)]
    pub fn prices_of(&self, place: u32, row: Row<'_>) -> Option<&[i64]> {
        let first = *self.firsts.get(place as usize)? as usize;
        self.prices
            .get(first..first.saturating_add(row.columns.len()))
    }

    /// The column at a place of a row.
    #[inline(always)]
    pub fn column_at(&self, place: u32, row: Row<'_>, at: usize) -> Option<usize> {
        if at >= row.columns.len() {
            return None;
        }
        let first = count_at(self.firsts.as_slice(), place as usize);
        if first == NOBODY {
            return Some(count_at(row.columns, at) as usize);
        }
        Some((first as usize).wrapping_add(at))
    }

    /// The place in a row of its next chosen pair from this place on.
    #[inline(always)]
    pub fn next_chosen(&self, row: Row<'_>, from: usize) -> Option<usize> {
        next_chosen(self.chosen(row), from)
    }

    /// The plan of a row.
    #[inline(always)]
    pub fn chosen(&self, row: Row<'_>) -> &[u8] {
        let end = row.first.saturating_add(row.columns.len());
        self.plan.get(row.first..end).unwrap_or(&[])
    }

    /// A row takes a pair.
    #[inline(always)]
    pub fn choose(&mut self, row: u32, pair: u32) {
        set_byte(self.plan.as_mut_slice(), pair as usize, 1);
        add_count(self.held.as_mut_slice(), row as usize, 1);
    }

    /// A row leaves a pair.
    #[inline(always)]
    pub fn release(&mut self, row: u32, pair: u32) {
        set_byte(self.plan.as_mut_slice(), pair as usize, 0);
        add_count(self.held.as_mut_slice(), row as usize, ONE_LESS);
    }

    /// Takes a pair out of the plan.
    pub fn forget(&mut self, pair: u32) {
        set_byte(self.plan.as_mut_slice(), pair as usize, 0);
    }

    /// Takes over a plan.
    pub fn take_plan(&mut self, problem: &Problem<'_>, plan: &[u8]) {
        for (byte, given) in self.plan.as_mut_slice().iter_mut().zip(plan) {
            *byte = u8::from(*given != 0);
        }
        for row in 0..place_at(problem.row_count()) {
            let count = count_chosen(self.chosen(problem.row(row)));
            set_count(self.held.as_mut_slice(), row as usize, count);
        }
    }

    /// Takes over columns' numbers, in the unit of the costs, each at most so far from 0.
    pub fn take_numbers(&mut self, numbers: &[i64], most: i64) {
        for (price, number) in self.prices.as_mut_slice().iter_mut().zip(numbers) {
            *price = number.wrapping_neg().max(most.wrapping_neg()).min(most);
        }
        let outside = self.outside();
        set_price(self.prices.as_mut_slice(), outside, 0);
    }

    /// Sets all prices to 0.
    pub fn clear_prices(&mut self) {
        for price in self.prices.as_mut_slice().iter_mut() {
            *price = 0;
        }
    }

    #[inline(always)]
    pub fn held_of(&self, row: u32) -> u32 {
        count_at(self.held.as_slice(), row as usize)
    }

    #[inline(always)]
    pub fn least_of(&self, row: u32) -> u32 {
        count_at(self.row_least.as_slice(), row as usize)
    }

    #[inline(always)]
    pub fn most_of(&self, row: u32) -> u32 {
        count_at(self.row_most.as_slice(), row as usize)
    }

    /// The least price.
    pub fn base(&self) -> i64 {
        let mut base = FAR;
        for price in &self.prices {
            base = base.min(*price);
        }
        base
    }

    /// The greatest price, except those that are out of reach.
    pub fn top(&self) -> i64 {
        let mut top = FAR.wrapping_neg();
        for price in &self.prices {
            if *price < FAR {
                top = top.max(*price);
            }
        }
        top
    }

    /// Brings the least price to 0.
    pub fn lower_all(&mut self) {
        let base = self.base();
        for price in self.prices.as_mut_slice().iter_mut() {
            if *price < FAR {
                *price = price.wrapping_sub(base);
            }
        }
    }
}
