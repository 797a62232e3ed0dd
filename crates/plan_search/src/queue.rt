// Parts of the plans, in the order of what is known of their first plans.
use super::part::{Part, columns_of};
use super::values::{set_value, value_at};
use assign_core::Cost;
use std::alloc::{AllocError, Global};

/// What is known of the cost of a part.
#[derive(Clone, Copy)]
pub enum Stage {
    /// No plan costs less.
    Bound,
    /// One costs so much.
    Known,
    /// It is the first one that does.
    First,
}

/// A part of the plans: that of a plan that was found, or those plans of it that keep the columns
/// before a row and have another one there.
#[derive(Clone, Copy)]
pub struct Entry {
    pub cost: Cost,
    pub stage: Stage,
    pub part: usize,
    pub row: usize,
    /// In so many rows its first plan has the columns of the part's plan.
    pub known: usize,
    /// And in the next one no column before this.
    pub next: Option<usize>,
}

fn number_of(stage: Stage) -> u8 {
    match stage {
        Stage::Bound => 0,
        Stage::Known => 1,
        Stage::First => 2,
    }
}

// In how many rows something is known of the columns.
fn length_of(entry: Entry) -> usize {
    match entry.next {
        Some(_) => entry.known.wrapping_add(1),
        None => entry.known,
    }
}

// What is known of the column of a row.
fn column_at(entry: Entry, columns: &[usize], row: usize) -> usize {
    if row < entry.known {
        return value_at(columns, row, 0);
    }
    entry.next.unwrap_or(0)
}

// The first of these rows in which two lists of columns differ.
fn first_other(columns: &[usize], others: &[usize], rows: usize) -> usize {
    let mut row = 0usize;
    for (column, other) in columns.iter().zip(others.iter()) {
        if row >= rows || *column != *other {
            return row;
        }
        row = row.wrapping_add(1);
    }
    rows
}

// Whether an entry comes before another one: the one of less cost, of the columns that are less, of
// which less is known.
fn is_before(parts: &[Part], entry: Entry, other: Entry) -> bool {
    if entry.cost != other.cost {
        return entry.cost < other.cost;
    }
    let (columns, others) = (columns_of(parts, entry.part), columns_of(parts, other.part));
    let (length, other_length) = (length_of(entry), length_of(other));
    let mut row = entry.known.min(other.known);
    if entry.part != other.part {
        row = first_other(columns, others, row);
    }
    if row < length && row < other_length {
        let (column, other_column) = (
            column_at(entry, columns, row),
            column_at(other, others, row),
        );
        if column != other_column {
            return column < other_column;
        }
    }
    if length != other_length {
        return length < other_length;
    }
    number_of(entry.stage) < number_of(other.stage)
}

/// The entries: each comes before those at twice its place and one and two more.
#[derive(Drop)]
pub struct Queue {
    entries: Vec<Entry>,
}

// No queue is deeper.
const MOST_DEPTH: usize = 64;

impl Queue {
    pub fn new(alloc: Global) -> Queue {
        Queue {
            entries: Vec::new(alloc),
        }
    }

    // Whether the entry at a place comes before another one.
    fn is_at_before(&self, parts: &[Part], place: usize, other: Entry) -> bool {
        match self.entries.get(place) {
            Some(entry) => is_before(parts, *entry, other),
            None => false,
        }
    }

    fn copy(&mut self, from: usize, to: usize) {
        if let Some(entry) = self.entries.get(from).copied() {
            set_value(self.entries.as_mut_slice(), to, entry);
        }
    }

    /// Adds an entry.
    pub fn push(&mut self, parts: &[Part], entry: Entry) -> Result<(), AllocError> {
        let mut place = self.entries.len();
        self.entries.push(entry)?;
        for _ in 0..MOST_DEPTH {
            let above = place.wrapping_sub(1) / 2;
            if place == 0 || self.is_at_before(parts, above, entry) {
                break;
            }
            self.copy(above, place);
            place = above;
        }
        set_value(self.entries.as_mut_slice(), place, entry);
        Ok(())
    }

    // The one of two neighbours that comes first.
    fn first_below(&self, parts: &[Part], place: usize) -> usize {
        let left = place.wrapping_mul(2).wrapping_add(1);
        let right = left.wrapping_add(1);
        match self.entries.get(left).copied() {
            Some(entry) if self.is_at_before(parts, right, entry) => right,
            _ => left,
        }
    }

    // Puts an entry where one was taken out at the top.
    fn sink(&mut self, parts: &[Part], entry: Entry) {
        let mut place = 0;
        for _ in 0..MOST_DEPTH {
            let below = self.first_below(parts, place);
            if !self.is_at_before(parts, below, entry) {
                break;
            }
            self.copy(below, place);
            place = below;
        }
        set_value(self.entries.as_mut_slice(), place, entry);
    }

    /// Takes out the first entry.
    pub fn pop(&mut self, parts: &[Part]) -> Option<Entry> {
        let first = self.entries.first().copied()?;
        let last = self.entries.pop()?;
        if !self.entries.is_empty() {
            self.sink(parts, last);
        }
        Some(first)
    }
}
