// Which groups rows take in an auction. The pairs of a row stand by groups.
use super::problem::{Problem, Row};
use super::state::State;
use super::values::{byte_at, clear_bytes, count_at, set_byte};
use search_base::{NOBODY, place_at};
use std::alloc::{AllocError, Global};

/// For each pair whether a group begins with it in its row, and whether the row takes its group; empty
/// where no group has two columns.
#[derive(Drop)]
pub struct Groups {
    begins: Vec<u8>,
    taken: Vec<u8>,
}

fn set_begins(begins: &mut [u8], row: Row<'_>, keys: &[u32]) {
    let mut last = u32::MAX;
    for (k, column) in row.columns.iter().enumerate() {
        let key = count_at(keys, *column as usize);
        let is_new = key != last;
        set_byte(begins, row.first.wrapping_add(k), u8::from(is_new));
        last = key;
    }
}

fn begins_of(alloc: Global, problem: &Problem<'_>, keys: &[u32]) -> Result<Vec<u8>, AllocError> {
    let mut begins = vec![in alloc; 0u8; problem.columns.len()]?;
    for row in 0..place_at(problem.row_count()) {
        set_begins(begins.as_mut_slice(), problem.row(row), keys);
    }
    Ok(begins)
}

impl Groups {
    /// The groups of a problem, of which no row takes any.
    pub fn of(alloc: Global, problem: &Problem<'_>, state: &State) -> Result<Groups, AllocError> {
        if !state.is_grouped {
            return Ok(Groups {
                begins: Vec::new(alloc),
                taken: Vec::new(alloc),
            });
        }
        Ok(Groups {
            begins: begins_of(alloc, problem, state.keys.as_slice())?,
            taken: vec![in alloc; 0u8; problem.columns.len()]?,
        })
    }

    /// Rows take what a plan says.
    pub fn take_plan(&mut self, plan: &[u8]) {
        if self.taken.is_empty() {
            return;
        }
        for (pair, byte) in plan.iter().enumerate() {
            if *byte != 0 {
                self.set(place_at(pair), 1);
            }
        }
    }

    /// No row takes anything.
    pub fn clear(&mut self) {
        clear_bytes(self.taken.as_mut_slice());
    }

    // The pairs of a group from this one back.
    #[inline(always)]
    fn set_back(&mut self, pair: usize, byte: u8) {
        for back in 0..self.taken.len() {
            let place = pair.wrapping_sub(back);
            set_byte(self.taken.as_mut_slice(), place, byte);
            if byte_at(self.begins.as_slice(), place) != 0 {
                return;
            }
        }
    }

    /// The row of a pair, if there is one, takes its group (1), or leaves it (0).
    #[inline(always)]
    pub fn set(&mut self, pair: u32, byte: u8) {
        if pair == NOBODY {
            return;
        }
        self.set_back(pair as usize, byte);
        for place in (pair as usize).wrapping_add(1)..self.taken.len() {
            if byte_at(self.begins.as_slice(), place) != 0 {
                return;
            }
            set_byte(self.taken.as_mut_slice(), place, byte);
        }
    }

    /// For each pair of a row whether the row takes its group.
    #[inline(always)]
    pub fn taken(&self, row: Row<'_>) -> &[u8] {
        let end = row.first.saturating_add(row.columns.len());
        self.taken.get(row.first..end).unwrap_or(&[])
    }

    /// Whether a group begins with a pair in its row.
    #[inline(always)]
    pub fn begins(&self, pair: usize) -> bool {
        byte_at(self.begins.as_slice(), pair) != 0
    }

    /// For each pair of a row whether the row takes its group, or, without groups, the pair.
    #[inline(always)]
    pub fn closed<'a>(&'a self, state: &'a State, row: Row<'_>) -> &'a [u8] {
        if state.is_grouped {
            self.taken(row)
        } else {
            state.chosen(row)
        }
    }

    /// Whether the row of a pair takes its group.
    #[inline(always)]
    pub fn is_taken(&self, pair: usize) -> bool {
        byte_at(self.taken.as_slice(), pair) != 0
    }
}
