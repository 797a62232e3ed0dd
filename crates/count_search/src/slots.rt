// The slots of a column that rows hold, the lowest level first: a heap.
use std::alloc::{AllocError, Global};

/// A row holds a slot up to a level: who bids more puts it out.
#[derive(Clone, Copy)]
pub struct Slot {
    pub level: i64,
    pub row: u32,
    /// The place of the pair among all; `NOBODY` for staying out.
    pub pair: u32,
}

#[derive(Drop)]
pub struct Slots {
    entries: Vec<Slot>,
}

// No heap is deeper.
const DEPTH: usize = 64;

fn sift_up(entries: &mut [Slot], slot: Slot) {
    let mut at = entries.len().saturating_sub(1);
    for _level in 0..DEPTH {
        let above = at.saturating_sub(1) / 2;
        if at == 0 || at >= entries.len() || entries[above].level <= slot.level {
            break;
        }
        entries[at] = entries[above];
        at = above;
    }
    if at < entries.len() {
        entries[at] = slot;
    }
}

// The lower child of a place.
#[inline(always)]
fn lower_child(entries: &[Slot], at: usize) -> Option<(usize, Slot)> {
    let left = at.wrapping_mul(2).wrapping_add(1);
    let right = left.wrapping_add(1);
    let first = *entries.get(left)?;
    match entries.get(right) {
        Some(second) if second.level < first.level => Some((right, *second)),
        _ => Some((left, first)),
    }
}

fn sift_down(entries: &mut [Slot], slot: Slot) {
    let mut at = 0usize;
    for _level in 0..DEPTH {
        match lower_child(entries, at) {
            Some((child, lower)) if lower.level < slot.level => {
                if at < entries.len() {
                    entries[at] = lower;
                }
                at = child;
            }
            _ => break,
        }
    }
    if at < entries.len() {
        entries[at] = slot;
    }
}

impl Slots {
    pub fn new(alloc: Global) -> Slots {
        Slots {
            entries: Vec::new(alloc),
        }
    }

    pub fn clear(&mut self) {
        self.entries.clear();
    }

    #[inline(always)]
    pub fn first(&self) -> Option<Slot> {
        self.entries.first().copied()
    }

    pub fn push(&mut self, slot: Slot) -> Result<(), AllocError> {
        self.entries.push(slot)?;
        sift_up(self.entries.as_mut_slice(), slot);
        Ok(())
    }

    /// Puts this slot in the place of the lowest, which it returns.
    pub fn replace_first(&mut self, slot: Slot) -> Option<Slot> {
        let first = self.first();
        sift_down(self.entries.as_mut_slice(), slot);
        first
    }

    /// Takes the lowest slot out.
    pub fn pop(&mut self) -> Option<Slot> {
        let last = self.entries.pop()?;
        match self.first() {
            None => Some(last),
            Some(first) => {
                sift_down(self.entries.as_mut_slice(), last);
                Some(first)
            }
        }
    }
}
