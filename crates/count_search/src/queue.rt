// Who waits to bid: a ring, in which each stands at most once.
use super::values::{byte_at, count_at, set_byte, set_count};
use std::alloc::{AllocError, Global};

#[derive(Drop)]
pub struct Queue {
    entries: Vec<u32>,
    waits: Vec<u8>,
    first: usize,
    waiting: usize,
}

impl Queue {
    pub fn new(alloc: Global, places: usize) -> Result<Queue, AllocError> {
        Ok(Queue {
            entries: vec![in alloc; 0u32; places]?,
            waits: vec![in alloc; 0u8; places]?,
            first: 0,
            waiting: 0,
        })
    }

    pub fn clear(&mut self) {
        self.first = 0;
        self.waiting = 0;
        for wait in self.waits.as_mut_slice().iter_mut() {
            *wait = 0;
        }
    }

    pub fn push(&mut self, place: u32) {
        if byte_at(self.waits.as_slice(), place as usize) != 0 {
            return;
        }
        set_byte(self.waits.as_mut_slice(), place as usize, 1);
        let count = self.entries.len();
        let mut end = self.first.wrapping_add(self.waiting);
        if end >= count {
            end = end.wrapping_sub(count);
        }
        set_count(self.entries.as_mut_slice(), end, place);
        self.waiting = self.waiting.wrapping_add(1);
    }

    pub fn pop(&mut self) -> Option<u32> {
        if self.waiting == 0 {
            return None;
        }
        let place = count_at(self.entries.as_slice(), self.first);
        let next = self.first.wrapping_add(1);
        self.first = if next < self.entries.len() { next } else { 0 };
        self.waiting = self.waiting.wrapping_sub(1);
        set_byte(self.waits.as_mut_slice(), place as usize, 0);
        Some(place)
    }
}
