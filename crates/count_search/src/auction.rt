// The auction with similar slots (Bertsekas and Castañon 1989): what a phase of it holds, and how slots
// change hands. Values are costs times a scale, and prices are in that unit.
use super::groups::Groups;
use super::offers::Offer;
use super::queue::Queue;
use super::runs::Runs;
use super::slots::{Slot, Slots};
use super::state::State;
use super::tournament::Tournament;
use super::values::{FAR, ONE_LESS, add_count, count_at, price_at, set_count, set_price};
use search_base::{ArcScans, place_at};
use std::alloc::{AllocError, Global};

/// By what the prices of a phase go.
#[derive(Clone, Copy)]
pub struct Terms {
    /// Costs count so many times.
    pub scale: i64,
    /// The greatest cost less the least one, times the scale: a bid raises a price by no more, and the
    /// slackness.
    pub spread: i64,
    pub slackness: i64,
    /// A price above this ends the auction.
    pub limit: i64,
    /// More bids than this end it.
    pub budget: u64,
}

/// The slots of columns, and of staying out after them: those that rows hold, those that the dummy row
/// holds, and those that nobody holds.
#[derive(Drop)]
pub struct Auction {
    pub terms: Terms,
    pub bids: u64,
    pub is_failed: bool,
    pub arc_scans: ArcScans,
    pub slots: Vec<Slots>,
    /// Slots that nobody holds, and their price.
    pub free: Vec<u32>,
    pub first_prices: Vec<i64>,
    /// Slots that the dummy row holds, at most how many, and their level.
    pub dummy_held: Vec<u32>,
    pub dummy_most: Vec<u32>,
    pub dummy_levels: Vec<i64>,
    /// How many slots the dummy row still needs, and in all.
    pub dummy_hands: u64,
    pub dummies: u64,
    /// Hands of rows that hold nothing, and that hold staying out.
    pub hands: Vec<u32>,
    pub out: Vec<u32>,
    pub queue: Queue,
    pub tournament: Tournament,
    pub offers: Vec<Offer>,
    pub groups: Groups,
    pub runs: Runs,
    /// The columns of which the dummy row takes slots.
    pub touched: Vec<u32>,
    /// Where the offer of a group stands.
    pub places: Vec<u32>,
}

/// The sizes of an auction: rows, columns, how many slots the dummy row needs, and how many hands of
/// rows may stay out.
#[derive(Clone, Copy)]
pub struct Sizes {
    pub rows: usize,
    pub columns: usize,
    pub dummies: u64,
    pub outside: u32,
}

fn many_slots(alloc: Global, count: usize) -> Result<Vec<Slots>, AllocError> {
    let mut slots = Vec::new(alloc);
    for _column in 0..count {
        slots.push(Slots::new(alloc))?;
    }
    Ok(slots)
}

impl Auction {
    pub fn new(
        alloc: Global,
        sizes: Sizes,
        terms: Terms,
        arc_scans: ArcScans,
        groups: Groups,
        runs: Runs,
    ) -> Result<Auction, AllocError> {
        let count = sizes.columns.saturating_add(1);
        let rows = sizes.rows;
        let is_needed = sizes.dummies > 0;
        Ok(Auction {
            terms,
            bids: 0,
            is_failed: false,
            arc_scans,
            slots: many_slots(alloc, count)?,
            free: vec![in alloc; 0u32; count]?,
            first_prices: vec![in alloc; 0i64; count]?,
            dummy_held: vec![in alloc; 0u32; count]?,
            dummy_most: vec![in alloc; 0u32; count]?,
            dummy_levels: vec![in alloc; 0i64; count]?,
            dummy_hands: sizes.dummies,
            dummies: sizes.dummies,
            hands: vec![in alloc; 0u32; rows]?,
            out: vec![in alloc; 0u32; rows]?,
            queue: Queue::new(alloc, rows.saturating_add(1))?,
            tournament: Tournament::new(alloc, count, is_needed)?,
            offers: Vec::new(alloc),
            groups,
            runs,
            touched: Vec::new(alloc),
            places: vec![in alloc; 0u32; sizes.columns]?,
        })
    }

    /// The place of the dummy row in the queue.
    pub fn dummy(&self) -> u32 {
        place_at(self.hands.len())
    }

    /// The lowest slot of a column that a row holds.
    #[inline(always)]
    pub fn lowest_held(&self, column: usize) -> i64 {
        match self.slots.get(column) {
            Some(slots) => match slots.first() {
                Some(slot) => slot.level,
                None => FAR,
            },
            None => FAR,
        }
    }

    /// Sets the price of a column to the level of its lowest slot.
    #[inline(always)]
    pub fn reprice(&mut self, state: &mut State, column: usize) {
        let mut price = self.lowest_held(column);
        if count_at(self.free.as_slice(), column) > 0 {
            price = price.min(price_at(self.first_prices.as_slice(), column));
        }
        let dummies = count_at(self.dummy_held.as_slice(), column);
        if dummies > 0 {
            price = price.min(price_at(self.dummy_levels.as_slice(), column));
        }
        set_price(state.prices.as_mut_slice(), column, price);
        self.runs.set_price(column, price);
        if self.dummies > 0 {
            let is_open = dummies < count_at(self.dummy_most.as_slice(), column);
            self.tournament
                .play(column, if is_open { price } else { FAR });
        }
        if price > self.terms.limit && price < FAR {
            self.is_failed = true;
        }
    }

    /// A row loses a slot.
    #[inline(always)]
    pub fn put_out(&mut self, state: &mut State, column: usize, slot: Slot) {
        if column == state.outside() {
            add_count(self.out.as_mut_slice(), slot.row as usize, ONE_LESS);
        } else {
            state.release(slot.row, slot.pair);
            self.groups.set(slot.pair, 0);
        }
        add_count(self.hands.as_mut_slice(), slot.row as usize, 1);
        self.queue.push(slot.row);
    }

    /// A row holds a slot.
    #[inline(always)]
    pub fn hand_over(&mut self, state: &mut State, column: usize, slot: Slot) {
        if column == state.outside() {
            add_count(self.out.as_mut_slice(), slot.row as usize, 1);
        } else {
            state.choose(slot.row, slot.pair);
            self.groups.set(slot.pair, 1);
        }
        add_count(self.hands.as_mut_slice(), slot.row as usize, ONE_LESS);
    }

    pub fn push_slot(&mut self, column: usize, slot: Slot) -> Result<(), AllocError> {
        match self.slots.get_mut(column) {
            Some(slots) => slots.push(slot),
            None => Ok(()),
        }
    }

    fn replace_lowest(&mut self, state: &mut State, column: usize, slot: Slot) {
        let lost = match self.slots.get_mut(column) {
            Some(slots) => slots.replace_first(slot),
            None => None,
        };
        if let Some(lost) = lost {
            self.put_out(state, column, lost);
        }
    }

    /// A row takes a column's lowest slot up to a level, and who held it loses it.
    #[inline(always)]
    pub fn take(&mut self, state: &mut State, column: usize, slot: Slot) -> Result<(), AllocError> {
        let price = state.price(column);
        let is_free = count_at(self.free.as_slice(), column) > 0
            && price_at(self.first_prices.as_slice(), column) == price;
        let is_dummy = count_at(self.dummy_held.as_slice(), column) > 0
            && price_at(self.dummy_levels.as_slice(), column) == price;
        if is_free {
            add_count(self.free.as_mut_slice(), column, ONE_LESS);
            self.push_slot(column, slot)?;
        } else if is_dummy {
            add_count(self.dummy_held.as_mut_slice(), column, ONE_LESS);
            self.dummy_hands = self.dummy_hands.wrapping_add(1);
            let dummy = self.dummy();
            self.queue.push(dummy);
            self.push_slot(column, slot)?;
        } else {
            self.replace_lowest(state, column, slot);
        }
        self.hand_over(state, column, slot);
        self.reprice(state, column);
        Ok(())
    }

    /// A bid up to a value: no higher than the spread above the best.
    #[inline(always)]
    pub fn capped(&self, best: i64, second: i64) -> i64 {
        if second.wrapping_sub(best) > self.terms.spread {
            best.wrapping_add(self.terms.spread)
        } else {
            second
        }
    }

    pub fn hands_of(&self, row: u32) -> u32 {
        count_at(self.hands.as_slice(), row as usize)
    }

    /// How many more hands of a row may stay out.
    pub fn room_outside(&self, state: &State, row: u32) -> u32 {
        state
            .most_of(row)
            .saturating_sub(state.least_of(row))
            .saturating_sub(count_at(self.out.as_slice(), row as usize))
    }

    /// Forgets who holds what: all slots are free at the prices.
    pub fn clear_slots(&mut self, state: &mut State, outside: u32) {
        let last = state.outside();
        for column in 0..self.slots.len() {
            if let Some(slots) = self.slots.get_mut(column) {
                slots.clear();
            }
            let price = state.price(column);
            let first = if price < FAR { price } else { 0 };
            set_price(self.first_prices.as_mut_slice(), column, first);
            set_count(self.dummy_held.as_mut_slice(), column, 0);
            let count = if column == last {
                outside
            } else {
                count_at(state.column_most.as_slice(), column)
            };
            set_count(self.free.as_mut_slice(), column, count);
            self.reprice(state, column);
        }
    }
}
