// An auction that goes on where a call stopped: from the prices, the plan, and how many hands stay out.
// The level up to which a row holds a slot follows from them.
use super::auction::Auction;
use super::layout::Layout;
use super::offers::{Offer, value_at};
use super::phases::{BIDS_OF_A_HAND, HIGHEST_PRICE, most_bids};
use super::problem::{Problem, Row};
use super::record::Record;
use super::slots::Slot;
use super::state::State;
use super::values::{
    FAR, ONE_LESS, add_count, clear_counts, count_at, price_at, set_count, set_price, short,
    signed64,
};
use search_base::{NOBODY, place_at};
use std::alloc::AllocError;

// Prices of 0 and above.
fn take_prices(prices: &mut [i64], numbers: &[i64], outside: i64) {
    let last = prices.len().saturating_sub(1);
    for (price, number) in prices.iter_mut().zip(numbers) {
        *price = (*number).max(0).min(HIGHEST_PRICE);
    }
    set_price(prices, last, outside.max(0).min(HIGHEST_PRICE));
}

impl Auction {
    /// Goes on with a phase. Whatever the lists hold, hands without a fitting slot bid again.
    pub fn resume(
        &mut self,
        problem: &Problem<'_>,
        state: &mut State,
        layout: Layout,
        record: Record,
        rows: &[i64],
        columns: &[i64],
    ) -> Result<(), AllocError> {
        let prices = state.prices.as_mut_slice();
        take_prices(prices, columns, signed64(record.outside));
        let slackness = signed64(record.slackness).max(1).min(layout.terms.spread);
        self.begin_terms(state, layout, slackness, record);
        clear_counts(state.held.as_mut_slice());
        clear_counts(self.out.as_mut_slice());
        self.queue.clear();
        for row in 0..place_at(problem.row_count()) {
            let out = price_at(rows, row as usize);
            self.resume_row(problem, state, row, short(out))?;
        }
        self.arc_scans.add(problem.columns.len());
        self.dummy_hands = self.dummies;
        let dummy = self.dummy();
        if self.dummies > 0 {
            self.queue.push(dummy);
        }
        self.reprice_all(state);
        Ok(())
    }

    fn begin_terms(&mut self, state: &mut State, layout: Layout, slackness: i64, record: Record) {
        self.set_dummy_most(state, layout.sizes.outside);
        self.terms.slackness = slackness;
        self.terms.limit = HIGHEST_PRICE;
        self.clear_slots(state, layout.sizes.outside);
        self.terms.limit = signed64(record.limit).min(HIGHEST_PRICE);
        let most = most_bids(layout, BIDS_OF_A_HAND);
        self.terms.budget = self.bids.saturating_add(record.bids.min(most));
    }

    fn reprice_all(&mut self, state: &mut State) {
        for column in 0..self.slots.len() {
            self.reprice(state, column);
        }
    }

    // The pairs that a row holds, at most one of a group, and the best value that it leaves.
    fn offer_held(
        &mut self,
        state: &mut State,
        row: Row<'_>,
        stamp: u64,
    ) -> Result<(), AllocError> {
        self.offers.clear();
        for (k, (column, cost)) in row.columns.iter().zip(row.costs).enumerate() {
            let pair = place_at(row.first.wrapping_add(k));
            if state.is_chosen(pair) {
                state.forget(pair);
                if state.mark(*column, stamp) {
                    let key = state.key(*column);
                    let value = value_at(*column, *cost, state.prices.as_slice(), self.terms.scale);
                    set_count(self.places.as_mut_slice(), key, place_at(self.offers.len()));
                    self.offers.push(Offer {
                        value,
                        next: FAR,
                        pair,
                    })?;
                }
            }
        }
        Ok(())
    }

    // The best value of other groups; the others of a group that it holds go to its offer.
    fn best_left(&mut self, state: &State, row: Row<'_>, stamp: u64) -> i64 {
        let mut left = FAR;
        for (k, (column, cost)) in row.columns.iter().zip(row.costs).enumerate() {
            let value = value_at(*column, *cost, state.prices.as_slice(), self.terms.scale);
            if state.is_marked(*column, stamp) {
                let pair = place_at(row.first.wrapping_add(k));
                self.tell_next(state.key(*column), pair, value);
            } else {
                left = left.min(value);
            }
        }
        left
    }

    fn tell_next(&mut self, key: usize, pair: u32, value: i64) {
        let place = count_at(self.places.as_slice(), key) as usize;
        if place < self.offers.len() && self.offers[place].pair != pair {
            self.offers[place].next = self.offers[place].next.min(value);
        }
    }

    fn resume_row(
        &mut self,
        problem: &Problem<'_>,
        state: &mut State,
        row: u32,
        out: u32,
    ) -> Result<(), AllocError> {
        let pairs = problem.row(row);
        let most = state.most_of(row);
        set_count(self.hands.as_mut_slice(), row as usize, most);
        let stamp = state.next_stamp();
        self.offer_held(state, pairs, stamp)?;
        let left = self.best_left(state, pairs, stamp);
        self.stay_out(state, row, out, left)?;
        let outside = if self.room_outside(state, row) > 0 {
            state.price(state.outside())
        } else {
            FAR
        };
        self.hold_offers(problem, state, row, left.min(outside))?;
        if self.hands_of(row) > 0 {
            self.queue.push(row);
        }
        Ok(())
    }

    // Hands of a row that stay out, as many as may and find it no worse than the best that is left.
    fn stay_out(
        &mut self,
        state: &mut State,
        row: u32,
        out: u32,
        left: i64,
    ) -> Result<(), AllocError> {
        let outside = state.outside();
        let offer = Offer {
            value: state.price(outside),
            next: FAR,
            pair: NOBODY,
        };
        for _hand in 0..out.min(self.room_outside(state, row)) {
            self.hold_offer(state, row, outside, offer, left)?;
        }
        Ok(())
    }

    fn hold_offers(
        &mut self,
        problem: &Problem<'_>,
        state: &mut State,
        row: u32,
        left: i64,
    ) -> Result<(), AllocError> {
        for turn in 0..self.offers.len() {
            if let Some(offer) = self.offers.get(turn).copied() {
                let column = problem.column(offer.pair);
                self.hold_offer(state, row, column, offer, left)?;
            }
        }
        Ok(())
    }

    // A row holds a slot up to what it would bid for it, if that isn't below the price.
    fn hold_offer(
        &mut self,
        state: &mut State,
        row: u32,
        column: usize,
        offer: Offer,
        left: i64,
    ) -> Result<(), AllocError> {
        let most = self.capped(offer.value, offer.next.min(left));
        let raise = most
            .wrapping_sub(offer.value)
            .wrapping_add(self.terms.slackness);
        let has_free = count_at(self.free.as_slice(), column) > 0;
        if raise < 0 || !has_free || self.hands_of(row) == 0 {
            return Ok(());
        }
        let level = state.price(column).wrapping_add(raise);
        let slot = Slot {
            level,
            row,
            pair: offer.pair,
        };
        add_count(self.free.as_mut_slice(), column, ONE_LESS);
        self.push_slot(column, slot)?;
        self.hand_over(state, column, slot);
        Ok(())
    }
}
