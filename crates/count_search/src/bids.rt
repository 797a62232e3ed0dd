// Bids of rows and of the dummy row.
use super::auction::Auction;
use super::offers::{NO_PLACE, Offer, Two, bring_least, two_best_of_all, two_best_open, value_at};
use super::problem::{Problem, Row};
use super::slots::Slot;
use super::state::State;
use super::values::{FAR, add_count, count_at, price_at, set_price};
use search_base::{NOBODY, place_at};
use std::alloc::AllocError;

// Values from here on are out of reach.
const OUT_OF_REACH: i64 = 1 << 60;

impl Auction {
    // The two best of the pairs that a row may take.
    #[inline(always)]
    fn two_best(&self, state: &State, row: u32, pairs: Row<'_>) -> Two {
        let (prices, scale) = (state.prices.as_slice(), self.terms.scale);
        if state.held_of(row) > 0 {
            return two_best_open(pairs, self.groups.closed(state, pairs), prices, scale);
        }
        let first = count_at(state.firsts.as_slice(), row as usize);
        match self.runs.run_of(first, pairs) {
            Some(run) => run.two_best(),
            None => two_best_of_all(pairs, prices, scale),
        }
    }

    // One hand of a row bids.
    #[inline(always)]
    fn bid_once(
        &mut self,
        problem: &Problem<'_>,
        state: &mut State,
        row: u32,
    ) -> Result<(), AllocError> {
        let pairs = problem.row(row);
        self.bids = self.bids.wrapping_add(1);
        self.arc_scans.add(pairs.columns.len());
        let mut two = self.two_best(state, row, pairs);
        let outside = state.outside();
        if self.room_outside(state, row) > 0 {
            two = two.with(pairs.columns.len(), state.price(outside));
        }
        if two.place == NO_PLACE || two.best >= OUT_OF_REACH {
            self.is_failed = true;
            return Ok(());
        }
        let (column, pair) = match state.column_at(row, pairs, two.place) {
            Some(column) => (column, place_at(pairs.first.wrapping_add(two.place))),
            None => (outside, NOBODY),
        };
        let raise = self.capped(two.best, two.second).wrapping_sub(two.best);
        let level = state
            .price(column)
            .wrapping_add(raise)
            .wrapping_add(self.terms.slackness);
        self.take(state, column, Slot { level, row, pair })
    }

    // All pairs that the row may take, for many hands.
    fn offer_open(&mut self, state: &State, row: Row<'_>) -> Result<(), AllocError> {
        let scale = self.terms.scale;
        let pairs = row.columns.iter().zip(row.costs).zip(state.chosen(row));
        for (k, ((column, cost), byte)) in pairs.enumerate() {
            if *byte == 0 {
                self.offers.push(Offer {
                    value: value_at(*column, *cost, state.prices.as_slice(), scale),
                    next: FAR,
                    pair: place_at(row.first.wrapping_add(k)),
                })?;
            }
        }
        Ok(())
    }

    // The best pair of each group that the row doesn't take.
    fn offer_grouped(&mut self, state: &State, row: Row<'_>) -> Result<(), AllocError> {
        let scale = self.terms.scale;
        let prices = state.prices.as_slice();
        let mut two = Two::none();
        for (k, (column, cost)) in row.columns.iter().zip(row.costs).enumerate() {
            let pair = row.first.wrapping_add(k);
            if self.groups.begins(pair) {
                self.add_offer(two)?;
                two = Two::none();
            }
            if !self.groups.is_taken(pair) {
                two = two.with(pair, value_at(*column, *cost, prices, scale));
            }
        }
        self.add_offer(two)
    }

    // The best pair of a group, if there is one.
    #[inline(always)]
    fn add_offer(&mut self, two: Two) -> Result<(), AllocError> {
        if two.place == NO_PLACE {
            return Ok(());
        }
        Ok(
            self.offers.push(Offer {
                value: two.best,
                next: two.second,
                pair: place_at(two.place),
            })?,
        )
    }

    fn offer_outside(&mut self, state: &State, row: u32, hands: u32) -> Result<(), AllocError> {
        let room = self.room_outside(state, row).min(hands.saturating_add(1));
        let price = state.price(state.outside());
        for _hand in 0..room {
            self.offers.push(Offer {
                value: price,
                next: FAR,
                pair: NOBODY,
            })?;
        }
        Ok(())
    }

    // All free hands of a row bid at once, each up to the best that none of them takes.
    fn bid_hands(
        &mut self,
        problem: &Problem<'_>,
        state: &mut State,
        row: u32,
    ) -> Result<(), AllocError> {
        let pairs = problem.row(row);
        let hands = self.hands_of(row);
        self.bids = self.bids.wrapping_add(u64::from(hands));
        self.arc_scans.add(pairs.columns.len());
        self.offers.clear();
        if state.is_grouped {
            self.offer_grouped(state, pairs)?;
        } else {
            self.offer_open(state, pairs)?;
        }
        self.offer_outside(state, row, hands)?;
        if self.offers.len() < hands as usize {
            self.is_failed = true;
            return Ok(());
        }
        bring_least(self.offers.as_mut_slice(), hands as usize);
        let left = match self.offers.get(hands as usize) {
            Some(offer) => offer.value,
            None => FAR,
        };
        self.take_offers(problem, state, row, left)
    }

    fn take_offers(
        &mut self,
        problem: &Problem<'_>,
        state: &mut State,
        row: u32,
        left: i64,
    ) -> Result<(), AllocError> {
        for turn in 0..self.hands_of(row) as usize {
            let Some(offer) = self.offers.get(turn).copied() else {
                return Ok(());
            };
            if self.is_failed || offer.value >= OUT_OF_REACH {
                self.is_failed = true;
                return Ok(());
            }
            self.take_offer(problem, state, row, offer, left)?;
        }
        Ok(())
    }

    fn take_offer(
        &mut self,
        problem: &Problem<'_>,
        state: &mut State,
        row: u32,
        offer: Offer,
        left: i64,
    ) -> Result<(), AllocError> {
        let most = self.capped(offer.value, offer.next.min(left));
        let pair = offer.pair;
        if pair != NOBODY {
            let column = problem.column(pair);
            let raise = most.wrapping_sub(offer.value);
            let level = state
                .price(column)
                .wrapping_add(raise)
                .wrapping_add(self.terms.slackness);
            return self.take(state, column, Slot { level, row, pair });
        }
        let level = most.wrapping_add(self.terms.slackness);
        if state.price(state.outside()) < level {
            self.take(state, state.outside(), Slot { level, row, pair })?;
        }
        Ok(())
    }

    /// All free hands of a row bid.
    pub fn bid_row(
        &mut self,
        problem: &Problem<'_>,
        state: &mut State,
        row: u32,
    ) -> Result<(), AllocError> {
        for _turn in self.bids..=self.terms.budget {
            let hands = self.hands_of(row);
            if hands == 0 || self.is_failed {
                return Ok(());
            }
            if hands > 1 {
                self.bid_hands(problem, state, row)?;
            } else {
                self.bid_once(problem, state, row)?;
            }
        }
        Ok(())
    }

    /// All free hands of the dummy row bid at once, each up to the best that none of them takes.
    pub fn bid_dummy(&mut self, state: &mut State) -> Result<(), AllocError> {
        self.touched.clear();
        let mut last = 0i64;
        let turns = self.dummy_hands.saturating_add(self.slots.len() as u64);
        for _turn in 0..turns {
            let (column, best) = self.tournament.best();
            if self.dummy_hands == 0 || best >= OUT_OF_REACH {
                break;
            }
            last = best;
            self.touched.push(place_at(column))?;
            self.take_cheapest(state, column);
        }
        self.bids = self.bids.wrapping_add(self.touched.len() as u64);
        self.is_failed = self.is_failed || self.dummy_hands > 0;
        let left = self.tournament.best().1;
        let level = self.capped(last, left).wrapping_add(self.terms.slackness);
        for turn in 0..self.touched.len() {
            let column = count_at(self.touched.as_slice(), turn) as usize;
            self.set_dummy_level(state, column, level);
        }
        Ok(())
    }

    fn set_dummy_level(&mut self, state: &mut State, column: usize, level: i64) {
        set_price(self.dummy_levels.as_mut_slice(), column, level);
        self.reprice(state, column);
    }

    // The dummy row takes the cheapest slots of a column, unless they are its own, and its slots there are out
    // of reach until all hands have bid.
    fn take_cheapest(&mut self, state: &mut State, column: usize) {
        let price = state.price(column);
        let is_own = count_at(self.dummy_held.as_slice(), column) > 0
            && price_at(self.dummy_levels.as_slice(), column) <= price;
        if !is_own {
            self.take_for_dummy(state, column);
        }
        self.set_dummy_level(state, column, FAR);
    }

    // Free slots, or the lowest one that a row holds.
    fn take_for_dummy(&mut self, state: &mut State, column: usize) {
        let free = count_at(self.free.as_slice(), column);
        let first = price_at(self.first_prices.as_slice(), column);
        if free > 0 && first <= self.lowest_held(column) {
            self.take_free(column, free);
        } else {
            self.put_out_lowest(state, column);
        }
    }

    fn take_free(&mut self, column: usize, free: u32) {
        let held = count_at(self.dummy_held.as_slice(), column);
        let room = count_at(self.dummy_most.as_slice(), column).saturating_sub(held);
        let hands = (self.dummy_hands.min(0xffff_ffff) & 0xffff_ffff) as u32;
        let taken = free.min(room).min(hands);
        add_count(self.free.as_mut_slice(), column, taken.wrapping_neg());
        add_count(self.dummy_held.as_mut_slice(), column, taken);
        self.dummy_hands = self.dummy_hands.saturating_sub(u64::from(taken));
    }

    fn put_out_lowest(&mut self, state: &mut State, column: usize) {
        let lost = match self.slots.get_mut(column) {
            Some(slots) => slots.pop(),
            None => None,
        };
        if let Some(lost) = lost {
            add_count(self.dummy_held.as_mut_slice(), column, 1);
            self.dummy_hands = self.dummy_hands.saturating_sub(1);
            self.put_out(state, column, lost);
        }
    }
}
