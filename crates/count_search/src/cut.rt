// Whole prices in the unit of the costs, cut where no price lies: what held up to a slackness of 1 holds
// exactly afterwards. There are more residues than prices, so some residue is that of no price.
use super::auction::Auction;
use super::layout::Layout;
use super::state::State;
use super::values::{FAR, count_at, price_at, set_byte, set_price, unsigned};
use search_base::{Heap, Reached, place_at};
use std::alloc::{AllocError, Global};

fn mark_residues(prices: &[i64], base: i64, scale: i64, is_used: &mut [u8]) {
    for price in prices {
        if *price < FAR {
            let above = price.wrapping_sub(base);
            let residue = above.checked_rem(scale).unwrap_or(0);
            set_byte(is_used, unsigned(residue) as usize, 1);
        }
    }
}

fn first_unused(is_used: &[u8]) -> i64 {
    let mut residue = 0i64;
    for byte in is_used {
        if *byte == 0 {
            return residue;
        }
        residue = residue.wrapping_add(1);
    }
    0
}

fn cut_all(prices: &mut [i64], base: i64, residue: i64, scale: i64) {
    for price in prices.iter_mut() {
        if *price < FAR {
            let above = price.wrapping_sub(base).wrapping_sub(residue);
            *price = above.wrapping_add(scale).checked_div(scale).unwrap_or(0);
        }
    }
}

/// The columns, cheapest first.
pub fn by_price(alloc: Global, prices: &[i64]) -> Result<Heap, AllocError> {
    let mut heap = Heap::new(alloc);
    for (column, price) in prices.iter().enumerate() {
        heap.push(Reached {
            distance: *price,
            object: place_at(column),
        })?;
    }
    Ok(heap)
}

// How many slots a price of staying out leaves on the wrong side: those that the dummy row holds above
// it, and those that it doesn't below.
#[derive(Clone, Copy)]
struct Sides {
    wrong: i64,
    // What the slots at the last price add, once a higher one comes.
    pending: i64,
    last: i64,
    best: i64,
    price: i64,
}

impl Sides {
    fn with(self, price: i64, held: i64, room: i64) -> Sides {
        let is_new = price != self.last;
        let before = if is_new {
            self.wrong.wrapping_add(self.pending)
        } else {
            self.wrong
        };
        let wrong = before.wrapping_sub(held);
        let pending = if is_new { 0 } else { self.pending };
        Sides {
            wrong,
            pending: pending.wrapping_add(room),
            last: price,
            best: self.best.min(wrong),
            price: if wrong < self.best { price } else { self.price },
        }
    }
}

impl Auction {
    fn dummy_room(&self, column: usize) -> (i64, i64) {
        let held = count_at(self.dummy_held.as_slice(), column);
        let most = count_at(self.dummy_most.as_slice(), column);
        (i64::from(held), i64::from(most.saturating_sub(held)))
    }

    fn held_in_all(&self, columns: usize) -> i64 {
        let mut sum = 0i64;
        for column in 0..columns {
            sum = sum.wrapping_add(self.dummy_room(column).0);
        }
        sum
    }

    // The price of staying out that leaves the fewest slots on the wrong side.
    fn price_between(&self, alloc: Global, state: &State) -> Result<i64, AllocError> {
        let columns = state.outside();
        let prices = state.prices.get(0..columns).unwrap_or(&[]);
        let mut heap = by_price(alloc, prices)?;
        let mut sides = Sides {
            wrong: self.held_in_all(columns),
            pending: 0,
            last: FAR.wrapping_neg(),
            best: i64::MAX,
            price: 0,
        };
        for _column in 0..columns {
            if let Some(next) = heap.pop() {
                if next.distance < FAR {
                    let (held, room) = self.dummy_room(next.object as usize);
                    sides = sides.with(next.distance, held, room);
                }
            }
        }
        Ok(sides.price)
    }

    // The highest price of a column of which the dummy row holds a slot, and the lowest one of which it
    // doesn't hold all that it may.
    fn dummy_range(&self, state: &State) -> (i64, i64) {
        let (mut high, mut low) = (i64::MIN, i64::MAX);
        for column in 0..state.outside() {
            let price = price_at(state.prices.as_slice(), column);
            if price < FAR {
                let (held, room) = self.dummy_room(column);
                high = if held > 0 { high.max(price) } else { high };
                low = if room > 0 { low.min(price) } else { low };
            }
        }
        (high, low)
    }

    // All who may stay out do, or nobody does: that binds no row, and staying out costs what the dummy
    // row pays.
    fn price_of_dummy(&self, state: &State, layout: Layout) -> i64 {
        let outside = state.outside();
        let price = state.price(outside);
        let held = count_at(self.dummy_held.as_slice(), outside);
        let is_all = held == layout.sizes.outside;
        if !is_all && !(held == 0 && layout.may_all_stay) {
            return price;
        }
        let (high, low) = self.dummy_range(state);
        if is_all {
            high.max(price)
        } else if high > i64::MIN {
            high.min(price)
        } else {
            low.min(price)
        }
    }

    fn price_outside(
        &self,
        alloc: Global,
        state: &State,
        layout: Layout,
    ) -> Result<i64, AllocError> {
        if state.price(state.outside()) < FAR {
            Ok(self.price_of_dummy(state, layout))
        } else if layout.is_filled {
            Ok(state.top().wrapping_add(layout.greatest.max(0)))
        } else {
            self.price_between(alloc, state)
        }
    }

    /// Cuts the prices of an auction that ended.
    pub fn cut_prices(
        &self,
        alloc: Global,
        state: &mut State,
        layout: Layout,
    ) -> Result<(), AllocError> {
        let scale = self.terms.scale;
        let base = state.base();
        let mut is_used = vec![in alloc; 0u8; unsigned(scale) as usize]?;
        let prices = state.prices.as_mut_slice();
        mark_residues(prices, base, scale, is_used.as_mut_slice());
        let residue = first_unused(is_used.as_slice());
        cut_all(prices, base, residue, scale);
        let dearest = state.top().wrapping_add(layout.spread);
        let price = self.price_outside(alloc, state, layout)?;
        let outside = state.outside();
        set_price(state.prices.as_mut_slice(), outside, price);
        for price in state.prices.as_mut_slice().iter_mut() {
            if *price >= FAR {
                *price = dearest;
            }
        }
        Ok(())
    }
}
