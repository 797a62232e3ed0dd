// The phases of an auction, whose slackness falls from one to the next.
use super::auction::{Auction, Terms};
use super::groups::Groups;
use super::layout::Layout;
use super::problem::Problem;
use super::runs::Runs;
use super::state::State;
use super::values::{FAR, clear_bytes, clear_counts, copy_numbers, count_at, set_count, set_price};
use search_base::{ArcScans, place_at};
use std::alloc::{AllocError, Global};

// The numbers come from measurements; no answer depends on them.
// The slackness falls by this factor, and by as much more for each quiet phase before.
const FALL: i64 = 8;

const FALL_BITS: u32 = 3;

// So far above the unit of costs it falls by this much more: costs that differ by few units make no war
// there.
const FAR_UNITS: i64 = 1 << 20;

const FAR_FALL_BITS: u32 = 7;

const MOST_FALL_BITS: u32 = 48;

// After a phase with more bids of a hand than this it falls by less.
const BIDS_OF_A_WAR: u64 = 2;

const FALL_IN_A_WAR: i64 = 5;

// So many bids of a hand in a phase are a war without end.
pub const BIDS_OF_A_HAND: u64 = 20;

// So many in a phase after quiet ones show that the slackness fell by too much.
const BIDS_AFTER_QUIET: u64 = 4;

const FEW_BIDS: u64 = 1000;

// A slackness that falls by more than usual falls to this part of the unit of costs first.
const PARTS_OF_A_UNIT: i64 = 4;

// After a phase with so many bids of two hands, those to come take longer than to prove its plan best.
const HALF_BIDS_OF_A_HAND: u64 = 3;

// To prove it best takes longer where rows have more hands.
const MOST_HANDS: u64 = 2;

const MOST_PHASES: usize = 64;

/// No price of a phase is higher.
pub const HIGHEST_PRICE: i64 = 1 << 60;

// By what the slackness falls after a phase of so many bids, and after so many phases in a row with no more
// bids than hands.
fn fall_after(terms: Terms, bids: u64, hands: u64, quiet: u32) -> i64 {
    if bids > hands.saturating_mul(BIDS_OF_A_WAR) {
        return FALL_IN_A_WAR;
    }
    let is_far = terms.slackness / FAR_UNITS > terms.scale;
    let bits = if is_far { FAR_FALL_BITS } else { FALL_BITS };
    FALL.wrapping_shl(bits.wrapping_mul(quiet).min(MOST_FALL_BITS))
}

// The bids of a hand that a phase may come to.
fn bids_after(quiet: u32) -> u64 {
    if quiet > 0 {
        BIDS_AFTER_QUIET
    } else {
        BIDS_OF_A_HAND
    }
}

fn fallen(slackness: i64, fall: i64) -> i64 {
    (slackness / fall.max(1)).max(1)
}

/// The bids that a phase may come to.
pub fn most_bids(layout: Layout, bids_of_a_hand: u64) -> u64 {
    let bids = layout.hands.saturating_mul(bids_of_a_hand);
    bids.saturating_add(FEW_BIDS)
}

/// How a phase, or an auction, ended.
#[derive(Clone, Copy)]
pub enum Ended {
    /// Every hand has what is best at these prices, up to the slackness.
    Settled,
    /// The plan is best, and exact prices prove it.
    Best,
    /// It went on for too long, or a row was offered too little.
    War,
    /// The arc scans are spent.
    Spent,
}

impl Auction {
    /// One for this layout, before its first phase.
    pub fn for_layout(
        alloc: Global,
        problem: &Problem<'_>,
        state: &State,
        layout: Layout,
        arc_scans: ArcScans,
    ) -> Result<Auction, AllocError> {
        let groups = Groups::of(alloc, problem, state)?;
        let runs = Runs::of(alloc, problem, state, layout)?;
        Auction::new(alloc, layout.sizes, layout.terms, arc_scans, groups, runs)
    }

    // How many slots of a column, and of staying out, the dummy row may hold.
    pub fn set_dummy_most(&mut self, state: &State, outside: u32) {
        let last = state.outside();
        for column in 0..self.dummy_most.len() {
            let most = if column == last {
                outside
            } else {
                count_at(state.column_most.as_slice(), column).saturating_sub(count_at(
                    state.column_least.as_slice(),
                    column,
                ))
            };
            set_count(self.dummy_most.as_mut_slice(), column, most);
        }
    }

    // The highest price and the bids that a phase may come to.
    fn set_terms(
        &mut self,
        state: &mut State,
        layout: Layout,
        slackness: i64,
        bids_of_a_hand: u64,
    ) {
        let top = state.top().wrapping_sub(state.base());
        state.lower_all();
        let steps = self.terms.spread.wrapping_add(slackness);
        let raise = steps.checked_mul(layout.nodes).unwrap_or(HIGHEST_PRICE);
        self.terms.slackness = slackness;
        self.terms.limit = top
            .saturating_add(raise)
            .saturating_add(1)
            .min(HIGHEST_PRICE);
        self.terms.budget = self.bids.saturating_add(most_bids(layout, bids_of_a_hand));
    }

    // Every hand waits.
    fn wait_all(&mut self, state: &State) {
        self.queue.clear();
        for row in 0..place_at(self.hands.len()) {
            let hands = state.most_of(row);
            set_count(self.hands.as_mut_slice(), row as usize, hands);
            if hands > 0 {
                self.queue.push(row);
            }
        }
        self.dummy_hands = self.dummies;
        let dummy = self.dummy();
        if self.dummies > 0 {
            self.queue.push(dummy);
        }
    }

    /// Begins a phase at the prices, with nothing held.
    pub fn begin_phase(
        &mut self,
        state: &mut State,
        layout: Layout,
        slackness: i64,
        bids_of_a_hand: u64,
    ) {
        self.set_terms(state, layout, slackness, bids_of_a_hand);
        self.set_dummy_most(state, layout.sizes.outside);
        self.clear_slots(state, layout.sizes.outside);
        clear_bytes(state.plan.as_mut_slice());
        self.groups.clear();
        clear_counts(state.held.as_mut_slice());
        clear_counts(self.out.as_mut_slice());
        self.wait_all(state);
    }

    /// Bids until nobody waits, the arc scans are spent, or the bids are too many.
    pub fn run_phase(
        &mut self,
        problem: &Problem<'_>,
        state: &mut State,
    ) -> Result<Ended, AllocError> {
        for _turn in self.bids..self.terms.budget.saturating_add(2) {
            if self.is_failed {
                return Ok(Ended::War);
            }
            if self.arc_scans.is_spent() {
                return Ok(Ended::Spent);
            }
            let Some(place) = self.queue.pop() else {
                return Ok(Ended::Settled);
            };
            if place == self.dummy() {
                self.bid_dummy(state)?;
            } else {
                self.bid_row(problem, state, place)?;
            }
            self.is_failed = self.is_failed || self.bids > self.terms.budget;
        }
        Ok(Ended::War)
    }

    // Whether a phase took more bids than it may.
    fn is_over_budget(&self, ended: Ended) -> bool {
        matches!(ended, Ended::War) && self.bids > self.terms.budget
    }

    // The slackness of the next phase, after so many quiet ones in a row. Where it falls by more than usual,
    // it doesn't fall far past the unit of costs.
    fn next_slackness(&self, layout: Layout, bids: u64, quiet: u32) -> i64 {
        let slackness = self.terms.slackness;
        let next = fallen(slackness, fall_after(self.terms, bids, layout.hands, quiet));
        if quiet == 0 || slackness <= self.terms.scale {
            return next;
        }
        next.max(fallen(slackness, FALL).min(self.terms.scale / PARTS_OF_A_UNIT))
    }

    // Whether the plan of a phase with so many bids may be best, and to find that out takes less than the
    // phases to come.
    fn may_be_best(&self, layout: Layout, bids: u64) -> bool {
        let rows = layout.sizes.rows as u64;
        let hands_of_rows = layout.hands.saturating_sub(layout.sizes.dummies);
        let is_war = bids.saturating_mul(2) > layout.hands.saturating_mul(HALF_BIDS_OF_A_HAND);
        self.terms.slackness <= self.terms.scale
            && hands_of_rows <= rows.saturating_mul(MOST_HANDS)
            && (is_war || layout.has_few_costs)
    }

    // The least price of a column of which the dummy row may hold one more slot.
    fn least_open_price(&self, state: &State) -> i64 {
        let mut least = FAR;
        for column in 0..state.outside() {
            let most = count_at(self.dummy_most.as_slice(), column);
            if count_at(self.dummy_held.as_slice(), column) < most {
                least = least.min(state.price(column));
            }
        }
        least
    }

    // Lowers the prices of columns of which the dummy row holds slots to the least one of which it may hold
    // more. Otherwise its last bids keep rows away until all other prices have risen as far.
    fn lower_dummies(&self, state: &mut State) {
        let least = self.least_open_price(state);
        for column in 0..state.outside() {
            let price = state.price(column);
            if count_at(self.dummy_held.as_slice(), column) > 0 && price < FAR {
                set_price(state.prices.as_mut_slice(), column, price.min(least));
            }
        }
    }

    // Begins a phase at the prices from before the slackness fell by too much.
    fn begin_again(&mut self, state: &mut State, layout: Layout, prices: &[i64], slackness: i64) {
        self.is_failed = false;
        copy_numbers(state.prices.as_mut_slice(), prices);
        self.begin_phase(state, layout, slackness, BIDS_OF_A_HAND);
    }

    /// Phases from this slackness down to 1, or to a plan that is best. A phase that was begun goes on. If
    /// the slackness fell by too much, a phase follows for which it falls as usual.
    pub fn run(
        &mut self,
        alloc: Global,
        problem: &Problem<'_>,
        state: &mut State,
        layout: Layout,
    ) -> Result<Ended, AllocError> {
        let mut quiet = 0u32;
        let mut usual = 1i64;
        let mut prices = Vec::new(alloc);
        for phase in 0..MOST_PHASES {
            let begun = self.bids;
            let ended = self.run_phase(problem, state)?;
            if quiet > 0 && self.is_over_budget(ended) {
                quiet = 0;
                self.begin_again(state, layout, prices.as_slice(), usual);
                continue;
            }
            if !matches!(ended, Ended::Settled) || self.terms.slackness <= 1 {
                return Ok(ended);
            }
            let bids = self.bids.saturating_sub(begun);
            if self.may_be_best(layout, bids) && self.refine(alloc, problem, state, layout)? {
                return Ok(Ended::Best);
            }
            let is_quiet = phase > 0 && bids <= layout.hands;
            quiet = if is_quiet { quiet.wrapping_add(1) } else { 0 };
            usual = fallen(self.terms.slackness, FALL);
            self.lower_dummies(state);
            prices = Vec::from_slice(alloc, state.prices.as_slice())?;
            let next = self.next_slackness(layout, bids, quiet);
            self.begin_phase(state, layout, next, bids_after(quiet));
        }
        Ok(Ended::War)
    }
}

/// The slackness of the first phase.
pub fn first_slackness(layout: Layout) -> i64 {
    (layout.terms.spread / FALL).max(1)
}
