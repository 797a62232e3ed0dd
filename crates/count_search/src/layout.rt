// What an auction is laid out for: its sizes, and the scale of its costs.
use super::auction::{Sizes, Terms};
use super::problem::{CostRange, Problem};
use super::state::State;
use super::values::{byte_at, set_byte, short, signed, sum_of, unsigned};
use std::alloc::{AllocError, Global};

// Twice the greatest sum of prices is at most this.
const ROOM: i64 = 1 << 60;

#[derive(Clone, Copy)]
pub struct Layout {
    pub sizes: Sizes,
    pub terms: Terms,
    /// The greatest cost less the least one, at least 1.
    pub spread: i64,
    pub greatest: i64,
    /// How many slots rows and the dummy row want in all.
    pub hands: u64,
    /// The prices of columns and one more: more residues than prices.
    pub nodes: i64,
    /// Whether rows take as much as they may for the columns' sake.
    pub is_filled: bool,
    /// Whether all hands that needn't take anything may stay out at once.
    pub may_all_stay: bool,
    /// Whether costs have few values, so that rows find many pairs equally good.
    pub has_few_costs: bool,
}

// So many values among the first costs are few. They are counted by their remainders.
const FEW_VALUES: u32 = 64;

const FIRST_COSTS: usize = 4096;

const DIVISOR: u64 = 1021;

fn has_few_values(alloc: Global, costs: &[i64]) -> Result<bool, AllocError> {
    let mut is_seen = vec![in alloc; 0u8; DIVISOR as usize]?;
    let mut values = 0u32;
    for cost in costs.iter().take(FIRST_COSTS) {
        let place = (cost.unsigned_abs() % DIVISOR) as usize;
        values = values.wrapping_add(u32::from(byte_at(is_seen.as_slice(), place) == 0));
        set_byte(is_seen.as_mut_slice(), place, 1);
    }
    Ok(values <= FEW_VALUES)
}

#[derive(Clone, Copy)]
struct Sums {
    row_least: i64,
    row_most: i64,
    column_least: i64,
    column_most: i64,
}

impl Sums {
    fn of(state: &State) -> Sums {
        Sums {
            row_least: sum_of(state.row_least.as_slice()),
            row_most: sum_of(state.row_most.as_slice()),
            column_least: sum_of(state.column_least.as_slice()),
            column_most: sum_of(state.column_most.as_slice()),
        }
    }

    fn fits(self) -> bool {
        self.column_least <= self.row_most && self.row_least <= self.column_most
    }
}

fn is_optional(state: &State) -> bool {
    state
        .row_most
        .iter()
        .zip(&state.row_least)
        .any(|(most, least)| *most > *least)
}

// More residues than prices, if sums leave room for it.
fn scale_for(spread: i64, nodes: i64) -> i64 {
    let room = ROOM
        .checked_div(spread)
        .unwrap_or(0)
        .checked_div(nodes.wrapping_mul(2))
        .unwrap_or(0);
    room.min(nodes)
}

impl Layout {
    /// None where there is nothing to bid for, counts don't fit, or numbers would leave their range.
    pub fn of(
        alloc: Global,
        problem: &Problem<'_>,
        state: &State,
        range: CostRange,
    ) -> Result<Option<Layout>, AllocError> {
        let sums = Sums::of(state);
        if problem.columns.is_empty() || !sums.fits() {
            return Ok(None);
        }
        let CostRange {
            mut least,
            mut greatest,
        } = range;
        if is_optional(state) {
            least = least.min(0);
            greatest = greatest.max(0);
        }
        let spread = greatest.wrapping_sub(least).max(1);
        let nodes = signed(problem.column_count()).wrapping_add(2);
        let scale = scale_for(spread, nodes);
        if scale < 1 {
            return Ok(None);
        }
        let layout = Layout::sized(problem, sums, spread, scale, greatest);
        let has_few_costs = has_few_values(alloc, problem.costs)?;
        Ok(Some(Layout {
            has_few_costs,
            ..layout
        }))
    }

    fn sized(problem: &Problem<'_>, sums: Sums, spread: i64, scale: i64, greatest: i64) -> Layout {
        let over = sums.row_most.wrapping_sub(sums.column_least);
        let may = sums.row_most.wrapping_sub(sums.row_least);
        let outside = over.min(may);
        let dummies = sums
            .column_most
            .wrapping_sub(sums.column_least)
            .wrapping_sub(over.wrapping_sub(outside));
        let dummies = unsigned(dummies);
        Layout {
            sizes: Sizes {
                rows: problem.row_count(),
                columns: problem.column_count(),
                dummies,
                outside: short(outside),
            },
            terms: Terms {
                scale,
                spread: spread.wrapping_mul(scale),
                slackness: 1,
                limit: 0,
                budget: 0,
            },
            spread,
            greatest,
            hands: unsigned(sums.row_most).saturating_add(dummies),
            nodes: signed(problem.column_count()).wrapping_add(2),
            is_filled: sums.row_most == sums.column_least,
            may_all_stay: outside == may,
            has_few_costs: false,
        }
    }
}
