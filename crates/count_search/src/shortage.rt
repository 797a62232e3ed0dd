// Shortages: rows and columns whose counts leave no plan.
use super::cut::by_price;
use super::problem::{Problem, Row};
use super::state::State;
use super::values::{byte_at, count_at, set_byte};
use search_base::place_at;
use std::alloc::{AllocError, Global};

/// Which side lacks.
#[derive(Clone, Copy)]
pub enum Lack {
    /// The rows need more than these columns take, and what they list elsewhere.
    Rows,
    /// The columns need more than these rows take, and what the others list there.
    Columns,
}

/// The rows and columns of a shortage.
#[derive(Drop)]
pub struct Marks {
    pub rows: Vec<u8>,
    pub columns: Vec<u8>,
}

impl Lack {
    fn is_rows(self) -> bool {
        matches!(self, Lack::Rows)
    }
}

impl Marks {
    pub fn new(alloc: Global, problem: &Problem<'_>) -> Result<Marks, AllocError> {
        Ok(Marks {
            rows: vec![in alloc; 0u8; problem.row_count()]?,
            columns: vec![in alloc; 0u8; problem.column_count()]?,
        })
    }

    /// Marks all.
    pub fn mark_all(&mut self) {
        for mark in self.rows.as_mut_slice().iter_mut() {
            *mark = 1;
        }
        for mark in self.columns.as_mut_slice().iter_mut() {
            *mark = 1;
        }
    }

    // How many groups a row lists among the marked columns, or among the others.
    fn groups_of(&self, state: &mut State, row: Row<'_>, is_marked: bool) -> u32 {
        let stamp = state.next_stamp();
        let mut count = 0u32;
        for column in row.columns {
            let mark = byte_at(self.columns.as_slice(), *column as usize) != 0;
            if mark == is_marked && state.mark(*column, stamp) {
                count = count.wrapping_add(1);
            }
        }
        count
    }

    fn columns_lack(&self, problem: &Problem<'_>, lack: Lack) -> i64 {
        let mut sum = 0i64;
        for (column, mark) in self.columns.iter().enumerate() {
            if *mark != 0 {
                let more = if lack.is_rows() {
                    i64::from(count_at(problem.column_most, column)).wrapping_neg()
                } else {
                    i64::from(count_at(problem.column_least, column))
                };
                sum = sum.wrapping_add(more);
            }
        }
        sum
    }

    // Marks a row if that makes the most of it. Returns what it adds.
    fn mark_row(&mut self, problem: &Problem<'_>, state: &mut State, row: u32, lack: Lack) -> i64 {
        let groups = self.groups_of(state, problem.row(row), !lack.is_rows());
        let least = count_at(problem.row_least, row as usize);
        let most = count_at(problem.row_most, row as usize);
        let is_marked = if lack.is_rows() {
            least > groups
        } else {
            most < groups
        };
        set_byte(self.rows.as_mut_slice(), row as usize, u8::from(is_marked));
        if !lack.is_rows() {
            i64::from(most.min(groups)).wrapping_neg()
        } else if is_marked {
            i64::from(least.saturating_sub(groups))
        } else {
            0
        }
    }

    /// Marks the rows that make the most of the marked columns. Returns whether there is a shortage.
    pub fn mark_rows(&mut self, problem: &Problem<'_>, state: &mut State, lack: Lack) -> bool {
        let mut more = self.columns_lack(problem, lack);
        for row in 0..place_at(self.rows.len()) {
            more = more.wrapping_add(self.mark_row(problem, state, row, lack));
        }
        more > 0
    }

    // Marks the expensive columns, or the cheap ones.
    fn mark_from(&mut self, prices: &[i64], price: i64, lack: Lack) {
        for (mark, own) in self.columns.as_mut_slice().iter_mut().zip(prices) {
            *mark = u8::from((*own >= price) == lack.is_rows());
        }
    }
}

/// The sides of a price: whether one of them is a shortage.
fn part_at(
    problem: &Problem<'_>,
    state: &mut State,
    marks: &mut Marks,
    price: i64,
) -> Option<Lack> {
    marks.mark_from(state.prices.as_slice(), price, Lack::Rows);
    if marks.mark_rows(problem, state, Lack::Rows) {
        return Some(Lack::Rows);
    }
    marks.mark_from(state.prices.as_slice(), price, Lack::Columns);
    if marks.mark_rows(problem, state, Lack::Columns) {
        return Some(Lack::Columns);
    }
    None
}

// A price and how far it is above the next lower one.
#[derive(Clone, Copy)]
struct Step {
    price: i64,
    gap: i64,
}

fn steps_of(alloc: Global, prices: &[i64]) -> Result<Vec<Step>, AllocError> {
    let mut heap = by_price(alloc, prices)?;
    let mut steps = Vec::new(alloc);
    let mut last = None;
    for _column in 0..prices.len() {
        if let Some(next) = heap.pop() {
            let price = next.distance;
            let gap = match last {
                Some(below) => price.wrapping_sub(below),
                None => 0,
            };
            steps.push(Step { price, gap })?;
            last = Some(price);
        }
    }
    Ok(steps)
}

// Takes the widest step out, if one is left.
fn widest(steps: &mut [Step]) -> Option<i64> {
    let mut place = 0usize;
    let mut gap = 0i64;
    for (k, step) in steps.iter().enumerate() {
        if step.gap > gap {
            place = k;
            gap = step.gap;
        }
    }
    if gap == 0 || place >= steps.len() {
        return None;
    }
    steps[place].gap = 0;
    Some(steps[place].price)
}

// So many steps are tried.
const MOST_STEPS: usize = 4;

/// A war of bids without end parts the columns: those at war are expensive, and those that nobody gets to are
/// cheap. Tries the widest steps of the prices.
pub fn find_shortage(
    alloc: Global,
    problem: &Problem<'_>,
    state: &mut State,
    marks: &mut Marks,
) -> Result<Option<Lack>, AllocError> {
    let columns = state.outside();
    let mut steps = steps_of(alloc, state.prices.get(0..columns).unwrap_or(&[]))?;
    for _step in 0..MOST_STEPS {
        let Some(price) = widest(steps.as_mut_slice()) else {
            return Ok(None);
        };
        if let Some(lack) = part_at(problem, state, marks, price) {
            return Ok(Some(lack));
        }
    }
    Ok(None)
}
