// A problem of counts, as its caller lists it.

/// Rows take listed columns, from so many to so many of them, a column goes to from so many to so many
/// rows, and a row takes at most one column of a group. The sum of the costs is to be least. Costs are
/// at most 10^12 from 0, rows and columns at most 2^22 each, pairs at most 2^30.
#[derive(Clone, Copy)]
pub struct Problem<'a> {
    /// Row k lists the pairs from `starts[k]` to `starts[k + 1]`: one more entry than rows, the first 0.
    pub starts: &'a [usize],
    /// The column of each pair, from 0, at most once a row.
    pub columns: &'a [u32],
    pub costs: &'a [i64],
    pub row_least: &'a [u32],
    pub row_most: &'a [u32],
    pub column_least: &'a [u32],
    pub column_most: &'a [u32],
    /// The group of each column, from 1 to the number of columns, or 0 for none; empty: no groups.
    pub groups: &'a [u32],
}

/// The pairs of a row.
#[derive(Clone, Copy)]
pub struct Row<'a> {
    /// The place of the first pair.
    pub first: usize,
    pub columns: &'a [u32],
    pub costs: &'a [i64],
}

// One more than a caller's lists have.
const MOST_PLACES: usize = (1 << 22) + 1;

const MOST_PAIRS: usize = 1 << 30;

const MOST_COST: i64 = 1_000_000_000_000;

fn rises_from_zero(starts: &[usize], end: usize) -> bool {
    let mut last = 0usize;
    for start in starts {
        if *start < last {
            return false;
        }
        last = *start;
    }
    starts.first().copied() == Some(0) && last == end
}

fn all_below(list: &[u32], end: usize) -> bool {
    let mut greatest = 0u32;
    for entry in list {
        greatest = greatest.max(*entry);
    }
    list.is_empty() || (greatest as usize) < end
}

fn all_up_to(least: &[u32], most: &[u32]) -> bool {
    least.iter().zip(most).all(|(least, most)| *least <= *most)
}

/// The least and the greatest cost.
#[derive(Clone, Copy)]
pub struct CostRange {
    pub least: i64,
    pub greatest: i64,
}

impl CostRange {
    fn of(costs: &[i64]) -> CostRange {
        let (mut least, mut greatest) = (i64::MAX, i64::MIN);
        for cost in costs {
            least = least.min(*cost);
            greatest = greatest.max(*cost);
        }
        CostRange { least, greatest }
    }

    fn is_small(self) -> bool {
        self.least >= MOST_COST.wrapping_neg() && self.greatest <= MOST_COST
    }
}

impl<'a> Problem<'a> {
    pub fn row_count(&self) -> usize {
        self.row_least.len()
    }

    pub fn column_count(&self) -> usize {
        self.column_least.len()
    }

    /// The pairs of a row; none for a place without a row.
    #[inline(always)]
    pub fn row(&self, row: u32) -> Row<'a> {
        let place = row as usize;
        match (
            self.starts.get(place),
            self.starts.get(place.wrapping_add(1)),
        ) {
            (Some(from), Some(to)) => Row {
                first: *from,
                columns: self.columns.get(*from..*to).unwrap_or(&[]),
                costs: self.costs.get(*from..*to).unwrap_or(&[]),
            },
            _ => Row {
                first: 0,
                columns: &[],
                costs: &[],
            },
        }
    }

    fn has_lengths(&self) -> bool {
        let (rows, columns) = (self.row_count(), self.column_count());
        self.starts.len() == rows.wrapping_add(1)
            && self.row_most.len() == rows
            && self.column_most.len() == columns
            && (self.groups.is_empty() || self.groups.len() == columns)
            && self.columns.len() == self.costs.len()
            && rows <= MOST_PLACES
            && columns <= MOST_PLACES
            && self.columns.len() <= MOST_PAIRS
    }

    // Whether the lists fit one another, and numbers other than costs are in their ranges.
    fn fits(&self) -> bool {
        let columns = self.column_count();
        self.has_lengths()
            && rises_from_zero(self.starts, self.columns.len())
            && all_below(self.columns, columns)
            && all_below(self.groups, columns.wrapping_add(1))
            && all_up_to(self.row_least, self.row_most)
            && all_up_to(self.column_least, self.column_most)
    }

    /// The least and the greatest cost, if the lists fit one another and numbers are in their ranges.
    pub fn fitting_range(&self) -> Option<CostRange> {
        if !self.fits() {
            return None;
        }
        let range = CostRange::of(self.costs);
        let is_small = self.costs.is_empty() || range.is_small();
        if is_small { Some(range) } else { None }
    }

    /// The cost of a pair; 0 where there is none.
    #[inline(always)]
    pub fn cost_of(&self, pair: u32) -> i64 {
        self.costs.get(pair as usize).copied().unwrap_or(0)
    }

    /// The column of a pair.
    #[inline(always)]
    pub fn column(&self, pair: u32) -> usize {
        match self.columns.get(pair as usize) {
            Some(column) => *column as usize,
            None => usize::MAX,
        }
    }
}
