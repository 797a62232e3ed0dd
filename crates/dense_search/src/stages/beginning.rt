// How a search begins: least prices, first bids, somebody's prices.
use super::super::bids::{bid_within, give_least};
use super::super::cheapest::take_cheapest;
use super::super::firsts::first_values;
use super::super::matrix::Matrix;
use super::super::narrow::are_narrow;
use super::super::prices::{begin, begin_at_zero, cut};
use super::super::reading::Reading;
use super::super::record::Stage;
use super::super::settling::settle_up_to;
use super::super::sorted::take_in_order;
use super::copying::is_middle;
use super::{Step, Work};
use std::alloc::{AllocError, Global};

// Problems with fewer pairs are mostly assigned by searches.
pub const MIDDLE: usize = 1 << 19;

// From first prices so many persons are assigned by searches alone.
const FEW_UNASSIGNED: usize = 8;

// Problems with fewer pairs aren't sorted: that is seldom of use, and takes a share of their time.
const LEAST_SORTED: usize = 1 << 14;

// Of nearly all persons one in so many has a better object than that at its place in an order.
const NEARLY_ALL: usize = 32;

// The first bids of a person. A core's are cheaper, and only large problems come to one.
fn first_bids<R: Reading<i64>>(matrix: &Matrix<'_, i64, R>) -> usize {
    if matrix.pairs() < MIDDLE { 2 } else { 1 }
}

// How many persons first prices may leave without an object. A search without these prices is faster
// for more. Without a plan some are left whose best object somebody else took.
fn most_left<R: Reading<i64>>(matrix: &Matrix<'_, i64, R>, has_plan: bool) -> usize {
    if matrix.persons < matrix.objects {
        FEW_UNASSIGNED
    } else if has_plan && matrix.pairs() < MIDDLE {
        (matrix.persons / 32).max(FEW_UNASSIGNED)
    } else {
        matrix.persons / 2
    }
}

impl<'a> Work<'a> {
    // First bids of each person without an object, as far as the arc scans allow. Returns whether more
    // are to come.
    pub fn bid_first<R: Reading<i64>>(&mut self, matrix: &Matrix<'_, i64, R>) -> bool {
        let all = matrix.persons.saturating_mul(first_bids(matrix)) as u64;
        let left = all.saturating_sub(self.record.bids) as usize;
        let bids = bid_within(matrix, &mut self.market, left, &mut self.arc_scans);
        self.record.bids = self.record.bids.saturating_add(bids.made as u64);
        bids.made > 0 && bids.are_cut
    }

    pub fn begin_cold<R: Reading<i64>>(
        &mut self,
        alloc: Global,
        matrix: &Matrix<'_, i64, R>,
    ) -> Result<Step, AllocError> {
        if is_middle(matrix) {
            if let Some(step) = self.search_copied(alloc, matrix)? {
                return Ok(step);
            }
        }
        if self.is_in_order(alloc, matrix)? {
            return Ok(self.begin_paths());
        }
        self.market.release_all();
        let firsts = first_values(alloc, matrix)?;
        let arc_scans = begin(matrix, firsts.as_slice(), self.market.prices);
        self.arc_scans.add(arc_scans);
        if matrix.persons == matrix.objects {
            let arc_scans = give_least(matrix, &mut self.market, firsts.as_slice());
            self.arc_scans.add(arc_scans);
        } else if matrix.persons < matrix.objects / 8 {
            self.arc_scans.add(take_cheapest(matrix, &mut self.market));
        }
        Ok(self.begin_paths())
    }

    // Lets sorted persons take sorted objects. Returns whether that is right for nearly all of them.
    fn is_in_order<R: Reading<i64>>(
        &mut self,
        alloc: Global,
        matrix: &Matrix<'_, i64, R>,
    ) -> Result<bool, AllocError> {
        let may_sort = matrix.persons == matrix.objects && matrix.pairs() >= LEAST_SORTED;
        if !may_sort || !take_in_order(alloc, matrix, &mut self.market)? {
            return Ok(false);
        }
        begin_at_zero(self.market.prices);
        cut(self.market.prices);
        let most = matrix.persons / NEARLY_ALL;
        let (arc_scans, is_settled) = settle_up_to(matrix, &mut self.market, most);
        self.arc_scans.add(arc_scans);
        Ok(is_settled)
    }

    fn begin_paths(&mut self) -> Step {
        self.record.bids = 0;
        self.record.passes = 0;
        Step::To(Stage::Paths)
    }

    // First prices of which many persons' best objects are others' too save nothing, and so do those
    // of many more objects than persons, since a search without any looks at few pairs twice.
    pub fn begin_warm<R: Reading<i64>>(
        &mut self,
        alloc: Global,
        matrix: &Matrix<'_, i64, R>,
    ) -> Result<Step, AllocError> {
        if matrix.persons < matrix.objects / 8 * 7 {
            return Ok(Step::To(Stage::Cold));
        }
        begin_at_zero(self.market.prices);
        cut(self.market.prices);
        let most = most_left(matrix, self.market.unassigned() < matrix.persons);
        let (arc_scans, are_settled) = settle_up_to(matrix, &mut self.market, most);
        self.arc_scans.add(arc_scans);
        if !are_settled {
            return Ok(Step::To(Stage::Cold));
        }
        self.go_on_warm(alloc, matrix)
    }

    // Searches for few persons. More are assigned over a copy, or by a core.
    fn go_on_warm<R: Reading<i64>>(
        &mut self,
        alloc: Global,
        matrix: &Matrix<'_, i64, R>,
    ) -> Result<Step, AllocError> {
        if self.market.unassigned() <= FEW_UNASSIGNED {
            return Ok(self.begin_paths());
        }
        if !is_middle(matrix) {
            let _ = self.begin_paths();
            return Ok(Step::To(Stage::Core));
        }
        if are_narrow(self.market.prices) {
            let _ = self.begin_paths();
            self.record.stage = Stage::CopyPaths;
            if let Some(step) = self.search_copied(alloc, matrix)? {
                return Ok(step);
            }
        }
        Ok(self.begin_paths())
    }
}
