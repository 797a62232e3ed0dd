// Laws on costs, and on what proves an answer.
ghost use Rattle.std.specs.Prelude.{◌≡◌, ℕ, ℤ, pos, ◌+◌, ◌*◌, ◌^◌, ◌<◌, List, Some, length, All, slice_index_or};
ghost use Rattle.assign_core.specs.declared.sense.Sense.{Sense};
ghost use Rattle.assign_core.specs.Rows.{listed_in, row_of};
ghost use Rattle.assign_core.specs.Dense.{rows_cut};
ghost use Rattle.assign_core.specs.Sparse.{IsTripleAmong, Triple};
ghost use Rattle.assign_core.specs.Assignment.{IsBest};
ghost use Rattle.cost_lists.specs.ListedCosts.{ListedCosts, AreInLimits};
ghost use Rattle.cost_lists.specs.Given.{IsBestGiven, best_given, rows_given};
ghost use Rattle.cost_lists.specs.Exact.{IsOptimum};
ghost use Rattle.cost_lists.specs.Blocks.{BlocksBound, BlocksForbid, BlocksMeanBest};

use super::numbers::{GREATEST_NUMBER, GREATEST_PRICE};
use assign_core::GREATEST_COST;

/// The limits as numbers.
pub fn wide_limits()
    ensures numbers { GREATEST_NUMBER ≡ 2 ^ 22 }
    ensures costs { GREATEST_COST ≡ pos (10 ^ 12) }
    ensures prices { GREATEST_PRICE ≡ pos (9 * 10 ^ 18) }
{}

/// An assignment with exact prices is optimal: weak duality with complementary slackness (Bertsekas,
/// Network Optimization, 1998, section 7.1). There may be more objects than persons.
pub fn exact_means_best()
    ensures { (l : ListedCosts) (xs : List ℕ) (prices : List ℤ)
        → AreInLimits l → IsOptimum l xs prices → IsBest l.sense l.rows xs }
{}

/// A plan is best of all pairs if these lie in blocks, and no block has a pair whose sum of cost and
/// price is below its row's number, which is the sum of the person's own pair; objects differ, and
/// prices are from 0, and 0 where nobody owns the object: weak duality, block by block. A row may lie
/// in several blocks.
pub fn blocks_mean_best()
    ensures { BlocksMeanBest }
{}

/// At prices from 0 the row numbers bound each assignment: the sum of the row numbers less that of the
/// prices is at most its cost (under `Max`: its cost with the other sign).
pub fn blocks_bound()
    ensures { BlocksBound }
{}

/// Where blocks list only some objects for some persons, and these objects are fewer, no assignment
/// exists (Hall 1935).
pub fn blocks_forbid()
    ensures { BlocksForbid }
{}

/// Of n * m costs, that at place `i * m + j` is the cost of person `i + 1` and object `j + 1`. Among
/// listed pairs, a pair's cost is the best of those that are given for it. Places count from 0.
pub fn costs_are_listed()
    ensures dense { (n m : ℕ) (costs : List ℤ) (i j : ℕ) → length costs ≡ n * m → i < n → j < m
        → listed_in (row_of (rows_cut m n costs) (i + 1)) (j + 1)
        ≡ Some (slice_index_or costs (i * m + j) (pos 0)) }
    ensures sparse { (sense : Sense) (triples : List Triple) (n m i j : ℕ)
        → All (IsTripleAmong n m) triples
        → listed_in (row_of (rows_given sense triples m 1 n) i) j ≡ best_given sense triples i j }
{}

/// The best of several costs given for a pair is one of them, and none of them is better; there is
/// none exactly where no triple names the pair.
pub fn best_given_counts()
    ensures { (sense : Sense) (triples : List Triple) (i j : ℕ)
        → IsBestGiven sense triples i j (best_given sense triples i j) }
{}
