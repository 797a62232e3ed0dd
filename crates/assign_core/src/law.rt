// Laws of the definitions.
ghost use Rattle.std.specs.Prelude.{◌≡◌, ℕ, ℤ, pos, ◌+◌, ◌*◌, ◌/◌, ◌%◌, ◌<◌, ◌≤◌, ◌≤ℤ◌, ◌↔◌, ◌^◌, List, Option, None, Some, length, slice_index_or, All, Contains};
ghost use Rattle.assign_core.specs.declared.outcome.Outcome.{Outcome};
ghost use Rattle.assign_core.specs.declared.sense.Sense.{Sense};
ghost use Rattle.assign_core.specs.Numbered.{numbered};
ghost use Rattle.assign_core.specs.Rows.{Listing, IsProblem, listed_in, row_of};
ghost use Rattle.assign_core.specs.Dense.{dense_rows};
ghost use Rattle.assign_core.specs.Assignment.{IsAssignment, IsBest};
ghost use Rattle.assign_core.specs.Benefits.{benefit_rows};
ghost use Rattle.assign_core.specs.Prices.{IsBelow};
ghost use Rattle.assign_core.specs.Slackness.{AllSlack};
ghost use Rattle.assign_core.specs.Matching.{IsMatching, owner_of};
ghost use Rattle.assign_core.specs.Outcomes.{IsDecided, IsProof};
ghost use Rattle.assign_core.specs.Sparse.{Triple, least_given};

use super::numbers::{GREATEST_COST, GREATEST_FIRST_PRICE, MOST_PERSONS, NARROW_END, PRICE_END};

/// The limits as numbers.
pub fn limits()
    ensures persons { MOST_PERSONS ≡ 8192 }
    ensures costs { GREATEST_COST ≡ pos (10 ^ 12) }
    ensures prices { PRICE_END ≡ pos (10 ^ 22) }
    ensures first_prices { GREATEST_FIRST_PRICE ≡ pos (10 ^ 21) }
    ensures narrow { NARROW_END ≡ pos (2 ^ 62) }
{}

/// An assignment with slackness 1 at some prices, at benefits scaled by one more than the number of
/// persons, is optimal: weak duality (Bertsekas, Network Optimization, 1998, section 7.1).
///
/// # Example
/// The body of `calling::cost_of_best`:
/// ```
/// // The law's premises are the rule of problems, which `n` gives, and the certificate.
/// let _persons = problem.n();
/// slack_means_best();
/// problem.total(&best.assignment)
/// ```
pub fn slack_means_best()
    ensures { (sense : Sense) (rows : List Listing) (xs : List ℕ) (prices : List ℤ)
        → IsProblem rows → IsAssignment rows xs
        → AllSlack (pos 1) prices (benefit_rows sense rows) xs → IsBest sense rows xs }
{}

/// An outcome that is a proof decides the problem: a certificate comes only where an assignment
/// exists, a Hall set only where none exists.
pub fn proofs_decide()
    ensures { (sense : Sense) (rows : List Listing) (outcome : Outcome)
        → IsProof sense rows outcome → IsDecided rows outcome }
{}

/// The relation `IsBelow` between tables of prices is reflexive and transitive.
pub fn price_order()
    ensures itself { (prices : List ℤ) → IsBelow prices prices }
    ensures through { (first second third : List ℤ)
        → IsBelow first second → IsBelow second third → IsBelow first third }
{}

/// If each person owns an object, these objects are an assignment.
pub fn owners_make_an_assignment()
    ensures { (rows : List Listing) (owners : List (Option ℕ)) (xs : List ℕ)
        → IsMatching rows owners → length xs ≡ length rows
        → ((i : ℕ) → 0 < i → i ≤ length rows → owner_of owners (numbered xs i 0) ≡ Some i)
        → IsAssignment rows xs }
{}

/// A dense problem of `n` persons has `n` rows of `n` pairs. The cost at place `k` is that of
/// person `k / n + 1` and object `k % n + 1`; person `i + 1` and object `j + 1` cost what stands at
/// place `i * n + j`. Places count from 0.
pub fn dense_pairs()
    ensures persons { (n : ℕ) (costs : List ℤ) → length (dense_rows n costs) ≡ n }
    ensures objects { (n : ℕ) (costs : List ℤ) → length costs ≡ n * n
        → All (λ row. length row ≡ n) (dense_rows n costs) }
    ensures entries { (n : ℕ) (costs : List ℤ) (i j : ℕ) → length costs ≡ n * n → i < n → j < n
        → slice_index_or (row_of (dense_rows n costs) (i + 1)) j (0, pos 0)
        ≡ (j + 1, slice_index_or costs (i * n + j) (pos 0)) }
    ensures places { (n : ℕ) (costs : List ℤ) (k : ℕ) → length costs ≡ n * n → k < n * n
        → listed_in (row_of (dense_rows n costs) (k / n + 1)) (k % n + 1)
        ≡ Some (slice_index_or costs k (pos 0)) }
{}

/// The least of several costs given for a pair counts: it is one of the given costs, none of them
/// is less, and there is none exactly where no triple names the pair.
pub fn least_given_counts()
    ensures given { (triples : List Triple) (i j : ℕ) (c : ℤ)
        → least_given triples i j ≡ Some c → Contains triples (i, j, c) }
    ensures least { (triples : List Triple) (i j : ℕ) (c a : ℤ)
        → least_given triples i j ≡ Some c → Contains triples (i, j, a) → c ≤ℤ a }
    ensures none { (triples : List Triple) (i j : ℕ)
        → least_given triples i j ≡ None ↔ ((c : ℤ) → ¬ Contains triples (i, j, c)) }
{}
