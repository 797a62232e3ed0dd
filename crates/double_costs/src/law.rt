// Laws on doubles as costs.
ghost use Rattle.std.specs.Prelude.{◌≡◌, ◌+◌, ◌*◌, ◌<◌, ℕ, ℤ, pos, ◌+ℤ◌, ◌≤ℤ◌, ◌<ℤ◌, T, List, length};
ghost use Rattle.std.specs.Prelude.{All, IsTrue, slice_index_or};
ghost use lib.Ieee.{Float, binary64, nan, add, fits, lt};
ghost use Rattle.assign_core.specs.declared.sense.Sense.{Sense};
ghost use Rattle.assign_core.specs.Rows.{Listing, IsWithin, listed_in, row_of};
ghost use Rattle.assign_core.specs.Assignment.{IsBest};
ghost use Rattle.double_costs.specs.Units.{IsExactly, is_number, units_of};
ghost use Rattle.double_costs.specs.DoubleRows.{cost_in, rows_of_doubles};
ghost use Rattle.double_costs.specs.Margins.{AreRowsBeside, IsMarginOf, IsRoundedTo, IsWithinHalf};
ghost use Rattle.double_costs.specs.Prices.{AreChoicesBy, IsOnlyBest, IsPricedBest};

/// An assignment with exact prices is optimal, whatever the size of the prices and their signs:
/// weak duality with complementary slackness (Bertsekas, Network Optimization, 1998, section 7.1).
/// There may be more objects than persons.
pub fn exact_prices_mean_best()
    ensures { (sense : Sense) (m : ℕ) (rows : List Listing) (xs : List ℕ) (prices : List ℤ)
        → All (IsWithin m) rows → IsPricedBest sense m rows xs prices → IsBest sense rows xs }
{}

/// A plan that is best by a margin of 0 or more is better than each other one: none is as good.
/// There may be more objects than persons.
pub fn margins_leave_one_plan()
    ensures { (sense : Sense) (m : ℕ) (margin : ℤ) (rows : List Listing) (xs : List ℕ)
        (prices : List ℤ) → pos 0 ≤ℤ margin → All (IsWithin m) rows
        → IsPricedBest sense m rows xs prices → AreChoicesBy margin sense prices rows xs
        → IsOnlyBest sense rows xs }
{}

/// A plan that is best by a margin is best for all costs of the same pairs that are at most half
/// the margin away, whatever parts of a unit they are whole numbers of. There may be more objects
/// than persons.
pub fn margins_keep_plans()
    ensures { (sense : Sense) (m scale margin : ℕ) (rows others : List Listing) (xs : List ℕ)
        (prices : List ℤ) → All (IsWithin m) rows → IsPricedBest sense m rows xs prices
        → AreChoicesBy (pos margin) sense prices rows xs
        → AreRowsBeside (IsWithinHalf scale margin) rows others → IsBest sense others xs }
{}

/// A plan for doubles that is best by a margin of these doubles is best for all numbers of which
/// they are the nearest doubles, as for the decimals that they print as.
pub fn rounded_costs_keep_plans()
    ensures { (sense : Sense) (n m scale : ℕ) (margin : ℤ) (costs : List Float)
        (others : List Listing) (xs : List ℕ) (prices : List ℤ) → IsMarginOf margin costs
        → IsPricedBest sense m (rows_of_doubles m n costs) xs prices
        → AreChoicesBy margin sense prices (rows_of_doubles m n costs) xs
        → AreRowsBeside (IsRoundedTo scale) (rows_of_doubles m n costs) others
        → IsBest sense others xs }
{}

/// A finite double counts as exactly the number that it is: its units of 2^-1074 are its sign, its
/// digits and its exponent, with nothing rounded or cut off.
pub fn doubles_are_exact()
    ensures { (x : Float) → T (fits binary64 x) → IsTrue (is_number x) → IsExactly x (units_of x) }
{}

/// Rounding keeps the order. So where one rounded sum of two doubles is below another, the same
/// holds of the sums themselves; the rounded ones may be infinite.
pub fn rounded_sums_tell()
    ensures { (a b c d : Float) → T (fits binary64 a) → T (fits binary64 b)
        → T (fits binary64 c) → T (fits binary64 d)
        → IsTrue (is_number a) → IsTrue (is_number b) → IsTrue (is_number c) → IsTrue (is_number d)
        → T (lt (add binary64 a b) (add binary64 c d))
        → (units_of a +ℤ units_of b) <ℤ (units_of c +ℤ units_of d) }
{}

/// Of n * m doubles, that at place `i * m + j` is the cost of person `i + 1` and object `j + 1`,
/// which isn't listed where it is infinite. Places count from 0. No row lists an object beyond m.
pub fn double_pairs()
    ensures persons { (n m : ℕ) (costs : List Float) → length (rows_of_doubles m n costs) ≡ n }
    ensures pairs { (n m : ℕ) (costs : List Float) (i j : ℕ) → length costs ≡ n * m → i < n → j < m
        → listed_in (row_of (rows_of_doubles m n costs) (i + 1)) (j + 1)
        ≡ cost_in (slice_index_or costs (i * m + j) nan) }
    ensures within { (n m : ℕ) (costs : List Float) → All (IsWithin m) (rows_of_doubles m n costs) }
{}
