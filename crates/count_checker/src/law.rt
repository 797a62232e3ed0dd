// Laws on plans and on what proves an answer.
ghost use Rattle.std.specs.Prelude.{ℤ, List, Bool, ◌⊎◌};
ghost use Rattle.count_checker.specs.Counts.{CountProblem, IsBestPlan, IsCountProblem, IsPlan};
ghost use Rattle.count_checker.specs.CountPrices.{AreCountPrices};
ghost use Rattle.count_checker.specs.CountSets.{ColumnsLack, RowsLack};
ghost use Rattle.count_checker.specs.CountFaults.{CountVerdictsDiffer};
ghost use Rattle.count_checker.specs.Marks.{MarksBreakTies, MarksMeanFewest, MarksMeanSame};
ghost use Rattle.count_checker.specs.Ones.{OnesAreAssignments};
ghost use Rattle.count_checker.specs.Shortages.{ShortageVerdictsDiffer};

/// No plan that keeps counts and groups is better than one with these numbers of rows and columns: weak
/// duality with complementary slackness (Bertsekas and Castañon, Annals of Operations Research 20,
/// 1989).
pub fn count_prices_mean_best()
    ensures { (p : CountProblem) (plan : List Bool) (r v : List ℤ)
        → IsCountProblem p → IsPlan p plan → AreCountPrices p plan r v → IsBestPlan p plan }
{}

/// Rows, or columns, that need more than the others can give leave no plan (A. J. Hoffman, Some recent
/// applications of the theory of linear inequalities to extremal combinatorial analysis, 1960; N. S.
/// Mendelsohn and A. L. Dulmage, Some generalizations of the problem of distinct representatives,
/// 1958).
pub fn count_sets_leave_no_plan()
    ensures { (p : CountProblem) (rows columns : List Bool) → IsCountProblem p
        → (RowsLack p rows columns ⊎ ColumnsLack p rows columns)
        → (plan : List Bool) → ¬ IsPlan p plan }
{}

/// At most one verdict holds of a plan and numbers.
pub fn one_count_verdict()
    ensures { CountVerdictsDiffer }
{}

/// At most one verdict holds of marks of rows and columns.
pub fn one_shortage_verdict()
    ensures { ShortageVerdictsDiffer }
{}

/// Where each row takes exactly one column, each column goes to at most one row and none has a group, the
/// plans are those of the one-to-one problem's assignments: each assignment is that of one plan, and each
/// plan that of an assignment, with the same cost, and the one is best just where the other is.
pub fn ones_are_assignments()
    ensures { OnesAreAssignments }
{}

/// Of all best plans one has the best sum of marks if it is best at marked costs too: a multiple of each cost,
/// and its mark more.
pub fn marks_break_ties()
    ensures { MarksBreakTies }
{}

/// Of all best plans one has the fewest changes from pairs to keep if it is best at marked costs too, with
/// 1 less for a pair to keep and 1 more for another. Pairs that don't count have no mark.
pub fn marks_mean_fewest_changes()
    ensures { MarksMeanFewest }
{}

/// All best plans have the same of the pairs that count if one of them is best at marked costs too, where
/// the pairs to keep are those that it has not. If all pairs count, it is the only best one.
pub fn marks_mean_the_same()
    ensures { MarksMeanSame }
{}
