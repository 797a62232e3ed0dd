// Laws on the best assignments.
ghost use Rattle.plan_checker.specs.Ranks.{RanksMeanAlone, RanksMeanKept, RanksMeanNext, RanksMeanOnly};

/// If the objects of an optimal assignment have strict ranks below a bound, each other assignment
/// costs at least so much more: a cheaper one has pairs alone that each list of prices leaves open,
/// whose ranks rise, and rising ranks don't have the same sum.
pub fn ranks_mean_next()
    ensures { RanksMeanNext }
{}

/// If the objects of an optimal assignment have strict ranks below each bound, there is no other assignment.
pub fn ranks_mean_alone()
    ensures { RanksMeanAlone }
{}

/// An optimal assignment is the only one if its objects have strict ranks below 1.
pub fn ranks_mean_only()
    ensures { RanksMeanOnly }
{}

/// If the objects of an optimal assignment have ranks, each person has an object of the same rank in each
/// optimal assignment.
pub fn ranks_mean_kept()
    ensures { RanksMeanKept }
{}
