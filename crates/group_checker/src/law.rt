// Laws on the groups of an optimal assignment.
ghost use Rattle.group_checker.specs.Groups.{GroupsAreKept, GroupsMeanChanges};

/// In each optimal assignment a person has an object that is as good for it as its own one, in the
/// same group: the numbers of the objects fall from the own ones to the others, and their sums
/// don't.
pub fn groups_are_kept()
    ensures { GroupsAreKept }
{}

/// A person may have an object in some optimal assignment exactly where the object is as good for it
/// as its own one and in the same group: the persons along a path back to the own object move on.
pub fn groups_mean_changes()
    ensures { GroupsMeanChanges }
{}
