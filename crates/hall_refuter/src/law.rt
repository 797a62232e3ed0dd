// Laws of searches.
ghost use Rattle.std.specs.Prelude.{◌≡◌, ℕ, List, Option};
ghost use Rattle.assign_core.specs.Rows.{Listing};
ghost use Rattle.assign_core.specs.Hall.{HallLists};
ghost use Rattle.hall_refuter.specs.Search.{IsRefuted};

/// A person has at most one refutation under a matching: the Hall set of all persons that it
/// reaches.
pub fn refutation_is_determined()
    ensures { (rows : List Listing) (owners : List (Option ℕ)) (person : ℕ) (first second : HallLists)
        → IsRefuted rows owners person first → IsRefuted rows owners person second
        → first ≡ second }
{}
