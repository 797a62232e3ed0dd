// Whether lists of persons and objects are in range and rise.
ghost use Rattle.std.specs.Prelude.{◌↔◌, IsTrue};
ghost use Rattle.dual_checker.specs.HallVerdicts.{AreInRange, AreRising};

use cost_lists::{CostLists, Object, Person, are_within, rises};

// Whether all numbers are those of persons and objects.
pub fn are_in_range(lists: &CostLists<'_>, persons: &[Person], objects: &[Object]) -> bool
    ensures { IsTrue result ↔ AreInRange lists.now.m lists.now.rows persons.now objects.now }
{
    are_within(lists.persons(), persons) && are_within(lists.objects(), objects)
}

// Whether both lists strictly rise.
pub fn are_rising(persons: &[Person], objects: &[Object]) -> bool
    ensures { IsTrue result ↔ AreRising persons.now objects.now }
{
    rises(persons) && rises(objects)
}
