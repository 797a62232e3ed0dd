// The matching after a search.
ghost use Rattle.hungarian.specs.inside.Stored.{FlipsTo, IsFlippable};

use cost_lists::{Object, Person};

// Flips the path to an unowned object: each object of it goes to the person before it.
pub fn augment(
    owners: &mut [Person],
    objects: &mut [Object],
    predecessors: &[Person],
    ranks: &[u32],
    end: Object,
)
    requires { IsFlippable owners.old objects.old predecessors.now ranks.now end }
    ensures { FlipsTo owners.old objects.old predecessors.now ranks.now end owners.new objects.new }
{
    let mut object = end;
    while object != 0 {
        let person = predecessors[object as usize];
        let next = objects[person as usize];
        objects[person as usize] = object;
        owners[object as usize] = person;
        object = next;
    }
}
