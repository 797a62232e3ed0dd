// Numbers into a caller's buffers.
ghost use Rattle.std.specs.Prelude.{◌≡◌, ◌≤◌, ◌++◌, drop, length};

use cost_lists::{Object, Person};
use list_solver::HallSet;

// Writes numbers at the beginning of a buffer.
fn put_front(buffer: &mut [u32], numbers: &[u32])
    requires { length numbers.now ≤ length buffer.old }
    ensures { buffer.new ≡ numbers.now ++ drop (length numbers.now) buffer.old }
{
    let (front, _) = buffer.split_at_mut(numbers.len());
    front.copy_from_slice(numbers);
}

/// Writes a Hall set at the beginning of two buffers.
pub fn put_hall(objects: &mut [Object], persons: &mut [Person], set: &HallSet)
    requires objects { length set.now.objects.items ≤ length objects.old }
    requires persons { length set.now.persons.items ≤ length persons.old }
    ensures objects { objects.new
        ≡ set.now.objects.items ++ drop (length set.now.objects.items) objects.old }
    ensures persons { persons.new
        ≡ set.now.persons.items ++ drop (length set.now.persons.items) persons.old }
{
    put_front(objects, set.objects.as_slice());
    put_front(persons, set.persons.as_slice());
}
