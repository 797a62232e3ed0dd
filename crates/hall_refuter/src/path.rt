// An alternating path, traced back from its end.
ghost use Rattle.std.specs.Prelude.{◌≡◌, ℕ, ◌<◌, List, ◌∷◌, reverse, IfOk, length};
ghost use Rattle.hall_refuter.specs.inside.Found.{Climbs, IsClimbable};

use super::reach::Found;
use assign_core::Object;
use std::alloc::{AllocError, Global};

// The objects on the way from the first person to the person found at place `last`, followed by one
// more object.
pub fn path_to(
    alloc: Global,
    found: &[Found],
    last: usize,
    object: Object,
) -> Result<Vec<Object>, AllocError>
    requires last { last < length found.now }
    requires climbable { IsClimbable found.now }
    ensures { IfOk result (λ path. (js : List ℕ) × Climbs found.now last js
        × (path.items ≡ reverse (object ∷ js))) }
{
    let mut objects = Vec::new(alloc);
    objects.push(object)?;
    let mut at = last;
    while let Some(arrival) = found[at].arrival {
        objects.push(arrival.object)?;
        at = arrival.parent;
    }
    objects.reverse();
    Ok(objects)
}
