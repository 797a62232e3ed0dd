// Marks for the checkers.
ghost use Rattle.std.specs.Prelude.{◌≡◌, IfOk, length};

use std::alloc::{AllocError, Global};

/// This many marks.
pub fn marks(alloc: Global, count: u32) -> Result<Vec<bool>, AllocError>
    ensures { IfOk result (λ marks. length marks.items ≡ count) }
{
    vec![in alloc; false; count as usize]
}
