// Problems of texts in either layout.
use assign_core::Problem;
use orlib_reader::{InputFault, read_dense, read_sparse};
use std::alloc::Global;
use test_helpers::whole_text;

/// The problem of a sparse text or of a dense one.
pub fn problem_in(alloc: Global, text: &[u8], sparse: bool) -> Result<Problem, InputFault> {
    let mut reader = whole_text(text, 64);
    if sparse {
        read_sparse(alloc, &mut reader)
    } else {
        read_dense(alloc, &mut reader)
    }
}
