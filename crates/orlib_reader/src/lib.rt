//! Reads assignment problems from Beasley's OR-Library dense layout (J. E. Beasley, OR-Library:
//! distributing test problems by electronic mail, 1990), and from a sparse layout. Costs are whole
//! numbers, and a text has at most 2^30 bytes.
#![tactic(auto)]

ghost use Rattle.std.specs.Prelude.{◌≡◌, ◌^◌, [], Ok, IfSome};
ghost use Rattle.orlib_reader.specs.Texts.{Answers, Meets, SparseAnswers, dense_reading, sparse_reading};
ghost use Rattle.orlib_reader.specs.inside.Steps.{after, start, finished};
ghost use Rattle.orlib_reader.specs.inside.Held.{layout_in, found_in};

mod dense;
mod fault;
mod layout;
mod machine;
mod pairs;
mod sparse;
mod token;

use assign_core::Problem;
pub use fault::InputFault;
use layout::Layout;
use machine::Machine;
pub use machine::TEXT_LIMIT;
use pairs::Pairs;
use std::alloc::Global;
use std::io::Read;

// The problem of a text, read block by block. Each turn takes at least one byte, so the turns
// suffice for every text within the limit.
fn read_all<R: Read>(pairs: Pairs, r: &mut R) -> Result<Problem, InputFault>
    requires { found_in pairs ≡ [] }
    ensures { IfSome (R.remaining r.old) (λ bytes.
        Meets (layout_in pairs) result (finished (after (Ok (start (layout_in pairs))) bytes))) }
{
    let mut machine = Machine::new(pairs);
    let mut buffer = [0u8; 65536];
    for _ in 0..TEXT_LIMIT + 1 {
        let count = r.read(&mut buffer)?;
        if count == 0 {
            return machine.finish();
        }
        machine.feed_all(&buffer[..count])?;
    }
    Err(InputFault::TooLong)
}

/// The greatest number of bytes of a text.
pub fn text_limit()
    ensures { TEXT_LIMIT ≡ 2 ^ 30 }
{}

/// Reads a dense text: n from 1 to 8192, and then for each person the n costs to objects 1, 2, ..;
/// the absolute value of a cost is at most 10^12. It reads in pieces of any size, holds 16 bytes a
/// pair, and takes time linear in the text's bytes.
///
/// # Errors
/// The first fault in the order of the text's bytes; `Read` if the reader fails or is interrupted;
/// `Memory` if memory is refused. The reader stays where the reading stopped.
///
/// # Example
/// The body of `calling::proves_best`:
/// ```
/// let problem = read_dense(alloc, r)?;
/// let verdict = check(alloc, &problem, Sense::Min, objects, prices)?;
/// Ok(verdict == Verdict::Yes)
/// ```
pub fn read_dense<R: Read>(alloc: Global, r: &mut R) -> Result<Problem, InputFault>
    ensures { IfSome (R.remaining r.old) (λ bytes. Answers result (dense_reading bytes)) }
{
    read_all(Pairs::Nothing(alloc, Layout::Dense), r)
}

/// Reads a sparse text: n from 1 to 8192, and then triples of a person, an object and a cost. If a
/// pair is given several times, its least cost counts. While reading, it holds 16 bytes a triple;
/// `Problem::sparse` then makes the problem, and adds its time to the linear time of reading.
///
/// # Errors
/// As for `read_dense`; `Index` if a person or an object isn't from 1 to n.
///
/// # Example
/// The body of `calling::proves_infeasible`:
/// ```
/// let problem = read_sparse(alloc, r)?;
/// let verdict = check_hall(alloc, &problem, persons, objects)?;
/// Ok(verdict == HallVerdict::Yes)
/// ```
pub fn read_sparse<R: Read>(alloc: Global, r: &mut R) -> Result<Problem, InputFault>
    ensures { IfSome (R.remaining r.old) (λ bytes. SparseAnswers result (sparse_reading bytes)) }
{
    read_all(Pairs::Nothing(alloc, Layout::Sparse), r)
}
