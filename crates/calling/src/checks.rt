// Answers of any origin, checked against a problem that is read.
ghost use Rattle.std.specs.Prelude.{◌↔◌, ℕ, List, IfOk, IfSome, IsTrue};
ghost use Rattle.assign_core.specs.Assignment.{IsAssignment, IsBest};
ghost use Rattle.assign_core.specs.Hall.{IsHallSet};
ghost use Rattle.assign_core.specs.Slackness.{IsCertificate};
ghost use Rattle.calling.specs.Texts.{IsOfDense, IsOfSparse};

use assign_core::{Object, Person, Price, Sense};
use dual_checker::{HallVerdict, Verdict, check, check_hall};
use orlib_reader::{InputFault, read_dense, read_sparse};
use std::alloc::Global;
use std::io::Read;

/// Whether these prices prove these objects of persons 1, 2, .. an optimal assignment of the
/// problem in a dense text.
///
/// # Errors
/// Those of `read_dense`.
pub fn proves_best<R: Read>(
    alloc: Global,
    r: &mut R,
    objects: &[Object],
    prices: &[Price],
) -> Result<bool, InputFault>
    ensures yes { IfOk result (λ yes. IfSome (R.remaining r.old) (λ bytes. IsOfDense bytes
        (λ rows. IsTrue yes ↔ IsCertificate Sense.Min rows objects.now prices.now))) }
    ensures best { IfOk result (λ yes. IsTrue yes → IfSome (R.remaining r.old)
        (λ bytes. IsOfDense bytes (λ rows. IsBest Sense.Min rows objects.now))) }
{
    let problem = read_dense(alloc, r)?;
    let verdict = check(alloc, &problem, Sense::Min, objects, prices)?;
    Ok(verdict == Verdict::Yes)
}

/// Whether these persons and objects prove that the problem in a sparse text has no assignment.
///
/// # Errors
/// Those of `read_sparse`.
pub fn proves_infeasible<R: Read>(
    alloc: Global,
    r: &mut R,
    persons: &[Person],
    objects: &[Object],
) -> Result<bool, InputFault>
    ensures yes { IfOk result (λ yes. IfSome (R.remaining r.old) (λ bytes. IsOfSparse bytes
        (λ rows. IsTrue yes ↔ IsHallSet rows persons.now objects.now))) }
    ensures none { IfOk result (λ yes. IsTrue yes → IfSome (R.remaining r.old) (λ bytes.
        IsOfSparse bytes (λ rows. (xs : List ℕ) → IsAssignment rows xs → ⊥))) }
{
    let problem = read_sparse(alloc, r)?;
    let verdict = check_hall(alloc, &problem, persons, objects)?;
    Ok(verdict == HallVerdict::Yes)
}
