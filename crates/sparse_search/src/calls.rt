// The call of a search.
ghost use Rattle.std.specs.Prelude.{◌≡◌, length};

use super::components::Components;
use super::matching::hall_set;
use super::outcome::Outcome;
use super::problem::SparseProblem;
use super::record::{Record, Stage};
use super::rivals::first_rivals;
use super::stages::{Run, RunEnd, first_without_pairs};
use std::alloc::{AllocError, Global};

// What a call reads and writes.
#[derive(Drop)]
struct Told<'b> {
    prices: &'b mut [i64],
    objects: &'b mut [u32],
    record: &'b mut Record,
}

impl<'b> Told<'b> {
    fn begin<'a>(
        &self,
        alloc: Global,
        problem: SparseProblem<'a>,
        limit: u64,
    ) -> Result<Run<'a>, AllocError> {
        Run::begin(
            alloc,
            problem,
            self.prices,
            self.objects,
            *self.record,
            limit,
        )
    }

    // Writes where a run stands.
    fn write(&mut self, run: &Run<'_>) {
        for (price, found) in self.prices.iter_mut().zip(&run.market.prices) {
            *price = *found;
        }
        for (object, found) in self.objects.iter_mut().zip(&run.market.objects) {
            *object = *found;
        }
        *self.record = run.record;
    }
}

// Solves without the pairs that lie in no assignment, and lifts the prices over the components.
fn search_components(
    alloc: Global,
    problem: SparseProblem<'_>,
    components: &Components,
    told: &mut Told<'_>,
) -> Result<Outcome, AllocError> {
    let kept = components.kept_pairs(alloc, problem)?;
    let reduced = SparseProblem {
        starts: kept.starts.as_slice(),
        pairs: kept.pairs.as_slice(),
        objects: problem.objects,
    };
    let mut run = told.begin(alloc, reduced, u64::MAX)?;
    match run.run()? {
        RunEnd::Best => {
            components.lift_prices(alloc, problem, &mut run.market)?;
            told.write(&run);
            Ok(Outcome::Best)
        }
        _ => Ok(Outcome::Lost),
    }
}

fn search_whole(
    alloc: Global,
    problem: SparseProblem<'_>,
    told: &mut Told<'_>,
    limit: u64,
) -> Result<Outcome, AllocError> {
    let mut run = told.begin(alloc, problem, limit)?;
    let end = run.run()?;
    told.write(&run);
    match end {
        RunEnd::Best => Ok(Outcome::Best),
        RunEnd::Stopped => Ok(Outcome::Stopped),
        RunEnd::Lost => Ok(Outcome::Lost),
        RunEnd::Hall(persons) => Ok(Outcome::Hall(hall_set(alloc, problem, persons.as_slice())?)),
        RunEnd::Drops(components) => {
            told.record.stage = Stage::Cold;
            search_components(alloc, problem, &components, told)
        }
    }
}

/// Searches for exact prices and a plan, or for a Hall set, and stops after about `budget` arc scans at
/// pairs (0: it doesn't). A call reads and writes a price for each object and an object for each
/// person. At `Best` prices are whole numbers in the unit of the costs, none below 0, and 0 where
/// nobody owns the object. At `Stopped` they are those from which the next call goes on, with the
/// record.
pub fn search(
    alloc: Global,
    problem: SparseProblem<'_>,
    prices: &mut [i64],
    objects: &mut [u32],
    record: &mut Record,
    budget: u64,
) -> Result<Outcome, AllocError>
    ensures prices { length prices.new ≡ length prices.old }
    ensures objects { length objects.new ≡ length objects.old }
{
    if prices.len() != problem.objects || objects.len() != problem.persons() {
        return Ok(Outcome::Lost);
    }
    if let Some(person) = first_without_pairs(problem) {
        return Ok(Outcome::Hall(hall_set(alloc, problem, &[person])?));
    }
    if let Some(rivals) = first_rivals(alloc, problem)? {
        return Ok(Outcome::Hall(hall_set(alloc, problem, &rivals)?));
    }
    let limit = if budget == 0 {
        u64::MAX
    } else {
        record.arc_scans.saturating_add(budget)
    };
    let mut told = Told {
        prices,
        objects,
        record,
    };
    search_whole(alloc, problem, &mut told, limit)
}
