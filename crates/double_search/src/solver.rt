// The search.
ghost use Rattle.std.specs.Prelude.{◌≡◌, length};

use super::block::{cut, lists_in, room_of};
use super::hall::{HallSet, all_persons, as_number, hall_set_of};
use super::limits::Limits;
use super::lists::{Lists, Matrix, at, place_of};
use super::paths::Path;
use super::range::{Range, sign_of};
use super::rows::{CheapRows, Doubles, Rows};
use super::scale::Scale;
use super::whole::{to_prices, to_whole};
use assign_core::Sense;
use std::alloc::{AllocError, Global};

// Costs so many times as great as those that a plan will need are cut, for a finer unit.
const CUT_FROM: f64 = 64.0;

const CUT_TO: f64 = 32.0;

/// Dense costs, row by row: an infinite one forbids its pair.
#[derive(Clone, Copy)]
pub struct Problem<'a> {
    pub sense: Sense,
    pub persons: usize,
    pub objects: usize,
    pub costs: &'a [f64],
}

/// How a search ends. A checker has to decide about what it found.
#[derive(Drop)]
pub enum Ended {
    /// With a plan and prices, and the margin by which other pairs of a person may be worse.
    Plan(f64),
    /// With persons who list fewer objects than they are.
    Hall(HallSet),
    /// With nothing.
    Lost,
}

// An earlier plan and its prices.
#[derive(Clone, Copy)]
struct Begin<'a> {
    objects: &'a [u32],
    prices: &'a [f64],
}

impl<'a> Begin<'a> {
    fn of(has_plan: bool, objects: &'a [u32], prices: &'a [f64]) -> Option<Begin<'a>> {
        has_plan.then_some(Begin { objects, prices })
    }
}

impl<'a> Problem<'a> {
    pub fn sign(self) -> f64 {
        sign_of(self.sense)
    }

    fn full_scale(self, range: Range) -> Scale {
        Scale::of(range.size(), range, self.sign())
    }

    // By the size of the costs that a plan will need, where most are far greater; else by all.
    fn scale(self, range: Range) -> Scale {
        let near = range.near_size();
        if near > 0.0 && range.size() > CUT_FROM * near {
            Scale::of(CUT_TO * near, range, self.sign())
        } else {
            self.full_scale(range)
        }
    }

    // All pairs in whole numbers, in this room.
    pub fn listed<'b>(self, room: &'b mut [i64], scale: Scale) -> Rows<'b> {
        to_whole(self.costs, room, scale.form);
        Rows::Listed(Matrix {
            m: self.objects,
            costs: room,
        })
    }

    // All pairs in doubles, and room for a row.
    pub fn made<'b>(self, row: &'b mut [i64], scale: Scale) -> Doubles<'b>
    where
        'a: 'b,
    {
        Doubles {
            costs: self.costs,
            row,
            scale,
        }
    }

    // Whether a person has an object whose cost was cut.
    fn has_cut(self, lists: &Lists<'_>, scale: Scale) -> bool {
        for (person, place) in lists.objects.iter().enumerate() {
            let pair = person
                .wrapping_mul(self.objects)
                .wrapping_add(place_of(*place));
            let cost = self.costs.get(pair).copied().unwrap_or(0.0);
            if scale.form.whole_of(cost) >= scale.far() {
                return true;
            }
        }
        false
    }
}

fn write(lists: &Lists<'_>, scale: Scale, objects: &mut [u32], prices: &mut [f64]) {
    for (object, place) in objects.iter_mut().zip(lists.objects.iter()) {
        *object = as_number(place_of(*place));
    }
    to_prices(lists.duals, prices, scale);
}

impl<'a> Lists<'a> {
    // The plan and the duals of an earlier search.
    fn enter_plan(&mut self, scale: Scale, begin: Begin<'_>) {
        self.enter(begin.objects);
        scale.form.to_duals(begin.prices, self.duals);
    }

    // A search from a plan: over the doubles where few persons have no object, else over whole
    // numbers of all pairs.
    fn search_from_plan(
        &mut self,
        alloc: Global,
        problem: Problem<'_>,
        row: &mut [i64],
        scale: Scale,
        begin: Begin<'_>,
    ) -> Result<Path, AllocError> {
        self.enter_plan(scale, begin);
        if let Some(path) = self.search_few(&mut Rows::Made(problem.made(row, scale)), scale) {
            return Ok(path);
        }
        self.enter_plan(scale, begin);
        let mut room = vec![in alloc; 0i64; problem.costs.len()]?;
        let mut rows = problem.listed(room.as_mut_slice(), scale);
        Ok(self.search_warm(&mut rows, scale))
    }

    // A search over cheap pairs, where few pairs are cheap. Returns whether it found a plan.
    fn search_cheap(
        &mut self,
        alloc: Global,
        problem: Problem<'_>,
        limits: &Limits,
        row: &mut [i64],
        scale: Scale,
    ) -> Result<bool, AllocError> {
        let Some(cheap) = limits.cheap_pairs(alloc, problem, scale)? else {
            return Ok(false);
        };
        let doubles = problem.made(row, scale);
        let cheap = &cheap;
        let mut rows = Rows::Cheap(CheapRows { cheap, doubles });
        Ok(self.search_cold(&mut rows, scale, usize::MAX) == Path::Found)
    }

    // A search of persons and objects in order. Returns whether they have one.
    fn search_in_order(
        &mut self,
        alloc: Global,
        problem: Problem<'_>,
        scale: Scale,
    ) -> Result<bool, AllocError> {
        let mut room = vec![in alloc; 0i64; problem.costs.len()]?;
        let mut rows = problem.listed(room.as_mut_slice(), scale);
        if !self.begin_in_order(alloc, &mut rows)? {
            return Ok(false);
        }
        let path = self.augment_all(&mut rows, usize::MAX);
        Ok(self.with_margin(&mut rows, scale, path) == Path::Found)
    }

    // A search from nothing over all pairs, in fewer bits first where that is faster.
    fn search_all(
        &mut self,
        alloc: Global,
        problem: Problem<'_>,
        row: &mut [i64],
        scale: Scale,
    ) -> Result<Path, AllocError> {
        let mut memory = vec![in alloc; 0i64; problem.costs.len()]?;
        let room = memory.as_mut_slice();
        if !problem.is_dense() {
            let mut rows = problem.listed(room, scale);
            let path = self.search_cold(&mut rows, scale, problem.most_scans());
            if path != Path::Long {
                return Ok(path);
            }
        }
        self.search_dense(alloc, problem, room, row, scale)
    }

    // A search in this unit, from a plan, if there is one: over few pairs where that is enough.
    fn search_in(
        &mut self,
        alloc: Global,
        problem: Problem<'_>,
        limits: &Limits,
        row: &mut [i64],
        scale: Scale,
        begin: Option<Begin<'_>>,
    ) -> Result<Path, AllocError> {
        if let Some(begin) = begin {
            return self.search_from_plan(alloc, problem, row, scale, begin);
        }
        if self.search_cheap(alloc, problem, limits, row, scale)? {
            return Ok(Path::Found);
        }
        self.search_all(alloc, problem, row, scale)
    }

    // A search, with the unit of its duals: in that of all costs unless a plan needs lesser ones.
    fn search(
        &mut self,
        alloc: Global,
        problem: Problem<'_>,
        limits: &Limits,
        row: &mut [i64],
        begin: Option<Begin<'_>>,
    ) -> Result<(Path, Scale), AllocError> {
        let full = problem.full_scale(limits.range);
        let may_sort = begin.is_none() && problem.is_ordered(limits.range.size());
        if may_sort && self.search_in_order(alloc, problem, full)? {
            return Ok((Path::Found, full));
        }
        let scale = problem.scale(limits.range);
        let path = self.search_in(alloc, problem, limits, row, scale, begin)?;
        if path != Path::Found || !scale.is_cut || !problem.has_cut(self, scale) {
            return Ok((path, scale));
        }
        let path = self.search_in(alloc, problem, limits, row, full, begin)?;
        Ok((path, full))
    }
}

fn search_by(
    alloc: Global,
    problem: Problem<'_>,
    has_plan: bool,
    objects: &mut [u32],
    prices: &mut [f64],
) -> Result<Ended, AllocError>
    ensures objects { length objects.new ≡ length objects.old }
    ensures prices { length prices.new ≡ length prices.old }
{
    if problem.persons > problem.objects {
        return Ok(Ended::Hall(all_persons(alloc, problem)?));
    }
    let limits = Limits::of(alloc, problem)?;
    let (n, m) = (problem.persons, problem.objects);
    let mut memory = vec![in alloc; 0i64; m.saturating_add(room_of(n, m))]?;
    let (row, block) = cut(memory.as_mut_slice(), m);
    let mut lists = lists_in(n, m, block);
    let begin = Begin::of(has_plan, objects, prices);
    let (path, scale) = lists.search(alloc, problem, &limits, row, begin)?;
    match path {
        Path::Found => {
            write(&lists, scale, objects, prices);
            Ok(Ended::Plan(limits.range.margin()))
        }
        Path::None(turns) => Ok(Ended::Hall(hall_set_of(alloc, &lists, turns)?)),
        Path::Long | Path::Lost => Ok(Ended::Lost),
    }
}

/// Searches for a best plan and prices, or for a Hall set. Prices are those at which each person's
/// own object is a best one: the least sum of cost and price, under `Sense::Max` the greatest
/// difference. What they are where the search ends otherwise is left open.
///
/// # Errors
/// `AllocError` if memory is refused.
pub fn search(
    alloc: Global,
    problem: Problem<'_>,
    objects: &mut [u32],
    prices: &mut [f64],
) -> Result<Ended, AllocError>
    ensures objects { length objects.new ≡ length objects.old }
    ensures prices { length prices.new ≡ length prices.old }
{
    match problem.solve_small(objects, prices) {
        Some(margin) => Ok(Ended::Plan(margin)),
        None => search_by(alloc, problem, false, objects, prices),
    }
}

/// The same from an earlier plan and its prices. Persons with object 0, and those who have a better
/// object at these prices, get one by a shortest path each.
///
/// # Errors
/// `AllocError` if memory is refused.
pub fn search_from(
    alloc: Global,
    problem: Problem<'_>,
    objects: &mut [u32],
    prices: &mut [f64],
) -> Result<Ended, AllocError>
    ensures objects { length objects.new ≡ length objects.old }
    ensures prices { length prices.new ≡ length prices.old }
{
    search_by(alloc, problem, true, objects, prices)
}
