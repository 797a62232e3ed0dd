// Rows of costs: their least ones, and the pairs up to a threshold.
use super::lists::Listed;
use assign_core::{Cost, Sense};
use search_base::place_at;
use sparse_search::Pair;
use std::alloc::{AllocError, Global};

/// Costs row by row, of `objects` objects.
#[derive(Clone, Copy)]
pub struct Rows<'a> {
    pub costs: &'a [Cost],
    pub objects: usize,
    /// 0, or -1 where great costs are wanted.
    pub flip: Cost,
}

// So many costs of a row are looked at together.
const TOGETHER: usize = 8;

// A cost so that less is better, if the flip is -1 where great ones are wanted.
#[inline(always)]
pub fn turned(cost: Cost, flip: Cost) -> Cost {
    (cost ^ flip).wrapping_sub(flip)
}

// The least cost of a row. Lowers the least costs of the objects.
fn lower_by(row: &[Cost], flip: Cost, least: &mut [Cost]) -> Cost {
    let mut best = Cost::MAX;
    for (cost, object_least) in row.iter().zip(least.iter_mut()) {
        let value = turned(*cost, flip);
        best = best.min(value);
        *object_least = value.min(*object_least);
    }
    best
}

#[inline(always)]
fn is_any_up_to(costs: &[Cost], flip: Cost, most: Cost) -> bool {
    let (mut is_any, flipped) = (false, most.wrapping_add(flip));
    for cost in costs {
        is_any = ((cost ^ flip) <= flipped) | is_any;
    }
    is_any
}

/// Whether any cost is below the number at its place.
#[inline(always)]
pub fn is_any_below(costs: &[Cost], flip: Cost, numbers: &[Cost]) -> bool {
    let mut is_any = false;
    for (cost, number) in costs.iter().zip(numbers.iter()) {
        is_any = (turned(*cost, flip) < *number) | is_any;
    }
    is_any
}

// Adds the pairs up to a threshold among some costs, of which the first is that of an object.
fn add_pairs(
    pairs: &mut Vec<Pair>,
    costs: &[Cost],
    flip: Cost,
    most: Cost,
    first: usize,
) -> Result<(), AllocError> {
    for (place, cost) in costs.iter().enumerate() {
        let value = turned(*cost, flip);
        if value <= most {
            pairs.push(Pair {
                object: place_at(first.wrapping_add(place)),
                cost: value,
            })?;
        }
    }
    Ok(())
}

// Adds the pairs up to a threshold of a part of a row, until there are so many pairs.
fn add_part(
    pairs: &mut Vec<Pair>,
    part: &[Cost],
    flip: Cost,
    most: Cost,
    first: usize,
    end: usize,
) -> Result<(), AllocError> {
    let mut rest = part;
    let mut object = first;
    for _ in 0..part.len() {
        if rest.is_empty() || pairs.len() >= end {
            return Ok(());
        }
        let (some, others) = rest.split_at(TOGETHER.min(rest.len()));
        if is_any_up_to(some, flip, most) {
            add_pairs(pairs, some, flip, most, object)?;
        }
        object = object.wrapping_add(some.len());
        rest = others;
    }
    Ok(())
}

// Adds pairs of a row as its part from a place on has them, and then the part before.
fn add_turning(
    pairs: &mut Vec<Pair>,
    row: &[Cost],
    flip: Cost,
    most: Cost,
    from: usize,
    limit: usize,
) -> Result<(), AllocError> {
    let at = from.min(row.len());
    let end = pairs.len().saturating_add(limit);
    let (before, after) = row.split_at(at);
    add_part(pairs, after, flip, most, at, end)?;
    add_part(pairs, before, flip, most, 0, end)
}

impl<'a> Rows<'a> {
    pub fn new(sense: Sense, costs: &'a [Cost], objects: usize) -> Rows<'a> {
        let flip = match sense {
            Sense::Min => 0,
            Sense::Max => -1,
        };
        Rows {
            costs,
            objects,
            flip,
        }
    }

    /// A person's costs; none for a place without a person.
    pub fn row(self, person: u32) -> &'a [Cost] {
        let from = (person as usize).wrapping_mul(self.objects);
        let to = from.wrapping_add(self.objects);
        self.costs.get(from..to).unwrap_or(&[])
    }

    /// The turned cost at a place among all.
    pub fn cost(self, place: usize) -> Cost {
        turned(self.costs.get(place).copied().unwrap_or(0), self.flip)
    }

    /// The least cost of each person, and of each object.
    pub fn least_costs(
        self,
        alloc: Global,
        persons: usize,
    ) -> Result<(Vec<Cost>, Vec<Cost>), AllocError> {
        let mut of_persons = Vec::new(alloc);
        let mut of_objects = vec![in alloc; Cost::MAX; self.objects]?;
        let mut rest = self.costs;
        for _ in 0..persons {
            let (row, others) = rest.split_at(self.objects.min(rest.len()));
            rest = others;
            of_persons.push(lower_by(row, self.flip, of_objects.as_mut_slice()))?;
        }
        Ok((of_persons, of_objects))
    }

    /// The pairs up to a threshold, about `limit` of a row at most. Where there is a limit, rows begin
    /// at different objects, so that they don't all have the same ones.
    pub fn up_to(
        self,
        alloc: Global,
        persons: usize,
        most: Cost,
        limit: usize,
    ) -> Result<Listed, AllocError> {
        let mut listed = Listed::new(alloc, self.objects);
        let mut rest = self.costs;
        for person in 0..persons {
            let (row, others) = rest.split_at(self.objects.min(rest.len()));
            rest = others;
            let from = if limit == usize::MAX {
                0
            } else {
                person
                    .wrapping_mul(self.objects)
                    .checked_div(persons)
                    .unwrap_or(0)
            };
            listed.begin_row()?;
            add_turning(&mut listed.pairs, row, self.flip, most, from, limit)?;
        }
        listed.begin_row()?;
        Ok(listed)
    }
}
