// The costs of persons' own objects.
ghost use Rattle.std.specs.Prelude.{◌≡◌, ◌<◌, ◌≤◌, ◌+◌, ◌-◌, ◌*◌, ℕ, pos, length, replicate, slice_index, slice_index_or, slice_set, All, IfOk};
ghost use Rattle.std.specs.Int.{int_min};
ghost use Rattle.assign_core.specs.Numbered.{IsNumber};
ghost use Rattle.assign_core.specs.Rows.{IsCost, listed_in, row_of};
ghost use Rattle.assign_core.specs.Dense.{row_from, rows_cut};
ghost use Rattle.cost_lists.specs.Given.{best_given};
ghost use Rattle.cost_lists.specs.Source.{AreCosts, IsGiven, rows_in, triples_in};
ghost use Rattle.cost_lists.specs.Own.{AreOwnCosts, minimised, turned_or_unlisted};
ghost use Rattle.cost_lists.specs.Source.{part_of};

use super::lists::CostLists;
use super::numbers::{Object, UNLISTED};
use super::source::{Pairs, Source};
use assign_core::{Cost, Sense};
use std::alloc::{AllocError, Global};

/// The cost as one to minimise: negated under `Max`.
pub fn to_minimise(sense: Sense, cost: Cost) -> Cost
    requires { IsCost cost }
    ensures { result ≡ minimised sense cost }
{
    match sense {
        Sense::Min => cost,
        Sense::Max => -cost,
    }
}

/// The costs of the person at a place, from 0, among those of all persons to `m` objects.
pub fn part(costs: &[Cost], place: usize, m: usize) -> &[Cost]
    requires { (place + 1) * m ≤ length costs.now }
    ensures { result.now ≡ part_of m place costs.now }
{
    let (_, rest) = costs.split_at(place * m);
    let (row, _) = rest.split_at(m);
    row
}

// A person's own cost in a row of costs, turned.
fn own_of_row(sense: Sense, row: &[Cost], object: Object) -> Cost
    requires { All IsCost row.now }
    ensures { result ≡ turned_or_unlisted sense (listed_in (row_from 1 row.now) object) }
{
    if object == 0 || object as usize > row.len() {
        return UNLISTED;
    }
    to_minimise(sense, row[object as usize - 1])
}

// Sets each person's own cost, of all costs of `n` persons and `m` objects.
fn set_of_rows(own: &mut [Cost], sense: Sense, m: usize, costs: &[Cost], objects: &[Object])
    requires long { length objects.now ≡ length own.old }
    requires costs { AreCosts (length own.old) m costs.now }
    ensures { (i : ℕ) → i < length own.new → slice_index_or own.new i (pos 0)
        ≡ turned_or_unlisted sense (listed_in
        (row_of (rows_cut m (length own.old) costs.now) (i + 1)) (slice_index objects.now i)) }
{
    for i in 0..own.len() {
        own[i] = own_of_row(sense, part(costs, i, m), objects[i]);
    }
}

// Lowers the cost at a place to a cost, if that is less.
fn lower(own: &mut [Cost], place: usize, cost: Cost)
    requires { place < length own.old }
    ensures { own.new ≡ slice_set own.old place
        (int_min (slice_index_or own.old place (pos 0)) cost) }
{
    own[place] = own[place].min(cost);
}

// Sets each person's own cost, of listed pairs. The costs are marks at first.
fn set_of_pairs(own: &mut [Cost], sense: Sense, pairs: Pairs<'_>, objects: &[Object])
    requires mark { own.old ≡ replicate (length own.old) UNLISTED }
    requires long { length objects.now ≡ length own.old }
    requires objects_long { length pairs.objects.now ≡ length pairs.persons.now }
    requires costs_long { length pairs.costs.now ≡ length pairs.persons.now }
    requires persons { All (IsNumber (length own.old)) pairs.persons.now }
    requires costs { All IsCost pairs.costs.now }
    ensures { (i : ℕ) → i < length own.new → slice_index_or own.new i (pos 0)
        ≡ turned_or_unlisted sense
        (best_given sense (triples_in pairs.entry) (i + 1) (slice_index objects.now i)) }
{
    for k in 0..pairs.persons.len() {
        let place = pairs.persons[k] as usize - 1;
        if pairs.objects[k] == objects[place] {
            lower(own, place, to_minimise(sense, pairs.costs[k]));
        }
    }
}

// Sets each person's own cost. The costs are marks at first.
fn set_own(own: &mut [Cost], sense: Sense, m: Object, source: Source<'_>, objects: &[Object])
    requires mark { own.old ≡ replicate (length own.old) UNLISTED }
    requires given { IsGiven (length own.old) m source }
    requires long { length objects.now ≡ length own.old }
    ensures { AreOwnCosts sense (rows_in sense (length own.old) m source.entry) objects.now own.new }
{
    match source {
        Source::Dense(costs) => set_of_rows(own, sense, m as usize, costs, objects),
        Source::Listed(pairs) => set_of_pairs(own, sense, pairs, objects),
    }
}

impl<'a> CostLists<'a> {
    /// For each person the cost of its own object, turned so that less is better, or `UNLISTED`.
    /// The objects may be any numbers.
    ///
    /// The time is linear in the persons, and in the listed pairs.
    ///
    /// # Errors
    /// `AllocError` if memory is refused.
    pub fn own_costs(&self, alloc: Global, objects: &[Object]) -> Result<Vec<Cost>, AllocError>
        requires { length objects.now ≡ length self.now.rows }
        ensures { IfOk result
            (λ own. AreOwnCosts self.now.sense self.now.rows objects.now own.items) }
    {
        let (n, m) = (self.persons() as usize, self.objects());
        let mut own: Vec<Cost> = vec![in alloc; UNLISTED; n]?;
        set_own(own.as_mut_slice(), self.sense(), m, self.source(), objects);
        Ok(own)
    }
}
