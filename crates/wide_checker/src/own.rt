// The costs of persons' own objects.
ghost use Rattle.std.specs.Prelude.{◌≡◌, ◌<◌, ◌≤◌, ◌+◌, ◌*◌, ℕ, pos, length, map, replicate, slice_index, slice_index_or, slice_set, All, IfOk};
ghost use Rattle.std.specs.Int.{int_min};
ghost use Rattle.assign_core.specs.Numbered.{IsNumber};
ghost use Rattle.assign_core.specs.Rows.{listed_in, row_of};
ghost use Rattle.assign_core.specs.Dense.{row_from, rows_cut};
ghost use Rattle.cost_lists.specs.Given.{best_given};
ghost use Rattle.cost_lists.specs.Own.{minimised};
ghost use Rattle.cost_lists.specs.Source.{part_of};
ghost use Rattle.wide_checker.specs.WideNumbers.{IsInCosts, IsWideCost, wide_value};
ghost use Rattle.wide_checker.specs.WideSources.{AreWideCosts, IsWideGiven, triples_in, wide_rows};
ghost use Rattle.wide_checker.specs.inside.Own.{AreWideOwn, turned_or_marked};

use super::lists::WideLists;
use super::numbers::{UNLISTED, Wide, cost_at};
use super::source::{WidePairs, WideSource};
use assign_core::Sense;
use cost_lists::Object;
use std::alloc::{AllocError, Global};

// The cost as one to minimise: negated under `Max`.
fn to_minimise(sense: Sense, cost: i128) -> i128
    requires { IsInCosts cost }
    ensures { result ≡ minimised sense cost }
{
    match sense {
        Sense::Min => cost,
        Sense::Max => -cost,
    }
}

// The costs of the person at a place, from 0, among those of all persons to `m` objects.
pub fn part(costs: &[Wide], place: usize, m: usize) -> &[Wide]
    requires { (place + 1) * m ≤ length costs.now }
    ensures values { map wide_value result.now ≡ part_of m place (map wide_value costs.now) }
    ensures costs { All IsWideCost costs.now → All IsWideCost result.now }
{
    let (_, rest) = costs.split_at(place * m);
    let (row, _) = rest.split_at(m);
    row
}

// A person's own cost in a row of costs, turned.
fn own_of_row(sense: Sense, row: &[Wide], object: Object) -> i128
    requires { All IsWideCost row.now }
    ensures { result
        ≡ turned_or_marked sense (listed_in (row_from 1 (map wide_value row.now)) object) }
{
    if object == 0 || object as usize > row.len() {
        return UNLISTED;
    }
    to_minimise(sense, cost_at(row, object as usize - 1))
}

// Sets each person's own cost, of all costs of the persons and `m` objects.
fn set_of_rows(own: &mut [i128], sense: Sense, m: usize, costs: &[Wide], objects: &[Object])
    requires long { length objects.now ≡ length own.old }
    requires costs { AreWideCosts (length own.old) m costs.now }
    ensures { (i : ℕ) → i < length own.new → slice_index_or own.new i (pos 0)
        ≡ turned_or_marked sense (listed_in
        (row_of (rows_cut m (length own.old) (map wide_value costs.now)) (i + 1))
        (slice_index objects.now i)) }
{
    for i in 0..own.len() {
        own[i] = own_of_row(sense, part(costs, i, m), objects[i]);
    }
}

// Lowers the cost at a place to a cost, if that is less.
fn lower(own: &mut [i128], place: usize, cost: i128)
    requires { place < length own.old }
    ensures { own.new ≡ slice_set own.old place
        (int_min (slice_index_or own.old place (pos 0)) cost) }
{
    own[place] = own[place].min(cost);
}

// Sets each person's own cost, of listed pairs. The costs are marks at first.
fn set_of_pairs(own: &mut [i128], sense: Sense, pairs: WidePairs<'_>, objects: &[Object])
    requires mark { own.old ≡ replicate (length own.old) UNLISTED }
    requires long { length objects.now ≡ length own.old }
    requires objects_long { length pairs.objects.now ≡ length pairs.persons.now }
    requires costs_long { length pairs.costs.now ≡ length pairs.persons.now }
    requires persons { All (IsNumber (length own.old)) pairs.persons.now }
    requires costs { All IsWideCost pairs.costs.now }
    ensures { (i : ℕ) → i < length own.new → slice_index_or own.new i (pos 0)
        ≡ turned_or_marked sense
        (best_given sense (triples_in pairs.entry) (i + 1) (slice_index objects.now i)) }
{
    for k in 0..pairs.persons.len() {
        let place = pairs.persons[k] as usize - 1;
        if pairs.objects[k] == objects[place] {
            lower(own, place, to_minimise(sense, cost_at(pairs.costs, k)));
        }
    }
}

// Sets each person's own cost. The costs are marks at first.
fn set_own(own: &mut [i128], sense: Sense, m: Object, source: WideSource<'_>, objects: &[Object])
    requires mark { own.old ≡ replicate (length own.old) UNLISTED }
    requires given { IsWideGiven (length own.old) m source }
    requires long { length objects.now ≡ length own.old }
    ensures { AreWideOwn sense (wide_rows sense (length own.old) m source.entry) objects.now
        own.new }
{
    match source {
        WideSource::Dense(costs) => set_of_rows(own, sense, m as usize, costs, objects),
        WideSource::Listed(pairs) => set_of_pairs(own, sense, pairs, objects),
    }
}

// For each person the cost of its own object, turned so that less is better, or `UNLISTED`. The
// objects may be any numbers.
pub fn own_costs(
    alloc: Global,
    lists: &WideLists<'_>,
    objects: &[Object],
) -> Result<Vec<i128>, AllocError>
    requires { length objects.now ≡ length lists.now.rows }
    ensures { IfOk result
        (λ own. AreWideOwn lists.now.sense lists.now.rows objects.now own.items) }
{
    let (n, m) = (lists.persons() as usize, lists.objects());
    let mut own: Vec<i128> = vec![in alloc; UNLISTED; n]?;
    set_own(
        own.as_mut_slice(),
        lists.sense(),
        m,
        lists.source(),
        objects,
    );
    Ok(own)
}
