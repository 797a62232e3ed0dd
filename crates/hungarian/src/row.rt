// One person's costs, as a row.
ghost use Rattle.std.specs.Prelude.{◌≡◌, ℕ, ◌<◌, ◌+◌, length, All, IfOk};
ghost use Rattle.assign_core.specs.Numbered.{IsNumber};
ghost use Rattle.assign_core.specs.Rows.{IsCost};
ghost use Rattle.cost_lists.specs.Own.{minimised, turned_or_unlisted};
ghost use Rattle.cost_lists.specs.Given.{best_given};
ghost use Rattle.cost_lists.specs.ListedCosts.{IsCount};
ghost use Rattle.cost_lists.specs.Source.{ArePairs, triples_in};
ghost use Rattle.hungarian.specs.inside.Plans.{cost_at, int_at, IsRowOf};

use assign_core::{Cost, Sense};
use cost_lists::{CostLists, Object, Pairs, Person, Source, UNLISTED, part, to_minimise};
use std::alloc::{AllocError, Global};

// Sets the costs of a row, of the costs of objects 1, 2, ..
fn set_dense(row: &mut [Cost], sense: Sense, costs: &[Cost])
    requires long { length row.old ≡ length costs.now + 1 }
    requires costs { All IsCost costs.now }
    ensures first { int_at row.new 0 ≡ int_at row.old 0 }
    ensures costs { (k : ℕ) → k < length costs.now
        → int_at row.new (k + 1) ≡ minimised sense (int_at costs.now k) }
{
    for j in 0..costs.len() {
        row[j + 1] = to_minimise(sense, costs[j]);
    }
}

fn clear(row: &mut [Cost])
    ensures { (k : ℕ) → k < length row.new → int_at row.new k ≡ UNLISTED }
{
    for j in 0..row.len() {
        row[j] = UNLISTED;
    }
}

// Sets the costs of a row, of the costs of objects 1, 2, .. as they are.
fn set_column(row: &mut [Cost], costs: &[Cost])
    requires { length row.old ≡ length costs.now + 1 }
    ensures first { int_at row.new 0 ≡ int_at row.old 0 }
    ensures costs { (k : ℕ) → k < length costs.now → int_at row.new (k + 1) ≡ int_at costs.now k }
{
    for j in 0..costs.len() {
        row[j + 1] = costs[j];
    }
}

// The costs of a person's pairs: those of objects 1, 2, .. as persons, each with this person.
fn column(
    alloc: Global,
    sense: Sense,
    n: Person,
    m: Object,
    pairs: Pairs<'_>,
    person: Person,
) -> Result<Vec<Cost>, AllocError>
    requires persons { IsCount n }
    requires objects { IsCount m }
    requires pairs { ArePairs n m pairs }
    ensures long { IfOk result (λ v. length v.items ≡ m) }
    ensures costs { IfOk result (λ v. (k : ℕ) → k < m → int_at v.items k
        ≡ turned_or_unlisted sense (best_given sense (triples_in pairs.entry) person (k + 1))) }
{
    let turned = Pairs {
        persons: pairs.objects,
        objects: pairs.persons,
        costs: pairs.costs,
    };
    let persons = vec![in alloc; person; m as usize]?;
    let lists = CostLists::sparse(sense, m, n, turned);
    let costs = lists.own_costs(alloc, persons.as_slice())?;
    Ok(costs)
}

// Sets a row to a person's costs, turned so that less is better. An unlisted object has the mark.
pub fn set_row(
    alloc: Global,
    row: &mut [Cost],
    lists: &CostLists<'_>,
    person: Person,
) -> Result<(), AllocError>
    requires long { length row.old ≡ lists.now.m + 1 }
    requires person { IsNumber (length lists.now.rows) person }
    ensures { IfOk result (λ _. IsRowOf (cost_at lists.now person) row.new) }
{
    clear(row);
    let (sense, n, m) = (lists.sense(), lists.persons(), lists.objects());
    match lists.source() {
        Source::Dense(costs) => {
            set_dense(row, sense, part(costs, person as usize - 1, m as usize));
        }
        Source::Listed(pairs) => {
            let costs = column(alloc, sense, n, m, pairs, person)?;
            set_column(row, costs.as_slice());
        }
    }
    Ok(())
}
