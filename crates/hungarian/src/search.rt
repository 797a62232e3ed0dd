// The search for a shortest alternating path from a person to an unowned object.
ghost use Rattle.std.specs.Prelude.{◌≡◌, ℕ, ◌+◌, ◌-◌, ◌<◌, ◌≤◌, ◌<ℤ◌, ◌-ℤ◌, ◌++◌, [], ◌∷◌, length, pos, slice_set, IfOk};
ghost use Rattle.assign_core.specs.Numbered.{IsNumber};
ghost use Rattle.assign_core.specs.Rows.{IsCost};
ghost use Rattle.cost_lists.specs.declared.numbers.TheConstants.{UNLISTED};
ghost use Rattle.hungarian.specs.inside.Plans.{at, int_at, cost_at, IsRowOf};
ghost use Rattle.hungarian.specs.inside.Trees.{IsNearest, IsPathCost, IsRelaxed, IsScan, IsStepCost, IsWaiting};
ghost use Rattle.hungarian.specs.inside.Stored.{IsPlanned, IsSearched, IsSearching, IsTreeLong};

use super::plan::Plan;
use super::relaxing::{nearest, relax};
use super::row::set_row;
use super::tree::Tree;
use assign_core::Cost;
use cost_lists::{CostLists, Object, Person};
use std::alloc::{AllocError, Global};

// The cost of the path to the owner of an object.
fn path_back(to_object: Cost, cost: Cost) -> Cost
    requires path { IsStepCost to_object }
    requires cost { IsCost cost }
    ensures { result ≡ (to_object -ℤ cost) }
{
    to_object - cost
}

// Lets the path to a person go on to all objects of its row that aren't scanned.
fn relax_row(tree: &mut Tree, lists: &CostLists<'_>, row: &[Cost], person: Person, to_person: Cost)
    requires long { IsTreeLong (length lists.now.rows) lists.now.m tree.old }
    requires row_long { length row.now ≡ lists.now.m + 1 }
    requires row { IsRowOf (cost_at lists.now person) row.now }
    requires path { IsPathCost to_person }
    ensures long { IsTreeLong (length lists.now.rows) lists.now.m tree.new }
    ensures relaxed { (k : ℕ) → IsRelaxed person (cost_at lists.now person k)
        to_person (at tree.old.ranks.items k)
        (int_at tree.old.to_objects.items k) (at tree.old.predecessors.items k)
        (int_at tree.new.to_objects.items k) (at tree.new.predecessors.items k) }
    ensures ranks { tree.new.ranks.items ≡ tree.old.ranks.items }
    ensures to_persons { tree.new.to_persons.items ≡ tree.old.to_persons.items }
    ensures persons { tree.new.persons.items ≡ tree.old.persons.items }
{
    // This call shows the prover that costs are in their range.
    let _persons = lists.persons();
    relax(
        tree.to_objects.as_mut_slice(),
        tree.predecessors.as_mut_slice(),
        tree.ranks.as_slice(),
        row,
        person,
        to_person,
    );
}

// Sets the row to that of the first person, and lets the path of that person alone go on.
fn begin(
    alloc: Global,
    tree: &mut Tree,
    lists: &CostLists<'_>,
    row: &mut [Cost],
    person: Person,
) -> Result<(), AllocError>
    requires long { IsTreeLong (length lists.now.rows) lists.now.m tree.old }
    requires row { length row.old ≡ lists.now.m + 1 }
    requires person { IsNumber (length lists.now.rows) person }
    ensures long { IfOk result (λ _. IsTreeLong (length lists.now.rows) lists.now.m tree.new) }
    ensures relaxed { IfOk result (λ _. (k : ℕ) → IsRelaxed person (cost_at lists.now person k)
        (pos 0) (at tree.old.ranks.items k)
        (int_at tree.old.to_objects.items k) (at tree.old.predecessors.items k)
        (int_at tree.new.to_objects.items k) (at tree.new.predecessors.items k)) }
    ensures ranks { IfOk result (λ _. tree.new.ranks.items ≡ tree.old.ranks.items) }
    ensures to_persons { IfOk result (λ _.
        tree.new.to_persons.items ≡ tree.old.to_persons.items) }
    ensures persons { IfOk result (λ _. tree.new.persons.items ≡ tree.old.persons.items) }
{
    set_row(alloc, row, lists, person)?;
    relax_row(tree, lists, row, person, 0);
    Ok(())
}

// Gives an object a rank, and its owner a path.
fn mark_scanned(
    tree: &mut Tree,
    rank: u32,
    object: usize,
    owner: Person,
    to_person: Cost,
) -> Result<(), AllocError>
    requires object { object < length tree.old.ranks.items }
    requires owner { owner < length tree.old.to_persons.items }
    ensures ranks { IfOk result (λ _.
        tree.new.ranks.items ≡ slice_set tree.old.ranks.items object rank) }
    ensures to_persons { IfOk result (λ _.
        tree.new.to_persons.items ≡ slice_set tree.old.to_persons.items owner to_person) }
    ensures persons { IfOk result (λ _.
        tree.new.persons.items ≡ tree.old.persons.items ++ owner ∷ []) }
    ensures to_objects { IfOk result (λ _.
        tree.new.to_objects.items ≡ tree.old.to_objects.items) }
    ensures predecessors { IfOk result (λ _.
        tree.new.predecessors.items ≡ tree.old.predecessors.items) }
{
    tree.persons.push(owner)?;
    tree.ranks[object] = rank;
    tree.to_persons[owner as usize] = to_person;
    Ok(())
}

// Gives an object a rank, and lets the path over the object to its owner go on.
fn scan(
    alloc: Global,
    tree: &mut Tree,
    lists: &CostLists<'_>,
    row: &mut [Cost],
    rank: u32,
    object: usize,
    owner: Person,
) -> Result<(), AllocError>
    requires long { IsTreeLong (length lists.now.rows) lists.now.m tree.old }
    requires row { length row.old ≡ lists.now.m + 1 }
    requires owner { IsNumber (length lists.now.rows) owner }
    requires object { object ≤ lists.now.m }
    requires path { IsStepCost (int_at tree.old.to_objects.items object) }
    requires listed { cost_at lists.now owner object <ℤ UNLISTED }
    requires some { 0 < rank }
    ensures long { IfOk result (λ _. IsTreeLong (length lists.now.rows) lists.now.m tree.new) }
    ensures scan { IfOk result (λ _. IsScan (cost_at lists.now) (rank - 1) owner object
        (int_at tree.old.to_objects.items) (int_at tree.old.to_persons.items)
        (at tree.old.predecessors.items) (at tree.old.ranks.items)
        (int_at tree.new.to_objects.items) (int_at tree.new.to_persons.items)
        (at tree.new.predecessors.items) (at tree.new.ranks.items)) }
    ensures persons { IfOk result (λ _.
        tree.new.persons.items ≡ tree.old.persons.items ++ owner ∷ []) }
{
    // This call shows the prover that costs are in their range.
    let _persons = lists.persons();
    set_row(alloc, row, lists, owner)?;
    let to_person = path_back(tree.to_objects[object], row[object]);
    mark_scanned(tree, rank, object, owner, to_person)?;
    relax_row(tree, lists, row, owner, to_person);
    Ok(())
}

// The tree of a person alone.
fn first_tree(
    alloc: Global,
    lists: &CostLists<'_>,
    row: &mut [Cost],
    plan: &Plan,
    person: Person,
) -> Result<Tree, AllocError>
    requires plan { IsPlanned lists.now plan.now }
    requires row { length row.old ≡ lists.now.m + 1 }
    requires person { IsNumber (length lists.now.rows) person }
    requires alone { at plan.now.objects.items person ≡ 0 }
    ensures { IfOk result (λ t. IsSearching lists.now plan.now person 0 t) }
{
    let (n, m) = (lists.persons() as usize, lists.objects() as usize);
    let mut tree = Tree::new(alloc, n + 1, m + 1, person)?;
    begin(alloc, &mut tree, lists, row, person)?;
    Ok(tree)
}

// The nearest object that waits; 0 if none waits.
fn nearest_object(plan: &Plan, tree: &Tree) -> usize
    requires some { 0 < length tree.now.to_objects.items }
    requires prices { length plan.now.prices.items ≡ length tree.now.to_objects.items }
    requires predecessors { length tree.now.predecessors.items
        ≡ length tree.now.to_objects.items }
    requires ranks { length tree.now.ranks.items ≡ length tree.now.to_objects.items }
    requires nobody { at tree.now.predecessors.items 0 ≡ 0 }
    ensures within { result < length tree.now.to_objects.items }
    ensures none { result ≡ 0 → (k : ℕ)
        → ¬ IsWaiting (at tree.now.predecessors.items) (at tree.now.ranks.items) k }
    ensures some { 0 < result → IsNearest (int_at plan.now.prices.items)
        (int_at tree.now.to_objects.items) (at tree.now.predecessors.items)
        (at tree.now.ranks.items) result }
{
    nearest(
        tree.to_objects.as_slice(),
        plan.prices.as_slice(),
        tree.predecessors.as_slice(),
        tree.ranks.as_slice(),
    )
}

// The paths from a person that has no object, and the nearest unowned object; 0 if none is labelled.
pub fn search(
    alloc: Global,
    lists: &CostLists<'_>,
    row: &mut [Cost],
    plan: &Plan,
    person: Person,
) -> Result<(Tree, Object), AllocError>
    requires plan { IsPlanned lists.now plan.now }
    requires row { length row.old ≡ lists.now.m + 1 }
    requires person { IsNumber (length lists.now.rows) person }
    requires alone { at plan.now.objects.items person ≡ 0 }
    ensures { IfOk result (λ r. IsSearched lists.now plan.now person r.0 r.1) }
{
    let mut tree = first_tree(alloc, lists, row, plan, person)?;
    for rank in 1..lists.persons() + 1 {
        let object = nearest_object(plan, &tree);
        if object == 0 {
            return Ok((tree, 0));
        }
        let owner = plan.owners[object];
        if owner == 0 {
            tree.ranks[object] = rank;
            return Ok((tree, object as u32));
        }
        scan(alloc, &mut tree, lists, row, rank, object, owner)?;
    }
    Ok((tree, 0))
}
