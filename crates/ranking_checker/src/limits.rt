// What the assignments of a part have in common.
ghost use Rattle.std.specs.Prelude.{◌≡◌, ◌<◌, ◌-◌, ℕ, List, IfOk, length};
ghost use Rattle.ranking_checker.specs.inside.Trees.{IsTree, Obey, leaf_of, leaf_upto};

use super::tree::{Tree, plan_at};
use cost_lists::{Object, Person};
use std::alloc::{AllocError, Global};

// A pair that is closed.
#[derive(Clone, Copy)]
pub struct Closed {
    pub person: Person,
    pub object: Object,
}

// Objects that persons keep, 0 where none is kept, and closed pairs.
#[derive(Drop)]
pub struct Limits {
    pub kept: Vec<Object>,
    pub closed: Vec<Closed>,
}

// Adds what plan u says of the assignments of a part by the plans up to it, and answers their part by
// those before it.
#[inline(always)]
fn add_step(tree: Tree<'_>, limits: &mut Limits, u: usize, part: usize) -> Result<usize, AllocError>
    requires tree { IsTree tree }
    requires u { (0 < u) × (u < tree.count) }
    requires part { part < tree.count }
    requires kept { length limits.old.kept.items ≡ tree.n }
    ensures kept { length limits.new.kept.items ≡ tree.entry.n }
    ensures in_range { IfOk result (λ before. before < tree.entry.count) }
    ensures obey { IfOk result (λ before. (ys : List ℕ) → leaf_upto tree.entry ys u ≡ part
        → Obey ys limits.old.kept.items limits.old.closed.items
        → (leaf_upto tree.entry ys (u - 1) ≡ before)
        × Obey ys limits.new.kept.items limits.new.closed.items) }
{
    let parent = tree.parents[u] as usize;
    let person = tree.persons[u];
    let place = person as usize - 1;
    if u == part {
        let object = plan_at(tree, parent)[place];
        limits.closed.push(Closed { person, object })?;
        return Ok(parent);
    }
    if parent == part {
        limits.kept[place] = plan_at(tree, part)[place];
    }
    Ok(part)
}

// What all assignments of a part have in common.
pub fn limits_of(alloc: Global, tree: Tree<'_>, place: usize) -> Result<Limits, AllocError>
    requires tree { IsTree tree }
    requires place { place < tree.count }
    ensures kept { IfOk result (λ limits. length limits.kept.items ≡ tree.entry.n) }
    ensures obey { IfOk result (λ limits. (ys : List ℕ) → leaf_of tree.entry ys ≡ place
        → Obey ys limits.kept.items limits.closed.items) }
{
    let mut limits = Limits {
        kept: vec![in alloc; 0; tree.n]?,
        closed: Vec::new(alloc),
    };
    let mut part = place;
    for step in 1..tree.count {
        part = add_step(tree, &mut limits, tree.count - step, part)?;
    }
    Ok(limits)
}
