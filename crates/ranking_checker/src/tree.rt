// Trees of plans, and where an assignment falls.
ghost use Rattle.std.specs.Prelude.{◌≡◌, ◌<◌, ◌*◌, ◌↔◌, ℕ, IsTrue, length};
ghost use Rattle.assign_core.specs.Numbered.{IsNumber};
ghost use Rattle.ranking_checker.specs.Ranking.{plan_of};
ghost use Rattle.ranking_checker.specs.inside.Parts.{HaveParts};
ghost use Rattle.ranking_checker.specs.inside.Trees.{IsTree, leaf_of, leaf_upto, next_leaf};

use cost_lists::{Object, Person};

// Plans of n persons, one after the other. Each but the first has a parent, the place of a plan, and
// a person at which the two part.
#[derive(Clone, Copy)]
pub struct Tree<'a> {
    pub n: usize,
    pub count: usize,
    pub plans: &'a [Object],
    pub parents: &'a [u32],
    pub persons: &'a [Person],
}

// The plan at a place.
#[inline(always)]
pub fn plan_at(tree: Tree<'_>, place: usize) -> &[Object]
    requires tree { IsTree tree }
    requires place { place < tree.count }
    ensures plan { result.now ≡ plan_of tree.entry.n place tree.entry.plans.now }
    ensures long { length result.now ≡ tree.entry.n }
{
    let (_, rest) = tree.plans.split_at(place * tree.n);
    let (plan, _) = rest.split_at(tree.n);
    plan
}

// The part in which objects fall by plan u, if they fell in a part by those before it.
#[inline(always)]
fn next_of(tree: Tree<'_>, objects: &[Object], u: usize, part: usize) -> usize
    requires tree { IsTree tree }
    requires long { length objects.now ≡ tree.n }
    requires u { (0 < u) × (u < tree.count) }
    requires part { part < tree.count }
    ensures leaf { result ≡ next_leaf tree.entry objects.now u part }
    ensures in_range { result < tree.entry.count }
{
    let place = tree.persons[u] as usize - 1;
    if tree.parents[u] as usize == part && objects[place] != plan_at(tree, part)[place] {
        u
    } else {
        part
    }
}

// The part in which objects fall.
pub fn part_of_objects(tree: Tree<'_>, objects: &[Object]) -> usize
    requires tree { IsTree tree }
    requires long { length objects.now ≡ tree.n }
    ensures { result ≡ leaf_of tree.entry objects.now }
{
    let mut part = 0;
    for u in 1..tree.count {
        part = next_of(tree, objects, u, part);
    }
    part
}

// Whether a list has so many parts of n elements.
fn has_parts(length: usize, count: usize, n: usize) -> bool
    ensures { IsTrue result ↔ (length ≡ count * n) }
{
    count.checked_mul(n) == Some(length)
}

// Whether there are this parent and this person.
fn is_step(count: usize, n: usize, parent: u32, person: Person) -> bool
    ensures { IsTrue result ↔ ((parent < count) × IsNumber n person) }
{
    (parent as usize) < count && 0 < person && person as usize <= n
}

// Whether these are lists of the right lengths, with parents and persons of which each exists.
pub fn is_tree(tree: Tree<'_>) -> bool
    ensures { IsTrue result → IsTree tree.entry }
{
    let count = tree.count;
    if count == 0 || tree.parents.len() != count || tree.persons.len() != count {
        return false;
    }
    if !has_parts(tree.plans.len(), count, tree.n) {
        return false;
    }
    for u in 1..count {
        if !is_step(count, tree.n, tree.parents[u], tree.persons[u]) {
            return false;
        }
    }
    true
}

// Whether each plan lies in its own part.
pub fn have_parts(tree: Tree<'_>) -> bool
    requires { IsTree tree }
    ensures { IsTrue result → HaveParts tree.entry }
{
    for t in 0..tree.count {
        if part_of_objects(tree, plan_at(tree, t)) != t {
            return false;
        }
    }
    true
}
