// Trees of arrows that join the groups.
ghost use Rattle.std.specs.Prelude.{◌≡◌, ◌<◌, ◌≤◌, ◌+◌, ◌⊎◌, ℕ, IsTrue, length, slice_index_or};
ghost use Rattle.group_checker.specs.inside.Reading.{IsArrowOf, IsJoined, IsLinked, IsPlanOf, IsTree, group_at};

use super::arrow::is_arrow;
use super::plan::{Group, Plan, group_of};
use cost_lists::CostLists;

/// For 0 and each object a neighbour in its group, nearer to the group's root by the depths, and the
/// place of a pair that shows the arrow between them: of the person among rows of costs, or of the
/// pair among listed ones. A root has depth 0.
#[derive(Clone, Copy)]
pub struct Tree<'a> {
    pub neighbours: &'a [u32],
    pub places: &'a [usize],
    pub depths: &'a [u32],
}

// Whether a vertex is the root of a group.
fn is_root(roots: &[u32], group: Group, vertex: u32) -> bool
    ensures { IsTrue result → slice_index_or roots.now group 0 ≡ vertex }
{
    let place = group as usize;
    place < roots.len() && roots[place] == vertex
}

// Whether an arrow leads from a vertex to its neighbour, or the other way.
fn has_arrow(
    lists: &CostLists<'_>,
    plan: Plan<'_>,
    is_forth: bool,
    vertex: u32,
    neighbour: u32,
    place: usize,
) -> bool
    requires plan { IsPlanOf lists.now plan }
    requires vertex { vertex ≤ lists.now.m }
    requires neighbour { neighbour ≤ lists.now.m }
    ensures { IsTrue result → IsArrowOf is_forth lists.now plan.entry vertex neighbour }
{
    if is_forth {
        is_arrow(lists, plan, vertex, neighbour, place)
    } else {
        is_arrow(lists, plan, neighbour, vertex, place)
    }
}

// Whether a vertex is joined to one that is nearer to the root of its group.
fn is_joined(
    lists: &CostLists<'_>,
    plan: Plan<'_>,
    tree: Tree<'_>,
    is_forth: bool,
    vertex: u32,
) -> bool
    requires plan { IsPlanOf lists.now plan }
    requires tree { IsTree lists.now.m tree }
    requires vertex { vertex ≤ lists.now.m }
    ensures { IsTrue result → IsJoined is_forth lists.now plan.entry tree.entry vertex }
{
    let place = vertex as usize;
    let neighbour = tree.neighbours[place];
    if neighbour > lists.objects() || tree.depths[neighbour as usize] >= tree.depths[place] {
        return false;
    }
    if group_of(plan, neighbour) != group_of(plan, vertex) {
        return false;
    }
    has_arrow(lists, plan, is_forth, vertex, neighbour, tree.places[place])
}

// Whether a vertex is a root, or joined to one that is nearer.
fn is_linked(
    lists: &CostLists<'_>,
    plan: Plan<'_>,
    tree: Tree<'_>,
    roots: &[u32],
    is_forth: bool,
    vertex: u32,
) -> bool
    requires plan { IsPlanOf lists.now plan }
    requires tree { IsTree lists.now.m tree }
    requires vertex { vertex ≤ lists.now.m }
    ensures { IsTrue result → IsLinked is_forth lists.now plan.entry tree.entry roots.now vertex }
{
    if tree.depths[vertex as usize] == 0 {
        return is_root(roots, group_of(plan, vertex), vertex);
    }
    is_joined(lists, plan, tree, is_forth, vertex)
}

// Whether each vertex is.
pub fn all_linked(
    lists: &CostLists<'_>,
    plan: Plan<'_>,
    tree: Tree<'_>,
    roots: &[u32],
    is_forth: bool,
) -> bool
    requires plan { IsPlanOf lists.now plan }
    requires tree { IsTree lists.now.m tree }
    ensures { IsTrue result → (v : ℕ) → v ≤ lists.now.m
        → IsLinked is_forth lists.now plan.entry tree.entry roots.now v }
{
    for v in 0..lists.objects() + 1 {
        if !is_linked(lists, plan, tree, roots, is_forth, v) {
            return false;
        }
    }
    true
}
