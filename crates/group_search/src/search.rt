// The search for the groups of an optimal assignment.
ghost use Rattle.std.specs.Prelude.{◌≡◌, length};

use super::arrows::{Best, arrows_of};
use super::components::{Components, components_of};
use super::graph::Graph;
use super::trees::{FoundTree, tree_from, tree_towards};
use super::values::{place_of, value_at};
use cost_lists::{CostLists, Object, Price};
use std::alloc::{AllocError, Global};

/// What a search found of an optimal assignment.
#[derive(Drop)]
pub struct FoundGroups {
    /// The number of each object's group, and of that of 0.
    pub groups: Vec<u32>,
    pub out: u32,
    /// The root of each group.
    pub roots: Vec<u32>,
    /// Trees of arrows towards the roots, and of arrows from them.
    pub towards: FoundTree,
    pub from: FoundTree,
}

// So many arrows of a row mostly join all objects, if there are as many.
const ENOUGH: usize = 16;

// The components of all arrows, or of a part of them, if this joins all objects.
fn components_in(
    alloc: Global,
    lists: &CostLists<'_>,
    best: Best<'_>,
) -> Result<(Graph, Components), AllocError> {
    let (graph, is_cut) = arrows_of(alloc, lists.source(), best, ENOUGH)?;
    let components = components_of(alloc, &graph)?;
    if !is_cut || components.are_joined() {
        return Ok((graph, components));
    }
    let (graph, _) = arrows_of(alloc, lists.source(), best, usize::MAX)?;
    let components = components_of(alloc, &graph)?;
    Ok((graph, components))
}

/// The groups of objects of an optimal assignment that reach each other along arrows. Lists may hold
/// any numbers.
///
/// The time and memory are linear in the costs and the arrows.
///
/// # Errors
/// `AllocError` if memory is refused.
pub fn find_groups(
    alloc: Global,
    lists: &CostLists<'_>,
    objects: &[Object],
    prices: &[Price],
) -> Result<FoundGroups, AllocError>
    requires { length objects.now ≡ length lists.now.rows }
{
    let mut sums = lists.own_costs(alloc, objects)?;
    for (sum, object) in sums.as_mut_slice().iter_mut().zip(objects.iter()) {
        *sum = sum.wrapping_add(value_at(prices, place_of(*object), 0));
    }
    let best = Best {
        sense: lists.sense(),
        sums: sums.as_slice(),
        objects,
        prices,
    };
    let (graph, components) = components_in(alloc, lists, best)?;
    let from = tree_from(alloc, &graph, &components)?;
    let towards = tree_towards(alloc, &graph, &components)?;
    let all = components.groups.as_slice();
    let groups = Vec::from_slice(alloc, all.get(1..).unwrap_or(&[]))?;
    Ok(FoundGroups {
        groups,
        out: value_at(all, 0, 0),
        roots: Vec::from_slice(alloc, components.roots.as_slice())?,
        towards,
        from,
    })
}
