// The search for the first plans in the order of their costs.
ghost use Rattle.std.specs.Prelude.{◌≡◌, length};

use super::arcs::{Arcs, Best, core_below, own_sums};
use super::inner::{Inner, inner_of};
use super::order::{Order, order_of};
use super::proofs::{Costs, Proofs, no_proofs, proofs_of};
use super::swaps::first_bound;
use super::tree::Tree;
use super::values::set_value;
use assign_core::Cost;
use cost_lists::{CostLists, Object, Person, Price, Source};
use std::alloc::{AllocError, Global};

/// The first plans in the order of their costs, with what shows that no other is cheaper than the
/// last. Of one cost that plan comes first which has the lower object at the first person at which
/// they differ.
#[derive(Drop)]
pub struct Ranking {
    /// How many plans there are, at least 1.
    pub count: usize,
    /// Whether there are no others, but fewer than were asked for.
    pub is_all: bool,
    /// Their objects, one plan after the other.
    pub plans: Vec<Object>,
    /// For each plan but the first the place, from 0, of an earlier one, and the first person at which
    /// the two differ; for the first one 0.
    pub parents: Vec<u32>,
    pub persons: Vec<Person>,
    /// For each plan prices and ranks of the objects, by which it is the best one of its part.
    pub prices: Vec<Price>,
    pub ranks: Vec<i32>,
    /// For each plan how many further lists of prices it has, and all these, one after the other.
    pub lists: Vec<u32>,
    pub others: Vec<Price>,
}

// A core with its first plans.
#[derive(Drop)]
struct Searched {
    core: Arcs,
    inner: Inner,
    order: Order,
}

// The core is made wider so often at most.
const MOST_CORES: usize = 128;

// The bound of the next core, after one with so many plans: their number grows about as its square, or
// somewhat less. The first core has plans of one cost.
fn wider(
    alloc: Global,
    core: &Arcs,
    bound: Cost,
    found: usize,
    count: usize,
) -> Result<Cost, AllocError> {
    let least = core.bound_above(alloc, 4)?.saturating_add(1);
    if bound == 1 {
        return Ok(least);
    }
    let (wanted, mut quarters) = (count.saturating_mul(16), 5u32);
    for more in 6..17 {
        let square = quarters.wrapping_mul(quarters) as usize;
        if found.saturating_mul(square) < wanted {
            quarters = more;
        }
    }
    Ok(least.max(bound.saturating_mul(Cost::from(quarters)) / 4))
}

// The first plans of the core below a bound.
fn search_below(
    alloc: Global,
    source: Source<'_>,
    best: Best<'_>,
    count: usize,
    bound: Cost,
    arc_scans: &mut u64,
) -> Result<Searched, AllocError> {
    let core = core_below(alloc, source, best, bound, usize::MAX)?;
    let inner = inner_of(alloc, &core, best.objects, best.prices.len())?;
    let order = order_of(alloc, &inner, count, bound.wrapping_sub(1), arc_scans)?;
    Ok(Searched { core, inner, order })
}

// Searches wider and wider cores, until there are as many plans as are wanted, or all; `None` if
// the arc scans are spent.
fn search(
    alloc: Global,
    source: Source<'_>,
    best: Best<'_>,
    count: usize,
    arc_scans: &mut u64,
) -> Result<Option<Searched>, AllocError> {
    let mut bound = first_bound(alloc, source, best, count.wrapping_sub(1))?;
    for _ in 0..MOST_CORES {
        let searched = search_below(alloc, source, best, count, bound, arc_scans)?;
        if *arc_scans == 0 {
            return Ok(None);
        }
        let found = searched.order.found();
        if found >= count || bound == Cost::MAX {
            return Ok(Some(searched));
        }
        bound = wider(alloc, &searched.core, bound, found, count)?;
    }
    Ok(None)
}

// Changes a plan to that at a place in the order.
fn set_plan(plan: &mut [Object], searched: &Searched, place: usize) {
    let (inner, order) = (&searched.inner, &searched.order);
    for row in 0..inner.rows() {
        let object = inner.object(order.column(place, row));
        set_value(plan, inner.person(row), object);
    }
}

// The tree of the plans.
fn tree_of(alloc: Global, searched: &Searched, objects: &[Object]) -> Result<Tree, AllocError> {
    let mut plan = Vec::from_slice(alloc, objects)?;
    let mut tree = Tree::new(alloc, objects.len());
    for place in 0..searched.order.found() {
        set_plan(plan.as_mut_slice(), searched, place);
        tree.add(plan.as_slice())?;
    }
    Ok(tree)
}

// What shows that the plans are the first ones.
fn prove(
    alloc: Global,
    searched: &Searched,
    tree: &Tree,
    best: Best<'_>,
    is_all: bool,
    arc_scans: &mut u64,
) -> Result<Option<Proofs>, AllocError> {
    let order = &searched.order;
    let last = order.cost(order.found().wrapping_sub(1));
    if last == 0 && !is_all {
        let proofs = no_proofs(alloc, order.found(), best.prices.len())?;
        return Ok(Some(proofs));
    }
    let most = if is_all { None } else { Some(last) };
    let costs = Costs { order, most };
    proofs_of(alloc, tree, &searched.core, best, costs, arc_scans)
}

// The plans with what shows that they are the first ones.
fn ranking_of(tree: Tree, proofs: Proofs, is_all: bool) -> Ranking {
    let count = tree.count();
    let (plans, parents, persons) = tree.into_lists();
    let Proofs {
        prices,
        ranks,
        lists,
        others,
    } = proofs;
    Ranking {
        count,
        is_all,
        plans,
        parents,
        persons,
        prices,
        ranks,
        lists,
        others,
    }
}

// The first plans, and what shows it.
fn search_all(
    alloc: Global,
    source: Source<'_>,
    best: Best<'_>,
    count: usize,
    arc_scans: &mut u64,
) -> Result<Option<Ranking>, AllocError> {
    let Some(searched) = search(alloc, source, best, count, arc_scans)? else {
        return Ok(None);
    };
    let is_all = searched.order.found() < count;
    let tree = tree_of(alloc, &searched, best.objects)?;
    match prove(alloc, &searched, &tree, best, is_all, arc_scans)? {
        Some(proofs) if *arc_scans != 0 => Ok(Some(ranking_of(tree, proofs, is_all))),
        _ => Ok(None),
    }
}

/// Searches for the first plans in the order of their costs, up to a number of 1 or more, with so
/// many looks at arcs: from a best plan, which the prices prove. `None` if these don't suffice.
///
/// The time of each pass is linear in the costs, and for listed pairs as that of sorting those of
/// the core; two or three are the rule. The memory is some 60 bytes for each pair of the core; for
/// each plan 4 a person and 12 an object; for each part that was looked at, mostly some parts a
/// plan, 16 for each person and each object that can change; and 8 for each further price.
///
/// # Errors
/// `AllocError` if memory is refused.
pub fn find_ranking(
    alloc: Global,
    lists: &CostLists<'_>,
    objects: &[Object],
    prices: &[Price],
    count: usize,
    arc_scans: u64,
) -> Result<Option<Ranking>, AllocError>
    requires { length objects.now ≡ length lists.now.rows }
{
    let mut own = lists.own_costs(alloc, objects)?;
    own_sums(own.as_mut_slice(), objects, prices);
    let best = Best {
        sense: lists.sense(),
        sums: own.as_slice(),
        objects,
        prices,
    };
    let mut left = arc_scans;
    search_all(alloc, lists.source(), best, count.max(1), &mut left)
}
