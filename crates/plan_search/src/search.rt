// The search for another plan.
ghost use Rattle.std.specs.Prelude.{◌≡◌, length};

use super::arcs::{Arcs, Best, core_below, own_sums};
use super::nearest::Nearest;
use super::showing::Showing;
use super::values::set_value;
use super::walk::Walk;
use assign_core::Cost;
use cost_lists::{CostLists, Object, Price, Source};
use std::alloc::{AllocError, Global};

/// What a search found of a best plan.
#[derive(Drop)]
pub struct Found {
    /// The objects of another plan, if one was found.
    pub other: Option<Vec<Object>>,
    /// What shows that no other plan costs less than that one, or than the bound if there is none.
    pub shown: Option<Shown>,
}

/// Ranks of the objects, with some further lists of prices, one after the other.
#[derive(Drop)]
pub struct Shown {
    pub ranks: Vec<i32>,
    pub count: usize,
    pub others: Vec<Price>,
}

// The least cycle of a core, if it weighs less than this: looked for at each node that closes one, which
// the walk leaves then.
fn least_cycle(
    alloc: Global,
    arcs: &Arcs,
    most: Cost,
    arc_scans: &mut u64,
) -> Result<Nearest, AllocError> {
    let mut nearest = Nearest::new(alloc, arcs, most)?;
    let mut walk = Walk::new(alloc, arcs.nodes())?;
    for _ in 0..arcs.nodes() {
        if nearest.best() <= 0 || *arc_scans == 0 {
            break;
        }
        let Some(last) = walk.next(arcs)? else {
            break;
        };
        nearest.search(arcs, walk.all_left(), last, arc_scans)?;
        walk.leave(last);
    }
    Ok(nearest)
}

// The plan after each node of a cycle took its object.
fn other_plan(
    alloc: Global,
    objects: &[Object],
    cycle: &[(usize, Object)],
) -> Result<Vec<Object>, AllocError> {
    let mut other = Vec::from_slice(alloc, objects)?;
    for (node, object) in cycle {
        set_value(other.as_mut_slice(), *node, *object);
    }
    Ok(other)
}

// The core is made wider so often at most.
const MOST_CORES: usize = 64;

// After so many arcs rows of the first core are cut off. All its arcs weigh 0, and any cycle of them
// is a least one.
const FIRST_WIDTH: usize = 8;

// The bound of the next core, after one in which the least cycle weighs so much, or which has none.
fn wider(alloc: Global, arcs: &Arcs, bound: Cost, weight: Cost) -> Result<Cost, AllocError> {
    let middle = arcs.bound_above(alloc, 2)?.saturating_add(1);
    let most = if bound == 1 {
        middle
    } else {
        bound.saturating_mul(8)
    };
    Ok(most.min(weight))
}

// The least cycle: how much it weighs, the plan that it makes, and the core below it.
#[derive(Drop)]
struct Least {
    weight: Cost,
    other: Option<Vec<Object>>,
    core: Arcs,
}

// Searches wider and wider cores, up to a bound, for the least cycle; `None` if the arc scans are
// spent.
fn search(
    alloc: Global,
    source: Source<'_>,
    best: Best<'_>,
    most: Cost,
    arc_scans: &mut u64,
) -> Result<Option<Least>, AllocError> {
    let (mut bound, mut weight): (Cost, Cost) = (1, most);
    let (mut other, mut width) = (None, FIRST_WIDTH);
    for _ in 0..MOST_CORES {
        let arcs = core_below(alloc, source, best, bound, width)?;
        let nearest = least_cycle(alloc, &arcs, weight, arc_scans)?;
        if *arc_scans == 0 {
            return Ok(None);
        }
        width = usize::MAX;
        if nearest.best() < weight {
            weight = nearest.best();
            other = Some(other_plan(alloc, best.objects, nearest.cycle())?);
        } else if !arcs.is_whole() {
            continue;
        }
        if bound >= weight {
            let core = arcs.below(alloc, weight)?;
            return Ok(Some(Least {
                weight,
                other,
                core,
            }));
        }
        bound = wider(alloc, &arcs, bound, weight)?;
    }
    Ok(None)
}

// Searches for the least other plan below a bound, and then for what shows that none is between.
fn search_all(
    alloc: Global,
    source: Source<'_>,
    best: Best<'_>,
    most: Cost,
    arc_scans: &mut u64,
) -> Result<Found, AllocError> {
    let Some(least) = search(alloc, source, best, most, arc_scans)? else {
        return Ok(Found {
            other: None,
            shown: None,
        });
    };
    let Least {
        weight,
        other,
        core,
    } = least;
    let (mut ranks, mut others) = (Vec::new(alloc), Vec::new(alloc));
    let mut showing = Showing::new(alloc, core.nodes())?;
    let shown = match showing.show(
        alloc,
        &core,
        best,
        weight,
        &mut ranks,
        &mut others,
        arc_scans,
    )? {
        Some(count) => Some(Shown {
            ranks,
            count,
            others,
        }),
        None => None,
    };
    Ok(Found { other, shown })
}

/// Searches for another plan than this best one, which the prices prove: for the least one, if it
/// costs less than a bound more, with so many looks at arcs.
///
/// The time of each pass is linear in the costs, and for listed pairs as that of sorting those
/// below the bound; two are the rule. The memory is 12 bytes for each pair of the core, some 80 a
/// person and an object, and 8 for each of at most 2^24 further prices.
///
/// # Errors
/// `AllocError` if memory is refused.
pub fn find_other(
    alloc: Global,
    lists: &CostLists<'_>,
    objects: &[Object],
    prices: &[Price],
    most: Cost,
    arc_scans: u64,
) -> Result<Found, AllocError>
    requires { length objects.now ≡ length lists.now.rows }
{
    let mut own = lists.own_costs(alloc, objects)?;
    own_sums(own.as_mut_slice(), objects, prices);
    let best = Best {
        sense: lists.sense(),
        sums: own.as_slice(),
        objects,
        prices,
    };
    let mut left = arc_scans;
    search_all(alloc, lists.source(), best, most, &mut left)
}
