// Costs so great, and chains so long, that distances leave 64 bits: searches go on in 128 bits.
use super::worked::chain;
use super::*;
use std::test::Fail;

// A chain of `n` persons in which each prefers the object before its own by as much as possible.
fn long_chain(alloc: Global, n: u16) -> Result<Vec<Pair>, AllocError> {
    chain(alloc, n, GREATEST_COST, -GREATEST_COST)
}

#[test]
fn the_longest_chain_at_the_greatest_costs(rt: HostRuntime) -> Result<(), Fail> {
    let pairs = long_chain(rt.alloc(), MOST_PERSONS)?;
    let seen = found(rt.alloc(), MOST_PERSONS, pairs.as_slice(), Sense::Min, None)?;
    let cost = Cost::from(MOST_PERSONS) * GREATEST_COST;
    assert_eq!(rt; seen, Finding::Best(cost));
    Ok(())
}

// A chain, and more persons who list the objects of a range at cost 0.
fn chain_beside(
    alloc: Global,
    length: u16,
    more: u16,
    objects: (u16, u16),
) -> Result<Vec<Pair>, AllocError> {
    let mut pairs = long_chain(alloc, length)?;
    for person in 0..more {
        for object in objects.0..objects.1 {
            let number = length.saturating_add(person).saturating_add(1);
            pairs.push((number, object, 0))?;
        }
    }
    Ok(pairs)
}

// Ten persons list nine objects, next to a chain whose searches leave 64 bits.
#[test]
fn too_few_objects_beside_a_chain(rt: HostRuntime) -> Result<(), Fail> {
    let pairs = chain_beside(rt.alloc(), 1500, 10, (1501, 1510))?;
    let seen = found(rt.alloc(), 1510, pairs.as_slice(), Sense::Min, None)?;
    assert_eq!(rt; seen, Finding::Hall);
    Ok(())
}

// Two hundred persons list all objects, so that no heap is needed.
#[test]
fn full_rows_beside_a_chain(rt: HostRuntime) -> Result<(), Fail> {
    let pairs = chain_beside(rt.alloc(), 1000, 200, (1, 1201))?;
    let seen = found(rt.alloc(), 1200, pairs.as_slice(), Sense::Min, None)?;
    assert_eq!(rt; seen, Finding::Best(1000 * GREATEST_COST));
    Ok(())
}
