// One block of memory with all lists of a search.
use super::lists::Lists;
use super::reach::BLOCK;

// The numbers that the lists of a search take, besides the costs.
pub fn room_of(n: usize, m: usize) -> usize {
    let of_objects = m.saturating_mul(5).saturating_add(m / BLOCK);
    let of_persons = n.saturating_mul(7).saturating_add(8);
    let of_near = most_near(n).saturating_mul(2);
    of_objects
        .saturating_add(of_persons)
        .saturating_add(of_near)
}

// The front of a block, of this size if it is as long, and the rest.
pub fn cut(block: &mut [i64], size: usize) -> (&mut [i64], &mut [i64]) {
    let at = size.min(block.len());
    block.split_at_mut(at)
}

// The most near pairs that are kept.
pub fn most_near(n: usize) -> usize {
    n.saturating_mul(n.min(16))
}

// The lists in a block.
pub fn lists_in<'a>(n: usize, m: usize, block: &'a mut [i64]) -> Lists<'a> {
    let (duals, block) = cut(block, m);
    let (keys, block) = cut(block, m);
    let (distances, block) = cut(block, m);
    let (owners, block) = cut(block, m);
    let (turns, block) = cut(block, m);
    let (blocks, block) = cut(block, (m / BLOCK).saturating_add(1));
    let (objects, block) = cut(block, n);
    let (passed, block) = cut(block, n);
    let (levels, block) = cut(block, n);
    let (scanned, block) = cut(block, n);
    let (bases, block) = cut(block, n);
    let (starts, block) = cut(block, n.saturating_add(1));
    let (near, block) = cut(block, most_near(n));
    let (spare, block) = cut(block, most_near(n));
    let (caps, _) = cut(block, n);
    Lists {
        duals,
        keys,
        distances,
        owners,
        turns,
        blocks,
        objects,
        passed,
        levels,
        scanned,
        bases,
        starts,
        near,
        spare,
        caps,
        scans: 0,
    }
}
