// Pairs as rows: those up to a threshold, and matchings of them.
use super::thresholds::{DRAWN, next_drawn};
use search_base::{ArcScans, NOBODY, place_at, put};
use sparse_search::{Known, Matching, Pair, SparseProblem};
use std::alloc::{AllocError, Global};

/// Person k lists the pairs from `starts[k]` to `starts[k + 1]`.
#[derive(Drop)]
pub struct Listed {
    starts: Vec<usize>,
    pub pairs: Vec<Pair>,
    objects: usize,
}

impl Listed {
    pub fn new(alloc: Global, objects: usize) -> Listed {
        Listed {
            starts: Vec::new(alloc),
            pairs: Vec::new(alloc),
            objects,
        }
    }

    /// The next row begins, or the last one ends.
    pub fn begin_row(&mut self) -> Result<(), AllocError> {
        self.starts.push(self.pairs.len())?;
        Ok(())
    }

    pub fn problem(&self) -> SparseProblem<'_> {
        SparseProblem {
            starts: self.starts.as_slice(),
            pairs: self.pairs.as_slice(),
            objects: self.objects,
        }
    }
}

fn add_row(pairs: &mut Vec<Pair>, row: &[Pair], most: i64) -> Result<(), AllocError> {
    for pair in row {
        if pair.cost <= most {
            pairs.push(*pair)?;
        }
    }
    Ok(())
}

/// The pairs up to a threshold.
pub fn up_to(alloc: Global, problem: SparseProblem<'_>, most: i64) -> Result<Listed, AllocError> {
    let mut listed = Listed::new(alloc, problem.objects);
    let mut person: u32 = 0;
    for _ in 0..problem.persons() {
        listed.begin_row()?;
        add_row(&mut listed.pairs, problem.row(person), most)?;
        person = person.wrapping_add(1);
    }
    listed.begin_row()?;
    Ok(listed)
}

/// The least cost of an object in a row; `i64::MAX` if the row doesn't list it.
pub fn cost_in(row: &[Pair], object: u32) -> i64 {
    let mut least = i64::MAX;
    for pair in row {
        if pair.object == object {
            least = least.min(pair.cost);
        }
    }
    least
}

/// The greatest cost of the persons' own objects.
pub fn worst_of(problem: SparseProblem<'_>, objects: &[u32]) -> i64 {
    let mut worst = i64::MIN;
    let mut person: u32 = 0;
    for object in objects {
        worst = worst.max(cost_in(problem.row(person), *object));
        person = person.wrapping_add(1);
    }
    worst
}

// How many persons list their own objects.
fn count_listed(problem: SparseProblem<'_>, objects: &[u32]) -> usize {
    let mut count = 0usize;
    let mut person: u32 = 0;
    for object in objects {
        if *object != NOBODY
            && problem
                .row(person)
                .iter()
                .any(|pair| pair.object == *object)
        {
            count = count.wrapping_add(1);
        }
        person = person.wrapping_add(1);
    }
    count
}

/// That of two lists of objects of which more persons list their own.
pub fn fuller<'a>(problem: SparseProblem<'_>, one: &'a [u32], other: &'a [u32]) -> &'a [u32] {
    if count_listed(problem, other) > count_listed(problem, one) {
        other
    } else {
        one
    }
}

// The persons, those with the shortest rows first.
fn by_lengths(alloc: Global, problem: SparseProblem<'_>) -> Result<Vec<u32>, AllocError> {
    let mut lengths: Vec<u64> = Vec::new(alloc);
    for person in 0..place_at(problem.persons()) {
        lengths.push((problem.row(person).len() as u64) << 32 | person as u64)?;
    }
    lengths.sort_unstable();
    let mut persons = Vec::new(alloc);
    for length in lengths.iter() {
        persons.push((*length & 0xffff_ffff) as u32)?;
    }
    Ok(persons)
}

fn first_unowned(row: &[Pair], is_owned: &[bool]) -> u32 {
    for pair in row {
        if let Some(false) = is_owned.get(pair.object as usize) {
            return pair.object;
        }
    }
    NOBODY
}

// An object of a row that nobody has, from a place of the row on and then from its beginning.
fn unowned_from(row: &[Pair], from: usize, is_owned: &[bool]) -> u32 {
    let (before, after) = row.split_at(from.min(row.len()));
    let object = first_unowned(after, is_owned);
    if object == NOBODY {
        first_unowned(before, is_owned)
    } else {
        object
    }
}

/// A matching in which one person after the other takes an object, those with the shortest rows first:
/// where each row holds all shorter ones no matching is greater.
pub fn by_rising_rows(alloc: Global, problem: SparseProblem<'_>) -> Result<Vec<u32>, AllocError> {
    let mut is_owned = vec![in alloc; false; problem.objects]?;
    let mut objects = vec![in alloc; NOBODY; problem.persons()]?;
    let mut drawn = DRAWN;
    for person in by_lengths(alloc, problem)?.iter() {
        let row = problem.row(*person);
        drawn = next_drawn(drawn);
        let from = (drawn >> 32).wrapping_mul(row.len() as u64) >> 32;
        let object = unowned_from(row, from as usize, is_owned.as_slice());
        if let Some(owned) = is_owned.get_mut(object as usize) {
            *owned = true;
            put(objects.as_mut_slice(), *person, object);
        }
    }
    Ok(objects)
}

/// A greatest matching from these objects, as far as the arc scans allow, and what is known about it.
pub fn matched(
    alloc: Global,
    problem: SparseProblem<'_>,
    first: &[u32],
    is_fresh: bool,
    arc_scans: &mut ArcScans,
) -> Result<(Matching, Known), AllocError> {
    let mut matching = Matching::begin(alloc, problem, first, arc_scans)?;
    let known = matching.grow(problem, is_fresh, arc_scans)?;
    Ok((matching, known))
}
