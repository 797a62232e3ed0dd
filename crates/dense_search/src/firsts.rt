// What persons' values are reduced by before those of objects.
use super::matrix::Matrix;
use super::number::{Number, lesser};
use super::reading::Reading;
use super::rows::least_value;
use search_base::{NOBODY, place_at};
use std::alloc::{AllocError, Global};

// Smaller problems aren't looked at.
const LEAST_SAMPLED: usize = 1 << 14;

// So many persons show whether some objects cost nearly all of them the same, like those that make a square
// of a problem. All persons want these, whatever they cost: what persons are reduced by leaves them out.
const ALIKE: usize = 16;

const NEARLY_ALL: usize = 12;

// So many persons show whether nearly all pairs are far. If they are, an object without a near pair is priced
// far below the others, and each search scans the owners of all of these: 1,000 rows with one near pair in a
// thousand took 34 times as long, bands of 2,000 rows 5 times.
const PERSONS: usize = 8;

// So many objects show whether a few persons have the least values of all: prices are drawn by these few
// persons' costs then, as for costs of a number for each row and noise, which took 16 times as long.
const OBJECTS: usize = 16;

// One of so many persons that are looked at.
fn some_person<K: Number, R: Reading<K>>(matrix: &Matrix<'_, K, R>, k: usize, count: usize) -> u32 {
    place_at(matrix.persons.saturating_mul(k) / count.max(1))
}

// How many objects have the greatest value for a person.
fn count_farthest<K: Number, R: Reading<K>>(matrix: &Matrix<'_, K, R>, person: u32) -> usize {
    let farthest = matrix.ends_of(person).1;
    let row = matrix.row(person).iter();
    row.filter(|cost| !matrix.reading.value(**cost).is_below(farthest))
        .count()
}

// Whether nearly all pairs are as bad as any, like forbidden ones, as some persons show.
fn is_mostly_far<K: Number, R: Reading<K>>(matrix: &Matrix<'_, K, R>) -> bool {
    let mut far = 0usize;
    for k in 0..PERSONS {
        far = far.saturating_add(count_farthest(matrix, some_person(matrix, k, PERSONS)));
    }
    far > matrix.objects.saturating_mul(PERSONS) / 8 * 7
}

// Counts the objects that cost one person what they cost another.
fn count_same<K: Number>(row: &[K], other: &[K], same: &mut [usize]) {
    for ((cost, other), count) in row.iter().zip(other).zip(same.iter_mut()) {
        let differs = cost.is_below(*other) || other.is_below(*cost);
        *count = count.wrapping_add(usize::from(!differs));
    }
}

// What hides the objects that cost nearly all of some persons the same, and 0 for others; nothing if those
// are few or nearly all.
fn keys_beside_padding<K: Number, R: Reading<K>>(
    alloc: Global,
    matrix: &Matrix<'_, K, R>,
) -> Result<Option<Vec<K>>, AllocError> {
    let mut same = vec![in alloc; 0usize; matrix.objects]?;
    for k in 1..ALIKE {
        let row = matrix.row(some_person(matrix, k, ALIKE));
        count_same(row, matrix.row(0), same.as_mut_slice());
    }
    let padding = same.iter().filter(|count| **count > NEARLY_ALL).count();
    if padding <= matrix.objects / 64 || padding > matrix.objects / 8 * 5 {
        return Ok(None);
    }
    Ok(Some(hide_padding(alloc, same.as_slice())?))
}

fn hide_padding<K: Number>(alloc: Global, same: &[usize]) -> Result<Vec<K>, AllocError> {
    let mut keys = Vec::with_capacity(alloc, same.len())?;
    for count in same {
        let is_padding = *count > NEARLY_ALL;
        keys.push(if is_padding { K::hidden() } else { K::zero() })?;
    }
    Ok(keys)
}

// Each person's least value, without what is hidden.
fn least_beside<K: Number, R: Reading<K>>(
    alloc: Global,
    matrix: &Matrix<'_, K, R>,
    keys: &[K],
) -> Result<Vec<K>, AllocError> {
    let mut least = Vec::with_capacity(alloc, matrix.persons)?;
    for k in 0..matrix.persons {
        let row = matrix.row(place_at(k));
        least.push(least_value(&matrix.reading, row, keys))?;
    }
    Ok(least)
}

// The least value of an object among some persons, and who has it, or nobody if several have.
#[derive(Clone, Copy)]
struct Nearest<K> {
    value: K,
    person: u32,
}

// The same with one more person, whose values of the objects are less by a number.
fn add_person<K: Number, R: Reading<K>>(
    reading: &R,
    costs: &[K],
    first: K,
    person: u32,
    nearest: &mut [Nearest<K>],
) {
    for (cost, one) in costs.iter().zip(nearest.iter_mut()) {
        let value = reading.value(*cost).minus(first);
        let is_nearer = value.is_below(one.value);
        let is_farther = one.value.is_below(value);
        let other = if is_farther { one.person } else { NOBODY };
        *one = Nearest {
            value: lesser(one.value, value),
            person: if is_nearer { person } else { other },
        };
    }
}

// How many persons have the least value of an object, where several count as one of its own.
fn count_nearest<K: Number>(alloc: Global, nearest: &[Nearest<K>]) -> Result<usize, AllocError> {
    let mut persons = Vec::with_capacity(alloc, OBJECTS)?;
    for one in nearest {
        let is_new = !persons.iter().any(|other| *other == one.person);
        if one.person == NOBODY || is_new {
            persons.push(one.person)?;
        }
    }
    Ok(persons.len())
}

// Whether a few persons have the least values of all objects, as some of these show.
fn is_crowded<K: Number, R: Reading<K>>(
    alloc: Global,
    matrix: &Matrix<'_, K, R>,
    firsts: &[K],
) -> Result<bool, AllocError> {
    let none = Nearest {
        value: K::far(),
        person: NOBODY,
    };
    let mut nearest = vec![in alloc; none; OBJECTS]?;
    let from = matrix.objects / 4;
    let to = from.saturating_add(OBJECTS);
    for (k, first) in firsts.iter().enumerate() {
        let person = place_at(k);
        let costs = matrix.row(person).get(from..to).unwrap_or(&[]);
        let slice = nearest.as_mut_slice();
        add_person(&matrix.reading, costs, *first, person, slice);
    }
    Ok(count_nearest(alloc, nearest.as_slice())? < OBJECTS / 8 * 5)
}

// Persons' least values, if these are reduced before those of objects; else 0. With more objects than persons
// nothing is reduced.
pub fn first_values<K: Number, R: Reading<K>>(
    alloc: Global,
    matrix: &Matrix<'_, K, R>,
) -> Result<Vec<K>, AllocError> {
    if matrix.persons < matrix.objects {
        return Ok(Vec::new(alloc));
    }
    let zeros = vec![in alloc; K::zero(); matrix.persons]?;
    if matrix.pairs() < LEAST_SAMPLED {
        return Ok(zeros);
    }
    if let Some(keys) = keys_beside_padding(alloc, matrix)? {
        return least_beside(alloc, matrix, keys.as_slice());
    }
    let is_far = is_mostly_far(matrix);
    if is_far || is_crowded(alloc, matrix, zeros.as_slice())? {
        let least = matrix.least_values(alloc)?;
        if is_far || !is_crowded(alloc, matrix, least.as_slice())? {
            return Ok(least);
        }
    }
    Ok(zeros)
}
