// More persons than objects: all persons, with all objects that anybody lists, are a Hall set.
use super::places::numbers_to;
use cost_lists::{Object, Pairs, Person};
use hungarian::HallSet;
use std::alloc::{AllocError, Global};

// All persons and all objects.
pub fn all_of_rows(alloc: Global, n: Person, m: Object) -> Result<HallSet, AllocError> {
    Ok(HallSet {
        persons: numbers_to(alloc, n)?,
        objects: numbers_to(alloc, m)?,
    })
}

fn mark_listed(marks: &mut [bool], objects: &[Object]) {
    for object in objects {
        if let Some(mark) = marks.get_mut(object.wrapping_sub(1) as usize) {
            *mark = true;
        }
    }
}

// The numbers of the marks that are set.
fn marked(alloc: Global, marks: &[bool]) -> Result<Vec<Object>, AllocError> {
    let mut objects = Vec::new(alloc);
    let mut number: Object = 0;
    for mark in marks {
        number = number.wrapping_add(1);
        if *mark {
            objects.push(number)?;
        }
    }
    Ok(objects)
}

// All persons, and the objects that anybody lists.
pub fn all_of_pairs(
    alloc: Global,
    n: Person,
    m: Object,
    pairs: Pairs<'_>,
) -> Result<HallSet, AllocError> {
    let mut marks = vec![in alloc; false; m as usize]?;
    mark_listed(marks.as_mut_slice(), pairs.objects);
    Ok(HallSet {
        persons: numbers_to(alloc, n)?,
        objects: marked(alloc, marks.as_slice())?,
    })
}
