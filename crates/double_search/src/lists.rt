// The lists of a search, and single places of them. A place that isn't there reads as nobody, and
// takes no number.
pub const NOBODY: i64 = -1;

// The cost of each pair of a person and one of m objects, row by row.
#[derive(Clone, Copy)]
pub struct Matrix<'a> {
    pub m: usize,
    pub costs: &'a [i64],
}

#[derive(Drop)]
pub struct Lists<'a> {
    // Of each object: its dual, its key in a search, its distance, and its owner.
    pub duals: &'a mut [i64],
    pub keys: &'a mut [i64],
    pub distances: &'a mut [i64],
    pub owners: &'a mut [i64],
    // The turn in which its distance was found, in a search over cheap pairs.
    pub turns: &'a mut [i64],
    // The least distance of each block of objects.
    pub blocks: &'a mut [i64],
    // Of each person: its object.
    pub objects: &'a mut [i64],
    // Of a search: the objects of known distance, their distances, the persons that were scanned,
    // and what is taken from their costs.
    pub passed: &'a mut [i64],
    pub levels: &'a mut [i64],
    pub scanned: &'a mut [i64],
    pub bases: &'a mut [i64],
    // The near pairs: where those of a person begin, the owners of their objects, and by how much
    // more they are worse than they have to be; and how far a person's own value may rise.
    pub starts: &'a mut [i64],
    pub near: &'a mut [i64],
    pub spare: &'a mut [i64],
    pub caps: &'a mut [i64],
    // The persons that were scanned in all searches for paths.
    pub scans: usize,
}

pub fn at(list: &[i64], place: usize) -> i64 {
    list.get(place).copied().unwrap_or(NOBODY)
}

pub fn put(list: &mut [i64], place: usize, value: i64) {
    if place < list.len() {
        list[place] = value;
    }
}

// The place of a number that isn't negative.
pub fn place_of(number: i64) -> usize {
    (number.cast_unsigned() & 0xffff_ffff) as usize
}

pub fn number_of(place: usize) -> i64 {
    (place as u64).cast_signed()
}

pub fn fill(list: &mut [i64], value: i64) {
    for k in 0..list.len() {
        list[k] = value;
    }
}

pub fn copy(from: &[i64], to: &mut [i64]) {
    if from.len() == to.len() {
        to.copy_from_slice(from);
    }
}

impl<'a> Matrix<'a> {
    // The costs of a person.
    pub fn row(self, person: usize) -> &'a [i64] {
        let from = person.wrapping_mul(self.m);
        self.costs
            .get(from..from.wrapping_add(self.m))
            .unwrap_or(&[])
    }

    pub fn cost(self, person: usize, object: usize) -> i64 {
        at(self.row(person), object)
    }
}

impl<'a> Lists<'a> {
    pub fn persons(&self) -> usize {
        self.objects.len()
    }

    // Gives a person an object; its earlier owner, if there is one, keeps its place.
    pub fn give(&mut self, person: usize, object: usize) {
        put(self.objects, person, number_of(object));
        put(self.owners, object, number_of(person));
    }

    // Takes its object from a person.
    pub fn take(&mut self, person: usize) {
        put(self.objects, person, NOBODY);
    }

    // How many persons have no object.
    pub fn count_left(&self) -> usize {
        let left = self.objects.iter().filter(|object| **object == NOBODY);
        left.count()
    }

    pub fn has_unowned(&self) -> bool {
        self.owners.len() > self.objects.len()
    }
}
