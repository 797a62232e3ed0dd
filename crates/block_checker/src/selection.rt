// Which numbers of a row are its least ones. Nothing of it has to be right: each pair is looked at once more
// before it is written.
use std::alloc::{AllocError, Global};

// At least so many lanes has a row, if it has as many numbers.
const LANES: usize = 64;

// So often a range of numbers is halved before they are partly sorted.
const HALVINGS: usize = 12;

/// A pair by its places: the place of its person and that of its cost in the person's row, or the place
/// of a listed pair.
#[derive(Clone, Copy)]
pub struct Selected {
    pub row: usize,
    pub at: usize,
}

/// What the search of one row after another needs.
#[derive(Drop)]
pub struct Selection {
    /// A bit for each number of the row, 64 a word: whether it is up to a bound.
    pub words: Vec<u64>,
    /// How many of them are.
    pub found: usize,
    /// Their places, rising; what follows them has no meaning.
    pub places: Vec<usize>,
    /// Their numbers, of their places.
    pub numbers: Vec<i64>,
    // Numbers that are partly sorted.
    few: Vec<i64>,
}

// The numbers below a bound, and so many that equal it.
#[derive(Clone, Copy)]
struct Cut {
    bound: i64,
    equal: usize,
}

// Lowers each lane to its numbers: those whose places differ by multiples of the count of lanes.
fn lower(lanes: &mut [i64], numbers: &[i64]) {
    let mut rest = numbers;
    for _ in 0..numbers.len() {
        if rest.is_empty() {
            break;
        }
        let (some, others) = rest.split_at(lanes.len().min(rest.len()));
        rest = others;
        for (lane, number) in lanes.iter_mut().zip(some.iter()) {
            *lane = (*lane).min(*number);
        }
    }
}

// The number that a sort would put at a place, or the greatest one if there is none.
fn nth(numbers: &mut [i64], place: usize) -> i64 {
    if place >= numbers.len() {
        return i64::MAX;
    }
    let (_, number, _) = numbers.select_nth_unstable(place);
    *number
}

// How many numbers are up to a bound.
fn count_up_to(numbers: &[i64], bound: i64) -> usize {
    let mut count = 0usize;
    for number in numbers.iter() {
        count = count.wrapping_add(usize::from(*number <= bound));
    }
    count
}

// Halves a range of numbers, from the least one to one that at least `most` are up to, until it finds the cut.
fn halved(numbers: &[i64], most: usize, least: i64, bound: i64) -> Option<Cut> {
    let (mut low, mut high, mut below) = (least.wrapping_sub(1), bound, 0usize);
    for _ in 0..HALVINGS {
        let middle = low.wrapping_add(high.wrapping_sub(low) >> 1);
        if middle == low {
            let equal = most.wrapping_sub(below);
            return Some(Cut { bound: high, equal });
        }
        let count = count_up_to(numbers, middle);
        if count == most {
            return Some(Cut {
                bound: middle,
                equal: most,
            });
        }
        let is_low = count < most;
        low = if is_low { middle } else { low };
        below = if is_low { count } else { below };
        high = if is_low { high } else { middle };
    }
    None
}

// The word of 64 numbers at most.
fn word_up_to(numbers: &[i64], bound: i64) -> u64 {
    let (mut word, mut bit) = (0u64, 1u64);
    for number in numbers.iter() {
        if *number <= bound {
            word |= bit;
        }
        bit = bit.wrapping_add(bit);
    }
    word
}

// Sets the words of numbers up to a bound.
fn set_words(words: &mut [u64], numbers: &[i64], bound: i64) {
    let mut rest = numbers;
    for word in words.iter_mut() {
        let (some, others) = rest.split_at(64usize.min(rest.len()));
        rest = others;
        *word = word_up_to(some, bound);
    }
}

// Writes the places of the first bits of a word, and says how many. What is written after them has no meaning.
fn write_places(places: &mut [usize], from: usize, word: u64) -> (usize, u64) {
    let (mut count, mut rest) = (0usize, word);
    for place in places.iter_mut() {
        *place = from.wrapping_add(rest.trailing_zeros() as usize);
        count = count.wrapping_add(usize::from(rest != 0));
        rest &= rest.wrapping_sub(1);
    }
    (count, rest)
}

// Writes the places of all bits, four at a time, and says how many; or none if there is no room.
fn places_of(places: &mut [usize], words: &[u64]) -> Option<usize> {
    let (mut from, mut count) = (0usize, 0usize);
    for word in words.iter() {
        let mut rest = *word;
        for _ in 0..16usize {
            if rest == 0 {
                break;
            }
            let end = count.wrapping_add(4);
            if end < count || end > places.len() {
                return None;
            }
            let (some, others) = write_places(&mut places[count..end], from, rest);
            count = count.wrapping_add(some);
            rest = others;
        }
        from = from.wrapping_add(64);
    }
    Some(count)
}

// Writes the places of a cut into the room for them. What is written after them has no meaning.
fn write_cut(room: &mut [Selected], places: &[usize], numbers: &[i64], cut: Cut) {
    let (mut count, mut equal) = (0usize, cut.equal);
    for (place, number) in places.iter().zip(numbers.iter()) {
        if let Some(one) = room.get_mut(count) {
            one.at = *place;
        }
        let is_equal = (*number == cut.bound) & (equal > 0);
        equal = equal.wrapping_sub(usize::from(is_equal));
        count = count.wrapping_add(usize::from((*number < cut.bound) | is_equal));
    }
}

/// So many numbers of a row may be found by a guess.
pub fn room_for(most: usize) -> usize {
    most.saturating_mul(8).saturating_add(64)
}

impl Selection {
    /// Nothing is found yet.
    pub fn new(alloc: Global) -> Selection {
        Selection {
            words: Vec::new(alloc),
            found: 0,
            places: Vec::new(alloc),
            numbers: Vec::new(alloc),
            few: Vec::new(alloc),
        }
    }

    /// Takes these numbers with their places as found.
    pub fn take(&mut self, places: &[usize], numbers: &[i64]) -> Result<(), AllocError> {
        self.places.clear();
        self.places.extend_from_slice(places)?;
        self.numbers.clear();
        self.numbers.extend_from_slice(numbers)?;
        self.found = numbers.len();
        Ok(())
    }

    /// Makes words for so many numbers, whose bits have no meaning.
    pub fn resize(&mut self, count: usize) -> Result<(), AllocError> {
        self.words.resize((count / 64).wrapping_add(1), 0)
    }

    /// Finds the places of the words' bits, if they are no more than the room.
    pub fn find(&mut self, room: usize) -> Result<bool, AllocError> {
        // Four are written at a time.
        let room = room.saturating_add(4);
        if self.places.len() < room {
            self.places.resize(room, 0)?;
        }
        let length = room.min(self.places.len());
        let (places, _) = self.places.as_mut_slice().split_at_mut(length);
        match places_of(places, self.words.as_slice()) {
            Some(found) => {
                self.found = found;
                Ok(true)
            }
            None => Ok(false),
        }
    }

    // A bound, at most a limit, up to which there are at least `most` numbers, if so many are up to the limit.
    fn bound_of(&mut self, numbers: &[i64], limit: i64, most: usize) -> Result<i64, AllocError> {
        if numbers.len() <= most {
            return Ok(limit);
        }
        let lanes = LANES.max(most.saturating_mul(2)).min(numbers.len());
        self.few.clear();
        self.few.resize(lanes, i64::MAX)?;
        lower(self.few.as_mut_slice(), numbers);
        Ok(nth(self.few.as_mut_slice(), most.wrapping_sub(1)).min(limit))
    }

    /// Finds at least `most` of a row's numbers, the least ones up to a limit, or all that there are. The bound that
    /// it took.
    pub fn find_least(
        &mut self,
        numbers: &[i64],
        limit: i64,
        most: usize,
    ) -> Result<i64, AllocError> {
        let bound = self.bound_of(numbers, limit, most)?;
        self.resize(numbers.len())?;
        set_words(self.words.as_mut_slice(), numbers, bound);
        let _all = self.find(numbers.len())?;
        Ok(bound)
    }

    // Cuts off the `most` least numbers. They lie from the least one to a bound.
    fn cut_off(&mut self, most: usize, least: i64, bound: i64) -> Result<Cut, AllocError> {
        if let Some(cut) = halved(self.numbers.as_slice(), most, least, bound) {
            return Ok(cut);
        }
        self.few.clear();
        self.few.extend_from_slice(self.numbers.as_slice())?;
        let bound = nth(self.few.as_mut_slice(), most.wrapping_sub(1));
        let below = count_up_to(self.few.as_slice(), bound.saturating_sub(1));
        Ok(Cut {
            bound,
            equal: most.wrapping_sub(below),
        })
    }

    /// Adds the places of the `most` least ones of the found numbers, of equal ones the first, or of all of them if
    /// they are no more. The greatest of those numbers, or one a little above, if it was cut off there.
    pub fn add_to(
        &mut self,
        selected: &mut Vec<Selected>,
        row: usize,
        most: usize,
        least: i64,
        bound: i64,
    ) -> Result<Option<i64>, AllocError> {
        let start = selected.len();
        if self.found <= most {
            for at in self.places.iter().take(self.found) {
                selected.push(Selected { row, at: *at })?;
            }
            return Ok(None);
        }
        let cut = self.cut_off(most, least, bound)?;
        let end = start.saturating_add(most);
        selected.resize(end.saturating_add(1), Selected { row, at: 0 })?;
        let start = start.min(selected.len());
        let (_, room) = selected.as_mut_slice().split_at_mut(start);
        write_cut(room, self.places.as_slice(), self.numbers.as_slice(), cut);
        selected.truncate(end);
        Ok(Some(cut.bound))
    }
}
