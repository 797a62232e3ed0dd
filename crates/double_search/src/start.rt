// Where a search begins.
use super::best::least_of_row;
use super::bids::begin_with_least;
use super::lists::{Lists, NOBODY, at, fill, place_of, put};
use super::paths::Path;
use super::rows::Rows;
use super::scale::Scale;
use super::whole::FAR;

impl<'a> Lists<'a> {
    // Nobody has an object.
    pub fn release_all(&mut self) {
        fill(self.owners, NOBODY);
        fill(self.objects, NOBODY);
    }

    fn begin_duals(&mut self, rows: &Rows<'_>) {
        match rows {
            Rows::Listed(matrix) if !self.has_unowned() => {
                fill(self.duals, FAR);
                begin_with_least(matrix.costs, self.duals);
            }
            _ => fill(self.duals, 0),
        }
    }

    // A search from nothing, unless its paths can be expected to take more scans than so many.
    pub fn search_cold(&mut self, rows: &mut Rows<'_>, scale: Scale, most: usize) -> Path {
        self.release_all();
        self.begin_duals(rows);
        self.bid_all(rows);
        let path = self.augment_all(rows, most);
        self.with_margin(rows, scale, path)
    }

    // Whether a person's own object is a best one.
    fn is_settled(&self, rows: &mut Rows<'_>, person: usize, object: usize) -> bool {
        let row = rows.row(person);
        let duals = &*self.duals;
        let own = at(row, object).wrapping_sub(at(duals, object));
        own < FAR && own <= least_of_row(row, duals)
    }

    // Takes objects from the persons that have a better one, up to one more than so many. Returns from
    // how many.
    pub fn settle(&mut self, rows: &mut Rows<'_>, most: usize) -> usize {
        let mut count = 0usize;
        for person in 0..self.objects.len() {
            let own = at(self.objects, person);
            let object = place_of(own);
            if own != NOBODY && !self.is_settled(rows, person, object) {
                self.take(person);
                put(self.owners, object, NOBODY);
                count = count.wrapping_add(1);
                if count > most {
                    return count;
                }
            }
        }
        count
    }

    fn top_dual(&self) -> i64 {
        self.duals.iter().copied().max().unwrap_or(0)
    }

    // Whether no dual is above that of an unowned object.
    pub fn are_unowned_on_top(&self) -> bool {
        let top = self.top_dual();
        for (dual, owner) in self.duals.iter().zip(self.owners.iter()) {
            if *owner == NOBODY && *dual < top {
                return false;
            }
        }
        true
    }

    // A search from the duals and the plan that there are.
    pub fn search_warm(&mut self, rows: &mut Rows<'_>, scale: Scale) -> Path {
        let _ = self.settle(rows, usize::MAX);
        let path = self.augment_all(rows, usize::MAX);
        if path == Path::Found && !self.are_unowned_on_top() {
            return self.search_cold(rows, scale, usize::MAX);
        }
        self.with_margin(rows, scale, path)
    }

    // Other duals with a margin, where a plan was found.
    pub fn with_margin(&mut self, rows: &mut Rows<'_>, scale: Scale, path: Path) -> Path {
        if path == Path::Found {
            let _ = self.spread(rows, scale, 0);
        }
        path
    }

    // Whether each person has an object, and no dual is above that of an unowned object.
    fn are_all_right(&self) -> bool {
        self.count_left() == 0 && self.are_unowned_on_top()
    }

    // Gives all unowned objects one dual.
    fn put_unowned(&mut self, all: i64) {
        let duals = &mut *self.duals;
        let owners = &mut *self.owners;
        for (dual, owner) in duals.iter_mut().zip(owners.iter()) {
            if *owner == NOBODY {
                *dual = all;
            }
        }
    }

    // Exact duals for the owned objects alone, from those that there are: paths that end at other
    // objects could leave these unowned below the greatest dual.
    fn search_owned(&mut self, rows: &mut Rows<'_>) {
        self.put_unowned(FAR.wrapping_neg());
        let _ = self.settle(rows, usize::MAX);
        let _ = self.augment_all(rows, usize::MAX);
        let top = self.top_dual();
        self.put_unowned(top);
    }

    // The duals that there are if they are exact, or those of a search from there.
    pub fn search_near(&mut self, rows: &mut Rows<'_>, scale: Scale) -> Path {
        let has_unowned = self.has_unowned();
        if has_unowned {
            self.search_owned(rows);
        }
        let is_exact = self.settle(rows, usize::MAX) == 0 && self.are_all_right();
        if is_exact && !has_unowned {
            return Path::Found;
        }
        if is_exact {
            return self.with_margin(rows, scale, Path::Found);
        }
        self.search_warm(rows, scale)
    }

    // Paths from few persons without an object, at most a sixteenth of all or one, where the others
    // keep a best one. Says how that ended, unless there is more to do.
    pub fn search_few(&mut self, rows: &mut Rows<'_>, scale: Scale) -> Option<Path> {
        if self.count_left() > (self.objects.len() / 16).max(1) {
            return None;
        }
        match self.augment_all(rows, usize::MAX) {
            Path::Found if self.are_unowned_on_top() && self.spread(rows, scale, 0) => {
                Some(Path::Found)
            }
            Path::None(turns) => Some(Path::None(turns)),
            _ => None,
        }
    }

    // Gives persons the objects with these numbers, each object once.
    pub fn enter(&mut self, objects: &[u32]) {
        self.release_all();
        for (person, number) in objects.iter().enumerate() {
            let object = (*number as usize).wrapping_sub(1);
            if *number != 0 && object < self.owners.len() && at(self.owners, object) == NOBODY {
                self.give(person, object);
            }
        }
    }
}
