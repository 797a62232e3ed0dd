// The search for a shortest path from a person without an object to an unowned object (Dijkstra's;
// Edmonds and Karp 1972, Tomizawa 1971).
use super::market::Market;
use super::matrix::Matrix;
use super::number::Number;
use super::reading::Reading;
use super::rows::{BLOCK, is_any_below};
use super::tree::{Label, Scanned, Tree};
use search_base::{ArcScans, NOBODY, put};
use std::alloc::{AllocError, Global};

// The prices of objects, or what is far where an object is passed, and the paths.
#[derive(Drop)]
pub struct Search<K> {
    keys: Vec<K>,
    tree: Tree<K>,
    // The objects that nobody owned as the searches began.
    unowned: Vec<u32>,
    // Whether a price has left the room for sums.
    pub is_beyond: bool,
}

// Reaches objects from a person, as far as they are nearer than the best end.
fn scan_row<K: Number, R: Reading<K>>(
    tree: &mut Tree<K>,
    market: &Market<'_, K>,
    reading: &R,
    row: &[K],
    keys: &[K],
    one: Scanned<K>,
) -> Result<(), AllocError> {
    let mut at = 0usize;
    for (costs, keys) in row.chunks(BLOCK).zip(keys.chunks(BLOCK)) {
        let limit = tree.best.minus(one.base);
        if is_any_below(reading, costs, keys, limit) {
            tree.reach_block(market, reading, costs, keys, at, one)?;
            if !tree.level.is_below(tree.best) {
                return Ok(());
            }
        }
        at = at.wrapping_add(BLOCK);
    }
    Ok(())
}

// Raises the prices of passed objects up to the distance of the end. Returns whether one leaves the
// room for sums.
fn raise<K: Number>(tree: &Tree<K>, market: &mut Market<'_, K>) -> bool {
    let mut is_beyond = false;
    for object in &tree.passed {
        let distance = tree.label(*object).distance;
        if distance.is_below(tree.best) {
            market.raise(*object, tree.best.minus(distance));
            is_beyond = is_beyond || !market.price(*object).is_below(K::limit());
        }
    }
    is_beyond
}

impl<K: Number> Search<K> {
    pub fn new(alloc: Global, market: &Market<'_, K>) -> Result<Search<K>, AllocError> {
        Ok(Search {
            keys: market.prices.to_vec(alloc)?,
            tree: Tree::new(alloc, market.prices.len())?,
            unowned: market.unowned(alloc)?,
            is_beyond: false,
        })
    }

    // Shows the passed objects again, at their prices.
    fn show(&mut self, market: &Market<'_, K>) {
        for object in &self.tree.passed {
            let at = *object as usize;
            if at < self.keys.len() {
                self.keys[at] = market.price(*object);
            }
        }
    }

    // Hides the passed objects from this one on.
    fn hide(&mut self, from: usize) {
        for object in self.tree.passed.iter().skip(from) {
            let at = *object as usize;
            if at < self.keys.len() {
                self.keys[at] = K::hidden();
            }
        }
    }

    // The nearest unowned object seen from the first person bounds the search. Where most objects
    // are unowned a scan finds it as fast.
    fn look_at_unowned<R: Reading<K>>(
        &mut self,
        matrix: &Matrix<'_, K, R>,
        market: &Market<'_, K>,
        person: u32,
    ) -> Result<(), AllocError> {
        if self.unowned.len() > matrix.objects / 4 {
            return Ok(());
        }
        let row = matrix.row(person);
        let mut best = K::far();
        let mut end = NOBODY;
        for object in &self.unowned {
            let cost = row.get(*object as usize).copied().unwrap_or(K::far());
            let value = matrix.reading.value(cost).plus(market.price(*object));
            if value.is_below(best) && market.owner(*object) == NOBODY {
                best = value;
                end = *object;
            }
        }
        let came = Label {
            distance: best,
            from: person,
        };
        self.tree.reach(market, end as usize, came)
    }

    fn scan<R: Reading<K>>(
        &mut self,
        matrix: &Matrix<'_, K, R>,
        market: &Market<'_, K>,
        one: Scanned<K>,
        arc_scans: &mut ArcScans,
    ) -> Result<(), AllocError> {
        let hidden = self.tree.passed.len();
        let row = matrix.row(one.person);
        let keys = self.keys.as_slice();
        scan_row(&mut self.tree, market, &matrix.reading, row, keys, one)?;
        self.hide(hidden);
        arc_scans.add(row.len());
        Ok(())
    }

    // Whether an object waits whose owner is to be scanned in this turn.
    fn goes_on(&mut self, turn: usize) -> Result<bool, AllocError> {
        if !self.tree.level.is_below(self.tree.best) {
            return Ok(false);
        }
        let hidden = self.tree.passed.len();
        if hidden <= turn {
            self.tree.pass_next(self.keys.as_slice())?;
            self.hide(hidden);
        }
        Ok(turn < self.tree.passed.len())
    }

    // The owner of the object that was passed in this turn.
    fn owner_in<R: Reading<K>>(
        &self,
        matrix: &Matrix<'_, K, R>,
        market: &Market<'_, K>,
        turn: usize,
    ) -> Scanned<K> {
        let object = self.tree.passed.get(turn).copied().unwrap_or(NOBODY);
        let person = market.owner(object);
        let own = matrix.value(person, object).plus(market.price(object));
        let distance = self.tree.label(object).distance;
        Scanned {
            person,
            base: distance.minus(own),
        }
    }

    // Scans the owners of passed objects, until no path can be shorter than the best one.
    fn follow<R: Reading<K>>(
        &mut self,
        matrix: &Matrix<'_, K, R>,
        market: &Market<'_, K>,
        arc_scans: &mut ArcScans,
    ) -> Result<(), AllocError> {
        for turn in 0..matrix.objects {
            if !self.goes_on(turn)? {
                return Ok(());
            }
            let one = self.owner_in(matrix, market, turn);
            self.scan(matrix, market, one, arc_scans)?;
        }
        Ok(())
    }

    // Gives each person on the way back from the end the object that was reached from it. The last
    // person had no object; or an object was reached from nobody, and becomes unowned.
    fn walk_back(&self, market: &mut Market<'_, K>) {
        let mut object = self.tree.end;
        for _ in 0..self.tree.labels.len() {
            let person = self.tree.label(object).from;
            if person == NOBODY {
                put(market.owners.as_mut_slice(), object, NOBODY);
                return;
            }
            let left = market.object(person);
            market.give(object, person);
            if left == NOBODY {
                return;
            }
            object = left;
        }
    }

    // Changes prices and owners by what was found. Returns whether an end was found.
    fn finish(&mut self, market: &mut Market<'_, K>) -> bool {
        let is_found = self.tree.end != NOBODY;
        if is_found {
            self.is_beyond = raise(&self.tree, market) || self.is_beyond;
            self.walk_back(market);
        }
        self.show(market);
        self.tree.clear();
        is_found
    }

    // Gives one more person an object, if it reaches an unowned one.
    pub fn augment<R: Reading<K>>(
        &mut self,
        matrix: &Matrix<'_, K, R>,
        market: &mut Market<'_, K>,
        person: u32,
        arc_scans: &mut ArcScans,
    ) -> Result<bool, AllocError> {
        self.look_at_unowned(matrix, market, person)?;
        self.scan(
            matrix,
            market,
            Scanned {
                person,
                base: K::zero(),
            },
            arc_scans,
        )?;
        self.follow(matrix, market, arc_scans)?;
        Ok(self.finish(market))
    }

    // A search from a dummy person, for which all objects cost nothing: an unowned object whose
    // price is above the least one gets an owner, or the least price rises to its price. Returns
    // whether there was one.
    pub fn lower_one<R: Reading<K>>(
        &mut self,
        matrix: &Matrix<'_, K, R>,
        market: &mut Market<'_, K>,
        arc_scans: &mut ArcScans,
    ) -> Result<bool, AllocError> {
        self.tree.floor = market.least_price();
        for k in 0..self.keys.len() {
            if self.keys[k].is_below(self.tree.best) {
                let came = Label {
                    distance: self.keys[k],
                    from: NOBODY,
                };
                self.tree.reach(market, k, came)?;
            }
        }
        arc_scans.add(self.keys.len());
        if self.tree.end == NOBODY {
            self.tree.clear();
            return Ok(false);
        }
        self.follow(matrix, market, arc_scans)?;
        Ok(self.finish(market))
    }
}
