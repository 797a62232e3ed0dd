// How far cores have come: whether a larger one follows, or another search.
use super::pricing::Better;
use super::record::Ended;

// More persons than a half are most, and more than this part are many. All but a small part are nearly
// all.
const MOST: u64 = 2;

const MANY: u64 = 8;

const FEW: u64 = 16;

// A first core that takes more arc scans than this for each of its pairs is hard: searches along paths
// gave way to bids there, as among points of the plane. A search over all pairs would take far longer
// then than larger cores do.
const HARD_PASSES: u64 = 24;

#[derive(Clone, Copy)]
pub struct Course {
    all_persons: u64,
    // Whether searches over a copy can follow.
    may_copy: bool,
    is_hard: bool,
    // After the last pass, how many persons had better pairs, and the sum of what each would gain.
    persons: u64,
    gains: i64,
}

impl Course {
    pub fn begin(persons: usize, may_copy: bool) -> Course {
        Course {
            all_persons: persons as u64,
            may_copy,
            is_hard: false,
            persons: 0,
            gains: 0,
        }
    }

    // After a core is solved: the first one shows whether it's hard.
    pub fn note_core(&mut self, pairs: usize, arc_scans: u64) {
        if self.persons == 0 {
            self.is_hard = arc_scans > (pairs as u64).saturating_mul(HARD_PASSES);
        }
    }

    // After a pass from which larger cores go on.
    pub fn note_pass(&mut self, better: &Better) {
        self.persons = better.persons;
        self.gains = better.gains;
    }

    fn has_over(self, better: &Better, part: u64) -> bool {
        better.persons.saturating_mul(part) > self.all_persons
    }

    // Whether most persons have better pairs.
    pub fn has_most(self, better: &Better) -> bool {
        self.has_over(better, MOST)
    }

    // Whether cores by the same measure go on to be right, though most persons have better pairs.
    fn is_promising(self, better: &Better) -> bool {
        let nearly_all = self.all_persons.saturating_sub(self.all_persons / FEW);
        self.is_hard && better.persons < nearly_all
    }

    // Whether fewer persons have better pairs than before. Of a promising core it's enough if they are
    // a half at most, or would gain less.
    fn comes_nearer(self, better: &Better) -> bool {
        let gain_less = !self.has_most(better) || better.gains < (self.gains / 5).saturating_mul(3);
        better.persons < self.persons / 5 * 3 || (self.is_promising(better) && gain_less)
    }

    // How cores end, where they come no nearer. Searches over a copy, if they can follow, are faster for
    // many persons, and an auction for most; few are assigned at the prices of the core.
    pub fn end(self, better: &Better) -> Option<Ended> {
        if self.persons == 0 {
            let is_long = self.may_copy && self.has_most(better) && !self.is_promising(better);
            return is_long.then_some(Ended::Long);
        }
        if self.comes_nearer(better) {
            return None;
        }
        let part = if self.may_copy { MANY } else { MOST };
        Some(if self.has_over(better, part) {
            Ended::Long
        } else {
            Ended::Near
        })
    }
}
