// What a person sees at some prices: the value of a pair is its cost plus the object's price, and less
// is better.
use super::problem::Pair;
use search_base::{NOBODY, is_unowned};

/// No value of a pair is as great.
pub const FAR: i64 = 1 << 62;

/// The best object and the second best one, with their values.
#[derive(Clone, Copy)]
pub struct Two {
    pub object: u32,
    pub best: i64,
    pub other: u32,
    pub second: i64,
}

/// The least value, the value of the person's own object, and an unowned object with the least value.
#[derive(Clone, Copy)]
pub struct Look {
    pub least: i64,
    pub own: i64,
    pub unowned: u32,
}

#[inline(always)]
pub fn value(pair: Pair, prices: &[i64], shift: u32) -> i64 {
    match prices.get(pair.object as usize) {
        Some(price) => pair.cost.wrapping_shl(shift).wrapping_add(*price),
        None => FAR,
    }
}

impl Two {
    #[inline(always)]
    fn with(self, object: u32, value: i64) -> Two {
        if value >= self.second {
            return self;
        }
        if value < self.best {
            Two {
                object,
                best: value,
                other: self.object,
                second: self.best,
            }
        } else {
            Two {
                other: object,
                second: value,
                ..self
            }
        }
    }

    /// How much the best is better than the second best, if there is one.
    pub fn gap(self) -> Option<i64> {
        if self.second == FAR {
            None
        } else {
            Some(self.second.wrapping_sub(self.best))
        }
    }
}

#[inline(always)]
pub fn two_best(row: &[Pair], prices: &[i64], shift: u32) -> Two {
    let mut two = Two {
        object: NOBODY,
        best: FAR,
        other: NOBODY,
        second: FAR,
    };
    for pair in row {
        two = two.with(pair.object, value(*pair, prices, shift));
    }
    two
}

#[inline(always)]
pub fn least_value(row: &[Pair], prices: &[i64], shift: u32) -> i64 {
    let mut least = FAR;
    for pair in row {
        least = least.min(value(*pair, prices, shift));
    }
    least
}

/// The cost of an object, at its least; FAR if the row doesn't list it.
pub fn own_cost(row: &[Pair], object: u32) -> i64 {
    let mut least = FAR;
    for pair in row {
        if pair.object == object {
            least = least.min(pair.cost);
        }
    }
    least
}

impl Look {
    #[inline(always)]
    fn with(self, pair: Pair, value: i64, is_free: bool, own: u32) -> Look {
        let is_better = value < self.least;
        let unowned = if is_free && value <= self.least {
            pair.object
        } else if is_better {
            NOBODY
        } else {
            self.unowned
        };
        Look {
            least: self.least.min(value),
            own: if pair.object == own {
                self.own.min(value)
            } else {
                self.own
            },
            unowned,
        }
    }
}

/// What the owner of `own` sees.
pub fn look_at(row: &[Pair], prices: &[i64], owners: &[u32], shift: u32, own: u32) -> Look {
    let mut look = Look {
        least: FAR,
        own: FAR,
        unowned: NOBODY,
    };
    for pair in row {
        let is_free = is_unowned(owners, pair.object);
        look = look.with(*pair, value(*pair, prices, shift), is_free, own);
    }
    look
}
