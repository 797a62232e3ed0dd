// How listed costs are read: as numbers of which the least is best.

pub trait Reading<K>: Drop {
    fn value(&self, cost: K) -> K;
}

// Costs to minimise.
#[derive(Drop)]
pub struct AsCosts;

impl<K> Reading<K> for AsCosts {
    fn value(&self, cost: K) -> K {
        cost
    }
}

// Costs to maximise. The complement of a cost is one below the negated cost, for each pair alike.
#[derive(Drop)]
pub struct AsGains;

impl Reading<i64> for AsGains {
    fn value(&self, cost: i64) -> i64 {
        !cost
    }
}

// What another reading gives, times a power of 2: prices can then lie between whole costs.
#[derive(Drop)]
pub struct Magnified<'a, R> {
    pub reading: &'a R,
    pub shift: u32,
}

impl<R: Reading<i64>> Reading<i64> for Magnified<'_, R> {
    fn value(&self, cost: i64) -> i64 {
        self.reading.value(cost).wrapping_shl(self.shift)
    }
}
