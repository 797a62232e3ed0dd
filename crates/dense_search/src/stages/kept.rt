// Prices and objects that wait while another stage works.
use super::super::market::Market;
use super::Work;
use std::alloc::{AllocError, Global};

// Prices and objects of another stage.
#[derive(Drop)]
pub struct Kept {
    prices: Vec<i64>,
    objects: Vec<u32>,
}

impl Kept {
    pub fn of(alloc: Global, market: &Market<'_, i64>) -> Result<Kept, AllocError> {
        Ok(Kept {
            prices: market.prices.to_vec(alloc)?,
            objects: market.objects.to_vec(alloc)?,
        })
    }

    // Changes places with those of the market.
    fn swap(&mut self, market: &mut Market<'_, i64>) {
        swap(market.prices, self.prices.as_mut_slice());
        swap(market.objects, self.objects.as_mut_slice());
        market.enter_objects();
    }
}

fn swap<T: Copy + Drop>(some: &mut [T], others: &mut [T]) {
    for (one, other) in some.iter_mut().zip(others.iter_mut()) {
        let before = *one;
        *one = *other;
        *other = before;
    }
}

impl<'a> Work<'a> {
    // Changes places with what is kept. Returns whether anything is.
    pub fn swap_kept(&mut self) -> bool {
        match &mut self.kept {
            Some(kept) => {
                kept.swap(&mut self.market);
                true
            }
            None => false,
        }
    }
}
