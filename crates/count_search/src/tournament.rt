// The column of the least price, for the dummy row: a tournament, whose leaves are columns.
use super::values::{FAR, count_at, price_at, set_count, set_price};
use search_base::place_at;
use std::alloc::{AllocError, Global};

#[derive(Drop)]
pub struct Tournament {
    // A power of 2, or 0 if there is no dummy.
    leaves: usize,
    winners: Vec<u32>,
    keys: Vec<i64>,
}

const DEPTH: usize = 64;

fn leaves_for(columns: usize) -> usize {
    let mut leaves = 1usize;
    for _doubling in 0..DEPTH {
        if leaves < columns {
            leaves = leaves.wrapping_mul(2);
        }
    }
    leaves
}

impl Tournament {
    /// One of so many columns, none of which can be had so far.
    pub fn new(alloc: Global, columns: usize, is_needed: bool) -> Result<Tournament, AllocError> {
        let leaves = if is_needed { leaves_for(columns) } else { 0 };
        let mut tournament = Tournament {
            leaves,
            winners: vec![in alloc; 0u32; leaves.wrapping_mul(2)]?,
            keys: vec![in alloc; FAR; leaves]?,
        };
        tournament.begin();
        Ok(tournament)
    }

    // Each node is won by its first leaf.
    fn begin(&mut self) {
        let count = self.winners.len();
        for turn in 0..count {
            let node = count.wrapping_sub(1).wrapping_sub(turn);
            let winner = if node >= self.leaves {
                place_at(node.wrapping_sub(self.leaves))
            } else {
                count_at(self.winners.as_slice(), node.wrapping_mul(2))
            };
            set_count(self.winners.as_mut_slice(), node, winner);
        }
    }

    #[inline(always)]
    fn key(&self, column: u32) -> i64 {
        price_at(self.keys.as_slice(), column as usize)
    }

    /// A column has this price now.
    pub fn play(&mut self, column: usize, key: i64) {
        if price_at(self.keys.as_slice(), column) == key || column >= self.leaves {
            return;
        }
        set_price(self.keys.as_mut_slice(), column, key);
        let mut node = self.leaves.wrapping_add(column) / 2;
        for _level in 0..DEPTH {
            if node == 0 {
                break;
            }
            let winner = self.winner_of(node);
            let is_same = count_at(self.winners.as_slice(), node) == winner;
            if is_same && winner as usize != column {
                break;
            }
            set_count(self.winners.as_mut_slice(), node, winner);
            node /= 2;
        }
    }

    #[inline(always)]
    fn winner_of(&self, node: usize) -> u32 {
        let left = count_at(self.winners.as_slice(), node.wrapping_mul(2));
        let right = count_at(
            self.winners.as_slice(),
            node.wrapping_mul(2).wrapping_add(1),
        );
        if self.key(right) < self.key(left) {
            right
        } else {
            left
        }
    }

    /// The column of the least price, and the price: `FAR` if there is none.
    pub fn best(&self) -> (usize, i64) {
        let column = count_at(self.winners.as_slice(), 1);
        (column as usize, self.key(column))
    }
}
