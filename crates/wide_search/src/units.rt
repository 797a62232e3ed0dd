// Wide costs as ones to minimise, in a unit.
use assign_core::Sense;
use wide_checker::Wide;

/// The search over 64 bits takes costs of so many bits.
pub const LEVEL_BITS: u32 = 39;

const MOST_COST: i128 = 1 << LEVEL_BITS;

const WIDTH: u32 = 128;

/// How costs are read: turned under `Max`, and without so many zeros at the end.
#[derive(Clone, Copy)]
pub struct Unit {
    pub sense: Sense,
    pub zeros: u32,
}

impl Unit {
    /// The cost as one to minimise, in this unit.
    pub fn cost(self, cost: Wide) -> i128 {
        let value = cost.value().wrapping_shr(self.zeros);
        match self.sense {
            Sense::Min => value,
            Sense::Max => value.wrapping_neg(),
        }
    }
}

// The bits that the sizes of some costs have.
fn bits_of(costs: &[Wide]) -> u128 {
    let mut bits = 0u128;
    for cost in costs {
        bits |= cost.value().unsigned_abs();
    }
    bits
}

/// How many bits a size has.
pub fn length_of(size: u128) -> u32 {
    WIDTH.wrapping_sub(size.leading_zeros())
}

/// The unit of some costs, the greatest power of two that divides all, and how far they are to be
/// shifted for the first level.
pub fn unit_of(sense: Sense, costs: &[Wide]) -> (Unit, u32) {
    let bits = bits_of(costs);
    if bits == 0 {
        return (Unit { sense, zeros: 0 }, 0);
    }
    let zeros = bits.trailing_zeros();
    let length = length_of(bits).saturating_sub(zeros);
    (Unit { sense, zeros }, length.saturating_sub(LEVEL_BITS))
}

/// A wide number divided by a power of two and rounded down, or the nearest number that a level may have.
pub fn shifted(value: i128, shift: u32) -> i64 {
    value.wrapping_shr(shift).max(-MOST_COST).min(MOST_COST) as i64
}
