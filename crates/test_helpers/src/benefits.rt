// Benefits in wide numbers, for plain transcriptions.
use super::problems::Pair;
use assign_core::Sense;
use std::alloc::{AllocError, Global};

/// The benefits of these pairs, row by row; `None` for a pair that isn't listed.
pub fn plain_benefits(
    alloc: Global,
    n: u16,
    pairs: &[Pair],
    sense: Sense,
) -> Result<Vec<Option<i128>>, AllocError> {
    let wide = n as usize;
    let factor: i128 = match sense {
        Sense::Min => -(i128::from(n) + 1),
        Sense::Max => i128::from(n) + 1,
    };
    let mut benefits = vec![in alloc; None; wide * wide]?;
    for (person, object, cost) in pairs {
        let at = (*person as usize)
            .wrapping_sub(1)
            .wrapping_mul(wide)
            .wrapping_add(*object as usize)
            .wrapping_sub(1);
        if let Some(place) = benefits.get_mut(at) {
            *place = Some(factor.wrapping_mul(i128::from(*cost)));
        }
    }
    Ok(benefits)
}

/// The least benefit, and the spread.
pub fn benefit_range(benefits: &[Option<i128>]) -> (i128, i128) {
    let mut least = None;
    let mut most = None;
    for benefit in benefits {
        if let Some(benefit) = *benefit {
            least = Some(benefit.min(least.unwrap_or(benefit)));
            most = Some(benefit.max(most.unwrap_or(benefit)));
        }
    }
    let least = least.unwrap_or(0);
    (least, most.unwrap_or(0).wrapping_sub(least))
}
