// The numbers of a list line: their count, and then the numbers, rising.
ghost use Rattle.std.specs.Prelude.{◌≡◌, IfOk, map};
ghost use Rattle.std.specs.Option.{option_map};
ghost use Rattle.report.specs.inside.Reading.{read_list, read_rising};

use crate::numerals::number_in;
use crate::words::Words;
use assign_core::Numbered;
use std::alloc::{AllocError, Global};

// The numbers up to the last word, if they rise.
fn rising<N: Numbered>(alloc: Global, words: &mut Words) -> Result<Option<Vec<N>>, AllocError>
    ensures { IfOk result
        (λ x. option_map (λ v. map N.number_of v.items) x ≡ read_rising 0 words.old) }
{
    let mut numbers = Vec::new(alloc);
    let mut last = 0;
    while let Some(word) = words.next() {
        let Some(number) = number_in(word) else {
            return Ok(None);
        };
        if number <= last {
            return Ok(None);
        }
        numbers.push(N::with_number(number))?;
        last = number;
    }
    Ok(Some(numbers))
}

/// The numbers of a list line, from the words after its first one.
///
/// # Errors
/// `AllocError` if memory is refused.
#[tactic(auto, unfolding(crate::specs::inside::Reading::read_list))]
pub fn list_in<N: Numbered>(alloc: Global, words: &mut Words) -> Result<Option<Vec<N>>, AllocError>
    ensures { IfOk result (λ x. option_map (λ v. map N.number_of v.items) x ≡ read_list words.old) }
{
    let Some(count) = words.number() else {
        return Ok(None);
    };
    let Some(numbers) = rising(alloc, words)? else {
        return Ok(None);
    };
    if numbers.len() == count as usize {
        Ok(Some(numbers))
    } else {
        Ok(None)
    }
}
