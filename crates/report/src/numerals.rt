// Numbers in words. The value of a word's bytes is computed, written in digits and compared with
// the word, so that each number has only one form.
ghost use Rattle.std.specs.Prelude.{◌≡◌, ◌≤◌, length, IfSome};
ghost use Rattle.report.specs.inside.Numerals;
ghost use Rattle.report.specs.inside.Numerals.{value_after};

use assign_core::{Cost, GREATEST_COST, MOST_PERSONS, PRICE_END, Price};
use itoa::Buffer;

/// No number of a report has more digits than this.
pub const MOST_DIGITS: usize = 22;

// The value of a short word as digits, whatever its bytes are.
fn value_of(word: &[u8]) -> u128
    requires { length word.now ≤ MOST_DIGITS }
    ensures { result ≡ value_after 0 word.now }
{
    let mut value: u128 = 0;
    for b in word {
        value = value * 10 + u128::from(b.saturating_sub(b'0'));
    }
    value
}

// The number whose digits are this word.
#[tactic(auto, unfolding(crate::specs::inside::Numerals::numeral_in))]
fn numeral_in(word: &[u8]) -> Option<u128>
    ensures { result ≡ Numerals.numeral_in word.now }
{
    if word.len() > MOST_DIGITS {
        return None;
    }
    let value = value_of(word);
    let mut buffer = Buffer::new();
    if word == buffer.format(value).as_bytes() {
        Some(value)
    } else {
        None
    }
}

// The number whose digits are this word, if it is at most `most`.
fn numeral_within(most: u128, word: &[u8]) -> Option<u128>
    ensures value { result ≡ Numerals.numeral_within most word.now }
    ensures bound { IfSome result (λ n. n ≤ most) }
{
    let n = numeral_in(word)?;
    if n <= most { Some(n) } else { None }
}

/// A word as the number of a person or an object, or as a count.
pub fn number_in(word: &[u8]) -> Option<u16>
    ensures value { result ≡ Numerals.number_in word.now }
    ensures bound { IfSome result (λ n. n ≤ MOST_PERSONS) }
{
    let n = numeral_within(u128::from(MOST_PERSONS), word)?;
    Some(n as u16)
}

/// A word as a cost, or as a sum of costs; `-0` isn't one.
pub fn cost_in(word: &[u8]) -> Option<Cost>
    ensures { result ≡ Numerals.cost_in word.now }
{
    let most = u128::from(MOST_PERSONS) * u128::from(GREATEST_COST.unsigned_abs());
    match word {
        [] => None,
        [b'-', digits @ ..] => {
            let n = numeral_within(most, digits)?;
            if n == 0 { None } else { Some(-(n as Cost)) }
        }
        [_, ..] => {
            let n = numeral_within(most, word)?;
            Some(n as Cost)
        }
    }
}

/// A word as a price.
pub fn price_in(word: &[u8]) -> Option<Price>
    ensures { result ≡ Numerals.price_in word.now }
{
    let n = numeral_within(PRICE_END.unsigned_abs() - 1, word)?;
    Some(n as Price)
}
