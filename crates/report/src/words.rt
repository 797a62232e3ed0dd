// The words of a line.
ghost use Rattle.std.specs.Prelude.{◌≡◌, ◌<◌, [], ◌∷◌, ◌↔◌, IsTrue, MatchOption, length, slice_index};
ghost use Rattle.report.specs.inside.WordsLeft.{words_of, HasNoSpace};
ghost use Rattle.report.specs.inside.Reading.{Takes, sense_in};
ghost use Rattle.report.specs.inside.Numerals.{cost_in, price_in, number_in};

use crate::numerals;
use assign_core::{Cost, Price, Sense};
use std::marker::Model;

/// The words of a line that are left.
#[derive(Drop)]
pub struct Words<'a> {
    rest: Option<&'a [u8]>,
}

impl<'a> Model for Words<'a> {
    ghost use Rattle.std.specs.Prelude.{ℕ, List};
    ghost use Rattle.std.specs.Option.{option_copied};
    ghost use Rattle.report.specs.inside.WordsLeft.{words_left};

    ghost Value = { List (List ℕ) };

    ghost view = { λ w. words_left (option_copied w.rest) };
}

// The place of the first space.
fn space_at(line: &[u8]) -> Option<usize>
    ensures { MatchOption result (HasNoSpace line.now (length line.now))
        (λ at. (at < length line.now) × (slice_index line.now at ≡ 32) × HasNoSpace line.now at) }
{
    line.iter().position(|b| *b == b' ')
}

impl<'a> Words<'a> {
    pub fn new(line: &'a [u8]) -> Words<'a>
        ensures { result ≡ words_of line.now }
    {
        Words { rest: Some(line) }
    }

    /// The next word.
    pub fn next(&mut self) -> Option<&'a [u8]>
        ensures { MatchOption result (self.old ≡ []) (λ word. self.old ≡ word.now ∷ self.new) }
    {
        let line = self.rest?;
        match space_at(line) {
            None => {
                self.rest = None;
                Some(line)
            }
            Some(at) => {
                let (word, behind) = line.split_at(at);
                let (_, rest) = behind.split_at(1);
                self.rest = Some(rest);
                Some(word)
            }
        }
    }

    /// Whether no word is left.
    pub fn is_at_end(&self) -> bool
        ensures { IsTrue result ↔ (self.now ≡ []) }
    {
        self.rest.is_none()
    }

    /// The next word, as the number of a person or an object, or as a count.
    pub fn number(&mut self) -> Option<u16>
        ensures { Takes number_in self.old result self.new }
    {
        let word = self.next()?;
        numerals::number_in(word)
    }

    /// The next word, as a cost.
    pub fn cost(&mut self) -> Option<Cost>
        ensures { Takes cost_in self.old result self.new }
    {
        let word = self.next()?;
        numerals::cost_in(word)
    }

    /// The next word, as a price.
    pub fn price(&mut self) -> Option<Price>
        ensures { Takes price_in self.old result self.new }
    {
        let word = self.next()?;
        numerals::price_in(word)
    }

    /// The next word, as a sense.
    pub fn sense(&mut self) -> Option<Sense>
        ensures { Takes sense_in self.old result self.new }
    {
        let word = self.next()?;
        if word == b"min".as_slice() {
            Some(Sense::Min)
        } else if word == b"max".as_slice() {
            Some(Sense::Max)
        } else {
            None
        }
    }
}
