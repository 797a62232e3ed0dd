// Takes a text: white space in runs, a token and its digits at once if it begins within a block,
// and the rest byte by byte.
ghost use Rattle.std.specs.Prelude.{◌≡◌, ◌<◌, ◌≤◌, ◌+◌, [], Ok, true, get_or, IfErr, IfOk, IsTrue, OnOk, length};
ghost use Rattle.orlib_reader.specs.Tokens.{is_space};
ghost use Rattle.orlib_reader.specs.Texts.{Fails, Gives, Meets};
ghost use Rattle.orlib_reader.specs.inside.Steps.{State, Begins, HasTaken, IsBetween, step, after, start, finished};
ghost use Rattle.orlib_reader.specs.inside.Held.{layout_in, found_in};

use super::fault::InputFault;
use super::pairs::Pairs;
use super::token::{OpenToken, is_white, white_run};
use assign_core::Problem;
use std::marker::Model;

/// The most bytes that a text may have.
pub const TEXT_LIMIT: u64 = 1 << 30;

// How far a text has come: the number of bytes, the open token, and the numbers before it.
#[derive(Drop)]
pub struct Machine {
    at: u64,
    token: Option<OpenToken>,
    pairs: Pairs,
}

impl Model for Machine {
    ghost use Rattle.orlib_reader.specs.inside.Steps.{State, IsUnderway};
    ghost use Rattle.orlib_reader.specs.inside.Held.{layout_in, found_in};

    ghost Value = { State };

    ghost view = { λ m. record {
      layout = layout_in m.pairs;
      at = m.at;
      token = m.token;
      found = found_in m.pairs;
    } };

    ghost invariant = { λ m. IsUnderway m.at m.token (found_in m.pairs) };
}

impl Machine {
    pub fn new(pairs: Pairs) -> Machine
        requires { found_in pairs ≡ [] }
        ensures { result ≡ start (layout_in pairs) }
    {
        Machine {
            at: 0,
            token: None,
            pairs,
        }
    }

    // Takes one more byte.
    #[cold]
    pub fn feed(&mut self, b: u8) -> Result<(), InputFault>
        ensures step { Gives (λ _. self.new) result (step self.old b) }
        ensures layout { OnOk result (self.new.layout ≡ self.old.layout) }
        ensures at { OnOk result (self.new.at ≡ self.old.at + 1) }
        ensures bound { self.new.at ≤ TEXT_LIMIT }
    {
        if self.at >= TEXT_LIMIT {
            return Err(InputFault::TooLong);
        }
        if is_white(b) {
            if let Some(token) = self.token {
                self.pairs.take(token)?;
            }
            self.token = None;
        } else if let Some(token) = self.token {
            self.token = Some(token.go_on(b));
        } else {
            if self.pairs.are_complete() {
                return Err(InputFault::Extra(self.at));
            }
            self.token = Some(OpenToken::begin(self.at, b));
        }
        self.at += 1;
        Ok(())
    }

    // Whether no token is open, and these bytes stay within the limit.
    fn is_between(&self, bytes: &[u8]) -> bool
        ensures { IsTrue result → IsBetween self.now bytes.now }
    {
        self.token.is_none() && bytes.len() as u64 <= TEXT_LIMIT - self.at
    }

    // Takes the white space at the beginning, and returns its number of bytes.
    #[inline(always)]
    fn feed_blanks(&mut self, bytes: &[u8]) -> usize
        requires between { IsBetween self.old bytes.now }
        requires some { 0 < length bytes.now }
        requires white { is_space (get_or bytes.now 0 0) ≡ true }
        ensures taken { HasTaken self.old self.new bytes.now result }
        ensures bound { self.new.at ≤ TEXT_LIMIT }
    {
        let blanks = white_run(bytes);
        self.at += blanks as u64;
        blanks
    }

    // Takes the token at the beginning of these bytes, with its digits, and one white byte that may
    // follow. Returns the number of bytes.
    #[inline(always)]
    fn feed_token(&mut self, bytes: &[u8]) -> Result<usize, InputFault>
        requires { Begins self.old bytes.now }
        ensures taken { IfOk result (HasTaken self.old self.new bytes.now) }
        ensures fault { IfErr result (λ e. Fails e (after (Ok self.old) bytes.now)) }
        ensures bound { self.new.at ≤ TEXT_LIMIT }
    {
        let (token, digits) = OpenToken::begin(self.at, bytes[0]).go_on_by_digits(
            bytes.split_at(1).1,
        );
        let count = digits + 1;
        if count < bytes.len() && is_white(bytes[count]) {
            self.pairs.take(token)?;
            self.at += count as u64 + 1;
            return Ok(count + 1);
        }
        self.token = Some(token);
        self.at += count as u64;
        Ok(count)
    }

    // Takes the white space or the token at the beginning of these bytes, or else the first byte.
    // Returns the number of bytes.
    #[inline(always)]
    fn feed_some(&mut self, bytes: &[u8]) -> Result<usize, InputFault>
        requires { 0 < length bytes.now }
        ensures taken { IfOk result (HasTaken self.old self.new bytes.now) }
        ensures fault { IfErr result (λ e. Fails e (after (Ok self.old) bytes.now)) }
        ensures bound { self.new.at ≤ TEXT_LIMIT }
    {
        if self.is_between(bytes) {
            if is_white(bytes[0]) {
                return Ok(self.feed_blanks(bytes));
            }
            if self.pairs.are_open() {
                return self.feed_token(bytes);
            }
        }
        self.feed(bytes[0])?;
        Ok(1)
    }

    // Takes these bytes. One copy serves all readers, so that the steps of a token stay in its
    // loop.
    #[inline(never)]
    pub fn feed_all(&mut self, bytes: &[u8]) -> Result<(), InputFault>
        ensures after { Gives (λ _. self.new) result (after (Ok self.old) bytes.now) }
        ensures layout { OnOk result (self.new.layout ≡ self.old.layout) }
        ensures at { OnOk result (self.new.at ≡ self.old.at + length bytes.now) }
        ensures bound { self.new.at ≤ TEXT_LIMIT }
    {
        // This read shows the prover that the bytes so far are within the limit, also before the
        // first of these.
        let _bytes_so_far = self.at;
        let mut taken = 0;
        while taken < bytes.len() {
            let rest = bytes.split_at(taken).1;
            taken += self.feed_some(rest)?;
        }
        Ok(())
    }

    // The problem, at the end of the text.
    pub fn finish(self) -> Result<Problem, InputFault>
        ensures { Meets self.layout result (finished (Ok self)) }
    {
        let mut pairs = self.pairs;
        if let Some(token) = self.token {
            pairs.take(token)?;
        }
        pairs.finish()
    }
}
