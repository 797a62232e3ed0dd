// Bytes that are held back until they are enough for a write.
ghost use Rattle.std.specs.Prelude.{◌≡◌, ◌+◌, ◌<◌, ◌≤◌, ◌↔◌, [], ◌∷◌, ◌++◌, IsTrue, length};

use itoa::{Buffer, Integer};
use std::marker::Model;

/// The greatest number of bytes held back.
pub const ROOM: usize = 4096;

/// The greatest number of bytes of a line that isn't a list, and of a part of a list. The parts of
/// a list are its head, each of its numbers, and its end.
pub const PART_ROOM: usize = 200;

/// The greatest number of bytes of the word at the head of a list.
pub const WORD_ROOM: usize = 100;

/// The greatest number of bytes of a number with the space before it.
pub const NUMBER_ROOM: usize = 41;

/// Bytes that are held back, at most `ROOM` of them.
#[derive(Drop)]
pub struct Pending {
    bytes: [u8; ROOM],
    len: usize,
}

impl Model for Pending {
    ghost use Rattle.std.specs.Prelude.{ℕ, ◌≤◌, List, take};
    ghost use Rattle.report.specs.declared.pending.TheConstants.{ROOM};

    ghost Value = { List ℕ };

    ghost view = { λ p. take p.len p.bytes };

    ghost invariant = { λ p. p.len ≤ ROOM };
}

impl Pending {
    /// No bytes.
    pub fn new() -> Pending
        ensures { result ≡ [] }
    {
        Pending {
            bytes: [0; ROOM],
            len: 0,
        }
    }

    /// Whether a part fits.
    pub fn has_room(&self) -> bool
        ensures { IsTrue result ↔ (length self.now + PART_ROOM ≤ ROOM) }
    {
        self.len + PART_ROOM <= ROOM
    }

    /// The bytes.
    pub fn as_slice(&self) -> &[u8]
        ensures { result.now ≡ self.now }
    {
        &self.bytes[..self.len]
    }

    /// Drops the bytes.
    pub fn clear(&mut self)
        ensures { self.new ≡ [] }
    {
        self.len = 0;
    }

    fn push(&mut self, b: u8)
        requires { length self.old < ROOM }
        ensures { self.new ≡ self.old ++ b ∷ [] }
    {
        self.bytes[self.len] = b;
        self.len += 1;
    }

    /// Adds a text.
    pub fn add(&mut self, text: &[u8])
        requires { length self.old + length text.now ≤ ROOM }
        ensures { self.new ≡ self.old ++ text.now }
    {
        for b in text {
            self.push(*b);
        }
    }

    /// Adds a space and a number's digits.
    pub fn add_number<I: Integer>(&mut self, number: I)
        requires { length self.old + NUMBER_ROOM ≤ ROOM }
        ensures text { self.new ≡ self.old ++ 32 ∷ I.text number }
        ensures length { length self.new ≤ length self.old + NUMBER_ROOM }
    {
        let mut buffer = Buffer::new();
        self.push(b' ');
        self.add(buffer.format(number).as_bytes());
    }
}
