// Marks: a byte for each pair, row or column.
ghost use Rattle.std.specs.Prelude.{◌≡◌, ◌<◌, ◌^◌, nat_lt, false, length, map, slice_index_or, List, Bool};

use std::marker::Model;

/// A mark for each pair, row or column, as bytes: 0 stands for no, any other number for yes. A plan
/// marks the pairs that it chooses.
#[derive(Drop)]
pub struct Marks<'a> {
    bytes: &'a [u8],
}

impl<'a> Model for Marks<'a> {
    ghost Value = { List Bool };

    ghost view = { λ m. map (nat_lt 0) m.bytes.now };
}

impl<'a> Marks<'a> {
    /// The marks of these bytes.
    pub fn of(bytes: &'a [u8]) -> Marks<'a>
        ensures { result ≡ map (nat_lt 0) bytes.now }
    {
        Marks { bytes }
    }

    /// The number of marks.
    pub fn len(&self) -> usize
        ensures { result ≡ length self.now }
    {
        self.bytes.len()
    }

    /// Whether the mark at a place, from 0, is yes.
    pub fn has(&self, place: usize) -> bool
        requires { place < length self.now }
        ensures { result ≡ slice_index_or self.now place false }
    {
        self.bytes[place] > 0
    }
}
