// Streams that come in pieces, end early, fail or never end.
use std::alloc::Global;
use std::io;
use std::io::{Read, Write};

/// Gives a text in pieces of at most `most` bytes, and fails at its end if `fails` is true.
#[derive(Clone, Copy)]
pub struct Pieces<'a> {
    pub text: &'a [u8],
    pub most: usize,
    pub fails: bool,
}

impl Read for Pieces<'_> {
    fn read(&mut self, buf: &mut [u8]) -> io::Result<usize> {
        if self.text.is_empty() && self.fails {
            return Err(io::ErrorKind::Interrupted.into());
        }
        let count = self.most.min(self.text.len()).min(buf.len());
        let (piece, rest) = self.text.split_at(count);
        let (front, _) = buf.split_at_mut(count);
        front.copy_from_slice(piece);
        self.text = rest;
        Ok(count)
    }
}

/// A text in pieces of at most `most` bytes, and then its end.
pub fn whole_text(text: &[u8], most: usize) -> Pieces<'_> {
    Pieces {
        text,
        most,
        fails: false,
    }
}

/// Gives a text, and then one byte without end.
#[derive(Clone, Copy)]
pub struct Endless<'a> {
    pub front: Pieces<'a>,
    pub byte: u8,
}

impl Read for Endless<'_> {
    fn read(&mut self, buf: &mut [u8]) -> io::Result<usize> {
        let count = self.front.read(buf)?;
        if count == 0 {
            buf.fill(self.byte);
            return Ok(buf.len());
        }
        Ok(count)
    }
}

/// Takes `room` bytes, in pieces of at most `most`, and then is interrupted, or takes none.
#[derive(Drop)]
pub struct FailingWriter {
    pub taken: Vec<u8>,
    room: usize,
    most: usize,
    fails: bool,
}

impl Write for FailingWriter {
    fn write(&mut self, buf: &[u8]) -> io::Result<usize> {
        let count = self.room.min(self.most).min(buf.len());
        if count == 0 && self.fails {
            return Err(io::ErrorKind::Interrupted.into());
        }
        let (piece, _) = buf.split_at(count);
        self.taken.extend_from_slice(piece)?;
        self.room -= count;
        Ok(count)
    }

    fn flush(&mut self) -> io::Result<()> {
        Ok(())
    }
}

/// A writer of this kind.
pub fn failing_writer(alloc: Global, room: usize, most: usize, fails: bool) -> FailingWriter {
    FailingWriter {
        taken: Vec::new(alloc),
        room,
        most,
        fails,
    }
}

/// A writer with more room than any text of a test.
pub fn ample_writer(alloc: Global) -> FailingWriter {
    failing_writer(alloc, 1 << 20, 1 << 20, true)
}
