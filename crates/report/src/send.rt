// Writes bytes.
ghost use Rattle.std.specs.Prelude.{◌≡◌, ◌+◌, ◌≤◌, [], length, OnOk};
ghost use Rattle.report.specs.Writing.{Writes};
ghost use Rattle.report.specs.inside.Holding.{Puts};

use crate::fault::WriteFault;
use crate::pending::{PART_ROOM, Pending, ROOM};
use std::io::Write;

/// Writes all of a text, in as few pieces as the writer takes. It takes no memory.
///
/// # Errors
/// `Write` if the writer fails, is interrupted or takes no byte. A beginning of the text, but not
/// all of it, is then written.
pub fn write_text<W: Write>(w: &mut W, text: &[u8]) -> Result<(), WriteFault>
    ensures { Writes (W.contents w.old) (W.contents w.new) result text.now }
{
    let mut at: usize = 0;
    while at < text.len() {
        let (_, rest) = text.split_at(at);
        match w.write(rest) {
            Ok(0) => return Err(WriteFault::Write),
            Ok(count) => at += count,
            Err(_) => return Err(WriteFault::Write),
        }
    }
    Ok(())
}

/// Writes the bytes that are held back.
///
/// # Errors
/// `Write` if the writer fails or takes no byte.
pub fn flush<W: Write>(w: &mut W, pending: &mut Pending) -> Result<(), WriteFault>
    ensures writes { Writes (W.contents w.old) (W.contents w.new) result pending.old }
    ensures empty { OnOk result (pending.new ≡ []) }
{
    write_text(w, pending.as_slice())?;
    pending.clear();
    Ok(())
}

/// Makes room for a part: if there is none, writes all bytes that are held back.
///
/// # Errors
/// As for `flush`.
pub fn make_room<W: Write>(w: &mut W, pending: &mut Pending) -> Result<(), WriteFault>
    ensures puts { Puts (W.contents w.old) (W.contents w.new) pending.old pending.new result [] }
    ensures room { OnOk result (length pending.new + PART_ROOM ≤ ROOM) }
{
    if pending.has_room() {
        return Ok(());
    }
    flush(w, pending)
}
