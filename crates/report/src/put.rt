// The lines of a report, one at a time. Each call makes room, which alone can fail, and then holds
// the line back.
ghost use Rattle.std.specs.Prelude.{◌≡◌, ◌+◌, ◌≤◌, length, map, decimal, [], ◌∷◌, ◌++◌};
ghost use Rattle.report.specs.Words.{behind_spaces, joined};
ghost use Rattle.report.specs.Lines;
ghost use Rattle.report.specs.Lines.{lines_text};
ghost use Rattle.report.specs.inside.Holding.{Puts};

use crate::fault::WriteFault;
use crate::pending::{Pending, WORD_ROOM};
use crate::send::make_room;
use assign_core::{Cost, Numbered, Object, Person, Price, Sense};
use std::io::Write;

/// Puts the line of the sense.
///
/// # Errors
/// `Write` if the writer fails or takes no byte; the same holds of the calls below.
pub fn put_sense<W: Write>(w: &mut W, pending: &mut Pending, sense: Sense) -> Result<(), WriteFault>
    ensures { Puts (W.contents w.old) (W.contents w.new) pending.old pending.new result
        (lines_text (Lines.sense_line sense ∷ [])) }
{
    make_room(w, pending)?;
    match sense {
        Sense::Min => pending.add(b"sense min\n"),
        Sense::Max => pending.add(b"sense max\n"),
    }
    Ok(())
}

/// Puts the line of the cost.
pub fn put_cost<W: Write>(w: &mut W, pending: &mut Pending, cost: Cost) -> Result<(), WriteFault>
    ensures { Puts (W.contents w.old) (W.contents w.new) pending.old pending.new result
        (lines_text (Lines.cost_line cost ∷ [])) }
{
    make_room(w, pending)?;
    pending.add(b"cost");
    pending.add_number(cost);
    pending.add(b"\n");
    Ok(())
}

/// Puts the line of a pair.
pub fn put_pair<W: Write>(
    w: &mut W,
    pending: &mut Pending,
    person: Person,
    object: Object,
    cost: Cost,
) -> Result<(), WriteFault>
    ensures { Puts (W.contents w.old) (W.contents w.new) pending.old pending.new result
        (lines_text (Lines.assign_line person object cost ∷ [])) }
{
    make_room(w, pending)?;
    pending.add(b"assign");
    pending.add_number(person.0);
    pending.add_number(object.0);
    pending.add_number(cost);
    pending.add(b"\n");
    Ok(())
}

/// Puts the line of a price.
pub fn put_price<W: Write>(
    w: &mut W,
    pending: &mut Pending,
    object: usize,
    price: Price,
) -> Result<(), WriteFault>
    ensures { Puts (W.contents w.old) (W.contents w.new) pending.old pending.new result
        (lines_text (Lines.price_line object price ∷ [])) }
{
    make_room(w, pending)?;
    pending.add(b"price");
    pending.add_number(object);
    pending.add_number(price);
    pending.add(b"\n");
    Ok(())
}

/// Puts the line that no assignment exists.
pub fn put_infeasible<W: Write>(w: &mut W, pending: &mut Pending) -> Result<(), WriteFault>
    ensures { Puts (W.contents w.old) (W.contents w.new) pending.old pending.new result
        (lines_text (Lines.infeasible_line ∷ [])) }
{
    make_room(w, pending)?;
    pending.add(b"infeasible\n");
    Ok(())
}

// Puts the head of a list line: a word and the count of the numbers.
fn put_head<W: Write>(
    w: &mut W,
    pending: &mut Pending,
    word: &[u8],
    count: usize,
) -> Result<(), WriteFault>
    requires { length word.now ≤ WORD_ROOM }
    ensures { Puts (W.contents w.old) (W.contents w.new) pending.old pending.new result
        (word.now ++ 32 ∷ decimal count) }
{
    make_room(w, pending)?;
    pending.add(word);
    pending.add_number(count);
    Ok(())
}

// Puts a number of a list line.
fn put_number<W: Write>(w: &mut W, pending: &mut Pending, number: u16) -> Result<(), WriteFault>
    ensures { Puts (W.contents w.old) (W.contents w.new) pending.old pending.new result
        (32 ∷ decimal number) }
{
    make_room(w, pending)?;
    pending.add_number(number);
    Ok(())
}

// Puts the end of a list line.
fn put_feed<W: Write>(w: &mut W, pending: &mut Pending) -> Result<(), WriteFault>
    ensures { Puts (W.contents w.old) (W.contents w.new) pending.old pending.new result
        (10 ∷ []) }
{
    make_room(w, pending)?;
    pending.add(b"\n");
    Ok(())
}

// Puts the numbers of a list line.
fn put_numbers<W: Write, N: Numbered>(
    w: &mut W,
    pending: &mut Pending,
    numbers: &[N],
) -> Result<(), WriteFault>
    ensures { Puts (W.contents w.old) (W.contents w.new) pending.old pending.new result
        (behind_spaces (map decimal (map N.number_of numbers.now))) }
{
    for number in numbers {
        put_number(w, pending, number.number())?;
    }
    Ok(())
}

/// Puts a list line: a word, the count of the numbers, and the numbers.
pub fn put_list<W: Write, N: Numbered>(
    w: &mut W,
    pending: &mut Pending,
    word: &[u8],
    numbers: &[N],
) -> Result<(), WriteFault>
    requires { length word.now ≤ WORD_ROOM }
    ensures { Puts (W.contents w.old) (W.contents w.new) pending.old pending.new result
        (joined (word.now ∷ decimal (length numbers.now) ∷ map decimal (map N.number_of numbers.now))
        ++ 10 ∷ []) }
{
    put_head(w, pending, word, numbers.len())?;
    put_numbers(w, pending, numbers)?;
    put_feed(w, pending)
}
