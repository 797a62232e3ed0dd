// Reports and spoilt ones, read by the reader and by the plain grammar.
use super::plain::{fault_of, text_of};
use super::*;
use assign_core::{Object, Person, Sense};
use test_helpers::whole_text;

// Whether the reader and the plain grammar agree on a text.
fn agree(alloc: Global, text: &[u8]) -> Result<bool, AllocError> {
    let wanted = fault_of(alloc, text)?;
    let mut reader = whole_text(text, text.len().max(1));
    match read_report(alloc, &mut reader) {
        Ok(report) => {
            let again = text_of(alloc, &report)?;
            Ok(wanted.is_none() && again.as_str().as_bytes() == text)
        }
        Err(fault) => Ok(wanted == Some(fault)),
    }
}

// The front of a text, some bytes, and the back of the text.
fn joined(alloc: Global, front: &[u8], bytes: &[u8], back: &[u8]) -> Result<Vec<u8>, AllocError> {
    let mut text = front.to_vec(alloc)?;
    text.extend_from_slice(bytes)?;
    text.extend_from_slice(back)?;
    Ok(text)
}

// Whether they agree on each text that is this front, any one byte and this back.
fn agree_on_any_byte(alloc: Global, front: &[u8], back: &[u8]) -> Result<bool, AllocError> {
    for byte in 0..=255u8 {
        let changed = joined(alloc, front, &[byte], back)?;
        if !agree(alloc, changed.as_slice())? {
            return Ok(false);
        }
    }
    Ok(true)
}

// The first place at which they disagree on a text with this byte dropped, doubled or changed to
// any other.
fn spoilt_otherwise(alloc: Global, text: &[u8]) -> Result<Option<usize>, AllocError> {
    for place in 0..text.len() {
        let (front, rest) = text.split_at(place);
        let (byte, back) = rest.split_at(1);
        let dropped = joined(alloc, front, b"", back)?;
        let doubled = joined(alloc, front, byte, rest)?;
        if !agree(alloc, dropped.as_slice())?
            || !agree(alloc, doubled.as_slice())?
            || !agree_on_any_byte(alloc, front, back)?
        {
            return Ok(Some(place));
        }
    }
    Ok(None)
}

// Whether they agree on a text, and on it spoilt at any one place.
fn agree_throughout(alloc: Global, text: &[u8]) -> Result<bool, AllocError> {
    Ok(agree(alloc, text)? && spoilt_otherwise(alloc, text)?.is_none())
}

#[test]
fn spoilt_texts(rt: HostRuntime) -> Result<(), Fail> {
    let hall = b"sense max\ninfeasible\npersons 3 2 4 10\nobjects 2 1 12\n";
    assert!(rt; agree_throughout(rt.alloc(), FIRST)?);
    assert!(rt; agree_throughout(rt.alloc(), SECOND)?);
    assert!(rt; agree_throughout(rt.alloc(), hall)?);
    Ok(())
}

// The longest report on an assignment.
fn longest_best(alloc: Global) -> Result<String, AllocError> {
    let best = Report::Best {
        sense: Some(Sense::Max),
        cost: -8_192_000_000_000_000,
        rows: vec![in alloc; (Object(8192), -1_000_000_000_000); 8192]?,
        prices: Some(vec![in alloc; 9_999_999_999_999_999_999_999; 8192]?),
    };
    text_of(alloc, &best)
}

// The longest report on a Hall set.
fn longest_hall(alloc: Global) -> Result<String, AllocError> {
    let mut persons = Vec::new(alloc);
    let mut objects = Vec::new(alloc);
    for number in 1..8192u16 {
        persons.push(Person(number))?;
        objects.push(Object(number))?;
    }
    persons.push(Person(8192))?;
    let hall = Report::Hall {
        sense: Some(Sense::Min),
        persons,
        objects,
    };
    text_of(alloc, &hall)
}

// Whether a text has more bytes than this, and they agree on it.
fn agree_on_long(alloc: Global, text: &str, most: usize) -> Result<bool, AllocError> {
    Ok(text.len() > most && agree(alloc, text.as_bytes())?)
}

// The longest reports, with enough memory.
#[test]
fn longest_texts(rt: HostRuntime) -> Result<(), Fail> {
    let best = longest_best(rt.alloc())?;
    assert!(rt; agree_on_long(rt.alloc(), best.as_str(), 530_000)?);
    let hall = longest_hall(rt.alloc())?;
    assert!(rt; agree_on_long(rt.alloc(), hall.as_str(), 77_000)?);
    Ok(())
}
