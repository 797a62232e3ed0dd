// Texts at the limit, and texts without end.
use super::*;
use test_helpers::{Endless, whole_text};

// A line that ends at the limit is judged; one that ends after it isn't.
#[test]
fn texts_at_the_limit(rt: HostRuntime) -> Result<(), Fail> {
    let table: [(usize, &[u8], &str); 4] = [
        ((1 << 20) - 1, b"\n", "report: bad line 1"),
        ((1 << 20) - 1, b"\n7", "report: bad line 1"),
        (1 << 20, b"", "report: bad line 1"),
        (1 << 20, b"\n", "report: longer than 1048576 bytes"),
    ];
    for (sevens, back, answer) in table {
        let mut text = vec![in rt.alloc(); b'7'; sevens]?;
        text.extend_from_slice(back)?;
        let said = line(rt.alloc(), text.as_slice(), 4096, false)?;
        assert_eq!(rt; said.as_str(), answer);
    }
    Ok(())
}

#[test]
fn texts_without_end(rt: HostRuntime) -> Result<(), Fail> {
    for text in [b"".as_slice(), b"cost 5", SECOND] {
        let front = whole_text(text, 4096);
        let mut reader = Endless { front, byte: b'7' };
        let said = told(rt.alloc(), read_report(rt.alloc(), &mut reader))?;
        assert_eq!(rt; said.as_str(), "report: longer than 1048576 bytes");
    }
    Ok(())
}
