// Texts with their expected results, read at once and byte by byte.
ghost use Rattle.std.specs.Prelude.{◌<◌};

use assign_core::{Person, Problem};
use orlib_reader::{InputFault, read_dense, read_sparse};
use std::alloc::{AllocError, Global};
use std::test::Fail;
use test_helpers::{Endless, Pieces, whole_text};

// The layout of a text.
#[derive(Clone, Copy)]
enum Layout {
    Dense,
    Sparse,
}

// The rows of a problem, as a line.
fn rows_told(alloc: Global, problem: &Problem) -> Result<String, AllocError> {
    let mut line = String::new(alloc);
    line.push_str("rows")?;
    for i in 0..problem.n() {
        let row = problem.row(Person(i + 1));
        line.push_str(format!(in alloc; " {row:?}")?.as_str())?;
    }
    Ok(line)
}

// A reader's result, as a line.
fn told(alloc: Global, read: Result<Problem, InputFault>) -> Result<String, AllocError> {
    match read {
        Ok(problem) => rows_told(alloc, &problem),
        Err(fault) => format!(in alloc; "{fault}"),
    }
}

// The result of a text read in pieces of at most `most` bytes, as a line.
fn line(alloc: Global, layout: Layout, text: &[u8], most: usize) -> Result<String, AllocError> {
    let mut reader = whole_text(text, most);
    let read = match layout {
        Layout::Dense => read_dense(alloc, &mut reader),
        Layout::Sparse => read_sparse(alloc, &mut reader),
    };
    told(alloc, read)
}

// Whether a text gives this line, read at once and byte by byte.
fn is_told(alloc: Global, layout: Layout, text: &[u8], wanted: &[u8]) -> Result<bool, AllocError> {
    let once = line(alloc, layout, text, 65536)?;
    let bytewise = line(alloc, layout, text, 1)?;
    Ok(once.as_bytes() == wanted && bytewise.as_bytes() == wanted)
}

// The first of these texts whose line isn't the one after it.
fn other_text<'a>(
    alloc: Global,
    layout: Layout,
    rows: &[&'a [u8]],
) -> Result<Option<&'a [u8]>, AllocError> {
    for i in 0..rows.len() / 2 {
        if !is_told(alloc, layout, rows[2 * i], rows[2 * i + 1])? {
            return Ok(Some(rows[2 * i]));
        }
    }
    Ok(None)
}

#[test]
fn dense_texts(rt: HostRuntime) -> Result<(), Fail> {
    let rows: [&[u8]; 90] = [
        b"1 7",
        b"rows [(Object(1), 7)]",
        b"2 1 2 3 5",
        b"rows [(Object(1), 1), (Object(2), 2)] [(Object(1), 3), (Object(2), 5)]",
        b"02\r\n\t1\n\n002\n+3\n\x0c\n\x0b5\n\n",
        b"rows [(Object(1), 1), (Object(2), 2)] [(Object(1), 3), (Object(2), 5)]",
        b"8193 1",
        b"input: size out of range",
        b"0",
        b"input: size out of range",
        b"-1 1",
        b"input: size out of range",
        b"",
        b"input: empty",
        b" \t\r\n\x0b\x0c",
        b"input: empty",
        b"x",
        b"input: bad number at byte 0",
        b"1 1000000000001",
        b"input: cost out of range at byte 2",
        b"1 -1000000000001",
        b"input: cost out of range at byte 2",
        b"1 1000000000000",
        b"rows [(Object(1), 1000000000000)]",
        b"1 -1000000000000",
        b"rows [(Object(1), -1000000000000)]",
        b"1 -0",
        b"rows [(Object(1), 0)]",
        b"1 +0",
        b"rows [(Object(1), 0)]",
        b"2 1 2",
        b"input: truncated after 3 numbers",
        b"1 7 8",
        b"input: extra data at byte 4",
        b"1 7 x",
        b"input: extra data at byte 4",
        b"1 3.0",
        b"input: bad number at byte 2",
        b"2 1 2 1000000000001",
        b"input: cost out of range at byte 6",
        b"2 1 x 1000000000001",
        b"input: bad number at byte 4",
        b"1 \x00",
        b"input: bad number at byte 2",
        b"1 \x1a",
        b"input: bad number at byte 2",
        b"1 \xff",
        b"input: bad number at byte 2",
        b"1 +",
        b"input: bad number at byte 2",
        b"1 -",
        b"input: bad number at byte 2",
        b"1 +-1",
        b"input: bad number at byte 2",
        b"1 1e3",
        b"input: bad number at byte 2",
        b"1 7\x1a",
        b"input: bad number at byte 2",
        b"1 7 \x1a",
        b"input: extra data at byte 4",
        b"2",
        b"input: truncated after 1 numbers",
        b"2 ",
        b"input: truncated after 1 numbers",
        b"2 1",
        b"input: truncated after 2 numbers",
        b"2 1 ",
        b"input: truncated after 2 numbers",
        b"2 1 2 ",
        b"input: truncated after 3 numbers",
        b"2 1 2 3",
        b"input: truncated after 4 numbers",
        b"2 1 2 3 ",
        b"input: truncated after 4 numbers",
        b"+1 -7",
        b"rows [(Object(1), -7)]",
        b"1\x0b7\x0c",
        b"rows [(Object(1), 7)]",
        b"1 --7",
        b"input: bad number at byte 2",
        b"1 7-",
        b"input: bad number at byte 2",
        b"1 7 +",
        b"input: extra data at byte 4",
        b"2.0 1",
        b"input: bad number at byte 0",
        b" 2 1 2 3 x",
        b"input: bad number at byte 9",
        b"8192",
        b"input: truncated after 1 numbers",
    ];
    assert_eq!(rt; other_text(rt.alloc(), Layout::Dense, &rows)?, None);
    Ok(())
}

#[test]
fn sparse_texts(rt: HostRuntime) -> Result<(), Fail> {
    let rows: [&[u8]; 28] = [
        b"2 1 1 5 2 1",
        b"input: truncated after 6 numbers",
        b"2 1 1 5 2",
        b"input: truncated after 5 numbers",
        b"2 3 1 5",
        b"input: index out of range at byte 2",
        b"2 1 3 5",
        b"input: index out of range at byte 4",
        b"2 0 1 5",
        b"input: index out of range at byte 2",
        b"2 -1 1 5",
        b"input: index out of range at byte 2",
        b"2 1 x 5",
        b"input: bad number at byte 4",
        b"2 1 1 1000000000001",
        b"input: cost out of range at byte 6",
        b"2 1 1 -1000000000000",
        b"rows [(Object(1), -1000000000000)] []",
        b"3",
        b"rows [] [] []",
        b"",
        b"input: empty",
        b"0 1 1 1",
        b"input: size out of range",
        b"2 1 1 9 1 1 3 1 2 4 2 1 5 2 2 8",
        b"rows [(Object(1), 3), (Object(2), 4)] [(Object(1), 5), (Object(2), 8)]",
        b"2 2 2 8 2 1 5 1 2 4 1 1 3 1 1 9",
        b"rows [(Object(1), 3), (Object(2), 4)] [(Object(1), 5), (Object(2), 8)]",
    ];
    assert_eq!(rt; other_text(rt.alloc(), Layout::Sparse, &rows)?, None);
    Ok(())
}

// A text with another byte at one place.
fn with_byte<const N: usize>(text: &[u8; N], place: usize, byte: u8) -> [u8; N]
    requires { place < N }
{
    let mut changed = *text;
    changed[place] = byte;
    changed
}

// Whether texts of both layouts with this byte at a place are refused for the number there.
fn is_bad_number(alloc: Global, byte: u8, place: usize) -> Result<bool, AllocError>
    requires { place < 9 }
{
    let wanted = format!(in alloc; "input: bad number at byte {}", place - place % 2)?;
    let dense = with_byte(b"2 1 2 3 5", place, byte);
    let sparse = with_byte(b"2 1 2 3 2 1 4", place, byte);
    Ok(
        line(alloc, Layout::Dense, &dense, 1)? == wanted
            && line(alloc, Layout::Sparse, &sparse, 1)? == wanted,
    )
}

#[test]
fn strange_bytes_at_each_place(rt: HostRuntime) -> Result<(), Fail> {
    for byte in [0x00, 0x1a, 0xff] {
        for place in 0..9usize {
            assert!(rt;
                is_bad_number(rt.alloc(), byte, place)?,
                "{byte} at {place}"
            );
        }
    }
    Ok(())
}

// Adds a part to a text many times.
fn add_many(text: &mut Vec<u8>, part: &[u8]) -> Result<(), AllocError> {
    for _ in 0..5000 {
        text.extend_from_slice(part)?;
    }
    Ok(())
}

// A part many times, between a front and a back.
fn repeated(alloc: Global, front: &[u8], part: &[u8], back: &[u8]) -> Result<Vec<u8>, AllocError> {
    let mut text = Vec::new(alloc);
    text.extend_from_slice(front)?;
    add_many(&mut text, part)?;
    text.extend_from_slice(back)?;
    Ok(text)
}

// The result of a text that repeats a part many times.
fn long_line(
    alloc: Global,
    layout: Layout,
    front: &[u8],
    part: &[u8],
    back: &[u8],
) -> Result<String, AllocError> {
    let text = repeated(alloc, front, part, back)?;
    line(alloc, layout, text.as_slice(), 65536)
}

#[test]
fn long_dense_numbers(rt: HostRuntime) -> Result<(), Fail> {
    for (front, digit, end, line) in [
        ("", "9", " 1", "input: size out of range"),
        ("1 -", "9", "", "input: cost out of range at byte 2"),
        ("1 ", "0", "1", "rows [(Object(1), 1)]"),
    ] {
        let (front, digit, end) = (front.as_bytes(), digit.as_bytes(), end.as_bytes());
        let told = long_line(rt.alloc(), Layout::Dense, front, digit, end)?;
        assert_eq!(rt; told.as_str(), line);
    }
    Ok(())
}

#[test]
fn long_sparse_numbers(rt: HostRuntime) -> Result<(), Fail> {
    for (front, digit, end, line) in [
        ("", "9", " 1", "input: size out of range"),
        ("1 1 ", "9", " 1", "input: index out of range at byte 4"),
        ("1 1 1 ", "9", "", "input: cost out of range at byte 6"),
        ("1 1 ", "0", "1 1", "rows [(Object(1), 1)]"),
    ] {
        let (front, digit, end) = (front.as_bytes(), digit.as_bytes(), end.as_bytes());
        let told = long_line(rt.alloc(), Layout::Sparse, front, digit, end)?;
        assert_eq!(rt; told.as_str(), line);
    }
    Ok(())
}

#[test]
fn many_triples(rt: HostRuntime) -> Result<(), Fail> {
    let told = long_line(rt.alloc(), Layout::Sparse, b"1\n", b"1 1 7\n", b"1 1 5")?;
    assert_eq!(rt; told.as_str(), "rows [(Object(1), 5)]");
    Ok(())
}

#[test]
fn readers_that_fail(rt: HostRuntime) -> Result<(), Fail> {
    let text = b"2 1 2 3 5";
    for count in 0..10 {
        for most in [1, 4] {
            let mut reader = Pieces {
                text: &text[..count],
                most,
                fails: true,
            };
            let read = read_dense(rt.alloc(), &mut reader);
            assert!(rt;
                read.err() == Some(InputFault::Read),
                "behind {count} bytes"
            );
            let mut reader = Pieces {
                text: &text[..count],
                most,
                fails: true,
            };
            let read = read_sparse(rt.alloc(), &mut reader);
            assert!(rt;
                read.err() == Some(InputFault::Read),
                "sparse, behind {count} bytes"
            );
        }
    }
    Ok(())
}

// One byte without end.
fn endless(byte: u8) -> Endless<'static> {
    Endless {
        front: whole_text(b"", 1),
        byte,
    }
}

#[test]
fn endless_blanks(rt: HostRuntime) -> Result<(), Fail> {
    let long = "input: longer than 1073741824 bytes";
    let dense = read_dense(rt.alloc(), &mut endless(b' '));
    assert_eq!(rt; told(rt.alloc(), dense)?.as_str(), long);
    let sparse = read_sparse(rt.alloc(), &mut endless(b' '));
    assert_eq!(rt; told(rt.alloc(), sparse)?.as_str(), long);
    Ok(())
}

#[test]
fn endless_dense_texts(rt: HostRuntime) -> Result<(), Fail> {
    for byte in [b'0', b'x'] {
        let read = read_dense(rt.alloc(), &mut endless(byte));
        assert_eq!(rt;
            told(rt.alloc(), read)?.as_str(),
            "input: longer than 1073741824 bytes"
        );
    }
    Ok(())
}

#[test]
fn endless_sparse_texts(rt: HostRuntime) -> Result<(), Fail> {
    for byte in [b'0', b'x'] {
        let read = read_sparse(rt.alloc(), &mut endless(byte));
        assert_eq!(rt;
            told(rt.alloc(), read)?.as_str(),
            "input: longer than 1073741824 bytes"
        );
    }
    Ok(())
}
