// Texts with their expected results.
use super::*;
use report::WriteFault;

// Whether a text gives this line, read at once and byte by byte.
fn is_told(alloc: Global, text: &[u8], answer: &str) -> Result<bool, AllocError> {
    let once = line(alloc, text, text.len().max(1), false)?;
    let bytewise = line(alloc, text, 1, false)?;
    Ok(once.as_str() == answer && bytewise.as_str() == answer)
}

// The place of the first of these texts that gives another line.
fn other_text(alloc: Global, texts: &[&[u8]], answer: &str) -> Result<Option<usize>, AllocError> {
    for (i, text) in texts.iter().enumerate() {
        if !is_told(alloc, text, answer)? {
            return Ok(Some(i));
        }
    }
    Ok(None)
}

// None of these may be the first line.
const BAD_FIRST_LINES: [&[u8]; 23] = [
    b"cost 5",
    b"\n",
    b"\x00",
    b"\xff\n",
    b"sense best\n",
    b"sense min \n",
    b"sense  min\n",
    b"cost 05\n",
    b"cost 00\n",
    b"cost +5\n",
    b"cost -0\n",
    b"cost -05\n",
    b"cost --5\n",
    b"cost -\n",
    b"cost\n",
    b"cost \n",
    b" cost 5\n",
    b"cost  5\n",
    b"cost 5 \n",
    b"cost\t5\n",
    b"cost 5\r\n",
    b"cost 8192000001\n",
    b"cost 100000000000000000000000000000000000000000\n",
];

#[test]
fn bad_first_lines(rt: HostRuntime) -> Result<(), Fail> {
    assert_eq!(rt;
        other_text(rt.alloc(), &BAD_FIRST_LINES, "report: bad line 1")?,
        None
    );
    Ok(())
}

// The second line of each isn't allowed there.
const BAD_SECOND_LINES: [&[u8]; 13] = [
    b"sense min\nsense min\n",
    b"cost 5\nsense min\n",
    b"sense max\ncost -8192000000000001\n",
    b"cost 5\nassign 2 1 5\n",
    b"cost 5\nassign 01 1 5\n",
    b"cost 5\nassign 1 1  5\n",
    b"cost 5\nassign 1 1 1000001\n",
    b"cost 5\nprice 1 5\n",
    b"cost 5\nassign 1 0 5\n",
    b"cost 5\nassign 1 8193 5\n",
    b"infeasible\npersons 0\n",
    b"infeasible\npersons 2 2 1\n",
    b"infeasible\npersons 3 1 2\n",
];

#[test]
fn bad_second_lines(rt: HostRuntime) -> Result<(), Fail> {
    assert_eq!(rt;
        other_text(rt.alloc(), &BAD_SECOND_LINES, "report: bad line 2")?,
        None
    );
    Ok(())
}

// The place of the first of these texts that gives another line than the one next to it.
fn other_answer(alloc: Global, table: &[(&[u8], &str)]) -> Result<Option<usize>, AllocError> {
    for (i, (text, answer)) in table.iter().enumerate() {
        if !is_told(alloc, text, answer)? {
            return Ok(Some(i));
        }
    }
    Ok(None)
}

// Texts, each with its expected line.
const TOLD_TEXTS: [(&[u8], &str); 19] = [
    (
        b"sense max\ncost 5\nassign 1 1 -1000000000001\n",
        "report: bad line 3",
    ),
    (b"cost 5\nassign 1 1 5\n\n", "report: bad line 3"),
    (b"cost 5\nassign 1 1 5\nprice 1 -1\n", "report: bad line 3"),
    (
        b"cost 5\nassign 1 1 5\nprice 1 10000000000000000\n",
        "report: bad line 3",
    ),
    (
        b"sense max\ncost 5\nassign 1 1 5\nprice 1 10000000000000000000000\n",
        "report: bad line 4",
    ),
    (
        b"infeasible\npersons 1 1\nobjects 0\ncost 5\n",
        "report: bad line 4",
    ),
    (b"", "report: ends before line 1"),
    (b"cost 5\n", "report: ends before line 2"),
    (b"sense min\n", "report: ends before line 2"),
    (b"cost 8192000000\n", "report: ends before line 2"),
    (
        b"sense max\ncost -8192000000000000\n",
        "report: ends before line 3",
    ),
    (
        b"cost 5\nassign 1 1 5\nassign 2 1 5\nprice 1 0\n",
        "report: ends before line 5",
    ),
    (b"cost 5\nassign 1 1 5\n", "cost 5\nassign 1 1 5\n"),
    (
        b"cost -5\nassign 1 8192 -1000000\n",
        "cost -5\nassign 1 8192 -1000000\n",
    ),
    (
        b"cost 5\nassign 1 1 5\nprice 1 0\n",
        "cost 5\nassign 1 1 5\nprice 1 0\n",
    ),
    (
        b"cost 5\nassign 1 1 5\nprice 1 9999999999999999\n",
        "cost 5\nassign 1 1 5\nprice 1 9999999999999999\n",
    ),
    (
        b"sense max\ncost 5\nassign 1 1 5\nprice 1 9999999999999999999999\n",
        "sense max\ncost 5\nassign 1 1 5\nprice 1 9999999999999999999999\n",
    ),
    (
        b"infeasible\npersons 2 1 2\nobjects 1 1\n",
        "infeasible\npersons 2 1 2\nobjects 1 1\n",
    ),
    (
        b"sense min\ninfeasible\npersons 1 8192\nobjects 0\n",
        "sense min\ninfeasible\npersons 1 8192\nobjects 0\n",
    ),
];

#[test]
fn other_texts(rt: HostRuntime) -> Result<(), Fail> {
    assert_eq!(rt; other_answer(rt.alloc(), &TOLD_TEXTS)?, None);
    Ok(())
}

// A line whose line feed came before the reader fails is judged first.
#[test]
fn failing_readers(rt: HostRuntime) -> Result<(), Fail> {
    let table: [(&[u8], &str); 4] = [
        (b"cost  5\n", "report: bad line 1"),
        (b"cost  5", "device: read failed"),
        (SECOND, "device: read failed"),
        (b"cost 5\nassign 1 1 5\n\n", "report: bad line 3"),
    ];
    for (text, answer) in table {
        let said = line(rt.alloc(), text, 5, true)?;
        assert_eq!(rt; said.as_str(), answer);
    }
    Ok(())
}

// The lines on standard error.
#[test]
fn faults(rt: HostRuntime) -> Result<(), Fail> {
    let table = [
        (ReportFault::Line(7), "report: bad line 7"),
        (ReportFault::TooLong, "report: longer than 1048576 bytes"),
        (ReportFault::Ends(3), "report: ends before line 3"),
        (ReportFault::Read, "device: read failed"),
        (ReportFault::Memory, "memory refused"),
    ];
    for (fault, wanted) in table {
        let said = format!(in rt.alloc(); "{fault}")?;
        assert_eq!(rt; said.as_str(), wanted);
    }
    let said = format!(in rt.alloc(); "{}", WriteFault::Write)?;
    assert_eq!(rt; said.as_str(), "device: write failed");
    Ok(())
}
