// The fronts of a report.
use super::*;

// The number of whole lines.
fn lines_of(text: &[u8]) -> usize {
    let mut lines: usize = 0;
    for byte in text {
        if *byte == b'\n' {
            lines = lines.wrapping_add(1);
        }
    }
    lines
}

// The expected line of a front: that of its whole lines, or that its last line is bad.
fn told_of_front(alloc: Global, front: &[u8], whole: &[&str]) -> Result<String, AllocError> {
    let lines = lines_of(front);
    let number = lines.wrapping_add(1);
    match (front.last(), whole.get(lines)) {
        (None | Some(b'\n'), Some(told)) => format!(in alloc; "{told}"),
        _ => format!(in alloc; "report: bad line {number}"),
    }
}

// The length of the first front of a text with another line than expected, or with another result
// than a failed device when its reader fails.
fn told_otherwise(alloc: Global, text: &[u8], whole: &[&str]) -> Result<Option<usize>, AllocError> {
    for count in 0..text.len() + 1 {
        let (front, _) = text.split_at(count);
        let wanted = told_of_front(alloc, front, whole)?;
        let said = line(alloc, front, 3, false)?;
        let failed = line(alloc, front, 3, true)?;
        if said != wanted || failed.as_str() != "device: read failed" {
            return Ok(Some(count));
        }
    }
    Ok(None)
}

#[test]
fn fronts(rt: HostRuntime) -> Result<(), Fail> {
    let first = [
        "report: ends before line 1",
        "report: ends before line 2",
        "cost 5\nassign 1 2 2\n",
        "cost 5\nassign 1 2 2\nassign 2 1 3\n",
        "report: ends before line 5",
        "cost 5\nassign 1 2 2\nassign 2 1 3\nprice 1 14\nprice 2 12\n",
    ];
    assert_eq!(rt; told_otherwise(rt.alloc(), FIRST, &first)?, None);
    let second = [
        "report: ends before line 1",
        "report: ends before line 2",
        "report: ends before line 3",
        "sense min\ncost 5\nassign 1 2 2\n",
        "sense min\ncost 5\nassign 1 2 2\nassign 2 1 3\n",
        "report: ends before line 6",
        "sense min\ncost 5\nassign 1 2 2\nassign 2 1 3\nprice 1 14\nprice 2 12\n",
    ];
    assert_eq!(rt; told_otherwise(rt.alloc(), SECOND, &second)?, None);
    Ok(())
}
