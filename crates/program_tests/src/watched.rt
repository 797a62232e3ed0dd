// Runs of the whole program with watched streams, for tests.
use auction_command::{
    Context, Devices, Files, NoFile, NoWords, OpenGate, Outputs, ProgramEnd, Unwatched, Written,
    run_program,
};
use std::alloc::{AllocError, Global};
use std::process::Abort;
use std::sync::Wait;
use std::thread::Threads;
use test_helpers::{FailingWriter, Pieces, failing_writer, whole_text};

/// A report and a problem under these names, and a file for which memory is refused under
/// `refused`.
#[derive(Drop)]
pub struct Shelf<'a> {
    pub report: Pieces<'a>,
    pub problem: Pieces<'a>,
}

impl<'a> Files for Shelf<'a> {
    type File = Pieces<'a>;

    ghost use Rattle.std.specs.Prelude.{⊤};

    ghost may_open = { λ _ _ _. ⊤ };

    fn open(&self, name: &str) -> Result<Pieces<'a>, NoFile> {
        match name {
            "report" => Ok(self.report),
            "problem" => Ok(self.problem),
            "refused" => Err(NoFile::Memory),
            _ => Err(NoFile::Unopened),
        }
    }
}

/// What a run reads, from standard input and from files, and where it writes.
pub type Watched<'a> = Devices<Shelf<'a>, Pieces<'a>, FailingWriter, FailingWriter>;

/// A text, a report, an empty problem and ample room, all in pieces of at most `most` bytes.
pub fn whole_devices<'a>(
    alloc: Global,
    text: &'a [u8],
    report: &'a [u8],
    most: usize,
) -> Watched<'a> {
    Devices {
        files: Shelf {
            report: whole_text(report, most),
            problem: whole_text(b"", most),
        },
        input: whole_text(text, most),
        outputs: Outputs {
            output: failing_writer(alloc, 1 << 20, most, true),
            errors: failing_writer(alloc, 1 << 20, most, true),
        },
    }
}

/// The status of a run, what it wrote on each stream, whether standard error took all of it, and
/// the number of bytes left on standard input.
#[derive(Drop)]
pub struct Seen {
    pub status: u8,
    pub out: Vec<u8>,
    pub errors: Vec<u8>,
    pub whole: bool,
    pub left: usize,
}

// Whether standard error took all that was written to it.
fn is_whole(end: &ProgramEnd) -> bool {
    !matches!(
        end,
        ProgramEnd::Refused(Written::Part)
            | ProgramEnd::Unopened(_, Written::Part)
            | ProgramEnd::Failed(_, Written::Part)
    )
}

/// A run with these words.
pub fn watched_run(
    rt: &(impl Threads + Wait + Sync),
    alloc: Global,
    words: Result<Vec<&str>, NoWords>,
    mut devices: Watched<'_>,
) -> Seen {
    let context = Context {
        rt,
        alloc,
        gate: &OpenGate,
        watch: &Unwatched,
    };
    let end = run_program(&context, words, &mut devices);
    Seen {
        status: end.status(),
        out: devices.outputs.output.taken,
        errors: devices.outputs.errors.taken,
        whole: is_whole(&end),
        left: devices.input.text.len(),
    }
}

// The words of a line, separated by single blanks, after the program's own name; an empty line has
// none.
fn words_of(alloc: Global, line: &str) -> Result<Vec<&str>, AllocError> {
    let mut words: Vec<&str> = Vec::new(alloc);
    words.push("auction_cli")?;
    if line.is_empty() {
        return Ok(words);
    }
    for word in line.split(' ') {
        words.push(word)?;
    }
    Ok(words)
}

/// A run with the words of a line.
pub fn run_on(
    rt: &(impl Threads + Wait + Sync),
    alloc: Global,
    line: &str,
    devices: Watched<'_>,
) -> Result<Seen, AllocError> {
    Ok(watched_run(rt, alloc, Ok(words_of(alloc, line)?), devices))
}

/// A run with the words of a line on a text and a report, read and written in pieces of at most
/// `most` bytes.
pub fn run_with(
    rt: &(impl Threads + Wait + Sync),
    alloc: Global,
    line: &str,
    text: &[u8],
    report: &[u8],
    most: usize,
) -> Result<Seen, AllocError> {
    run_on(rt, alloc, line, whole_devices(alloc, text, report, most))
}

/// The bytes up to the first line feed.
pub fn first_line(text: &[u8]) -> &[u8] {
    let end = text
        .iter()
        .position(|byte| *byte == b'\n')
        .unwrap_or(text.len());
    let (line, _) = text.split_at(end);
    line
}

/// Whether a run ended with this status, and left just this on each stream.
pub fn leaves(seen: &Seen, status: u8, out: &[u8], errors: &[u8]) -> bool {
    seen.status == status && seen.out.as_slice() == out && seen.errors.as_slice() == errors
}

// Whether these are its status and its first lines, and standard error took all.
fn begins(seen: &Seen, status: u8, out: &str, errors: &str) -> bool {
    seen.status == status
        && seen.whole
        && first_line(seen.out.as_slice()) == out.as_bytes()
        && first_line(seen.errors.as_slice()) == errors.as_bytes()
}

/// The run wrote this text, nothing on standard error, and ended with this status.
pub fn assert_reported(rt: &impl Abort, seen: &Seen, status: u8, text: &str) {
    assert!(rt; leaves(seen, status, text.as_bytes(), b""), "{text}");
}

/// The run wrote this whole line on standard error, nothing else, and ended with this status.
pub fn assert_failed(rt: &impl Abort, seen: &Seen, status: u8, line: &str) {
    assert!(rt;
        leaves(seen, status, b"", line.as_bytes()) && seen.whole,
        "{line}"
    );
}

/// The run has these first lines on each stream and this status, and standard error took all.
pub fn assert_begins(rt: &impl Abort, seen: &Seen, status: u8, out: &str, errors: &str) {
    assert!(rt; begins(seen, status, out, errors), "{out}{errors}");
}

/// The words were refused with this first line, and nothing was written.
pub fn assert_words_refused(rt: &impl Abort, seen: &Seen, errors: &str) {
    assert!(rt;
        begins(seen, 2, "", errors) && seen.out.is_empty(),
        "{errors}"
    );
}
