// The whole program: from words and streams to an end with its status.
ghost use Rattle.std.specs.Prelude.{◌≡◌, ◌<◌, ℕ, Bool, List, None, Ok, Err, Option, String, IfOk, IfErr, map};
ghost use Rattle.std.specs.Option.{option_map};
ghost use Rattle.std.specs.String.{string_bytes};
ghost use Rattle.std.specs.declared.alloc.Global.{Global};
ghost use Rattle.clap.specs.Words.{Text};
ghost use Rattle.auction_command.specs.Program.{Does, EndsAtWords, SolveEnd, VerifyEnd};
ghost use Rattle.auction_command.specs.inside.Program.{EndsAbsent, EndsFailed};
ghost use Rattle.auction_command.specs.Program.{FailsToOpen, Given, IsReadWhere, Opening, Opens, given_by, input_name, opening_of};
ghost use Rattle.auction_command.specs.Program.{ErrorOutcome, InputOutcome, IsWritten, ProgramOutcome, exit_status, unopened_line};
ghost use Rattle.command_line.specs.Words.{IsInRanges, WordsOutcome};
ghost use Rattle.command_line.specs.declared.words.Words.TheVariants.{Solve, Verify};
ghost use Rattle.command_line.specs.declared.words.WordsFault.TheVariants.{Clap};

use crate::progress::Watch;
use crate::run::{CliFault, Context, Ended, Solver, end_status_of, run_solve_by, status_of};
use crate::verify::{Verified, Verifier, run_verify_under};
use arrayvec::ArrayString;
use async_workers::OpenGate;
use clap::Error;
use command_line::{Words, WordsFault, read_words};
use report::{WriteFault, write_text};
use std::alloc::{AllocError, Global};
use std::convert::AsStr;
use std::fmt::Write as FmtWrite;
use std::io::{Read, Write};
use std::sync::Wait;
use std::thread::Threads;

/// Why the program has no words to read.
#[derive(Clone, Copy, PartialEq, Eq)]
pub enum NoWords {
    /// A word isn't valid text.
    NoText,
    /// Memory was refused.
    Memory,
}

/// Why a file can't be read.
#[derive(Clone, Copy, PartialEq, Eq)]
pub enum NoFile {
    /// The file can't be opened.
    Unopened,
    /// Memory was refused.
    Memory,
}

/// Files by their names.
pub trait Files {
    /// An opened file.
    type File: Read + Drop;

    ghost may_open: { Self → List ℕ → Opening → Type 0 };

    /// Opens the file of this name.
    ///
    /// # Errors
    /// Why it can't be read.
    fn open(&self, name: &str) -> Result<Self::File, NoFile>
        ensures { may_open self.now name.now (opening_of Self.File.remaining result) };
}

/// Where the program writes.
#[derive(Drop)]
pub struct Outputs<W, E> {
    /// Standard output, for the report, the result of a check, or help.
    pub output: W,
    /// Standard error, for a fault.
    pub errors: E,
}

/// What the program reads, and where it writes.
#[derive(Drop)]
pub struct Devices<F, R, W, E> {
    /// The files that words can name.
    pub files: F,
    /// Standard input.
    pub input: R,
    pub outputs: Outputs<W, E>,
}

/// The use of a file that the words name.
#[derive(Clone, Copy, PartialEq, Eq)]
pub enum Named {
    /// The report to check, or the report whose prices are the first ones.
    Report,
    /// The problem.
    Input,
}

/// How much of a text standard error took.
#[derive(Clone, Copy, PartialEq, Eq)]
pub enum Written {
    /// All of it.
    Whole,
    /// A beginning of it or nothing: the stream failed, was interrupted or took no byte.
    Part,
}

/// How the program ended.
#[derive(Drop)]
pub enum ProgramEnd {
    /// The report is on standard output.
    Reported(Ended),
    /// The result of checking a report is on standard output.
    Checked(Verified),
    /// The requested help or version is on standard output.
    Helped,
    /// The words were refused, and this much of the reason is on standard error.
    Refused(Written),
    /// The file that the words name for this can't be opened, and this much of its line is on
    /// standard error.
    Unopened(Named, Written),
    /// The run failed, and this much of the fault's line is on standard error.
    Failed(CliFault, Written),
}

impl ProgramEnd {
    /// The exit status: 0 for an assignment, for a right report and for help, 1 if no assignment
    /// exists, 2 for refused words, 4 for a file that can't be opened, 5 for a wrong report, and
    /// `status_of` for a fault. It stays the same if standard error fails.
    pub fn status(&self) -> u8
        ensures { result ≡ exit_status self.now }
    {
        match self {
            ProgramEnd::Reported(ended) => end_status_of(*ended),
            ProgramEnd::Checked(Verified::Yes) | ProgramEnd::Helped => 0,
            ProgramEnd::Refused(_) => 2,
            ProgramEnd::Unopened(_, _) => 4,
            ProgramEnd::Checked(Verified::No) => 5,
            ProgramEnd::Failed(fault, _) => status_of(fault),
        }
    }
}

// Writes a text to standard error, as far as it is taken.
fn write_error<E: Write>(e: &mut E, text: &[u8]) -> Written
    ensures { IsWritten (E.contents e.old) (E.contents e.new) text.now result }
{
    match write_text(e, text) {
        Ok(()) => Written::Whole,
        Err(WriteFault::Write) => Written::Part,
    }
}

// Writes the line of a fault to standard error. It takes no memory, which may already be refused.
fn fail<E: Write>(e: &mut E, fault: CliFault) -> ProgramEnd
    ensures { EndsFailed fault (E.contents e.old) (E.contents e.new) result }
{
    let mut line: ArrayString<64> = ArrayString::new();
    match line.writeln(&fault) {
        Ok(()) => {
            let written = write_error(e, line.as_bytes());
            ProgramEnd::Failed(fault, written)
        }
        Err(_) => ProgramEnd::Failed(fault, Written::Part),
    }
}

// The hint after clap's words about a word that could be the problem's file.
const FILE_HINT: &str = "
To read the problem from a file, write '--input' before its name.
";

// Whether clap's words are about a word that could be a file: an unexpected one that isn't an
// option.
fn may_be_file(text: &str) -> bool {
    text.starts_with("error: unexpected argument '")
        && !text.starts_with("error: unexpected argument '-")
}

// The text of clap's error, with a hint if one may help.
fn text_of(alloc: Global, error: &Error) -> Result<String, AllocError> {
    let mut text = format!(in alloc; "{error}")?;
    if may_be_file(text.as_str()) {
        text.push_str(FILE_HINT)?;
    }
    Ok(text)
}

// Prints the text of clap's error: requested help, or why the words are refused.
fn refuse<W: Write, E: Write>(
    alloc: Global,
    error: Error,
    outputs: &mut Outputs<W, E>,
) -> ProgramEnd
    ensures output { (words : List Text) → WordsOutcome words (Err (Clap error))
        → EndsAtWords (Ok words) (W.contents outputs.old.output) (W.contents outputs.new.output) result }
    ensures errors { (words : List Text) → WordsOutcome words (Err (Clap error))
        → ErrorOutcome (Ok words) (E.contents outputs.old.errors) (E.contents outputs.new.errors) result }
{
    let text = match text_of(alloc, &error) {
        Ok(text) => text,
        Err(_) => return fail(&mut outputs.errors, CliFault::Memory),
    };
    if error.use_stderr() {
        return ProgramEnd::Refused(write_error(&mut outputs.errors, text.as_bytes()));
    }
    match write_text(&mut outputs.output, text.as_bytes()) {
        Ok(()) => ProgramEnd::Helped,
        Err(_) => fail(&mut outputs.errors, CliFault::Write),
    }
}

// Solves from one stream to the other, from the prices of a report if there is one.
fn solve<T: Threads + Wait + Sync, V: Watch + Sync, Q: Read + Drop, R: Read, W: Write, E: Write>(
    context: &Context<'_, T, OpenGate, V>,
    solver: Solver,
    start: Option<Q>,
    r: &mut R,
    outputs: &mut Outputs<W, E>,
) -> ProgramEnd
    requires { 0 < solver.options.workers }
    ensures output { SolveEnd solver (R.remaining r.old) (option_map Q.remaining start)
        (W.contents outputs.old.output) (W.contents outputs.new.output) result }
    ensures errors { (given : Given)
        → ErrorOutcome given (E.contents outputs.old.errors) (E.contents outputs.new.errors) result }
{
    match run_solve_by(context, r, start, &mut outputs.output, solver) {
        Ok(ended) => ProgramEnd::Reported(ended),
        Err(fault) => {
            context.watch.over();
            fail(&mut outputs.errors, fault)
        }
    }
}

// Checks a report.
fn verify<Q: Read + Drop, R: Read, W: Write, E: Write>(
    alloc: Global,
    verifier: Verifier,
    mut report: Q,
    r: &mut R,
    outputs: &mut Outputs<W, E>,
) -> ProgramEnd
    ensures output { VerifyEnd verifier (R.remaining r.old) (Q.remaining report)
        (W.contents outputs.old.output) (W.contents outputs.new.output) result }
    ensures errors { (given : Given)
        → ErrorOutcome given (E.contents outputs.old.errors) (E.contents outputs.new.errors) result }
{
    match run_verify_under(alloc, r, &mut report, &mut outputs.output, verifier) {
        Ok(verified) => ProgramEnd::Checked(verified),
        Err(fault) => fail(&mut outputs.errors, fault),
    }
}

// Opens the file of this name, if one is given.
fn open_named<F: Files>(files: &F, name: Option<String>) -> Result<Option<F::File>, NoFile>
    ensures ok { IfOk result (λ file. Opens (F.may_open files.now)
        (option_map string_bytes name) (option_map F.File.remaining file)) }
    ensures err { IfErr result
        (FailsToOpen (F.may_open files.now) (option_map string_bytes name)) }
{
    match name {
        None => Ok(None),
        Some(name) => match files.open(name.as_str()) {
            Ok(file) => Ok(Some(file)),
            Err(absent) => Err(absent),
        },
    }
}

// The line for a file that can't be opened.
fn unopened(named: Named) -> &'static [u8]
    ensures { result.now ≡ unopened_line named }
{
    match named {
        Named::Report => b"device: cannot open the report\n",
        Named::Input => b"device: cannot open the input\n",
    }
}

// Reports why a file can't be read.
fn report_absent<E: Write>(named: Named, absent: NoFile, e: &mut E) -> ProgramEnd
    ensures end { EndsAbsent named absent result }
    ensures errors { (given : Given)
        → ErrorOutcome given (E.contents e.old) (E.contents e.new) result }
{
    match absent {
        NoFile::Unopened => ProgramEnd::Unopened(named, write_error(e, unopened(named))),
        NoFile::Memory => fail(e, CliFault::Memory),
    }
}

// Solves the problem in the named file, or else on standard input.
fn solve_named<T: Threads + Wait + Sync, V: Watch + Sync, F: Files, R: Read, W: Write, E: Write>(
    context: &Context<'_, T, OpenGate, V>,
    solver: Solver,
    start: Option<F::File>,
    input: Option<String>,
    devices: &mut Devices<F, R, W, E>,
) -> ProgramEnd
    requires { 0 < solver.options.workers }
    ensures output { (name : Option (String Global)) (progress : Bool)
        → Opens (F.may_open devices.old.files) (option_map string_bytes name) (option_map F.File.remaining start)
        → Does (Solve solver.options name solver.method input progress)
        (R.remaining devices.old.input) (F.may_open devices.old.files)
        (W.contents devices.old.outputs.output) (W.contents devices.new.outputs.output) result }
    ensures errors { (given : Given) → ErrorOutcome given
        (E.contents devices.old.outputs.errors) (E.contents devices.new.outputs.errors) result }
    ensures unread { IsReadWhere (option_map string_bytes input ≡ None)
        (R.remaining devices.old.input) (R.remaining devices.new.input) result }
    ensures files { devices.new.files ≡ devices.old.files }
{
    match open_named(&devices.files, input) {
        Ok(None) => solve(
            context,
            solver,
            start,
            &mut devices.input,
            &mut devices.outputs,
        ),
        Ok(Some(mut input)) => solve(context, solver, start, &mut input, &mut devices.outputs),
        Err(absent) => report_absent(Named::Input, absent, &mut devices.outputs.errors),
    }
}

// Checks a report on the problem in the named file, or else on standard input.
fn verify_named<F: Files, R: Read, W: Write, E: Write>(
    alloc: Global,
    verifier: Verifier,
    report: F::File,
    input: Option<String>,
    devices: &mut Devices<F, R, W, E>,
) -> ProgramEnd
    ensures output { (name : String Global)
        → F.may_open devices.old.files (string_bytes name) (Ok (F.File.remaining report))
        → Does (Verify verifier.sparse verifier.sense name input)
        (R.remaining devices.old.input) (F.may_open devices.old.files)
        (W.contents devices.old.outputs.output) (W.contents devices.new.outputs.output) result }
    ensures errors { (given : Given) → ErrorOutcome given
        (E.contents devices.old.outputs.errors) (E.contents devices.new.outputs.errors) result }
    ensures unread { IsReadWhere (option_map string_bytes input ≡ None)
        (R.remaining devices.old.input) (R.remaining devices.new.input) result }
    ensures files { devices.new.files ≡ devices.old.files }
{
    match open_named(&devices.files, input) {
        Ok(None) => verify(
            alloc,
            verifier,
            report,
            &mut devices.input,
            &mut devices.outputs,
        ),
        Ok(Some(mut input)) => verify(alloc, verifier, report, &mut input, &mut devices.outputs),
        Err(absent) => report_absent(Named::Input, absent, &mut devices.outputs.errors),
    }
}

// Does what the words request. Opens the named report first.
fn run_asked<T: Threads + Wait + Sync, V: Watch + Sync, F: Files, R: Read, W: Write, E: Write>(
    context: &Context<'_, T, OpenGate, V>,
    asked: Words,
    devices: &mut Devices<F, R, W, E>,
) -> ProgramEnd
    requires { IsInRanges asked }
    ensures output { Does asked (R.remaining devices.old.input) (F.may_open devices.old.files)
        (W.contents devices.old.outputs.output) (W.contents devices.new.outputs.output) result }
    ensures errors { (given : Given) → ErrorOutcome given
        (E.contents devices.old.outputs.errors) (E.contents devices.new.outputs.errors) result }
    ensures unread { IsReadWhere (input_name asked ≡ None)
        (R.remaining devices.old.input) (R.remaining devices.new.input) result }
    ensures files { devices.new.files ≡ devices.old.files }
{
    match asked {
        Words::Solve {
            options,
            start,
            method,
            input,
            progress,
        } => match open_named(&devices.files, start) {
            Ok(start) => {
                context.watch.begin(progress, input.is_some());
                solve_named(context, Solver { options, method }, start, input, devices)
            }
            Err(absent) => report_absent(Named::Report, absent, &mut devices.outputs.errors),
        },
        Words::Verify {
            sparse,
            sense,
            report,
            input,
        } => match devices.files.open(report.as_str()) {
            Ok(report) => {
                context.watch.begin(false, input.is_some());
                verify_named(
                    context.alloc,
                    Verifier { sparse, sense },
                    report,
                    input,
                    devices,
                )
            }
            Err(absent) => report_absent(Named::Report, absent, &mut devices.outputs.errors),
        },
    }
}

// Does what the words request.
fn run_words<
    T: Threads + Wait + Sync,
    V: Watch + Sync,
    S: AsStr,
    F: Files,
    R: Read,
    W: Write,
    E: Write,
>(
    context: &Context<'_, T, OpenGate, V>,
    words: &[S],
    devices: &mut Devices<F, R, W, E>,
) -> ProgramEnd
    ensures output { ProgramOutcome (Ok (map S.text words.entry.now)) (R.remaining devices.old.input)
        (F.may_open devices.old.files) (W.contents devices.old.outputs.output)
        (W.contents devices.new.outputs.output) result }
    ensures errors { ErrorOutcome (Ok (map S.text words.entry.now))
        (E.contents devices.old.outputs.errors) (E.contents devices.new.outputs.errors) result }
    ensures unread { InputOutcome (Ok (map S.text words.entry.now))
        (R.remaining devices.old.input) (R.remaining devices.new.input) result }
    ensures files { devices.new.files ≡ devices.old.files }
{
    match read_words(context.alloc, words) {
        Ok(asked) => run_asked(context, asked, devices),
        Err(WordsFault::Mode) => {
            ProgramEnd::Refused(write_error(
                &mut devices.outputs.errors,
                b"usage: mode is rounds or workers\n",
            ))
        }
        Err(WordsFault::Sense) => {
            ProgramEnd::Refused(write_error(
                &mut devices.outputs.errors,
                b"usage: sense is min or max\n",
            ))
        }
        Err(WordsFault::Clap(error)) => refuse(context.alloc, error, &mut devices.outputs),
        Err(WordsFault::Memory) => fail(&mut devices.outputs.errors, CliFault::Memory),
    }
}

/// Does what the words request, the first of which is the program's own name. It opens the report
/// and then the problem's file, if the words name them. It reads the problem from this file, or else
/// from standard input, and then the report. It writes the report, the result of a check, or help to
/// standard output, and any fault to standard error.
///
/// Nothing is written to standard error if the program ends with the requested text on standard
/// output. Nothing is written to standard output if the program fails, except for a beginning of the
/// text if this stream itself fails. Nothing is read from standard input if the words are refused,
/// request help, or name a file for the problem or one that can't be opened.
///
/// The watch is shown how far a run of `solve` is, and what the words say about progress. No clause
/// says what it is shown, or what it does.
pub fn run_program<
    T: Threads + Wait + Sync,
    V: Watch + Sync,
    S: AsStr + Drop,
    F: Files,
    R: Read,
    W: Write,
    E: Write,
>(
    context: &Context<'_, T, OpenGate, V>,
    words: Result<Vec<S>, NoWords>,
    devices: &mut Devices<F, R, W, E>,
) -> ProgramEnd
    ensures output { ProgramOutcome (given_by (λ v. map S.text v.items) words)
        (R.remaining devices.old.input) (F.may_open devices.old.files)
        (W.contents devices.old.outputs.output) (W.contents devices.new.outputs.output) result }
    ensures errors { ErrorOutcome (given_by (λ v. map S.text v.items) words)
        (E.contents devices.old.outputs.errors) (E.contents devices.new.outputs.errors) result }
    ensures unread { InputOutcome (given_by (λ v. map S.text v.items) words)
        (R.remaining devices.old.input) (R.remaining devices.new.input) result }
    ensures files { devices.new.files ≡ devices.old.files }
{
    match words {
        Ok(words) => run_words(context, words.as_slice(), devices),
        Err(NoWords::NoText) => {
            ProgramEnd::Refused(write_error(
                &mut devices.outputs.errors,
                b"error: the words are no text\n",
            ))
        }
        Err(NoWords::Memory) => fail(&mut devices.outputs.errors, CliFault::Memory),
    }
}
