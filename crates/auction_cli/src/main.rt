//! Solves assignment problems from the command line.
#![tactic(auto)]

pub use auction_command::{
    CliFault, Context, Ended, Solver, Verified, run_solve, run_solve_by, run_solve_from, run_verify,
};
use auction_command::{
    Console, Devices, Files, NoFile, NoWords, OpenGate, Outputs, ProgressLines, run_program,
};
pub use command_line::{Method, Mode, SolveOpts, Words, WordsFault, read_words};
use std::fs::File;
use std::io::{IsTerminal, Write};
use std::os::fd::AsRawFd;
use std::process::ExitCode;
use std::time::Clock;
use std::{env, fs, io};

// Opens a file, and leaves standard input's number free. If standard input is closed, the file
// would get its number, and a report would be read as the problem. So the file is moved, and
// reading the problem from standard input fails.
fn opened_beside_input(rt: &HostRuntime, name: &str) -> io::Result<File> {
    let file = fs::open(rt, name)?;
    if file.as_raw_fd() == rt.stdin().as_raw_fd() {
        file.try_clone()
    } else {
        Ok(file)
    }
}

// The files of the machine.
#[derive(Drop)]
struct Disk<'a> {
    rt: &'a HostRuntime,
}

impl Files for Disk<'_> {
    type File = File;

    ghost use Rattle.std.specs.Prelude.{⊤};

    ghost may_open = { λ _ _ _. ⊤ };

    fn open(&self, name: &str) -> Result<File, NoFile> {
        match opened_beside_input(self.rt, name) {
            Ok(file) => Ok(file),
            Err(error) if error.kind() == io::ErrorKind::OutOfMemory => Err(NoFile::Memory),
            Err(_) => Err(NoFile::Unopened),
        }
    }
}

// The clock and the standard error of the machine.
#[derive(Drop)]
struct Machine<'a> {
    rt: &'a HostRuntime,
}

impl Console for Machine<'_> {
    fn now(&self) -> Option<u64> {
        let since = self.rt.monotonic().ok()?;
        u64::try_from(since.as_millis()).ok()
    }

    fn write(&self, text: &[u8]) -> bool {
        self.rt.stderr().write_all(text).is_ok()
    }
}

// The words of the command line, the first of which is the program's own name.
fn given_words(rt: &HostRuntime) -> Result<Vec<String>, NoWords> {
    match env::args(rt) {
        Ok(words) => words.collect(rt.alloc()).map_err(|_| NoWords::Memory),
        Err(error) if error.kind() == io::ErrorKind::OutOfMemory => Err(NoWords::Memory),
        Err(_) => Err(NoWords::NoText),
    }
}

fn main(rt: HostRuntime) -> ExitCode {
    let words = given_words(&rt);
    let mut devices = Devices {
        files: Disk { rt: &rt },
        input: rt.reader(),
        outputs: Outputs {
            output: io::writer(&rt),
            errors: rt.stderr(),
        },
    };
    let typed = rt.stdin().is_terminal();
    let in_place = rt.stderr().is_terminal();
    let context = Context {
        rt: &rt,
        alloc: rt.alloc(),
        gate: &OpenGate,
        watch: &ProgressLines::new(Machine { rt: &rt }, in_place, typed),
    };
    let end = run_program(&context, words, &mut devices);
    ExitCode::from(end.status())
}
