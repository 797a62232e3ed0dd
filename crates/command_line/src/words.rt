// The command line.
ghost use Rattle.std.specs.Prelude.{◌≡◌, ◌↔◌, ◌^◌, ℕ, [], ◌∷◌, codes, map, true, false, Option, None, Some, IfErr, IfOk, IfSome, IsErr};
ghost use Rattle.std.specs.Option.{option_map};
ghost use Rattle.std.specs.String.{string_bytes};
ghost use Rattle.assign_core.specs.declared.sense.Sense.{Sense};
ghost use Rattle.assign_core.specs.declared.sense.Sense.TheVariants.{Max, Min};
ghost use Rattle.clap.specs.declared.builder.command.Command.TheViews.{out-Command as fields_of};
ghost use Rattle.clap.specs.Words.{app_of, found_of, one_of, rows_of, rule_of, subcommand_rows_of, Text};
ghost use Rattle.command_line.specs.Words.{Chooses, ChoosesSolving, NamesFile, NamesMethod, NamesMode, NamesSense, Places};
ghost use Rattle.command_line.specs.inside.Words.{ChoosesVerifying, IsChoiceFault, NamesCommand};
ghost use Rattle.command_line.specs.Words.{IsFlag, IsNumberFor};
ghost use Rattle.command_line.specs.inside.Words.{HasNumbers, HasNumbersIfSolving, IsNumberIn};
ghost use Rattle.command_line.specs.Words.{AsksForVersion, IsInRanges, IsTaken, Solves, SolvesBy, SolvesFrom, Verifies, VerifiesFrom, WordsOutcome};
ghost use Rattle.command_line.specs.inside.Words.{IsFaultOf, without_version};
ghost use Rattle.command_line.specs.Words.{flag_rule, input_rule, method_rule, named_rule, numbered_rule, optional_rule, plain_solve_app, program, report_rule, solve_app, start_rule, valued_rule, verify_app, version_rule};
ghost use Rattle.command_line.specs.Words.{full_line, full_options, full_verify_line, input_line, input_verify_line, is_max, mode_name, sense_name, usual_options};

use assign_core::Sense;
use clap::builder::ValueParser;
use clap::error::ErrorKind;
use clap::{Arg, ArgAction, ArgMatches, Command, Error};
use release_version::VERSION;
use std::alloc::{AllocError, Global};
use std::convert::AsStr;

/// The most workers.
pub const MOST_WORKERS: u64 = 64;

/// The most sessions after which a worker's table catches up.
pub const MOST_REFRESH: u64 = 1_000_000;

// What help shows after the subcommands.
const PROGRAM_NOTES: &str = "Example:
  auction_cli solve --prices < costs.txt > report.txt
  auction_cli verify report.txt < costs.txt

'auction_cli solve --help' has the layouts of a problem, and the exit statuses.";

// What help shows after the options of `solve`.
const SOLVE_NOTES: &str =
    "Reads the problem from standard input, with --input FILE from that file: numbers
between white space
  dense:     n, then the n costs of person 1 to objects 1 to n, those of person 2, ..
  --sparse:  n, then PERSON OBJECT COST for each pair that is allowed
Writes the report to standard output.

Methods:
  auction  in a mode
  paths    no use is made of --mode, --workers and --refresh

Modes:
  rounds   no use is made of --workers and --refresh; the report depends on the
           input and the options alone
  workers  with --workers and --refresh; of several best assignments any

Exit status:
  0  solved
  1  there is no assignment
  2  the words of the command line are refused
  3  the problem is refused, or the report of --start
  4  a read or a write failed, the problem or the report of --start can't be
     opened, or memory was refused

Example:
  auction_cli solve --max --prices < sales.txt > report.txt
  auction_cli solve --max --prices --input sales.txt > report.txt";

// What help shows after the options of `verify`.
const VERIFY_NOTES: &str =
    "Reads the problem from standard input, with --input FILE from that file: numbers
between white space
  dense:     n, then the n costs of person 1 to objects 1 to n, those of person 2, ..
  --sparse:  n, then PERSON OBJECT COST for each pair that is allowed
Writes one line to standard output: 'verified ..' or 'not verified: ..'.

Exit status:
  0  verified
  2  the words of the command line are refused
  3  the problem or the report is refused
  4  a read or a write failed, the problem or the report can't be opened, or
     memory was refused
  5  not verified

Example:
  auction_cli verify --sense max report.txt < sales.txt
  auction_cli verify --sense max --input sales.txt report.txt";

/// The limits as numbers.
pub fn word_limits()
    ensures workers { MOST_WORKERS ≡ 64 }
    ensures refresh { MOST_REFRESH ≡ 10 ^ 6 }
{}

/// When persons bid.
#[derive(Clone, Copy, PartialEq, Eq)]
pub enum Mode {
    /// All who wait bid from one table of prices, round by round.
    Rounds,
    /// Workers bid from their own tables, at any time.
    Workers,
}

/// How to solve.
#[derive(Clone, Copy, PartialEq, Eq)]
pub struct SolveOpts {
    /// Whether the text lists pairs.
    pub sparse: bool,
    /// Rounds or workers.
    pub mode: Mode,
    /// The number of workers; rounds don't use it.
    pub workers: u16,
    /// The number of sessions after which a worker's table catches up; 0 for only after a low bid.
    /// Rounds don't use it.
    pub refresh: u64,
    /// Whether the report has the prices.
    pub prices: bool,
    /// Whether to minimise or to maximise.
    pub sense: Sense,
}

/// The method of solving.
#[derive(Clone, Copy, PartialEq, Eq)]
pub enum Method {
    /// Persons bid for objects, in a `Mode`.
    Auction,
    /// Shortest augmenting paths, person by person, in one thread.
    Paths,
}

/// The request of the words. The problem is in the file `input`, or on standard input without one.
#[derive(Drop)]
pub enum Words {
    /// Solve a problem by a method, to which mode, workers and refresh belong if it is the auction,
    /// with the first prices of the report in the file `start`, if one is named. Progress lines may
    /// be requested.
    Solve {
        options: SolveOpts,
        start: Option<String>,
        method: Method,
        input: Option<String>,
        progress: bool,
    },
    /// Check the report in the file of this name, which must have the requested sense, if any. The
    /// problem's text lists pairs if `sparse` is true.
    Verify {
        sparse: bool,
        sense: Option<Sense>,
        report: String,
        input: Option<String>,
    },
}

/// Why the words request nothing: they are refused or request help, or memory is refused.
#[derive(Drop)]
pub enum WordsFault {
    /// The word after `--mode` isn't a mode.
    Mode,
    /// The word after `--sense` isn't a sense.
    Sense,
    Clap(Error),
    Memory,
}

impl From<AllocError> for WordsFault {
    ghost use Rattle.std.specs.Prelude.{◌≡◌};
    ghost use Rattle.command_line.specs.declared.words.WordsFault.TheVariants.{Memory};

    ghost from_gives = { λ _ fault. fault ≡ Memory };

    fn from(_refused: AllocError) -> WordsFault {
        WordsFault::Memory
    }
}

// An option without a value.
fn flag<'a>(alloc: Global, name: &'a str, help: &'a str) -> Arg<'a>
    ensures rule { rule_of result ≡ flag_rule name.now }
    ensures local { result.global ≡ false }
{
    Arg::new(alloc, name)
        .long(name)
        .help(help)
        .action(ArgAction::SetTrue)
}

// The option for texts that list pairs.
fn sparse_flag<'a>(alloc: Global) -> Arg<'a>
    ensures rule { rule_of result ≡ flag_rule (codes "sparse") }
    ensures local { result.global ≡ false }
{
    flag(
        alloc,
        "sparse",
        "The problem names the allowed pairs: a person, an object and a cost each",
    )
}

// The option for the file with the problem.
fn input_option<'a>(alloc: Global) -> Arg<'a>
    ensures rule { rule_of result ≡ input_rule }
    ensures local { result.global ≡ false }
{
    Arg::new(alloc, "input")
        .long("input")
        .value_name("FILE")
        .help("The file with the problem, which is read in place of standard input")
}

// An option with a value, and its default.
fn valued<'a>(
    alloc: Global,
    name: &'a str,
    value: &'a str,
    usual: &'a str,
    help: &'a str,
) -> Arg<'a>
    ensures rule { rule_of result ≡ valued_rule name.now usual.now }
    ensures local { result.global ≡ false }
{
    Arg::new(alloc, name)
        .long(name)
        .value_name(value)
        .default_value(usual)
        .help(help)
}

// An option whose value is a number in a range.
fn numbered<'a>(
    alloc: Global,
    name: &'a str,
    value: &'a str,
    usual: &'a str,
    range: (u64, u64),
    help: &'a str,
) -> Arg<'a>
    ensures rule { rule_of result ≡ numbered_rule name.now usual.now range.0 range.1 }
    ensures local { result.global ≡ false }
{
    valued(alloc, name, value, usual, help).value_parser(ValueParser::unsigned(range.0, range.1))
}

// The names of the methods.
static METHODS: [&str; 2] = ["auction", "paths"];

// An option whose value is one of these names.
fn named<'a>(
    alloc: Global,
    name: &'a str,
    value: &'a str,
    usual: &'a str,
    names: &'a [&'a str],
    help: &'a str,
) -> Arg<'a>
    ensures rule { rule_of result ≡ named_rule name.now usual.now names.entry }
    ensures local { result.global ≡ false }
{
    valued(alloc, name, value, usual, help).value_parser(ValueParser::Names(names))
}

// The option for the method.
fn method_option<'a>(alloc: Global) -> Arg<'a>
    ensures rule { (at : Places) × (rule_of result ≡ method_rule at) }
    ensures local { result.global ≡ false }
{
    named(
        alloc,
        "method",
        "METHOD",
        "auction",
        METHODS.as_slice(),
        "Solve by an auction, or by shortest paths; --mode, --workers and --refresh\nare the auction's",
    )
}

// The option for the file with the first prices.
fn start_option<'a>(alloc: Global) -> Arg<'a>
    ensures rule { rule_of result ≡ start_rule }
    ensures local { result.global ≡ false }
{
    Arg::new(alloc, "start")
        .long("start")
        .value_name("REPORT")
        .help("The file with a report whose prices are to be the first prices")
}

// The subcommand `solve`, except for the options for its mode. Each option is made where it is
// added: values that are held while another may be refused make the proof long.
fn plain_solve_command<'a>(alloc: Global) -> Result<Command<'a>, AllocError>
    ensures { IfOk result (λ c. app_of c ≡ plain_solve_app) }
{
    Command::new(alloc, "solve")
        .about(
            "Read a problem from standard input, and write a best assignment or why there is none",
        )
        .after_help(SOLVE_NOTES)
        .arg(sparse_flag(alloc))?
        .arg(input_option(alloc))?
        .arg(flag(
            alloc,
            "max",
            "Look for the greatest cost in place of the least",
        ))?
        .arg(flag(
            alloc,
            "prices",
            "Write the objects' prices too, which prove that no assignment is better",
        ))?
        .arg(start_option(alloc))
}

// The subcommand `solve`.
fn solve_command<'a>(alloc: Global) -> Result<Command<'a>, AllocError>
    ensures { IfOk result (λ c. (at : Places) × (app_of c ≡ solve_app at)) }
{
    plain_solve_command(alloc)?
        .arg(method_option(alloc))?
        .arg(valued(
            alloc,
            "mode",
            "MODE",
            "rounds",
            "Solve in rounds, or by workers that bid at any time:\nrounds or workers",
        ))?
        .arg(numbered(
            alloc,
            "workers",
            "K",
            "4",
            (1, MOST_WORKERS),
            "How many workers there are, 1 to 64",
        ))?
        .arg(numbered(
            alloc,
            "refresh",
            "R",
            "1",
            (0, MOST_REFRESH),
            "After how many turns a worker takes the newest prices, 0 to 1000000;\n0: only after a bid that was too low",
        ))?
        .arg(flag(
            alloc,
            "progress",
            "Tell on standard error how far the run is, at most twice a second",
        ))
}

// The option for the sense that a report must have.
fn sense_option<'a>(alloc: Global) -> Arg<'a>
    ensures rule { rule_of result ≡ optional_rule (codes "sense") }
    ensures local { result.global ≡ false }
{
    Arg::new(alloc, "sense")
        .long("sense")
        .value_name("SENSE")
        .help("The sense that the report must have: min or max")
}

// The name of the report's file.
fn report_argument<'a>(alloc: Global) -> Arg<'a>
    ensures rule { rule_of result ≡ report_rule }
    ensures local { result.global ≡ false }
{
    Arg::new(alloc, "REPORT").required(true).help(
        "The file with the report; one on an assignment must have prices",
    )
}

// The subcommand `verify`.
fn verify_command<'a>(alloc: Global) -> Result<Command<'a>, AllocError>
    ensures { IfOk result (λ c. app_of c ≡ verify_app) }
{
    Command::new(alloc, "verify")
        .about("Read a problem from standard input, and check a report on it")
        .after_help(VERIFY_NOTES)
        .arg(sparse_flag(alloc))?
        .arg(input_option(alloc))?
        .arg(sense_option(alloc))?
        .arg(report_argument(alloc))
}

// The option for the program's version, only with a long name.
fn version_flag<'a>(alloc: Global) -> Arg<'a>
    ensures rule { rule_of result ≡ version_rule }
    ensures local { result.global ≡ false }
{
    Arg::new(alloc, "version")
        .long("version")
        .help("Print the version")
        .action(ArgAction::Version)
}

// The program's command with its subcommands, before it has a version. clap's own option for the
// version has a short name.
fn unversioned_command<'a>(alloc: Global) -> Result<Command<'a>, AllocError>
    ensures { IfOk result (λ c. (at : Places) × (app_of c ≡ without_version (program at))) }
{
    Command::new(alloc, "auction_cli")
        .about("Solve assignment problems and check reports; the problem comes on standard input")
        .after_help(PROGRAM_NOTES)
        .disable_version_flag(true)
        .subcommand_required(true)
        .arg(version_flag(alloc))?
        .subcommand(solve_command(alloc)?)?
        .subcommand(verify_command(alloc)?)
}

/// The program's command, by which `read_words` parses: its subcommands with their options, and its
/// version, which `--version` prints.
///
/// # Errors
/// `AllocError` if memory is refused.
pub fn command<'a>(alloc: Global) -> Result<Command<'a>, AllocError>
    ensures program { IfOk result (λ c. (at : Places) × (app_of c ≡ program at)) }
    ensures version { IfOk result (λ c.
        option_map (λ text. text.now) (fields_of c).version ≡ Some VERSION.now) }
{
    Ok(unversioned_command(alloc)?.version(VERSION))
}

// The greatest cost or the least.
fn sense_by(max: bool) -> Sense
    ensures { is_max result ≡ max }
{
    if max { Sense::Max } else { Sense::Min }
}

// The mode of this name.
fn named_mode(name: &str) -> Option<Mode>
    ensures some { IfSome result (λ mode. name.now ≡ mode_name mode) }
    ensures none { result ≡ None → (mode : Mode) → name.now ≡ mode_name mode → ⊥ }
{
    if name == "rounds" {
        Some(Mode::Rounds)
    } else if name == "workers" {
        Some(Mode::Workers)
    } else {
        None
    }
}

// Shortest paths if this is their name, else the auction.
fn named_method(name: &str) -> Method
    ensures { (result ≡ Method.Paths) ↔ (name.now ≡ codes "paths") }
{
    if name == "paths" {
        Method::Paths
    } else {
        Method::Auction
    }
}

// The chosen mode.
fn chosen_mode(solve: &ArgMatches<'_>) -> Result<Mode, WordsFault>
    ensures ok { IfOk result (NamesMode (rows_of (found_of solve.now))) }
    ensures err { IfErr result (λ fault. (fault ≡ WordsFault.Mode)
        × ((mode : Mode) → NamesMode (rows_of (found_of solve.now)) mode → ⊥)) }
{
    match solve.get_str("mode") {
        Some(name) => named_mode(name).ok_or(WordsFault::Mode),
        None => Err(WordsFault::Mode),
    }
}

// The number of an option with a number.
fn chosen_number(solve: &ArgMatches<'_>, name: &str) -> u64
    requires { (least : ℕ) × (most : ℕ)
        × IsNumberIn (one_of name.now (rows_of (found_of solve.now))) least most }
    ensures { (least : ℕ) → (most : ℕ)
        → IsNumberIn (one_of name.now (rows_of (found_of solve.now))) least most
        → IsNumberFor (one_of name.now (rows_of (found_of solve.now))) least most result }
{
    match solve.get_one::<u64>(name) {
        Some(number) => number,
        None => unreachable!(),
    }
}

// The options that the words after `solve` choose, with this mode.
fn solve_options(solve: &ArgMatches<'_>, mode: Mode) -> SolveOpts
    requires mode { NamesMode (rows_of (found_of solve.now)) mode }
    requires numbers { HasNumbers (rows_of (found_of solve.now)) }
    ensures { ChoosesSolving (rows_of (found_of solve.now)) result }
{
    SolveOpts {
        sparse: solve.get_flag("sparse"),
        mode,
        workers: chosen_number(solve, "workers") as u16,
        refresh: chosen_number(solve, "refresh"),
        prices: solve.get_flag("prices"),
        sense: sense_by(solve.get_flag("max")),
    }
}

// The chosen method: clap takes only these two names.
fn chosen_method(solve: &ArgMatches<'_>) -> Method
    ensures { NamesMethod (rows_of (found_of solve.now)) result }
{
    match solve.get_str("method") {
        Some(name) => named_method(name),
        None => Method::Auction,
    }
}

// Whether progress lines are requested.
fn progress_flag(solve: &ArgMatches<'_>) -> bool
    ensures { IsFlag (one_of (codes "progress") (rows_of (found_of solve.now))) result }
{
    solve.get_flag("progress")
}

// The file name that is given for an option.
fn file_name(
    alloc: Global,
    matches: &ArgMatches<'_>,
    option: &str,
) -> Result<Option<String>, AllocError>
    ensures { IfOk result (λ name. NamesFile option.now (rows_of (found_of matches.now))
        (option_map string_bytes name)) }
{
    match matches.get_str(option) {
        Some(name) => Ok(Some(String::from_str(alloc, name)?)),
        None => Ok(None),
    }
}

// What the words after `solve` choose, with the files.
fn solve_words(alloc: Global, solve: &ArgMatches<'_>) -> Result<Words, WordsFault>
    requires { HasNumbers (rows_of (found_of solve.now)) }
    ensures ok { IfOk result (Chooses (Some (codes "solve", rows_of (found_of solve.now)))) }
    ensures err { IfErr result (IsChoiceFault (Some (codes "solve", rows_of (found_of solve.now)))) }
{
    let mode = chosen_mode(solve)?;
    Ok(Words::Solve {
        options: solve_options(solve, mode),
        start: file_name(alloc, solve, "start")?,
        method: chosen_method(solve),
        input: file_name(alloc, solve, "input")?,
        progress: progress_flag(solve),
    })
}

// The sense of this name.
fn named_sense(name: &str) -> Option<Sense>
    ensures some { IfSome result (λ sense. name.now ≡ sense_name sense) }
    ensures none { result ≡ None → (sense : Sense) → name.now ≡ sense_name sense → ⊥ }
{
    if name == "min" {
        Some(Sense::Min)
    } else if name == "max" {
        Some(Sense::Max)
    } else {
        None
    }
}

// The requested sense, if any.
fn chosen_sense(verify: &ArgMatches<'_>) -> Result<Option<Sense>, WordsFault>
    ensures ok { IfOk result (NamesSense (rows_of (found_of verify.now))) }
    ensures err { IfErr result (λ fault. (fault ≡ WordsFault.Sense)
        × ((sense : Option Sense) → NamesSense (rows_of (found_of verify.now)) sense → ⊥)) }
{
    match verify.get_str("sense") {
        Some(name) => match named_sense(name) {
            Some(sense) => Ok(Some(sense)),
            None => Err(WordsFault::Sense),
        },
        None => Ok(None),
    }
}

// What the words after `verify` choose, with this sense.
fn verify_options(
    alloc: Global,
    verify: &ArgMatches<'_>,
    sense: Option<Sense>,
) -> Result<Words, AllocError>
    requires { NamesSense (rows_of (found_of verify.now)) sense }
    ensures { IfOk result (ChoosesVerifying (rows_of (found_of verify.now))) }
{
    // The empty name, which no file has, stands in for none: clap doesn't accept words without one.
    let name = verify.get_str("REPORT").unwrap_or("");
    Ok(Words::Verify {
        sparse: verify.get_flag("sparse"),
        sense,
        report: String::from_str(alloc, name)?,
        input: file_name(alloc, verify, "input")?,
    })
}

// What the words after `verify` choose.
fn verify_words(alloc: Global, verify: &ArgMatches<'_>) -> Result<Words, WordsFault>
    ensures ok { IfOk result (ChoosesVerifying (rows_of (found_of verify.now))) }
    ensures err { IfErr result (IsChoiceFault (Some (codes "verify", rows_of (found_of verify.now)))) }
{
    let sense = chosen_sense(verify)?;
    Ok(verify_options(alloc, verify, sense)?)
}

// What words choose that clap accepts.
fn chosen(alloc: Global, matches: &ArgMatches<'_>) -> Result<Words, WordsFault>
    requires names { NamesCommand (subcommand_rows_of matches.now) }
    requires numbers { HasNumbersIfSolving (subcommand_rows_of matches.now) }
    ensures ok { IfOk result (Chooses (subcommand_rows_of matches.now)) }
    ensures err { IfErr result (IsChoiceFault (subcommand_rows_of matches.now)) }
{
    match matches.subcommand_matches("solve") {
        Some(solve) => solve_words(alloc, solve),
        None => match matches.subcommand_matches("verify") {
            Some(verify) => verify_words(alloc, verify),
            None => unreachable!(),
        },
    }
}

// Refused memory, or clap's error.
fn words_fault(error: Error) -> WordsFault
    ensures { IsFaultOf error result }
{
    if error.kind() == ErrorKind::OutOfMemory {
        WordsFault::Memory
    } else {
        WordsFault::Clap(error)
    }
}

/// Reads the words of a command line, the first of which is the program's own name.
///
/// # Errors
/// `Clap` for refused words and for requests for help or the version, whose text the error prints;
/// `Mode` for a word after `--mode` other than `rounds` and `workers`; `Sense` for a word after
/// `--sense` other than `min` and `max`; and `Memory`.
pub fn read_words<'a, S: AsStr>(alloc: Global, words: &'a [S]) -> Result<Words, WordsFault>
    ensures outcome { WordsOutcome (map S.text words.entry.now) result }
    ensures ranges { IfOk result IsInRanges }
    ensures solve { (name : Text) → map S.text words.entry.now ≡ name ∷ codes "solve" ∷ []
        → IsTaken (Solves usual_options None) result }
    ensures options { (name : Text) → map S.text words.entry.now ≡ name ∷ full_line
        → IsTaken (Solves full_options (Some (codes "report"))) result }
    ensures method { (name : Text) → map S.text words.entry.now
        ≡ name ∷ codes "solve" ∷ codes "--method" ∷ codes "paths" ∷ []
        → IsTaken (SolvesBy Method.Paths usual_options None) result }
    ensures input { (name : Text) → map S.text words.entry.now ≡ name ∷ input_line
        → IsTaken (SolvesFrom (Some (codes "problem")) Method.Auction usual_options None) result }
    ensures verify { (name : Text) → map S.text words.entry.now
        ≡ name ∷ codes "verify" ∷ codes "--sparse" ∷ codes "report" ∷ []
        → IsTaken (Verifies true None (codes "report")) result }
    ensures sense { (name : Text) → map S.text words.entry.now ≡ name ∷ full_verify_line
        → IsTaken (Verifies true (Some Max) (codes "report")) result }
    ensures input_verify { (name : Text) → map S.text words.entry.now ≡ name ∷ input_verify_line
        → IsTaken (VerifiesFrom (Some (codes "problem")) false None (codes "report")) result }
    ensures alone { (name : Text) → map S.text words.entry.now ≡ name ∷ [] → IsErr result }
    ensures version { (name : Text) → map S.text words.entry.now ≡ name ∷ codes "--version" ∷ []
        → AsksForVersion result }
{
    let command = command(alloc)?;
    match command.try_get_matches_from(words) {
        Ok(matches) => chosen(alloc, &matches),
        Err(error) => Err(words_fault(error)),
    }
}
