// From the bytes read to the bytes written.
ghost use Rattle.std.specs.Prelude.{◌≡◌, ◌<◌, ◌≤◌, All, List, None, Some, IfOk, IfErr, IfSome, length};
ghost use Rattle.std.specs.Arc.{arc_value};
ghost use Rattle.std.specs.Option.{option_map};
ghost use Rattle.assign_core.specs.Rows.{Listing};
ghost use Rattle.rounds.specs.Outcomes.{IsDecided, IsProof};
ghost use Rattle.report.specs.Outcomes.{IsOutcome};
ghost use Rattle.report.specs.Reports.{IsReport};
ghost use Rattle.report.specs.SeenReports.{seen_report};
ghost use Rattle.report.specs.Starts.{IsFirstPrice, IsStart};
ghost use Rattle.auction_command.specs.Solve.{BeginsAt, IsOutcomeIn, problem_under};
ghost use Rattle.auction_command.specs.Solve.{Reads, SolveOutcome, end_of, end_status, solver_of, status};
ghost use Rattle.auction_command.specs.inside.Solve.{FailsToBegin, HasNoStart, Puts, Reports};

use crate::progress::{CountedReader, Unwatched, Watch, WatchedGate, WatchedOffers, WatchedPaths};
use assign_core::{MOST_PERSONS, Outcome, Person, Price, Prices, Problem, Sense, SolveFault};
use async_workers::{Gate, solve_workers_from};
use command_line::{Method, Mode, SolveOpts};
use exact_paths::solve_paths;
use orlib_reader::{InputFault, read_dense, read_sparse};
use parallel_checker::confirms_in_parts;
use report::{
    Report, ReportFault, StartFault, WriteFault, read_report, start_prices, write_report,
};
use rounds::solve_rounds_by;
use scaled_values::{LEAST_PAIRS_IN_PARTS, Scaled, scale_in_parts};
use std::alloc::{AllocError, Global};
use std::fmt;
use std::io::{Read, Write};
use std::sync::{Arc, Wait};
use std::thread::Threads;

/// How a problem is solved.
#[derive(Clone, Copy, PartialEq, Eq)]
pub struct Solver {
    /// The options; mode, workers and refresh belong to the auction.
    pub options: SolveOpts,
    /// The auction or shortest paths.
    pub method: Method,
}

/// The surroundings of a run: all that it gets besides its problem and its options.
#[derive(Drop)]
pub struct Context<'a, T, G, V> {
    /// The handle for threads and for waiting.
    pub rt: &'a T,
    pub alloc: Global,
    /// Receives the steps of workers.
    pub gate: &'a G,
    /// Is shown the progress of the run.
    pub watch: &'a V,
}

/// How a run ended that didn't fail.
#[derive(Clone, Copy, PartialEq, Eq)]
pub enum Ended {
    /// An optimal assignment was reported.
    Optimal,
    /// A Hall set was reported: no assignment exists.
    Infeasible,
}

/// Why a run failed. `Display` writes the line for standard error.
#[derive(Drop)]
pub enum CliFault {
    /// The input is refused, its device failed, or memory was refused while reading it.
    Input(InputFault),
    /// The report to read is refused, its device failed, or memory was refused while reading it.
    Report(ReportFault),
    /// A run can't begin at the prices of the report.
    Start(StartFault),
    /// The output's device failed.
    Write,
    /// Memory was refused.
    Memory,
    /// A person is stuck between a floor and an unowned object. Kept for callers; no run ends with
    /// it.
    Stuck(Person),
}

impl fmt::Display for CliFault {
    ghost use Rattle.std.specs.Prelude.{Some};
    ghost use Rattle.auction_command.specs.Solve.{fault_line};

    ghost output = { λ fault. Some (fault_line fault) };

    fn fmt<W: fmt::Write>(&self, f: &mut fmt::Formatter<W>) -> fmt::Result {
        match self {
            CliFault::Input(fault) => write!(f, "{fault}"),
            CliFault::Report(fault) => write!(f, "{fault}"),
            CliFault::Start(fault) => write!(f, "{fault}"),
            CliFault::Write => write!(f, "device: write failed"),
            CliFault::Memory => write!(f, "memory refused"),
            CliFault::Stuck(person) => write!(f, "stuck at person {}", person.0),
        }
    }
}

impl From<AllocError> for CliFault {
    ghost use Rattle.std.specs.Prelude.{◌≡◌};
    ghost use Rattle.auction_command.specs.declared.run.CliFault.TheVariants.{Memory};

    ghost from_gives = { λ _ fault. fault ≡ Memory };

    fn from(_refused: AllocError) -> CliFault {
        CliFault::Memory
    }
}

impl From<InputFault> for CliFault {
    ghost use Rattle.std.specs.Prelude.{◌≡◌};
    ghost use Rattle.auction_command.specs.declared.run.CliFault.TheVariants.{Input};

    ghost from_gives = { λ input fault. fault ≡ Input input };

    fn from(input: InputFault) -> CliFault {
        CliFault::Input(input)
    }
}

impl From<ReportFault> for CliFault {
    ghost use Rattle.std.specs.Prelude.{◌≡◌};
    ghost use Rattle.auction_command.specs.declared.run.CliFault.TheVariants.{Report};

    ghost from_gives = { λ report fault. fault ≡ Report report };

    fn from(report: ReportFault) -> CliFault {
        CliFault::Report(report)
    }
}

impl From<StartFault> for CliFault {
    ghost use Rattle.std.specs.Prelude.{◌≡◌};
    ghost use Rattle.auction_command.specs.declared.run.CliFault.TheVariants.{Start};

    ghost from_gives = { λ start fault. fault ≡ Start start };

    fn from(start: StartFault) -> CliFault {
        CliFault::Start(start)
    }
}

impl From<WriteFault> for CliFault {
    ghost use Rattle.std.specs.Prelude.{◌≡◌};
    ghost use Rattle.auction_command.specs.declared.run.CliFault.TheVariants.{Write};

    ghost from_gives = { λ _ fault. fault ≡ Write };

    fn from(_failed: WriteFault) -> CliFault {
        CliFault::Write
    }
}

/// The exit status for a fault: 3 for a refused text, 4 for refused memory and failed devices, 5 if
/// no answer was found.
pub fn status_of(fault: &CliFault) -> u8
    ensures { result ≡ status fault.now }
{
    match fault {
        CliFault::Input(InputFault::Read | InputFault::Memory) => 4,
        CliFault::Report(ReportFault::Read | ReportFault::Memory) => 4,
        CliFault::Input(_) | CliFault::Report(_) | CliFault::Start(_) => 3,
        CliFault::Write | CliFault::Memory => 4,
        CliFault::Stuck(_) => 5,
    }
}

/// The exit status of a run that reported: 0 for an assignment, 1 if none exists.
pub fn end_status_of(ended: Ended) -> u8
    ensures { result ≡ end_status ended }
{
    match ended {
        Ended::Optimal => 0,
        Ended::Infeasible => 1,
    }
}

/// The problem of a sparse text or of a dense one.
///
/// # Errors
/// The first fault of the text; `Read` if the reader fails; `Memory` if memory is refused.
pub fn read_problem<R: Read>(alloc: Global, r: &mut R, sparse: bool) -> Result<Problem, InputFault>
    ensures { IfSome (R.remaining r.old) (λ bytes. Reads sparse bytes result) }
{
    if sparse {
        read_sparse(alloc, r)
    } else {
        read_dense(alloc, r)
    }
}

// The problem of a text, with a watch on the number of bytes read.
fn read_watched<R: Read, V: Watch>(
    alloc: Global,
    r: &mut R,
    sparse: bool,
    watch: &V,
) -> Result<Problem, InputFault>
    ensures { IfSome (R.remaining r.old) (λ bytes. Reads sparse bytes result) }
{
    let mut counted = CountedReader::new(r, watch);
    read_problem(alloc, &mut counted, sparse)
}

// The problem with its benefits under a sense.
fn shared(
    rt: &(impl Threads + Sync),
    alloc: Global,
    problem: Problem,
    sense: Sense,
) -> Result<Arc<Scaled>, AllocError>
    ensures { IfOk result (λ scaled. arc_value scaled ≡ problem_under sense problem) }
{
    let scaled = scale_in_parts(rt, LEAST_PAIRS_IN_PARTS, alloc, problem, sense)?;
    Ok(Arc::new(alloc, scaled)?)
}

// The outcome of the mode from these first prices.
fn solve_in_mode<T: Threads + Wait + Sync, G: Gate + Sync, V: Watch + Sync>(
    context: &Context<'_, T, G, V>,
    scaled: Arc<Scaled>,
    prices: Prices,
    options: SolveOpts,
) -> Result<Outcome, SolveFault>
    requires workers { 0 < options.workers }
    requires long { length prices ≡ length (arc_value scaled).problem }
    requires low { All IsFirstPrice prices }
    ensures mode { IfOk result (IsOutcomeIn options.mode options.workers (arc_value scaled) prices) }
    ensures proof { IfOk result (IsProof (arc_value scaled)) }
{
    match options.mode {
        Mode::Rounds => {
            let mut offering = WatchedOffers::new(context.rt, context.watch, false);
            solve_rounds_by(&mut offering, context.alloc, scaled, prices)
        }
        Mode::Workers => {
            let (workers, refresh) = (options.workers, options.refresh);
            let gate = WatchedGate::new(context.gate, &scaled, context.watch);
            let (outcome, _) = solve_workers_from(
                context.rt,
                context.alloc,
                scaled,
                prices,
                workers,
                refresh,
                &gate,
            )?;
            Ok(outcome)
        }
    }
}

// The outcome of the auction from these first prices, after a checker has accepted it.
fn solve_by_auction<T: Threads + Wait + Sync, G: Gate + Sync, V: Watch + Sync>(
    context: &Context<'_, T, G, V>,
    scaled: &Arc<Scaled>,
    prices: Prices,
    options: SolveOpts,
) -> Result<Outcome, SolveFault>
    requires workers { 0 < options.workers }
    requires long { length prices ≡ length (arc_value scaled.now).problem }
    requires low { All IsFirstPrice prices }
    ensures mode { IfOk result
        (IsOutcomeIn options.mode options.workers (arc_value scaled.now) prices) }
    ensures proof { IfOk result (IsProof (arc_value scaled.now)) }
{
    let outcome = solve_in_mode(context, scaled.clone()?, prices, options)?;
    let (problem, sense) = (scaled.problem(), scaled.sense());
    if !confirms_in_parts(
        context.rt,
        LEAST_PAIRS_IN_PARTS,
        context.alloc,
        problem,
        sense,
        &outcome,
    )? {
        unreachable!();
    }
    Ok(outcome)
}

// First prices, if they say anything: prices that are all 0 don't.
fn telling(prices: &Prices) -> Option<&[Price]> {
    let prices = prices.as_slice();
    if prices.iter().all(|price| *price == 0) {
        None
    } else {
        Some(prices)
    }
}

// The outcome of shortest paths from these first prices. Their own crate checks what a search
// finds. It needs no benefits.
fn solve_by_paths<T: Threads + Sync, G, V: Watch>(
    context: &Context<'_, T, G, V>,
    problem: &Problem,
    sense: Sense,
    prices: &Prices,
) -> Result<Outcome, AllocError>
    ensures proof { IfOk result (IsProof (problem_under sense problem.now)) }
    ensures decided { IfOk result (IsDecided (problem_under sense problem.now)) }
{
    let observer = WatchedPaths::new(problem.n(), context.watch);
    let mut offering = WatchedOffers::new(context.rt, context.watch, true);
    let first = telling(prices);
    solve_paths(
        context.alloc,
        problem,
        sense,
        first,
        &observer,
        &mut offering,
    )
}

// The end that belongs to an outcome.
fn ended_by(outcome: &Outcome) -> Ended
    ensures { result ≡ end_of outcome.now }
{
    match outcome {
        Outcome::Best(_) => Ended::Optimal,
        Outcome::Hall(_) => Ended::Infeasible,
    }
}

// Writes the report on an outcome.
fn put_report<V: Watch, W: Write>(
    watch: &V,
    problem: &Problem,
    w: &mut W,
    options: SolveOpts,
    outcome: &Outcome,
) -> Result<Ended, CliFault>
    requires { IsOutcome problem.now outcome.now }
    ensures { Puts options problem.now outcome.now (W.contents w.old) (W.contents w.new) result }
{
    watch.over();
    write_report(w, problem, options.sense, outcome, options.prices)?;
    Ok(ended_by(outcome))
}

// Solves a problem by the auction from these prices, and writes the report.
fn report_auction<T: Threads + Wait + Sync, G: Gate + Sync, V: Watch + Sync, W: Write>(
    context: &Context<'_, T, G, V>,
    problem: Problem,
    prices: Prices,
    w: &mut W,
    options: SolveOpts,
) -> Result<Ended, CliFault>
    requires workers { 0 < options.workers }
    requires long { length prices ≡ length problem }
    requires low { All IsFirstPrice prices }
    ensures { Reports (solver_of Method.Auction options) problem prices (W.contents w.old)
        (W.contents w.new) result }
{
    let scaled = shared(context.rt, context.alloc, problem, options.sense)?;
    match solve_by_auction(context, &scaled, prices, options) {
        Ok(outcome) => put_report(context.watch, scaled.problem(), w, options, &outcome),
        Err(_) => Err(CliFault::Memory),
    }
}

// Solves a problem by shortest paths from these prices, and writes the report.
fn report_paths<T: Threads + Sync, G, V: Watch, W: Write>(
    context: &Context<'_, T, G, V>,
    problem: &Problem,
    prices: &Prices,
    w: &mut W,
    options: SolveOpts,
) -> Result<Ended, CliFault>
    ensures { Reports (solver_of Method.Paths options) problem.now prices.now
        (W.contents w.old) (W.contents w.new) result }
{
    // This call shows the prover that it is a problem.
    let _persons = problem.n();
    match solve_by_paths(context, problem, options.sense, prices) {
        Ok(outcome) => put_report(context.watch, problem, w, options, &outcome),
        Err(_) => Err(CliFault::Memory),
    }
}

// Solves a problem by a run that begins at these prices, and writes the report.
fn report_from<T: Threads + Wait + Sync, G: Gate + Sync, V: Watch + Sync, W: Write>(
    context: &Context<'_, T, G, V>,
    problem: Problem,
    prices: Prices,
    w: &mut W,
    solver: Solver,
) -> Result<Ended, CliFault>
    requires workers { 0 < solver.options.workers }
    requires long { length prices ≡ length problem }
    requires low { All IsFirstPrice prices }
    ensures { Reports solver problem prices (W.contents w.old) (W.contents w.new) result }
{
    let options = solver.options;
    match solver.method {
        Method::Auction => report_auction(context, problem, prices, w, options),
        Method::Paths => report_paths(context, &problem, &prices, w, options),
    }
}

// The prices of a report as the first of a run with `n` objects.
fn report_prices(alloc: Global, report: &Report, n: u16) -> Result<Prices, CliFault>
    requires few { n ≤ MOST_PERSONS }
    requires report { IsReport (seen_report report.now) }
    ensures start { IfOk result (IsStart (seen_report report.now) n) }
    ensures fault { IfErr result (HasNoStart (seen_report report.now) n) }
{
    let prices = start_prices(report, n)?;
    let prices = Vec::from_slice(alloc, prices)?;
    Ok(Prices::new(alloc, prices)?)
}

// The first prices of a run with `n` objects: those of a report, or 0 if there is none.
fn first_prices<Q: Read + Drop>(alloc: Global, start: Option<Q>, n: u16) -> Result<Prices, CliFault>
    requires few { n ≤ MOST_PERSONS }
    ensures begun { IfOk result (λ prices. (rows : List Listing) → length rows ≡ n
        → BeginsAt (option_map Q.remaining start) rows prices) }
    ensures long { IfOk result (λ prices. length prices ≡ n) }
    ensures low { IfOk result (All IsFirstPrice) }
    ensures fault { IfErr result (FailsToBegin (option_map Q.remaining start) n) }
{
    match start {
        None => Ok(Prices::zeros(alloc, n)?),
        Some(mut start) => {
            let report = read_report(alloc, &mut start)?;
            report_prices(alloc, &report, n)
        }
    }
}

/// Reads a problem, and a report of either version for the first prices if there is one, and solves
/// the problem by a method. The auction runs as in `run_solve` and `run_solve_from`; only the
/// auction uses mode, workers and refresh.
///
/// By shortest paths, from any prices, the report is on a proved outcome, with an assignment
/// exactly if one exists. No clause says which of several optimal assignments it is, or at which
/// prices. Nothing is random and no thread is started, so the same bytes read give the same bytes
/// written, as tests show.
///
/// The watch is shown the progress of the run: while it reads, in rounds, while workers take turns,
/// and during shortest paths. No clause says what it is shown. `over` is called before the report
/// is written; if the run fails before that, the caller must call it.
///
/// # Errors
/// As `run_solve_from`; `Report` and `Start` only if there is a report for the first prices.
pub fn run_solve_by<
    T: Threads + Wait + Sync,
    G: Gate + Sync,
    V: Watch + Sync,
    R: Read,
    Q: Read + Drop,
    W: Write,
>(
    context: &Context<'_, T, G, V>,
    r: &mut R,
    start: Option<Q>,
    w: &mut W,
    solver: Solver,
) -> Result<Ended, CliFault>
    requires { 0 < solver.options.workers }
    ensures { SolveOutcome solver (R.remaining r.old) (option_map Q.remaining start)
        (W.contents w.old) (W.contents w.new) result }
{
    let problem = read_watched(context.alloc, r, solver.options.sparse, context.watch)?;
    let prices = first_prices(context.alloc, start, problem.n())?;
    report_from(context, problem, prices, w, solver)
}

/// Reads a problem, and writes only the report on an optimal assignment, or on persons who list
/// fewer objects than they are. There must be at least one worker.
///
/// In rounds mode the report is on the outcome of plain rounds, so the bytes written depend only on
/// the bytes read and the options, not on the number of threads. In workers mode it is on an
/// outcome of the workers; the call may wait for their threads, and the gate receives their steps.
/// The report is written after a checker has accepted the outcome. Only with `Write` does a fault
/// leave anything written.
///
/// # Errors
/// `Input` for a refused text, `Write` after a beginning of the report was written, and `Memory`;
/// no other.
pub fn run_solve<G: Gate + Sync, T: Threads + Wait + Sync, R: Read, W: Write>(
    rt: &T,
    alloc: Global,
    r: &mut R,
    w: &mut W,
    options: SolveOpts,
    gate: &G,
) -> Result<Ended, CliFault>
    requires { 0 < options.workers }
    ensures { SolveOutcome (solver_of Method.Auction options) (R.remaining r.old) None
        (W.contents w.old) (W.contents w.new) result }
{
    let context = Context {
        rt,
        alloc,
        gate,
        watch: &Unwatched,
    };
    let solver = Solver {
        options,
        method: Method::Auction,
    };
    let start: Option<&[u8]> = None;
    run_solve_by(&context, r, start, w, solver)
}

/// Reads a problem and then a report of either version, and solves the problem as `run_solve` does,
/// but with the report's prices as the first prices. The rest of the report doesn't matter: it may
/// be on another problem, and under another sense.
///
/// Prices that are far apart may cost very many rounds: three equal objects with the first prices
/// 0, 0 and P take P rounds and more.
///
/// # Errors
/// As `run_solve`; `Report` for a refused report; `Start` for a report without prices, with more or
/// fewer than the problem has objects, or with a price above `GREATEST_FIRST_PRICE`. A fault of the
/// problem comes before those of the report.
pub fn run_solve_from<G: Gate + Sync, T: Threads + Wait + Sync, R: Read, Q: Read, W: Write>(
    rt: &T,
    alloc: Global,
    r: &mut R,
    start: &mut Q,
    w: &mut W,
    options: SolveOpts,
    gate: &G,
) -> Result<Ended, CliFault>
    requires { 0 < options.workers }
    ensures { SolveOutcome (solver_of Method.Auction options) (R.remaining r.old)
        (Some (Q.remaining start.old)) (W.contents w.old) (W.contents w.new) result }
{
    let context = Context {
        rt,
        alloc,
        gate,
        watch: &Unwatched,
    };
    let solver = Solver {
        options,
        method: Method::Auction,
    };
    let start = Some(start);
    run_solve_by(&context, r, start, w, solver)
}
