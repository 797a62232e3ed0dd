// Each worker's run, in a thread of its own if one can be started.
ghost use Rattle.std.specs.Prelude.{◌≡◌, ◌<◌, ◌≤◌, [], All, IfOk, OnSome, length, map, true, vec_capacity, vec_len};
ghost use Rattle.async_workers.specs.Desk.{DeskData};
ghost use Rattle.async_workers.specs.Turns.{CanTurn, IsLastTurn, IsMemory, WorksOn};
ghost use Rattle.async_workers.specs.inside.Working.{HasWorked, HaveWorked, desk_in, fault_in};

use crate::gate::{Gate, Turn, TurnFault};
use crate::pause::pause;
use crate::place::{BookPlace, Desk, ask_stop, turn};
use crossbeam_utils::CachePadded;
use std::alloc::{AllocError, Global};
use std::sync::Wait;
use std::thread;
use std::thread::Threads;

/// A desk, and the fault of its worker, if there is one.
#[derive(Drop)]
pub struct Worker {
    pub desk: Desk,
    pub fault: Option<TurnFault>,
}

/// What the workers of a run share: the place of their book, the number of sessions after which a
/// table catches up, and the gate for their steps.
#[derive(Drop)]
pub struct Shared<'a, G> {
    pub place: &'a BookPlace,
    pub refresh: u64,
    pub gate: &'a G,
}

/// A worker's turns, until one ends its run: what each worker of `solve_workers_from` does in its
/// thread. After a turn without a person to claim it pauses.
///
/// Returns the fault, if there was one: `Memory` if memory was refused. The desk then has no claim
/// and no offer, and may take turns again.
pub fn take_turns<G: Gate, R: Wait>(
    rt: &R,
    alloc: Global,
    place: &BookPlace,
    desk: &mut Desk,
    refresh: u64,
    gate: &G,
) -> Option<TurnFault>
    requires { CanTurn place.now desk.old }
    ensures can_turn { CanTurn place.now desk.new }
    ensures works { WorksOn desk.old desk.new }
    ensures fault { IsMemory result }
    ensures last { (before : DeskData) × CanTurn place.now before × WorksOn desk.old before
        × IsLastTurn refresh before desk.new result }
{
    for _ in rt.forever() {
        match turn(rt, alloc, place, desk, refresh, gate) {
            Ok(Turn::Claimed) => {}
            Ok(Turn::Idle) => pause(rt, place),
            Ok(Turn::Done) => return None,
            Ok(Turn::Refuted) => return None,
            Ok(Turn::Stopped) => return None,
            Err(fault) => return Some(fault),
        }
    }
    unreachable!()
}

// A worker's whole run. After a fault it stops the book in one more session.
fn work<G: Gate, R: Wait>(rt: &R, alloc: Global, shared: &Shared<'_, G>, worker: &mut Worker)
    requires { CanTurn shared.now.place.now worker.old.desk }
    ensures works { WorksOn worker.old.desk worker.new.desk }
    ensures fault { IsMemory worker.new.fault }
    ensures stops { OnSome worker.new.fault (worker.new.desk.known.stop ≡ true) }
{
    let fault = take_turns(
        rt,
        alloc,
        shared.place,
        &mut worker.desk,
        shared.refresh,
        shared.gate,
    );
    if fault.is_some() {
        ask_stop(rt, shared.place, &mut worker.desk);
    }
    worker.fault = fault;
}

// Gives each worker's run a thread of its own. If none can be started, the runs follow each other.
fn run_each<G: Gate + Sync, R: Threads + Wait + Sync>(
    rt: &R,
    alloc: Global,
    shared: &Shared<'_, G>,
    workers: &mut [CachePadded<Worker>],
)
    requires some { 0 < length workers.old }
    requires ready { All (λ w. CanTurn shared.now.place.now (desk_in w)) workers.old }
    ensures { HaveWorked workers.old workers.new }
{
    let threads = workers.len();
    thread::for_each_mut(
        rt,
        workers,
        threads,
        &|_: usize, worker: &mut CachePadded<Worker>|
            requires { CanTurn shared.now.place.now (desk_in worker.old) }
            ensures { HasWorked worker.old worker.new }
        { work(rt, alloc, shared, &mut *worker) },
    );
}

/// The workers after their runs, each in a thread of its own if one could be started.
pub fn run_all<G: Gate + Sync, R: Threads + Wait + Sync>(
    rt: &R,
    alloc: Global,
    shared: &Shared<'_, G>,
    mut workers: Vec<CachePadded<Worker>>,
) -> Vec<CachePadded<Worker>>
    requires some { 0 < vec_len workers }
    requires ready { All (λ w. CanTurn shared.now.place.now (desk_in w)) workers.items }
    ensures { HaveWorked workers.items result.items }
{
    run_each(rt, alloc, shared, workers.as_mut_slice());
    workers
}

/// A worker for each desk.
///
/// # Errors
/// `AllocError` if memory is refused.
pub fn seat_workers(alloc: Global, desks: Vec<Desk>) -> Result<Vec<CachePadded<Worker>>, AllocError>
    ensures { IfOk result (λ workers. map desk_in workers.items ≡ desks.items) }
{
    let mut workers = Vec::with_capacity(alloc, desks.len())?;
    for desk in desks {
        workers.push(CachePadded::new(Worker { desk, fault: None }))?;
    }
    Ok(workers)
}

// The fault of the lower of two workers, or else that of the other.
fn earlier_fault(lower: Option<TurnFault>, higher: Option<TurnFault>) -> Option<TurnFault>
    requires lower { IsMemory lower }
    requires higher { IsMemory higher }
    ensures { IsMemory result }
{
    match lower {
        Some(fault) => Some(fault),
        None => higher,
    }
}

/// Moves the workers' desks into a list with room for them, and returns the fault of the first
/// worker that met one. It takes no memory.
pub fn unseat_workers(
    mut desks: Vec<Desk>,
    workers: Vec<CachePadded<Worker>>,
) -> (Vec<Desk>, Option<TurnFault>)
    requires empty { desks.items ≡ [] }
    requires room { vec_len workers ≤ vec_capacity desks }
    requires faults { All (λ w. IsMemory (fault_in w)) workers.items }
    ensures desks { result.0.items ≡ map desk_in workers.items }
    ensures fault { IsMemory result.1 }
{
    let mut first = None;
    for worker in workers {
        let Worker { desk, fault } = worker.into_inner();
        first = earlier_fault(first, fault);
        desks.push_reserved(desk);
    }
    (desks, first)
}
