// What a gate sees of a run by one worker.
use assign_core::Sense;
use async_workers::{Gate, Note, Standing};
use auction_command::{Ended, run_solve};
use command_line::{Mode, SolveOpts};
use std::alloc::Global;
use std::sync::Wait;
use std::sync::atomic::{AtomicU64, Ordering};
use std::test::Fail;
use std::thread::Threads;
use test_helpers::{ample_writer, whole_text};

// Counts the offers, the submissions and the refused bids, and keeps the last number of assigned
// persons.
#[derive(Drop)]
struct Counting {
    offers: AtomicU64,
    submissions: AtomicU64,
    refused: AtomicU64,
    assigned: AtomicU64,
}

impl Gate for Counting {
    fn before_offer(&self, _worker: u16) {
        self.offers.fetch_add(1, Ordering::SeqCst);
    }

    fn before_submit(&self, _worker: u16, _turns: u64) {
        self.submissions.fetch_add(1, Ordering::SeqCst);
    }

    fn after_session(&self, _worker: u16, note: Note) {
        if let Note::Refused(_) = note {
            self.refused.fetch_add(1, Ordering::SeqCst);
        }
    }

    fn after_standing(&self, _worker: u16, _sessions: u64, standing: Standing) {
        self.assigned
            .store(u64::from(standing.assigned), Ordering::SeqCst);
    }
}

// What this gate sees while one worker solves three persons at equal costs: offers, submissions,
// refused bids and assigned persons; `None` without an optimal assignment.
fn told(rt: &(impl Threads + Wait + Sync), alloc: Global, refresh: u64) -> Option<[u64; 4]> {
    let gate = Counting {
        offers: AtomicU64::new(0),
        submissions: AtomicU64::new(0),
        refused: AtomicU64::new(0),
        assigned: AtomicU64::new(0),
    };
    let options = SolveOpts {
        sparse: false,
        mode: Mode::Workers,
        workers: 1,
        refresh,
        prices: false,
        sense: Sense::Min,
    };
    let mut writer = ample_writer(alloc);
    let mut text = whole_text(b"3 1 1 1 1 1 1 1 1 1", 64);
    match run_solve(rt, alloc, &mut text, &mut writer, options, &gate) {
        Ok(Ended::Optimal) => Some([
            &gate.offers,
            &gate.submissions,
            &gate.refused,
            &gate.assigned,
        ]
        .map(|count| count.load(Ordering::SeqCst))),
        _ => None,
    }
}

// A worker that refreshes after each session never bids too low. One that refreshes only after a
// low bid bids for object 1 again after raising its price: two bids more than the three accepted
// ones.
#[test]
fn bids_by_refresh(rt: HostRuntime) -> Result<(), Fail> {
    assert_eq!(rt; told(&rt, rt.alloc(), 1), Some([3, 3, 0, 3]));
    assert_eq!(rt; told(&rt, rt.alloc(), 0), Some([5, 5, 2, 3]));
    Ok(())
}
