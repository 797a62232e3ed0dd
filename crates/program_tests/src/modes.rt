// Both modes, on problems whose reports, or the compared parts of them, are the same for any
// threads.
use crate::reports::Worked;
use crate::watched::{Seen, run_with};
use assign_core::Sense;
use async_workers::{Gate, Note};
use auction_command::{Ended, run_solve};
use command_line::{Mode, SolveOpts};
use std::alloc::Global;
use std::process::Abort;
use std::sync::Wait;
use std::sync::atomic::{AtomicU64, Ordering};
use std::test::Fail;
use std::thread;
use std::thread::Threads;
use test_helpers::{ample_writer, whole_text};

const EIGHT: &[u8] = b"8
14 20 22 28 34 40 46 48
8 14 21 24 31 34 41 44
18 22 26 29 38 42 46 50
10 15 20 25 30 35 40 44
15 18 27 29 35 41 47 49
10 13 20 23 30 33 37 43
15 19 23 27 31 39 43 47
11 16 21 26 31 35 41 46
";

// The words of either mode, with few and many workers.
const MODES: [&str; 6] = [
    "--mode rounds --workers 9",
    "--mode workers --workers 1",
    "--mode=workers",
    "--mode workers --refresh 0",
    "--mode workers --workers 64",
    "--refresh=1000 --workers=2 --mode=workers",
];

// The run wrote a report with this beginning, nothing on standard error, and ended with this
// status.
fn assert_starts(rt: &impl Abort, seen: &Seen, status: u8, start: &str) {
    let begins = seen.out.as_slice().starts_with(start.as_bytes());
    assert!(rt;
        begins && seen.errors.is_empty() && seen.status == status,
        "{start}"
    );
}

#[test]
fn reports_in_both_modes(rt: HostRuntime) -> Result<(), Fail> {
    let two: &[u8] = b"sense min\ncost 5\nassign 1 2 2\nassign 2 1 3\nprice 1 14\nprice 2 12\n";
    let table: [Worked; 8] = [
        (
            "solve --prices",
            b"1 7",
            b"",
            0,
            "sense min\ncost 7\nassign 1 1 7\nprice 1 1\n",
        ),
        (
            "solve",
            b"2 1 2 3 5",
            b"",
            0,
            "sense min\ncost 5\nassign 1 2 2\nassign 2 1 3\n",
        ),
        // All costs are equal: any assignment is optimal.
        (
            "solve --max --prices",
            b"3 2 2 2 2 2 2 2 2 2",
            b"",
            0,
            "sense max\ncost 6\nassign 1 ",
        ),
        (
            "solve",
            b"2 1000000 -1000000 -1000000 1000000",
            b"",
            0,
            "sense min\ncost -2000000\nassign 1 2 -1000000\nassign 2 1 -1000000\n",
        ),
        (
            "solve --sparse",
            b"3 1 1 4 2 1 6 3 2 1 3 3 2",
            b"",
            1,
            "sense min\ninfeasible\npersons 2 1 2\nobjects 1 1\n",
        ),
        (
            "solve",
            EIGHT,
            b"",
            0,
            "sense min\ncost 224\nassign 1 3 22\nassign 2 1 8\nassign 3 4 29\nassign 4 8 44\n\
             assign 5 2 18\nassign 6 7 37\nassign 7 5 31\nassign 8 6 35\n",
        ),
        (
            "solve --start report",
            b"2 1 2 3 5",
            two,
            0,
            "sense min\ncost 5\nassign 1 2 2\nassign 2 1 3\n",
        ),
        (
            "solve --start report --prices",
            b"1 7",
            b"sense min\ncost 7\nassign 1 1 7\nprice 1 1000000000000000000000\n",
            0,
            "sense min\ncost 7\nassign 1 1 7\nprice 1 1000000000000000000001\n",
        ),
    ];
    for (options, text, report, status, start) in table {
        for mode in MODES {
            let line = format!(in rt.alloc(); "{options} {mode}")?;
            let seen = run_with(&rt, rt.alloc(), line.as_str(), text, report, 4096)?;
            assert_starts(&rt, &seen, status, start);
        }
    }
    Ok(())
}

// Holds each worker's first offer until both have reached theirs, likewise each first bid, and then
// worker 1 until worker 2 has seen that its bid is accepted.
#[derive(Drop)]
struct Holding {
    offers: AtomicU64,
    bids: AtomicU64,
    accepted: AtomicU64,
    refused: AtomicU64,
    late: AtomicU64,
}

impl Holding {
    // Waits until all of these bits are set, for at most a million turns.
    fn hold(&self, reached: &AtomicU64, bits: u64) {
        for _ in 0..1_000_000 {
            if reached.load(Ordering::SeqCst) & bits == bits {
                return;
            }
            thread::yield_now();
        }
        self.late.store(1, Ordering::SeqCst);
    }
}

// The bit of a worker.
fn bit_of(worker: u16) -> u64 {
    1u64.wrapping_shl(u32::from(worker))
}

impl Gate for Holding {
    fn before_offer(&self, worker: u16) {
        self.offers.fetch_or(bit_of(worker), Ordering::SeqCst);
        self.hold(&self.offers, 6);
    }

    fn before_submit(&self, worker: u16, _turns: u64) {
        self.bids.fetch_or(bit_of(worker), Ordering::SeqCst);
        self.hold(&self.bids, 6);
        if worker == 1 {
            self.hold(&self.accepted, 4);
        }
    }

    fn after_session(&self, worker: u16, note: Note) {
        match note {
            Note::Accepted => {
                self.accepted.fetch_or(bit_of(worker), Ordering::SeqCst);
            }
            Note::Refused(_) => {
                self.refused.fetch_or(bit_of(worker), Ordering::SeqCst);
            }
            Note::Nothing => {}
        }
    }
}

// The report of two workers on four equal costs, with this gate, if it is on an optimal assignment.
fn report_of_two(
    rt: &(impl Threads + Wait + Sync),
    alloc: Global,
    gate: &Holding,
) -> Option<Vec<u8>> {
    let options = SolveOpts {
        sparse: false,
        mode: Mode::Workers,
        workers: 2,
        refresh: 0,
        prices: true,
        sense: Sense::Min,
    };
    let mut writer = ample_writer(alloc);
    let mut text = whole_text(b"2 2 2 2 2", 64);
    match run_solve(rt, alloc, &mut text, &mut writer, options, gate) {
        Ok(Ended::Optimal) => Some(writer.taken),
        _ => None,
    }
}

// The workers whose bids were accepted, those whose bids were refused, and whether one was held too
// long.
fn told_workers(gate: &Holding) -> [u64; 3] {
    [&gate.accepted, &gate.refused, &gate.late].map(|bits| bits.load(Ordering::SeqCst))
}

// Both bid for the first object at 1; worker 2 gets it, and worker 1 bids for the other object at
// 2.
#[test]
fn stale_bid_refused(rt: HostRuntime) -> Result<(), Fail> {
    let gate = Holding {
        offers: AtomicU64::new(0),
        bids: AtomicU64::new(0),
        accepted: AtomicU64::new(0),
        refused: AtomicU64::new(0),
        late: AtomicU64::new(0),
    };
    let report = report_of_two(&rt, rt.alloc(), &gate);
    assert!(rt;
        report.is_some_and(|out| {
            out.starts_with(b"sense min\ncost 4\n") && out.ends_with(b"price 1 1\nprice 2 2\n")
        })
    );
    assert_eq!(rt; told_workers(&gate), [6, 2, 0]);
    Ok(())
}
