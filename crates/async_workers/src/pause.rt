// How a worker waits.
use super::place::BookPlace;
use std::sync::Wait;
use std::thread;
use std::thread::Parker;
use std::time::Duration;

// A worker yields to other threads so often before it sleeps.
const YIELDS: u32 = 4;

// How long a sleep is, in microseconds. A longer one lets persons wait who could be claimed.
const SLEEP: u64 = 50;

// After so many looks it takes the book anyway.
const LOOKS: u32 = 256;

/// Sleeps for `SLEEP` microseconds.
pub fn sleep<R: Wait>(rt: &R) {
    Parker::new().park_timeout(rt, Duration::from_micros(SLEEP));
}

/// Waits, without a person to claim, until the place calls, by some yields and then by short sleeps,
/// and not for ever. The book stays with those who have something to do with it.
pub fn pause<R: Wait>(rt: &R, place: &BookPlace) {
    for look in 0..LOOKS {
        if look < YIELDS {
            thread::yield_now();
        } else {
            sleep(rt);
        }
        if place.calls() {
            return;
        }
    }
}
