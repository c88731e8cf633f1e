//! A wait for another thread that ends by itself.
use std::sync::atomic::{AtomicU64, Ordering};
use std::thread;
use std::time::{Clock, Duration};

/// How often a number is read before a wait is given up.
const TURNS: u32 = 8_000;

/// Waits until another thread has raised a number so far, or some eight seconds. Returns how far the number was raised.
pub fn wait_for<C: Clock>(clock: &C, number: &AtomicU64, wanted: u64) -> u64 {
    for _ in 0..TURNS {
        if number.load(Ordering::SeqCst) >= wanted {
            break;
        }
        thread::sleep(clock, Duration::from_millis(1));
    }
    number.load(Ordering::SeqCst)
}
