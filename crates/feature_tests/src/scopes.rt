//! Threads of a caller's own.
use gix_features_workers::{build_thread, join, threads};
use std::sync::Wait;
use std::sync::atomic::{AtomicU64, Ordering};
use std::test::Fail;
use std::thread::Threads;

/// The result of a function that starts a thread in a scope, and what that thread did.
fn counted<H: Threads + Wait>(rt: &H) -> (u8, u64) {
    let count = AtomicU64::new(0);
    let shared = &count;
    let given = threads(rt, |scope| {
        let is_started = scope
            .spawn(move || {
                shared.fetch_add(2, Ordering::SeqCst);
            })
            .is_ok();
        if is_started { 5 } else { 0 }
    });
    (given, count.load(Ordering::SeqCst))
}

/// The result of a thread whose stack was chosen, or 0 if it can't be started.
fn built<H: Threads>(rt: &H) -> u8 {
    match build_thread().stack_size(262_144).spawn(rt, || 6u8) {
        Ok(handle) => handle.join(rt),
        Err(_) => 0,
    }
}

// Catches results that change places, a scope that is left before its threads have ended, and a thread that isn't started.
#[test]
fn own_threads(rt: HostRuntime) -> Result<(), Fail> {
    let (left, right) = join(&rt, || 3u8, || 4u8);
    let (given, count) = counted(&rt);
    let is_right = left == 3 && right == 4 && given == 5 && count == 2 && built(&rt) == 6;
    assert!(rt; is_right);
    Ok(())
}
