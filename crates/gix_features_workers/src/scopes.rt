//! Threads of a caller's own.
use std::sync::Wait;
use std::thread;
use std::thread::{Builder, Threads};

/// Within a scope threads may borrow what its function borrows.
pub type Scope<'s, E> = thread::Scope<'s, E>;

/// The results of two functions that are called at once, the left one on a thread of its own.
///
/// If no thread can be started, the left one is called after the right one has returned. So a pipe between the two
/// may block forever: the right one reads what wasn't written yet, or writes more than the pipe has room for.
pub fn join<X: Send, Y, A: FnOnce() -> X + Send, Z: FnOnce() -> Y, H: Threads>(
    rt: &H,
    left: A,
    right: Z,
) -> (X, Y)
    requires left { A.pre left }
    requires right { Z.pre right }
    ensures left { A.post left result.0 }
    ensures right { Z.post right result.1 }
{
    thread::join(rt, left, right)
}

/// Calls a function that may start threads within a scope. All of them have ended when it returns.
pub fn threads<'e, H: Threads + Wait, T, F: for<'s> FnOnce(&'s Scope<'s, &'e ()>) -> T>(
    rt: &H,
    f: F,
) -> T
    requires { F.IsAlwaysCallable f }
    ensures given { (s : _) × F.post f s result }
{
    thread::scope(thread::scope_env(), rt, f)
}

/// A thread that isn't started yet, for which a name or a size of the stack may be chosen.
pub fn build_thread() -> Builder {
    Builder::new()
}
