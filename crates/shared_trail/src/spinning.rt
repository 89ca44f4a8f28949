//! Waiting for a lock that is held briefly.
use std::hint::spin_loop;
use std::sync::{Mutex, MutexGuard, Wait};
use std::thread::yield_now;

/// How often a lock is tried at once: for as long as a call holds one, which is about a microsecond.
const TRIES: u32 = 40;

/// How often a lock is tried again after other threads were let run, before the caller sleeps.
const YIELDS: u32 = 400;

/// Takes the lock. A thread that sleeps needs many microseconds to wake, and those who come next find that somebody
/// sleeps and do so too. So the lock is tried for a while first; and where more threads wait than there are processors,
/// the one that holds the lock needs theirs, so they let it run between two tries.
pub fn spin_then_lock<'a, T, R: Wait>(rt: &R, lock: &'a Mutex<T>) -> MutexGuard<'a, T> {
    for _ in 0..TRIES {
        if let Some(guard) = lock.try_lock() {
            return guard;
        }
        spin_loop();
    }
    for _ in 0..YIELDS {
        yield_now();
        if let Some(guard) = lock.try_lock() {
            return guard;
        }
    }
    lock.lock(rt)
}
