//! How many threads this program has, as the system reports while a test runs.

use std::alloc::Global;
use std::fs;
use std::io::{self, Error, ErrorKind};
use std::rt::{Clock, Files};
use std::sync::atomic::{AtomicU64, Ordering};
use std::thread::{self, Threads};
use std::time::Duration;

/// The most times that one call looks for the wanted threads.
const LOOKS: u64 = 1_000;

/// The most times that all calls look in vain.
const VAIN_LOOKS: u64 = 20_000;

/// Returns the number behind `key` on a line of `report`.
fn number_behind(report: &str, key: &str) -> Option<u64> {
    for line in report.lines() {
        if let Some(rest) = line.strip_prefix(key) {
            return match rest.split_whitespace().next()?.parse::<u64>() {
                Ok(number) => Some(number),
                Err(_) => None,
            };
        }
    }
    None
}

/// Returns the number behind `key` in the system's report on this program.
fn reported<R: AllocGlobal + Files>(rt: &R, key: &str) -> io::Result<u64> {
    let report = fs::read_to_string(rt, "/proc/self/status")?;
    number_behind(&report, key).ok_or(Error::from(ErrorKind::NotFound))
}

/// Returns how many threads this program has.
fn threads_now<R: AllocGlobal + Files>(rt: &R) -> io::Result<u64> {
    reported(rt, "Threads:")
}

/// What `CountedThreads` saw of the threads of this program. All counts include the first thread.
#[derive(Drop)]
pub struct ThreadCount {
    wanted: u64,
    greatest: AtomicU64,
    full: AtomicU64,
    vain: AtomicU64,
}

impl ThreadCount {
    /// Begins with nothing seen. `wanted` threads at once are waited for.
    pub fn of(wanted: u64) -> ThreadCount {
        ThreadCount {
            wanted,
            greatest: AtomicU64::new(0),
            full: AtomicU64::new(0),
            vain: AtomicU64::new(0),
        }
    }

    /// Returns the greatest number of threads that were seen at once, or 0 if the system reports none.
    pub fn greatest(&self) -> u64 {
        self.greatest.load(Ordering::SeqCst)
    }

    /// Returns how many calls saw the wanted number of threads or more.
    pub fn full(&self) -> u64 {
        self.full.load(Ordering::SeqCst)
    }

    /// Notes that `threads` threads were seen at once. Returns whether others are to be waited for: this thread is not
    /// alone, and the wanted number was never seen.
    fn note(&self, threads: u64) -> bool {
        self.greatest.fetch_max(threads, Ordering::SeqCst);
        if threads >= self.wanted {
            self.full.fetch_add(1, Ordering::SeqCst);
        }
        threads > 1 && self.greatest() < self.wanted
    }

    /// Returns whether a call may look once more.
    fn may_look(&self) -> bool {
        self.vain.fetch_add(1, Ordering::SeqCst) < VAIN_LOOKS
    }
}

/// The threads, memory and clock of `rt`. Each call for memory or for the time counts the threads of this program.
/// Until the wanted number was seen, such a call waits a while for it, so threads that work at once are seen at once.
#[derive_where(Clone, Copy)]
pub struct CountedThreads<'a, R> {
    pub rt: &'a R,
    pub count: &'a ThreadCount,
}

impl<R: AllocGlobal + Files> CountedThreads<'_, R> {
    /// Counts the threads of this program, as each call does.
    pub fn look(&self) {
        for _ in 0..LOOKS {
            match threads_now(self.rt) {
                Ok(threads) if self.count.note(threads) && self.count.may_look() => {
                    thread::yield_now();
                }
                _ => return,
            }
        }
    }
}

impl<R: Threads> Threads for CountedThreads<'_, R> {}

impl<R: AllocGlobal + Files> Alloc for CountedThreads<'_, R> {
    type A = Global;

    fn alloc(&self) -> Global {
        self.look();
        self.rt.alloc()
    }
}

impl<R: AllocGlobal + Clock + Files> Clock for CountedThreads<'_, R> {
    fn monotonic(&self) -> io::Result<Duration> {
        self.look();
        self.rt.monotonic()
    }

    fn since_1970(&self) -> io::Result<Duration> {
        self.look();
        self.rt.since_1970()
    }

    fn sleep(&self, duration: Duration) {
        self.rt.sleep(duration);
    }
}
