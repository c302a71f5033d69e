//! The lock of the log, with a queue of those who wait for it.
use std::sync::Wait;
use std::sync::atomic::{AtomicU64, Ordering};
use std::time::Duration;
use std::{array, thread};

/// How often the first one in the queue looks at the log before it naps.
const LOOKS: u32 = 64;

/// How many looks in a row must find the log free before the first one in the queue takes it.
const FREE_LOOKS: u32 = 8;

/// How long a nap lasts, in microseconds.
const NAP: u64 = 100;

/// How often the first one in the queue naps before it asks not to be passed.
const NAPS: u32 = 10;

/// The number of bells. With more sessions in the queue some share a bell, and wake for each other.
const BELLS: u64 = 16;

/// The lock of the log. While the log is out those who want it wait here, so that they take no turns of the gate.
///
/// Who finds the log free takes it, although others wait: a thread that runs goes on, where a thread that sleeps would have to be
/// woken first. The others wait in the order of arrival, and all but the first one sleep, each at a bell of its own. The first one
/// looks and naps in turn; after about a millisecond it asks not to be passed. From then on nobody passes it but those who looked before.
///
/// No clause speaks of it: what a hall promises, it promises without the lock too. Barging and waiting in a queue are those of a mutex
/// that hands over to starving waiters; the queue is a ticket lock with a word for each one that waits: Anderson, 1990;
/// Mellor-Crummey and Scott, 1991.
#[derive(Drop)]
pub(crate) struct LogLock {
    /// 1 while somebody has the log, and else 0.
    taken: AtomicU64,
    /// 1 if the first one in the queue asks not to be passed, and else 0.
    asked: AtomicU64,
    /// The number of the next one to come into the queue.
    next: AtomicU64,
    /// The number of the first one in the queue.
    first: AtomicU64,
    /// How often each bell has rung.
    bells: [AtomicU64; BELLS as usize],
}

impl LogLock {
    /// A lock that nobody holds, with an empty queue.
    pub(crate) fn new() -> LogLock {
        LogLock {
            taken: AtomicU64::new(0),
            asked: AtomicU64::new(0),
            next: AtomicU64::new(0),
            first: AtomicU64::new(0),
            bells: array::from_fn(|_| AtomicU64::new(0)),
        }
    }

    /// Waits until the log is free, and takes it.
    pub(crate) fn take<R: Wait>(&self, rt: &R) {
        if self.asked.load(Ordering::SeqCst) == 0 && self.takes() {
            return;
        }
        self.await_front(rt);
        self.await_log(rt);
        let first = self.first.fetch_add(1, Ordering::SeqCst).wrapping_add(1);
        self.ring(first);
    }

    /// Makes the log free. If the first one in the queue asks for it, that one is woken.
    pub(crate) fn release(&self) {
        self.taken.store(0, Ordering::SeqCst);
        if self.asked.load(Ordering::SeqCst) == 1 {
            self.taken.wake_all();
        }
    }

    /// Takes the log if it is free, and returns whether it was.
    fn takes(&self) -> bool {
        let found = self
            .taken
            .compare_exchange(0, 1, Ordering::SeqCst, Ordering::SeqCst);
        found.is_ok()
    }

    /// Comes into the queue, and waits until all who came before have left it.
    fn await_front<R: Wait>(&self, rt: &R) {
        let number = self.next.fetch_add(1, Ordering::SeqCst);
        let bell = self.bell(number);
        for _ in rt.forever() {
            let rung = bell.load(Ordering::SeqCst);
            if self.first.load(Ordering::SeqCst) == number {
                return;
            }
            bell.park(rt, (rung % (1 << 32)) as u32);
        }
    }

    /// Takes the log, as the first one in the queue.
    fn await_log<R: Wait>(&self, rt: &R) {
        let mut naps = 0;
        for _ in rt.forever() {
            if self.stays_free() && self.takes() {
                return;
            }
            if naps >= NAPS {
                return self.ask(rt);
            }
            naps += 1;
            self.taken.park_timeout(rt, 1, Duration::from_micros(NAP));
        }
    }

    /// Takes the log, as the first one in the queue, and asks that nobody passes it meanwhile.
    fn ask<R: Wait>(&self, rt: &R) {
        self.asked.store(1, Ordering::SeqCst);
        for _ in rt.forever() {
            if self.takes() {
                self.asked.store(0, Ordering::SeqCst);
                return;
            }
            self.taken.park(rt, 1);
        }
    }

    /// Looks at the log some times, and returns whether it is free in so many looks in a row that its last holder seems to want it no
    /// more.
    fn stays_free(&self) -> bool {
        let mut free: u32 = 0;
        for _ in 0..LOOKS {
            if self.taken.load(Ordering::SeqCst) == 1 {
                free = 0;
            } else {
                free = free.saturating_add(1);
            }
            if free == FREE_LOOKS {
                return true;
            }
            thread::yield_now();
        }
        false
    }

    /// Wakes the one with this number, if it sleeps.
    fn ring(&self, number: u64) {
        let bell = self.bell(number);
        bell.fetch_add(1, Ordering::SeqCst);
        bell.wake_all();
    }

    /// The bell of a number.
    fn bell(&self, number: u64) -> &AtomicU64 {
        &self.bells[(number % BELLS) as usize]
    }
}
