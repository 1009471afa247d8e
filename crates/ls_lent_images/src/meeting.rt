// What threads pass before each of their steps.

use std::sync::atomic::Ordering::SeqCst;
use std::sync::atomic::{AtomicBool, AtomicU64};

// How often a flag is looked at before its thread goes on without it.
const TURNS: u64 = 100_000_000;

/// A gate at which thread 1 and thread 2 meet. At its first pass each of them sets a flag and waits for the flag of
/// the other. If one thread worked both, one of them would leave the gate after `TURNS` looks.
#[derive(Drop)]
pub struct Meeting {
    first: AtomicBool,
    second: AtomicBool,
    left_by_turns: AtomicU64,
}

impl Meeting {
    /// A gate that no thread has passed.
    pub fn new() -> Meeting {
        Meeting {
            first: AtomicBool::new(false),
            second: AtomicBool::new(false),
            left_by_turns: AtomicU64::new(0),
        }
    }

    /// How many of thread 1 and thread 2 waited in vain.
    pub fn left_by_turns(&self) -> u64 {
        self.left_by_turns.load(SeqCst)
    }

    fn meet(&self, mine: &AtomicBool, other: &AtomicBool) {
        let has_passed = mine.swap(true, SeqCst);
        if !has_passed && !is_set_in_time(other) {
            self.left_by_turns.fetch_add(1, SeqCst);
        }
    }

    /// What a thread does at the gate.
    pub fn pass_thread(&self, thread: usize) {
        match thread {
            1 => self.meet(&self.first, &self.second),
            2 => self.meet(&self.second, &self.first),
            _ => {}
        }
    }
}

fn is_set_in_time(flag: &AtomicBool) -> bool {
    for _ in 0..TURNS {
        if flag.load(SeqCst) {
            return true;
        }
        std::hint::spin_loop();
    }
    false
}
