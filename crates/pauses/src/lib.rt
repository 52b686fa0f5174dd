// Waiting before a call is made again.

#![tactic(auto)]

ghost use Rattle.std.specs.Prelude.{◌≤◌};
ghost use Rattle.std.specs.Duration.{as_nanos};

use std::thread;
use std::time::{Clock, Duration};

// In microseconds.
const FIRST: u64 = 50;

const LONGEST: u64 = 6400;

/// How long to wait where a call cannot go on for now: from 0.05 ms on twice as long each time, up to 6.4 ms.
#[derive(Clone, Copy, PartialEq, Eq, Debug)]
pub struct Pause {
    time: Duration,
    ghost short: { as_nanos time ≤ 6400000 },
}

impl Pause {
    pub fn first() -> Pause {
        Pause {
            time: Duration::from_micros(FIRST),
        }
    }

    // Of so many nanoseconds, or the longest.
    pub fn of(nanoseconds: u32) -> Pause {
        Pause {
            time: Duration::from_nanos(u64::from(nanoseconds)).min(Duration::from_micros(LONGEST)),
        }
    }

    pub fn longer(self) -> Pause {
        Pause {
            time: (self.time * 2).min(Duration::from_micros(LONGEST)),
        }
    }

    pub fn wait(self, clock: &impl Clock) {
        thread::sleep(clock, self.time);
    }
}

// Waits so many nanoseconds. At 1000000000 or more it returns at once.
pub fn wait(clock: &impl Clock, nanoseconds: u32) {
    if nanoseconds < 1_000_000_000 {
        thread::sleep(clock, Duration::from_nanos(u64::from(nanoseconds)));
    }
}
