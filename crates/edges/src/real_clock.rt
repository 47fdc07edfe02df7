//! The monotonic clock of the system.

ghost use Rattle.std.specs.Prelude.{◌≡◌, ◌≤◌, None};
ghost use Rattle.ports.specs.Clock.{ReadsClock};

use ports::Clock;
use std::marker::Model;
use std::{io, time};

/// The monotonic clock of the system. No reading to come is modelled. Where it cannot be read, the last reading is given
/// again, 0 before any.
#[derive(Drop)]
pub struct RealClock<'a, R: time::Clock> {
    clock: &'a R,
    last: u64,
}

impl<'a, R: time::Clock> Model for RealClock<'a, R> {
    ghost use Rattle.std.specs.Prelude.{ℕ};

    ghost Value = { ℕ };

    ghost view = { λ c. c.last };
}

/// Milliseconds since some fixed moment, at most those that a reading holds.
fn millis<R: time::Clock>(clock: &R) -> io::Result<u64> {
    let since = clock.monotonic()?;
    Ok(u64::try_from(since.as_millis()).unwrap_or(u64::MAX))
}

impl<'a, R: time::Clock> RealClock<'a, R> {
    /// A clock that was not read yet.
    pub fn new(clock: &'a R) -> RealClock<'a, R>
        ensures { result ≡ 0 }
    {
        RealClock { clock, last: 0 }
    }
}

impl<'a, R: time::Clock> Clock for RealClock<'a, R> {
    ghost state = { λ c. record { reading = c; coming = None } };

    fn now(&mut self) -> u64
        ensures kept { self.new ≡ result }
        ensures rising { self.old ≤ result }
        ensures reads { ReadsClock self.old None None result }
    {
        if let Ok(reading) = millis(self.clock) {
            self.last = self.last.max(reading);
        }
        self.last
    }
}
