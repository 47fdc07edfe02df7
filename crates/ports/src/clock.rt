//! A clock, and one in memory.

ghost use Rattle.std.specs.Prelude.{◌≡◌, ◌≤◌, Some};
ghost use Rattle.ports.specs.MemoryClock.{NeverFalls};
ghost use Rattle.ports.specs.Clock.{ReadsClock};
ghost use Rattle.ports.specs.Outside.{OfClock};

use std::marker::Model;

/// A clock.
pub trait Clock {
    /// Its last reading, and those to come.
    ghost state: { Self → OfClock };

    /// Milliseconds from some fixed moment, never falling.
    fn now(&mut self) -> u64
        ensures kept { (state self.new).reading ≡ result }
        ensures rising { (state self.old).reading ≤ result }
        ensures reads { ReadsClock (state self.old).reading (state self.old).coming
            (state self.new).coming result };
}

/// A clock in memory. Contracts see its last reading and those to come.
#[derive(Drop)]
pub struct MemoryClock {
    times: Vec<u64>,
    place: usize,
    last: u64,
}

impl Model for MemoryClock {
    ghost use Rattle.std.specs.Prelude.{drop};
    ghost use Rattle.ports.specs.MemoryClock.{MemoryClockState, NeverFalls};

    ghost Value = { MemoryClockState };

    ghost view = { λ c. record {
      reading = c.last;
      coming = drop c.place c.times.items;
    } };

    ghost invariant = { λ c. NeverFalls c.last (drop c.place c.times.items) };
}

impl MemoryClock {
    /// A clock that gives these readings, which never fall, and then the last one again; 0 without any.
    pub fn new(times: Vec<u64>) -> MemoryClock
        requires { NeverFalls 0 times.items }
        ensures { result ≡ record {
          reading = 0;
          coming = times.items;
        } }
    {
        MemoryClock {
            times,
            place: 0,
            last: 0,
        }
    }
}

impl Clock for MemoryClock {
    ghost state = { λ c. record { reading = c.reading; coming = Some c.coming } };

    fn now(&mut self) -> u64
        ensures kept { self.new.reading ≡ result }
        ensures rising { self.old.reading ≤ result }
        ensures reads { ReadsClock self.old.reading (Some self.old.coming) (Some self.new.coming)
            result }
    {
        let place = self.place;
        if place < self.times.len() {
            self.last = self.times[place];
            self.place = place + 1;
        }
        self.last
    }
}
