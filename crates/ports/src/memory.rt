//! A source and a sink in memory, whose contents are modelled, and which fail where they are asked to.
ghost use Rattle.std.specs.Prelude.{◌≡◌, ◌≤◌, true, List, [], length, Some, None, IfOk};
ghost use Rattle.ports.specs.Count.{counted, next_count};
ghost use Rattle.ports.specs.Reading.{has_got, read_failed, GotAtMost, GotSome, Reads, EndsUsedUp};
ghost use Rattle.ports.specs.Writing.{has_taken, write_failed, TookAtMost, TookSome, Gives};
ghost use Rattle.ports.specs.Memory.{is_failing, SourceState, read_answer, after_read, filled, SinkState, write_answer, after_write};

use crate::{Failed, Given, Sink, Source, Taken};
use fields::NoMemory;
use std::alloc::Global;
use std::marker::Model;

/// Which calls are to fail, how many came, and how many failed. The counts stand still at the end of
/// their type.
#[derive(Drop)]
pub(crate) struct Calls {
    fail: Vec<u64>,
    made: u64,
    failed: u64,
}

impl Calls {
    pub(crate) fn new(fail: Vec<u64>) -> Calls
        ensures { result ≡ record {
          fail = fail;
          made = 0;
          failed = 0;
        } }
    {
        Calls {
            fail,
            made: 0,
            failed: 0,
        }
    }

    /// Counts a call, and says whether it is one of those that are to fail.
    pub(crate) fn next(&mut self) -> bool
        ensures answer { result ≡ is_failing self.old.fail.items self.old.made }
        ensures after { self.new ≡ record self.old { made = next_count self.old.made } }
    {
        let number = self.made;
        self.made = number.saturating_add(1);
        self.fail.as_slice().contains(&number)
    }

    /// Counts a failure, where there is one.
    pub(crate) fn count(&mut self, failed: bool)
        ensures { self.new ≡ record self.old { failed = counted failed self.old.failed } }
    {
        if failed {
            self.failed = self.failed.saturating_add(1);
        }
    }

    /// Counts a failure.
    fn count_failure(&mut self)
        ensures { self.new ≡ record self.old { failed = next_count self.old.failed } }
    {
        self.count(true);
    }

    /// Counts a call, and its failure if it is one of those that are to fail.
    fn next_fails(&mut self) -> bool
        ensures answer { result ≡ is_failing self.old.fail.items self.old.made }
        ensures after { self.new ≡ record self.old {
          made = next_count self.old.made;
          failed = counted result self.old.failed;
        } }
    {
        let fails = self.next();
        self.count(fails);
        fails
    }
}

/// A source in memory. Contracts see whether it may be read, the bytes left, the step, the numbers of the failing calls, and
/// how many calls came and failed.
#[derive(Drop)]
pub struct MemorySource {
    is_open: bool,
    bytes: Vec<u8>,
    place: usize,
    step: usize,
    calls: Calls,
}

impl Model for MemorySource {
    ghost use Rattle.std.specs.Prelude.{◌≤◌, drop, length};
    ghost use Rattle.ports.specs.Memory.{SourceState};

    ghost Value = { SourceState };

    ghost view = { λ s. record {
      is_open = s.is_open;
      unread = drop s.place s.bytes.items;
      step = s.step;
      failing = s.calls.fail.items;
      calls = s.calls.made;
      failures = s.calls.failed;
    } };

    ghost invariant = { λ s. (1 ≤ s.step) × (s.place ≤ length s.bytes.items) };
}

impl MemorySource {
    /// A source of these bytes, which moves at most `step` bytes per call and fails at the calls
    /// numbered in `fail`, from 0.
    pub fn new(bytes: Vec<u8>, step: usize, fail: Vec<u64>) -> MemorySource
        requires { 1 ≤ step }
        ensures { result ≡ record {
          is_open = true;
          unread = bytes.items;
          step = step;
          failing = fail.items;
          calls = 0;
          failures = 0;
        } }
    {
        MemorySource {
            is_open: true,
            bytes,
            place: 0,
            step,
            calls: Calls::new(fail),
        }
    }
}

impl Source for MemorySource {
    ghost state = { λ s. record {
      left = Some s.unread;
      faults = s.failures;
      is_open = s.is_open;
    } };

    /// Failures come before the end. A read into an empty buffer is `Got(0)` while bytes are left.
    fn read(&mut self, buf: &mut [u8]) -> Taken
        requires open { self.old.is_open ≡ true }
        ensures going { self.new.is_open ≡ has_got result }
        ensures faults { self.new.failures ≡ counted (read_failed result) self.old.failures }
        ensures fits { GotAtMost result (length buf.old) }
        ensures some { GotSome result (length buf.old) }
        ensures reads { Reads (Some self.old.unread) (Some self.new.unread) buf.new result }
        ensures end { EndsUsedUp (Some self.new.unread) result }
        ensures answer { result ≡ read_answer self.old (length buf.old) }
        ensures after { self.new ≡ after_read self.old result }
        ensures filled { buf.new ≡ filled self.old buf.old result }
    {
        if self.calls.next_fails() {
            self.is_open = false;
            return Taken::Failed;
        }
        let left = self.bytes.len() - self.place;
        if left == 0 {
            self.is_open = false;
            return Taken::End;
        }
        let count = self.step.min(buf.len().min(left));
        buf[..count].copy_from_slice(&self.bytes[self.place..self.place + count]);
        self.place += count;
        Taken::Got(count)
    }

    /// A byte at a time.
    fn pass_line(&mut self) -> Result<bool, Failed> {
        'bytes: loop {
            let mut byte = [0u8; 1];
            match self.read(&mut byte) {
                Taken::Got(_) => {
                    if byte[0] == b'\n' {
                        return Ok(true);
                    }
                }
                Taken::End => return Ok(false),
                Taken::Failed => return Err(Failed),
            }
        }
    }
}

/// A sink in memory, with room taken when it is made. Contracts see the bytes taken, the room, the
/// step, the numbers of the failing calls, and how many calls came and failed.
#[derive(Drop)]
pub struct MemorySink {
    is_open: bool,
    bytes: Vec<u8>,
    room: usize,
    step: usize,
    calls: Calls,
}

impl Model for MemorySink {
    ghost use Rattle.std.specs.Prelude.{◌≤◌, length, vec_capacity};
    ghost use Rattle.ports.specs.Memory.{SinkState};

    ghost Value = { SinkState };

    ghost view = { λ s. record {
      is_open = s.is_open;
      written = s.bytes.items;
      room = s.room;
      step = s.step;
      failing = s.calls.fail.items;
      calls = s.calls.made;
      failures = s.calls.failed;
    } };

    ghost invariant = { λ s. (1 ≤ s.step) × (length s.bytes.items ≤ s.room)
        × (s.room ≤ vec_capacity s.bytes) };
}

impl MemorySink {
    /// A sink with room for `room` bytes, which takes at most `step` bytes per call and fails at the
    /// calls numbered in `fail`, from 0.
    pub fn new(
        alloc: Global,
        room: usize,
        step: usize,
        fail: Vec<u64>,
    ) -> Result<MemorySink, NoMemory>
        requires { 1 ≤ step }
        ensures { IfOk result (λ sink. sink ≡ record {
          is_open = true;
          written = [];
          room = room;
          step = step;
          failing = fail.items;
          calls = 0;
          failures = 0;
        }) }
    {
        let bytes = Vec::with_capacity(alloc, room)?;
        Ok(MemorySink {
            is_open: true,
            bytes,
            room,
            step,
            calls: Calls::new(fail),
        })
    }

    /// The bytes that it took.
    pub fn bytes(&self) -> &[u8]
        ensures { result.now ≡ self.now.written }
    {
        self.bytes.as_slice()
    }
}

impl Sink for MemorySink {
    ghost state = { λ s. record {
      taken = Some s.written;
      faults = s.failures;
      is_open = s.is_open;
    } };

    /// Takes what fits. With no room left, a piece that has bytes is a fault; an empty piece is
    /// `Took(0)`.
    fn write(&mut self, bytes: &[u8]) -> Given
        requires open { self.old.is_open ≡ true }
        ensures going { self.new.is_open ≡ has_taken result }
        ensures faults { self.new.failures ≡ counted (write_failed result) self.old.failures }
        ensures fits { TookAtMost result (length bytes.now) }
        ensures some { TookSome result (length bytes.now) }
        ensures gives { Gives (Some self.old.written) (Some self.new.written) bytes.now result }
        ensures answer { result ≡ write_answer self.old (length bytes.now) }
        ensures after { self.new ≡ after_write self.old bytes.now result }
    {
        if self.calls.next_fails() {
            self.is_open = false;
            return Given::Failed;
        }
        if bytes.is_empty() {
            return Given::Took(0);
        }
        let room = self.room - self.bytes.len();
        let count = self.step.min(bytes.len().min(room));
        if count == 0 || self.bytes.extend_from_slice(&bytes[..count]).is_err() {
            self.is_open = false;
            self.calls.count_failure();
            return Given::Failed;
        }
        Given::Took(count)
    }
}
