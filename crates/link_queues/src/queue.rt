//! One queue of datagrams in room that is taken when it is made.

ghost use Rattle.std.specs.Prelude.{◌≡◌, ◌+◌, ◌^◌, ◌<◌, ◌≤◌, min, false, [], ◌∷◌, ◌++◌, length, slice_get, IfOk, IfSome};
ghost use Rattle.std.specs.Option.{option_map};
ghost use Rattle.link_queues.specs.Waiting.{filled, is_over, with_one, without_oldest};

use circular_buffer::HeapCircularBuffer;
use fields::NoMemory;
use std::alloc::Global;
use std::marker::Model;

/// Datagrams that wait, the oldest first. Contracts see them, and how many and how many bytes there is room for.
#[derive(Drop)]
pub struct Queue {
    lengths: HeapCircularBuffer<usize>,
    bytes: HeapCircularBuffer<u8>,
}

impl Model for Queue {
    ghost use Rattle.std.specs.Prelude.{◌≡◌, length, sum};
    ghost use Rattle.link_queues.specs.Waiting.{Waiting, pieces};

    ghost Value = { Waiting };

    ghost view = { λ q. record {
      held = pieces q.lengths.items q.bytes.items;
      slots = q.lengths.capacity;
      room = q.bytes.capacity;
    } };

    ghost invariant = { λ q. sum q.lengths.items ≡ length q.bytes.items };
}

impl Queue {
    /// A queue with room for so many datagrams, of so many bytes together.
    pub fn new(alloc: Global, slots: usize, room: usize) -> Result<Queue, NoMemory>
        ensures { IfOk result (λ q. q ≡ record { held = []; slots = slots; room = room }) }
    {
        Ok(Queue {
            lengths: HeapCircularBuffer::with_capacity(alloc, slots)?,
            bytes: HeapCircularBuffer::with_capacity(alloc, room)?,
        })
    }

    /// How many wait.
    pub fn len(&self) -> usize
        ensures len { result ≡ length self.now.held }
        ensures within { result < 2 ^ 63 }
    {
        self.lengths.len()
    }

    fn is_over(&self, bytes: &[u8]) -> bool
        ensures { result ≡ is_over self.now.slots self.now.room (self.now.held ++ bytes.now ∷ []) }
    {
        self.lengths.capacity() < self.lengths.len() + 1
            || self.bytes.capacity() < self.bytes.len() + bytes.len()
    }

    /// Drops the oldest, if any waits.
    fn drop_oldest(&mut self)
        ensures { self.new ≡ without_oldest self.old }
    {
        if let Some(length) = self.lengths.pop_front() {
            let left = self.bytes.len() - length;
            self.bytes.truncate_front(left);
        }
    }

    /// Appends a datagram for which there is room.
    fn append(&mut self, bytes: &[u8])
        requires { is_over self.old.slots self.old.room (self.old.held ++ bytes.now ∷ []) ≡ false }
        ensures { self.new ≡ record self.old { held = self.old.held ++ bytes.now ∷ [] } }
    {
        self.lengths.push_back(bytes.len());
        self.bytes.fill_from_slice(bytes);
    }

    /// Puts a datagram behind those that wait, and says how many were lost for it: the oldest are dropped until there is room.
    pub fn put(&mut self, bytes: &[u8]) -> usize
        ensures put { self.new ≡ with_one bytes.now self.old }
        ensures lost { result + length self.new.held ≡ length self.old.held + 1 }
    {
        let before = self.len();
        while self.is_over(bytes) {
            if self.len() == 0 {
                return before + 1;
            }
            self.drop_oldest();
        }
        self.append(bytes);
        before + 1 - self.len()
    }

    /// Takes the oldest into the front of the buffer, cut to its length.
    pub fn take(&mut self, buf: &mut [u8]) -> Option<usize>
        ensures taken { result
            ≡ option_map (λ d. min (length d) (length buf.old)) (slice_get self.old.held 0) }
        ensures fits { IfSome result (λ n. n ≤ length buf.old) }
        ensures filled { buf.new ≡ filled (slice_get self.old.held 0) buf.old }
        ensures rest { self.new ≡ without_oldest self.old }
    {
        let length = self.lengths.pop_front()?;
        let count = length.min(buf.len());
        self.bytes.read_into(&mut buf[..count]);
        let left = self.bytes.len() - (length - count);
        self.bytes.truncate_front(left);
        Some(count)
    }
}
