//! The queues of a link, and whose turn it is.

ghost use Rattle.std.specs.Prelude.{◌≡◌, ◌%◌, ◌<◌, ◌≤◌, min, length, replicate, IfOk, IfSome};
ghost use Rattle.std.specs.Option.{option_map};
ghost use Rattle.link_queues.specs.Waiting.{filled};
ghost use Rattle.link_queues.specs.Queues.{after_handing, empty_queue, expecting, handed_on, is_due, lost_after, next_due, nothing_yet, put, ready_after};

use crate::queue::Queue;
use crate::senders::{Expected, is_borrowed, is_known, queue_of};
use fields::NoMemory;
use std::alloc::Global;
use std::marker::Model;

/// How much the queues hold, and how often the one of all other ports is served.
#[derive(Clone, Copy, Debug)]
pub struct Sizes {
    /// How many members may be expected.
    pub members: u16,
    /// How many datagrams wait in a queue.
    pub slots: usize,
    /// How many bytes wait in a queue.
    pub room: usize,
    /// How many milliseconds pass between two datagrams of other ports.
    pub gap: u64,
}

/// What came and wasn't handed on yet: a queue for each port at which a member is expected, and one for all other ports.
#[derive(Drop)]
pub struct Queues {
    expected: Vec<Expected>,
    queues: Vec<Queue>,
    last: usize,
    ready: u64,
    gap: u64,
    lost: u64,
}

impl Model for Queues {
    ghost use Rattle.std.specs.Prelude.{◌<◌, ◌≤◌, ◌+◌, length, vec_capacity};
    ghost use Rattle.link_queues.specs.Queues.{QueuesState};

    ghost Value = { QueuesState };

    ghost view = { λ q. record {
      expected = q.expected.items;
      queues = q.queues.items;
      last = q.last;
      ready = q.ready;
      gap = q.gap;
      lost = q.lost;
    } };

    ghost invariant = { λ q. (length q.expected.items < length q.queues.items)
        × (q.last < length q.queues.items)
        × (length q.queues.items ≤ vec_capacity q.expected + 1) };
}

/// So many empty queues.
fn empty_queues(alloc: Global, count: usize, sizes: &Sizes) -> Result<Vec<Queue>, NoMemory>
    ensures { IfOk result (λ v. v.items ≡ replicate count (empty_queue sizes.now)) }
{
    let mut queues = Vec::with_capacity(alloc, count)?;
    for _made in 0..count {
        queues.push_reserved(Queue::new(alloc, sizes.slots, sizes.room)?);
    }
    Ok(queues)
}

/// The remainder of a place that is less than twice the count, in most calls without a division.
fn wrapped(place: usize, count: usize) -> usize
    requires { 0 < count }
    ensures { result ≡ place % count }
{
    if place < count {
        return place;
    }
    let past = place - count;
    if past < count { past } else { past % count }
}

impl Queues {
    /// Queues in which nothing waits. All room is taken here.
    pub fn new(alloc: Global, sizes: &Sizes) -> Result<Queues, NoMemory>
        ensures { IfOk result (λ q. q ≡ nothing_yet sizes.now) }
    {
        let members = usize::from(sizes.members);
        Ok(Queues {
            expected: Vec::with_capacity(alloc, members)?,
            queues: empty_queues(alloc, members + 1, sizes)?,
            last: 0,
            ready: 0,
            gap: sizes.gap,
            lost: 0,
        })
    }

    /// How many datagrams were lost: what came and was neither handed on nor is held.
    pub fn lost(&self) -> u64
        ensures { result ≡ self.now.lost }
    {
        self.lost
    }

    /// The member is expected at the port. One that is expected already stays where it is.
    pub fn expect(&mut self, member: u16, port: u16)
        ensures { self.new ≡ expecting member port self.old }
    {
        if is_known(self.expected.as_slice(), member) {
            return;
        }
        if self.expected.len() + 1 < self.queues.len() {
            self.expected.push_reserved(Expected { member, port });
        }
    }

    fn lose(&mut self, more: u64)
        ensures { self.new ≡ record self.old { lost = lost_after self.old.lost more } }
    {
        self.lost = self.lost.saturating_add(more);
    }

    /// Puts a datagram that came from the port into its queue. What doesn't fit there is lost, the oldest first, and so is a
    /// ping, a pong or a summary that names a sender which is expected at another port.
    pub fn put(&mut self, port: u16, bytes: &[u8])
        ensures { self.new ≡ put port bytes.now self.old }
    {
        if is_borrowed(self.expected.as_slice(), port, bytes) {
            self.lose(1);
            return;
        }
        let place = queue_of(self.expected.as_slice(), port);
        let lost = self.queues[place].put(bytes);
        self.lose(lost as u64);
    }

    /// Whether the queue has something and may be served now.
    fn is_due(&self, now: u64, place: usize) -> bool
        requires { place < length self.now.queues }
        ensures { result ≡ is_due now self.now place }
    {
        self.queues[place].len() > 0 && (place > 0 || now >= self.ready)
    }

    /// The queue that is served next.
    fn next_due(&self, now: u64) -> Option<usize>
        ensures due { result ≡ next_due now self.now }
        ensures within { IfSome result (λ place. place < length self.now.queues) }
    {
        let count = self.expected.len() + 1;
        for step in 0..count {
            let place = wrapped(self.last + 1 + step, count);
            if self.is_due(now, place) {
                return Some(place);
            }
        }
        None
    }

    /// From when on the queue of all other ports is served again, where this one is served now.
    fn ready_after(&self, now: u64, place: usize) -> u64
        ensures { result ≡ ready_after now self.now place }
    {
        if place == 0 {
            now.saturating_add(self.gap)
        } else {
            self.ready
        }
    }

    /// Takes the next datagram in turn into the front of the buffer, cut to its length.
    pub fn next(&mut self, now: u64, buf: &mut [u8]) -> Option<usize>
        ensures handed { result
            ≡ option_map (λ d. min (length d) (length buf.old)) (handed_on now self.old) }
        ensures fits { IfSome result (λ n. n ≤ length buf.old) }
        ensures filled { buf.new ≡ filled (handed_on now self.old) buf.old }
        ensures after { self.new ≡ after_handing now self.old }
    {
        let place = self.next_due(now)?;
        self.ready = self.ready_after(now, place);
        self.last = place;
        self.queues[place].take(buf)
    }
}
