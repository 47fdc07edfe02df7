//! Numbers in the order in which they came, any of which leaves at once.

ghost use Rattle.std.specs.Prelude.{◌≡◌, ℕ, ◌<◌, true, false, [], ◌∷◌, ◌++◌, ◌==◌, IfOk, IfSome, if◌then◌else◌, length};
ghost use Rattle.removal_timer.specs.Queue.{first_number, is_queued, without, next_at, previous_at};

use ff_ids::MAX_ACCUSATIONS;
use std::alloc::{AllocError, Global};
use std::marker::Model;

/// Each number is below this one, which stands for the end.
pub const END: u16 = MAX_ACCUSATIONS;

/// The number before, and the number behind.
#[derive(Clone, Copy)]
pub struct Link {
    previous: u16,
    next: u16,
}

/// Numbers below `END`, each at most once. Contracts see the list of them, in the order in which they came.
#[derive(Drop)]
pub struct Queue {
    links: Vec<Link>,
}

impl Model for Queue {
    ghost use Rattle.std.specs.Prelude.{ℕ, List};
    ghost use Rattle.removal_timer.specs.Queue.{order_of, IsLinked};

    ghost Value = { List ℕ };

    ghost view = { λ q. order_of q.links.items };

    ghost invariant = { λ q. IsLinked q.links.items (order_of q.links.items) };
}

/// Links the second number behind the first.
fn join(links: &mut [Link], first: u16, second: u16)
    requires first { first < length links.old }
    requires second { second < length links.old }
    ensures next { (n : ℕ) → next_at links.new n
        ≡ (if n == first then second else next_at links.old n) }
    ensures previous { (n : ℕ) → previous_at links.new n
        ≡ (if n == second then first else previous_at links.old n) }
{
    links[first as usize].next = second;
    links[second as usize].previous = first;
}

impl Queue {
    /// No number has come. The room for all of them is taken here.
    pub fn new(alloc: Global) -> Result<Queue, AllocError>
        ensures { IfOk result (λ q. q ≡ []) }
    {
        let mut links = Vec::with_capacity(alloc, END as usize + 1)?;
        for _number in 0..END as usize + 1 {
            links.push_reserved(Link {
                previous: END,
                next: END,
            });
        }
        Ok(Queue { links })
    }

    /// The number that came first.
    pub fn first(&self) -> Option<u16>
        ensures value { result ≡ first_number self.now }
        ensures range { IfSome result (λ n. n < END) }
    {
        let number = self.links[END as usize].next;
        if number == END { None } else { Some(number) }
    }

    /// A number comes that isn't there.
    pub fn push(&mut self, number: u16)
        requires range { number < END }
        requires absent { is_queued self.old number ≡ false }
        ensures { self.new ≡ self.old ++ number ∷ [] }
    {
        let last = self.links[END as usize].previous;
        join(&mut self.links, last, number);
        join(&mut self.links, number, END);
    }

    /// A number leaves that is there.
    pub fn remove(&mut self, number: u16)
        requires { is_queued self.old number ≡ true }
        ensures { self.new ≡ without number self.old }
    {
        let link = self.links[number as usize];
        join(&mut self.links, link.previous, link.next);
    }
}
