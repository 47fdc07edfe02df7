//! Datagrams that are handed to nodes.

ghost use Rattle.std.specs.Prelude.{◌≡◌, ◌<◌, ◌++◌, ℕ, List, Ok, Some, IfOk, IfSome, OnOk, OnErr, length, map};
ghost use Rattle.std.specs.List.{slice_get};
ghost use Rattle.std.specs.Option.{option_map};
ghost use Rattle.world_rules.specs.Settings.{Setting};
ghost use Rattle.world_rules.specs.Steps.{Execution, NodeEvent, flows, flows_one, gives, gives_each, hands, hands_sent};
ghost use Rattle.world_rules.specs.Worlds.{World as ModelWorld, is_running as runs, named_so, running as running_in};
ghost use Rattle.world_text.specs.Lines.{Began};
ghost use Rattle.world.specs.Courses.{At, FlowsOne, Goes, IsPlace, IsRunner, got_by, hands_each, hands_if};
ghost use Rattle.world.specs.Holding.{Holds, given_under, numbers};
ghost use Rattle.world.specs.Telling.{told_line};

use crate::telling::add_event;
use crate::{World, WorldFault};
use datagram::read;
use ff_ids::MemberId;
use fields::NoMemory;
use journal::{Event, What};

impl World {
    /// Hands the bytes to the node at this host, if nothing in them is forged.
    pub(crate) fn hand(
        &mut self,
        at: usize,
        bytes: &[u8],
        out: &mut Vec<u8>,
    ) -> Result<(), WorldFault>
        requires { at < length self.old.hosts }
        ensures numbers { numbers self.new ≡ numbers self.old }
        ensures hands { (s : Setting) (before : List NodeEvent) (base : List ℕ) (c : Execution)
            (m : ℕ) → At s before base self.old out.old.items c → IsPlace self.old at m
            → Goes s before base self.new out.new.items (hands s m bytes.now c) result }
    {
        let heard = read(self.alloc, bytes);
        match self.test(&heard) {
            Ok(()) => self.call(at, heard, out),
            Err(fault) => Err(fault),
        }
    }

    /// A copy of the datagram that was sent with this number.
    fn sent_copy(&self, number: usize) -> Result<Vec<u8>, NoMemory>
        requires { number < length self.now.sent }
        ensures { IfOk result
            (λ bytes. slice_get (map (λ d. d.1) self.now.sent) number ≡ Some bytes.items) }
    {
        let (_to, bytes) = &self.sent.as_slice()[number];
        Ok(bytes.as_slice().to_vec(self.alloc)?)
    }

    /// Tells that the node at this host was handed the datagram with this number.
    fn tell_got(&self, at: usize, number: usize, out: &mut Vec<u8>) -> Result<(), NoMemory>
        requires { at < length self.now.hosts }
        ensures ok { (s : Setting) (w : ModelWorld) (told : List NodeEvent) (m : ℕ)
            → Holds s w told self.now → IsPlace self.now at m
            → OnOk result (out.new.items ≡ out.old.items ++ told_line (got_by s w m number)) }
        ensures refused { OnErr result (Began out.old.items out.new.items) }
    {
        let host = &self.hosts[at];
        let event = Event {
            moment: host.moment(),
            what: What::Got {
                number: number as u64,
            },
        };
        add_event(self.alloc, host.member(), 0, &event, out)
    }

    /// Hands the datagram that was sent with this number to the node at this host, which is reported.
    fn hand_sent(&mut self, at: usize, number: usize, out: &mut Vec<u8>) -> Result<(), WorldFault>
        requires host { at < length self.old.hosts }
        requires sent { number < length self.old.sent }
        ensures numbers { numbers self.new ≡ numbers self.old }
        ensures hands { (s : Setting) (before : List NodeEvent) (base : List ℕ) (c : Execution)
            (m : ℕ) → At s before base self.old out.old.items c → IsPlace self.old at m
            → Goes s before base self.new out.new.items
            (hands_sent s m number (slice_get c.world.sent number) c) result }
    {
        let bytes = self.sent_copy(number)?;
        self.tell_got(at, number, out)?;
        self.hand(at, &bytes, out)
    }

    /// The line `deliver`.
    pub(crate) fn deliver(
        &mut self,
        at: usize,
        number: u64,
        out: &mut Vec<u8>,
    ) -> Result<(), WorldFault>
        requires { at < length self.old.hosts }
        ensures numbers { numbers self.new ≡ numbers self.old }
        ensures hands { (s : Setting) (before : List NodeEvent) (base : List ℕ) (c : Execution)
            (m : ℕ) → At s before base self.old out.old.items c → IsPlace self.old at m
            → Goes s before base self.new out.new.items
            (hands_sent s m number (slice_get c.world.sent number) c) result }
    {
        let number = number as usize;
        if number < self.sent.as_slice().len() {
            return self.hand_sent(at, number, out);
        }
        Ok(())
    }

    /// The host of the member, if it is a node that runs.
    fn running(&self, member: MemberId) -> Option<usize>
        ensures within { IfSome result (λ at. at < length self.now.hosts) }
        ensures runs { (s : Setting) (w : ModelWorld) (told : List NodeEvent)
            → Holds s w told self.now → IsRunner self.now w member result }
    {
        let at = self.host_of(member)?;
        if self.hosts[at].is_running() {
            Some(at)
        } else {
            None
        }
    }

    /// Takes the datagram that comes next, and hands it to its addressee, if that is a node that runs.
    fn flow_one(&mut self, to: MemberId, out: &mut Vec<u8>) -> Result<(), WorldFault>
        requires { self.old.flowed < length self.old.sent }
        ensures numbers { numbers self.new ≡ numbers self.old }
        ensures flows { (s : Setting) (before : List NodeEvent) (base : List ℕ) (c : Execution)
            (d : ℕ × List ℕ) → At s before base self.old out.old.items c
            → slice_get c.world.sent c.world.flowed ≡ Some d → d.0 ≡ to
            → Goes s before base self.new out.new.items (flows_one s d c) result }
    {
        let number = self.flowed;
        // What is below a length has a number behind it.
        let _sent = self.sent.as_slice().len();
        self.flowed = number + 1;
        match self.running(to) {
            Some(at) => self.hand_sent(at, number, out),
            None => Ok(()),
        }
    }

    /// Takes the datagram that comes next, if there is one; and says whether there was.
    fn flow_next(&mut self, out: &mut Vec<u8>) -> Result<bool, WorldFault>
        ensures numbers { numbers self.new ≡ numbers self.old }
        ensures flows { (s : Setting) (before : List NodeEvent) (base : List ℕ) (c : Execution)
            → At s before base self.old out.old.items c
            → FlowsOne s before base self.new out.new.items c
            (slice_get c.world.sent c.world.flowed) result }
    {
        let Some((to, _bytes)) = self.sent.as_slice().get(self.flowed) else {
            return Ok(false);
        };
        let to = *to;
        match self.flow_one(to, out) {
            Ok(()) => Ok(true),
            Err(fault) => Err(fault),
        }
    }

    /// The line `flow`: takes the datagrams that no flow has taken, in order, at most so many.
    pub(crate) fn flow(&mut self, most: u32, out: &mut Vec<u8>) -> Result<(), WorldFault>
        ensures numbers { numbers self.new ≡ numbers self.old }
        ensures flows { (s : Setting) (before : List NodeEvent) (base : List ℕ) (c : Execution)
            → At s before base self.old out.old.items c
            → Goes s before base self.new out.new.items (flows s most c) result }
    {
        for _turn in 0..most {
            match self.flow_next(out) {
                Ok(true) => {}
                Ok(false) => return Ok(()),
                Err(fault) => return Err(fault),
            }
        }
        Ok(())
    }

    /// A copy of what is given under the name, if anything is.
    fn given_copy(&self, name: &[u8]) -> Result<Option<Vec<u8>>, NoMemory>
        ensures { IfOk result
            (λ given. option_map (λ bytes. bytes.items) given
            ≡ given_under self.now.named name.now) }
    {
        match self.named.get(name) {
            Some(given) => Ok(Some(given.bytes.as_slice().to_vec(self.alloc)?)),
            None => Ok(None),
        }
    }

    /// The line `give`.
    pub(crate) fn give(
        &mut self,
        at: usize,
        name: &[u8],
        out: &mut Vec<u8>,
    ) -> Result<(), WorldFault>
        requires { at < length self.old.hosts }
        ensures numbers { numbers self.new ≡ numbers self.old }
        ensures gives { (s : Setting) (before : List NodeEvent) (base : List ℕ) (c : Execution)
            (m : ℕ) → At s before base self.old out.old.items c → IsPlace self.old at m
            → Goes s before base self.new out.new.items (gives s m (named_so c.world name.now) c)
            result }
    {
        match self.given_copy(name)? {
            Some(bytes) => self.hand(at, &bytes, out),
            None => Ok(()),
        }
    }

    /// Hands the bytes to the node at this host, if it runs.
    fn hand_if_running(
        &mut self,
        at: usize,
        bytes: &[u8],
        out: &mut Vec<u8>,
    ) -> Result<(), WorldFault>
        requires { at < length self.old.hosts }
        ensures numbers { numbers self.new ≡ numbers self.old }
        ensures hands { (s : Setting) (before : List NodeEvent) (base : List ℕ) (c : Execution)
            (m : ℕ) → At s before base self.old out.old.items c → IsPlace self.old at m
            → Goes s before base self.new out.new.items (hands_if s m (runs c.world m) bytes.now c)
            result }
    {
        if self.hosts[at].is_running() {
            return self.hand(at, bytes, out);
        }
        Ok(())
    }

    /// Hands the bytes to each node that runs, in order of number.
    fn hand_all(&mut self, bytes: &[u8], out: &mut Vec<u8>) -> Result<(), WorldFault>
        ensures numbers { numbers self.new ≡ numbers self.old }
        ensures hands { (s : Setting) (before : List NodeEvent) (base : List ℕ) (c : Execution)
            → At s before base self.old out.old.items c
            → Goes s before base self.new out.new.items
            (hands_each s (numbers self.old) bytes.now c) result }
    {
        for at in 0..self.hosts.len() {
            let went = self.hand_if_running(at, bytes, out);
            if went.is_err() {
                return went;
            }
        }
        Ok(())
    }

    /// The line `give-all`: each node that runs is given it, in order of number.
    pub(crate) fn give_all(&mut self, name: &[u8], out: &mut Vec<u8>) -> Result<(), WorldFault>
        ensures numbers { numbers self.new ≡ numbers self.old }
        ensures gives { (s : Setting) (before : List NodeEvent) (base : List ℕ) (c : Execution)
            → At s before base self.old out.old.items c
            → Goes s before base self.new out.new.items
            (gives_each s (running_in s c.world) (named_so c.world name.now) c) result }
    {
        match self.given_copy(name)? {
            Some(bytes) => self.hand_all(&bytes, out),
            None => Ok(()),
        }
    }
}
