//! Calls of the node that runs.

ghost use Rattle.std.specs.Prelude.{◌≡◌, ℕ, ◌++◌, IfErr, IfOk, OnOk};
ghost use Rattle.sign_keys.specs.declared.kinds.Kinds.{Kinds};
ghost use Rattle.ff_ids.specs.declared.Group.{Group};
ghost use Rattle.datagram.specs.Grammar.{GivesDatagram, read_of};
ghost use Rattle.datagram.specs.Spelling.{IsWritable};
ghost use Rattle.node_core.specs.Answers.{MayStop};
ghost use Rattle.node_rules.specs.Lives as inputs;
ghost use Rattle.world_rules.specs.Settings.{Setting};
ghost use Rattle.world_rules.specs.Worlds.{Host as Place};
ghost use Rattle.signer.specs.Lives.{Spent};
ghost use Rattle.std.specs.Prelude.{List};
ghost use Rattle.world_host.specs.Answers.{CallsNode, Ends, IsRead, bodies_in, body_in};
ghost use Rattle.world_host.specs.Hosts.{IsGoing};
ghost use Rattle.world_host.specs.Holding.{HoldsHost, IsWorld};

use crate::host::Host;
use datagram::Datagram;
use fields::NoMemory;
use journal::{Event, What};
use node_core::{Events, Node, NodeFault, Outbox};
use records::{Body, FormFault};
use std::alloc::Global;

/// Adds the body that the event says was signed, if it says so.
fn add_signed(signed: &mut Vec<Body>, what: &What) -> Result<(), NoMemory>
    ensures { OnOk result (signed.new.items ≡ signed.old.items ++ body_in what.now) }
{
    if let What::Spent { body, .. } = what {
        signed.extend_from_slice(&[*body])?;
    }
    Ok(())
}

impl Host {
    /// How a call of the node went, which is put back; but where the disk stopped in it, the life is over.
    fn end_call(&mut self, node: Node, called: Result<(), NodeFault>) -> Result<(), NoMemory>
        requires going { OnOk called (IsGoing node) }
        requires cause { IfErr called MayStop }
        ensures { Ends self.old node self.new called result }
    {
        match called {
            Ok(()) => {
                self.node = Some(node);
                Ok(())
            }
            Err(NodeFault::StoreFault) => {
                self.stop(0);
                Ok(())
            }
            Err(NodeFault::OutOfMemory) => Err(NoMemory),
            Err(NodeFault::Exhausted { .. } | NodeFault::Ended) => unreachable!(),
        }
    }

    /// Keeps the body that the event says was signed, if it says so.
    fn keep_body(&mut self, what: &What) -> Result<(), NoMemory>
        ensures kept { OnOk result
            (self.new ≡ record self.old { signed = self.old.signed ++ body_in what.now }) }
        ensures frame { self.new ≡ record self.old { signed = self.new.signed } }
    {
        add_signed(&mut self.signed, what)
    }

    /// Keeps the bodies that the events say were signed.
    pub(crate) fn keep_bodies(&mut self, events: &[Event]) -> Result<(), NoMemory>
        ensures kept { OnOk result
            (self.new ≡ record self.old { signed = self.old.signed ++ bodies_in events.now }) }
        ensures frame { self.new ≡ record self.old { signed = self.new.signed } }
    {
        for event in events {
            self.keep_body(&event.what)?;
        }
        Ok(())
    }

    /// Hands what was read of the bytes of a datagram to the node, if one runs: what it sends goes to `out`, and what it
    /// reports is given. Where the disk stops in the call, the life is over. Once memory is refused, nothing is said of
    /// the place.
    pub fn deliver(
        &mut self,
        alloc: Global,
        heard: Result<Datagram, FormFault>,
        out: &mut Outbox,
    ) -> Result<Events, NoMemory>
        requires writable { IfOk heard (λ d. IsWritable d) }
        requires read { IsRead heard }
        ensures member { self.new.member ≡ self.old.member }
        ensures calls { (bytes : List ℕ) → GivesDatagram (read_of bytes) heard
            → (s : Setting) (g : Group) (kinds : Kinds) (place : Place)
            (spent : List Spent) → IsWorld s g kinds
            → HoldsHost s kinds place spent self.old
            → CallsNode s kinds (inputs.Delivers bytes) place spent self.old self.new out.old
            out.new result }
    {
        let mut events = Events::new(alloc);
        let Some(mut node) = self.node.take() else {
            return Ok(events);
        };
        let called = node.deliver_read(alloc, &mut self.disk, heard, out, &mut events);
        self.end_call(node, called)?;
        self.keep_bodies(events.as_slice())?;
        Ok(events)
    }

    /// A tick of the node, if one runs, as a delivery is answered. A life of 2^64 - 1 ticks has no further one: memory
    /// is refused then.
    pub fn tick(&mut self, alloc: Global, out: &mut Outbox) -> Result<Events, NoMemory>
        ensures member { self.new.member ≡ self.old.member }
        ensures calls { (s : Setting) (g : Group) (kinds : Kinds) (place : Place)
            (spent : List Spent) → IsWorld s g kinds
            → HoldsHost s kinds place spent self.old
            → CallsNode s kinds inputs.Ticks place spent self.old self.new out.old out.new
            result }
    {
        let mut events = Events::new(alloc);
        let Some(mut node) = self.node.take() else {
            return Ok(events);
        };
        if node.membership().now() == u64::MAX {
            return Err(NoMemory);
        }
        let called = node.tick(alloc, &mut self.disk, out, &mut events);
        self.end_call(node, called)?;
        self.keep_bodies(events.as_slice())?;
        Ok(events)
    }

    /// The node leaves, if one runs, as a delivery is answered.
    pub fn leave(&mut self, alloc: Global, out: &mut Outbox) -> Result<Events, NoMemory>
        ensures member { self.new.member ≡ self.old.member }
        ensures calls { (s : Setting) (g : Group) (kinds : Kinds) (place : Place)
            (spent : List Spent) → IsWorld s g kinds
            → HoldsHost s kinds place spent self.old
            → CallsNode s kinds inputs.Leaves place spent self.old self.new out.old out.new
            result }
    {
        let mut events = Events::new(alloc);
        let Some(mut node) = self.node.take() else {
            return Ok(events);
        };
        let called = node.leave(alloc, &mut self.disk, out, &mut events);
        self.end_call(node, called)?;
        self.keep_bodies(events.as_slice())?;
        Ok(events)
    }
}
