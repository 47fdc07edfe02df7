//! A life from its first events to its last line.

ghost use Rattle.std.specs.Prelude.{◌≡◌, ◌≢◌, ℕ, ◌≤◌, true, false, List, [], Option, Some, OnOk, IfErr};
ghost use Rattle.std.specs.List.{AllByRecursion};
ghost use Rattle.ports.specs.Count.{counted, Rose};
ghost use Rattle.ports.specs.Link.{LinkState};
ghost use Rattle.node_core.specs.Playing.{IsNode};
ghost use Rattle.node_rules.specs.Nodes.{Setting, Node as RulesNode};
ghost use Rattle.node_loop.specs.Turns.{life_acts, pace_for};
ghost use Rattle.node_loop.specs.Courses.{served_from};
ghost use Rattle.node_command.specs.Halts.{IsBehind, IsServed, is_writable, is_write_fault};
ghost use Rattle.std.specs.Io.KnownBytes.{Appends};
ghost use Rattle.journal.specs.declared.event.Event as journal;
ghost use Rattle.node_command.specs.Journal.{IsUnsent, Lives, environment};
ghost use Rattle.turn_rules.specs.Lines.{lines_of};
ghost use Rattle.node_command.specs.Spendings.{LifeSpends};

use crate::halt::NodeHalt;
use crate::stay::Stay;
use node_core::{Events, Node};
use node_loop::{serve, tell_all};
use ports::{Clock, Disk, Failed, Link, Sink, write_all};
use std::alloc::Global;

/// How a life goes on once it has begun.
#[derive(Clone, Copy)]
pub struct Pace {
    /// The milliseconds of a tick.
    pub millis: u32,
    pub stay: Stay,
}

/// Serves the node, and writes the line `end`.
fn serve_to_end<D: Disk, L: Link, C: Clock, O: Sink>(
    alloc: Global,
    node: &mut Node,
    pace: Pace,
    out: &mut O,
    disk: &mut D,
    link: &mut L,
    clock: &mut C,
) -> Result<(), NodeHalt>
    requires going { node.old.ended ≡ false }
    requires open { (O.state out.old).is_open ≡ true }
    requires some { 1 ≤ pace.millis }
    ensures sink { (O.state out.new).is_open ≡ is_writable result }
    ensures write_fault { (O.state out.new).faults
        ≡ counted (is_write_fault result) (O.state out.old).faults }
    ensures no_disk_fault { OnOk result ((D.state disk.new).faults ≡ (D.state disk.old).faults) }
    ensures store_fault { IfErr result (λ h. h ≡ NodeHalt.StoreFault
        → Rose (D.state disk.old).faults (D.state disk.new).faults) }
    ensures bound { IfErr result (λ h. h ≢ NodeHalt.LinkFault) }
    ensures behind { IfErr result IsBehind }
    ensures served { IfErr result IsServed }
    ensures spends { LifeSpends [] node.old.signer
        (D.state disk.old).moments (D.state disk.new).moments
        (O.state out.old).taken (O.state out.new).taken
        (L.state link.old).faults (L.state link.new).faults result }
    ensures lives { (s : Setting) (n : RulesNode) (link_told : LinkState) (readings : List ℕ)
        (told : List journal.Event) (was : Option LinkState) (taken : Option (List ℕ))
        → IsNode s node.old n → (L.state link.old).contents ≡ Some link_told
        → (C.state clock.old).coming ≡ Some readings
        → Appends taken (O.state out.old).taken (lines_of told)
        → Lives s node.old told (life_acts (pace_for s pace.millis)
        pace.stay.turns pace.stay.leave link_told.coming (C.state clock.old).reading readings)
        (served_from n link_told)
        (environment taken was (D.state disk.old))
        (environment (O.state out.new).taken (L.state link.new).contents (D.state disk.new))
        result }
{
    match serve(
        alloc,
        node,
        link,
        clock,
        disk,
        out,
        pace.millis,
        pace.stay.turns,
        pace.stay.leave,
    ) {
        Ok(()) => match write_all(out, b"end\n") {
            Ok(()) => Ok(()),
            Err(Failed) => Err(NodeHalt::WriteFault),
        },
        Err(fault) => Err(NodeHalt::from(fault)),
    }
}

/// Writes what the start has reported, serves the node, and writes the line `end`.
pub fn live<D: Disk, L: Link, C: Clock, O: Sink>(
    alloc: Global,
    node: &mut Node,
    pace: Pace,
    events: &Events,
    out: &mut O,
    disk: &mut D,
    link: &mut L,
    clock: &mut C,
) -> Result<(), NodeHalt>
    requires going { node.old.ended ≡ false }
    requires open { (O.state out.old).is_open ≡ true }
    requires some { 1 ≤ pace.millis }
    requires unsent { AllByRecursion IsUnsent events.now }
    ensures sink { (O.state out.new).is_open ≡ is_writable result }
    ensures write_fault { (O.state out.new).faults
        ≡ counted (is_write_fault result) (O.state out.old).faults }
    ensures no_disk_fault { OnOk result ((D.state disk.new).faults ≡ (D.state disk.old).faults) }
    ensures store_fault { IfErr result (λ h. h ≡ NodeHalt.StoreFault
        → Rose (D.state disk.old).faults (D.state disk.new).faults) }
    ensures bound { IfErr result (λ h. h ≢ NodeHalt.LinkFault) }
    ensures behind { IfErr result IsBehind }
    ensures served { IfErr result IsServed }
    ensures spends { LifeSpends events.now node.old.signer
        (D.state disk.old).moments (D.state disk.new).moments
        (O.state out.old).taken (O.state out.new).taken
        (L.state link.old).faults (L.state link.new).faults result }
    ensures lives { (s : Setting) (n : RulesNode) (link_told : LinkState) (readings : List ℕ)
        → IsNode s node.old n → (L.state link.old).contents ≡ Some link_told
        → (C.state clock.old).coming ≡ Some readings
        → Lives s node.old events.now (life_acts (pace_for s pace.millis)
        pace.stay.turns pace.stay.leave link_told.coming (C.state clock.old).reading readings)
        (served_from n link_told)
        (environment (O.state out.old).taken (L.state link.old).contents (D.state disk.old))
        (environment (O.state out.new).taken (L.state link.new).contents (D.state disk.new))
        result }
{
    let mut sent = 0;
    match tell_all(alloc, node, link, out, &mut sent, events.without_loss()) {
        Ok(()) => serve_to_end(alloc, node, pace, out, disk, link, clock),
        Err(fault) => Err(NodeHalt::from(fault)),
    }
}
