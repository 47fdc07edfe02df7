//! One call of the node after another, with what each reports written and sent.

ghost use Rattle.std.specs.Prelude.{◌≡◌, false, true, List, [], ◌∷◌, OnOk, IfErr};
ghost use Rattle.ports.specs.Count.{counted, Rose};
ghost use Rattle.ports.specs.Disk.{Moment};
ghost use Rattle.node_core.specs.Answers.{MayStop};
ghost use Rattle.node_core.specs.Spending.{spent_told};
ghost use Rattle.node_rules.specs.Nodes.{Setting};
ghost use Rattle.node_rules.specs.Lives as lives;
ghost use Rattle.turn_rules.specs.Turns.{Calls, ticks_of};
ghost use Rattle.node_loop.specs.Courses.{ServeState, tells_all};
ghost use Rattle.node_loop.specs.Lines.{GoesOn, WritesSpent};
ghost use Rattle.node_loop.specs.Writing.{Answers, Before, Extends, IsAt, Settles, Stands, is_open_after, is_write_fault, standing};
ghost use Rattle.node_loop.specs.Serving.{Serves};

use crate::expecting::expect_newly_certified;
use crate::fault::{ServeFault, fault_of};
use crate::telling::tell_each;
use node_core::{Events, Node, NodeFault, Outbox};
use ports::{Disk, Link, Sink};
use std::alloc::Global;

/// Writes what a call of the node reported, also where its disk failed, and answers the call's fault. `lines` is room.
pub fn settle<L: Link, O: Sink>(
    node: &Node,
    link: &mut L,
    out: &mut O,
    sent: &mut u64,
    lines: &mut Vec<u8>,
    events: &Events,
    done: Result<(), NodeFault>,
) -> Result<(), ServeFault>
    requires open { (O.state out.old).is_open ≡ true }
    requires cause { IfErr done MayStop }
    ensures going { (O.state out.new).is_open ≡ is_open_after result }
    ensures faults { (O.state out.new).faults
        ≡ counted (is_write_fault result) (O.state out.old).faults }
    ensures settles { (before : Before) (moments : List Moment) (r : ServeState)
        → IsAt before (standing node.now (L.state link.old).contents (O.state out.old).taken moments
        sent.old) r
        → Settles before (standing node.now (L.state link.new).contents (O.state out.new).taken
        moments sent.new) (tells_all events.now r) result }
    ensures answers { Answers done result }
    ensures extends { Extends (O.state out.old).taken (O.state out.new).taken
        (L.state link.old).contents (L.state link.new).contents }
    ensures spent { WritesSpent (spent_told events.now) (O.state out.old).taken
        (O.state out.new).taken (L.state link.old).faults (L.state link.new).faults result }
{
    lines.clear();
    tell_each(node, link, out, sent, lines, events.without_loss())?;
    match done {
        Ok(()) => Ok(()),
        Err(fault) => Err(fault_of(fault)),
    }
}

/// Delivers the bytes, with this room for lines. The link is told of each member that they certify.
pub fn deliver<D: Disk, L: Link, O: Sink>(
    alloc: Global,
    node: &mut Node,
    disk: &mut D,
    link: &mut L,
    out: &mut O,
    sent: &mut u64,
    lines: &mut Vec<u8>,
    bytes: &[u8],
) -> Result<(), ServeFault>
    requires going { node.old.ended ≡ false }
    requires open { (O.state out.old).is_open ≡ true }
    ensures open { (O.state out.new).is_open ≡ is_open_after result }
    ensures going { OnOk result (node.new.ended ≡ false) }
    ensures faults { (O.state out.new).faults
        ≡ counted (is_write_fault result) (O.state out.old).faults }
    ensures no_disk_fault { OnOk result ((D.state disk.new).faults ≡ (D.state disk.old).faults) }
    ensures store { IfErr result (λ e. e ≡ ServeFault.StoreFault
        → Rose (D.state disk.old).faults (D.state disk.new).faults) }
    ensures closed { OnOk result (node.new.signer.closed ≡ node.old.signer.closed) }
    ensures spends { GoesOn node.old.signer node.new.signer
        (D.state disk.old).moments (D.state disk.new).moments
        (O.state out.old).taken (O.state out.new).taken
        (L.state link.old).faults (L.state link.new).faults result }
    ensures serves { (s : Setting) (before : Before) (r : ServeState)
        → Stands s before (standing node.old (L.state link.old).contents (O.state out.old).taken
        (D.state disk.old).moments sent.old) r
        → Serves s before (Calls (lives.Delivers bytes.now) ∷ []) r
        (standing node.new (L.state link.new).contents (O.state out.new).taken
        (D.state disk.new).moments sent.new) result }
{
    let mut outbox = Outbox::new(alloc);
    let mut events = Events::new(alloc);
    let done = node.deliver(alloc, disk, bytes, &mut outbox, &mut events);
    let settled = settle(node, link, out, sent, lines, &events, done);
    expect_newly_certified(link, events.as_slice());
    settled
}

/// Makes a tick. A life that counted 2^64 - 1 ticks makes no more.
fn tick<D: Disk, L: Link, O: Sink>(
    alloc: Global,
    node: &mut Node,
    disk: &mut D,
    link: &mut L,
    out: &mut O,
    sent: &mut u64,
    lines: &mut Vec<u8>,
) -> Result<(), ServeFault>
    requires going { node.old.ended ≡ false }
    requires open { (O.state out.old).is_open ≡ true }
    ensures open { (O.state out.new).is_open ≡ is_open_after result }
    ensures going { OnOk result (node.new.ended ≡ false) }
    ensures faults { (O.state out.new).faults
        ≡ counted (is_write_fault result) (O.state out.old).faults }
    ensures no_disk_fault { OnOk result ((D.state disk.new).faults ≡ (D.state disk.old).faults) }
    ensures store { IfErr result (λ e. e ≡ ServeFault.StoreFault
        → Rose (D.state disk.old).faults (D.state disk.new).faults) }
    ensures closed { OnOk result (node.new.signer.closed ≡ node.old.signer.closed) }
    ensures spends { GoesOn node.old.signer node.new.signer
        (D.state disk.old).moments (D.state disk.new).moments
        (O.state out.old).taken (O.state out.new).taken
        (L.state link.old).faults (L.state link.new).faults result }
    ensures serves { (s : Setting) (before : Before) (r : ServeState)
        → Stands s before (standing node.old (L.state link.old).contents (O.state out.old).taken
        (D.state disk.old).moments sent.old) r
        → Serves s before (Calls lives.Ticks ∷ []) r
        (standing node.new (L.state link.new).contents (O.state out.new).taken
        (D.state disk.new).moments sent.new) result }
{
    if node.membership().now() == u64::MAX {
        return Ok(());
    }
    let mut outbox = Outbox::new(alloc);
    let mut events = Events::new(alloc);
    let done = node.tick(alloc, disk, &mut outbox, &mut events);
    settle(node, link, out, sent, lines, &events, done)
}

/// Makes so many ticks.
pub fn tick_times<D: Disk, L: Link, O: Sink>(
    alloc: Global,
    node: &mut Node,
    disk: &mut D,
    link: &mut L,
    out: &mut O,
    sent: &mut u64,
    lines: &mut Vec<u8>,
    ticks: u8,
) -> Result<(), ServeFault>
    requires going { node.old.ended ≡ false }
    requires open { (O.state out.old).is_open ≡ true }
    ensures open { (O.state out.new).is_open ≡ is_open_after result }
    ensures going { OnOk result (node.new.ended ≡ false) }
    ensures faults { (O.state out.new).faults
        ≡ counted (is_write_fault result) (O.state out.old).faults }
    ensures no_disk_fault { OnOk result ((D.state disk.new).faults ≡ (D.state disk.old).faults) }
    ensures store { IfErr result (λ e. e ≡ ServeFault.StoreFault
        → Rose (D.state disk.old).faults (D.state disk.new).faults) }
    ensures closed { OnOk result (node.new.signer.closed ≡ node.old.signer.closed) }
    ensures spends { GoesOn node.old.signer node.new.signer
        (D.state disk.old).moments (D.state disk.new).moments
        (O.state out.old).taken (O.state out.new).taken
        (L.state link.old).faults (L.state link.new).faults result }
    ensures serves { (s : Setting) (before : Before) (r : ServeState)
        → Stands s before (standing node.old (L.state link.old).contents (O.state out.old).taken
        (D.state disk.old).moments sent.old) r
        → Serves s before (ticks_of ticks) r
        (standing node.new (L.state link.new).contents (O.state out.new).taken
        (D.state disk.new).moments sent.new) result }
{
    for _done in 0..ticks {
        tick(alloc, node, disk, link, out, sent, lines)?;
    }
    Ok(())
}

/// Leaves.
pub fn leave<D: Disk, L: Link, O: Sink>(
    alloc: Global,
    node: &mut Node,
    disk: &mut D,
    link: &mut L,
    out: &mut O,
    sent: &mut u64,
    lines: &mut Vec<u8>,
) -> Result<(), ServeFault>
    requires going { node.old.ended ≡ false }
    requires open { (O.state out.old).is_open ≡ true }
    ensures open { (O.state out.new).is_open ≡ is_open_after result }
    ensures going { OnOk result (node.new.ended ≡ false) }
    ensures faults { (O.state out.new).faults
        ≡ counted (is_write_fault result) (O.state out.old).faults }
    ensures no_disk_fault { OnOk result ((D.state disk.new).faults ≡ (D.state disk.old).faults) }
    ensures store { IfErr result (λ e. e ≡ ServeFault.StoreFault
        → Rose (D.state disk.old).faults (D.state disk.new).faults) }
    ensures closed { OnOk result (node.new.signer.closed ≡ node.old.signer.closed) }
    ensures spends { GoesOn node.old.signer node.new.signer
        (D.state disk.old).moments (D.state disk.new).moments
        (O.state out.old).taken (O.state out.new).taken
        (L.state link.old).faults (L.state link.new).faults result }
    ensures serves { (s : Setting) (before : Before) (r : ServeState)
        → Stands s before (standing node.old (L.state link.old).contents (O.state out.old).taken
        (D.state disk.old).moments sent.old) r
        → Serves s before (Calls lives.Leaves ∷ []) r
        (standing node.new (L.state link.new).contents (O.state out.new).taken
        (D.state disk.new).moments sent.new) result }
{
    let mut outbox = Outbox::new(alloc);
    let mut events = Events::new(alloc);
    let done = node.leave(alloc, disk, &mut outbox, &mut events);
    settle(node, link, out, sent, lines, &events, done)
}
