//! What a call reported is written, and each of its datagrams is sent behind its line. Lines up to and with that of a datagram
//! are written in one piece.

ghost use Rattle.std.specs.Prelude.{◌≡◌, ◌≢◌, ◌++◌, ℕ, true, All, List, Option, Some, None, MatchOption, IfErr, unwrap_or};
ghost use Rattle.std.specs.Option.{option_map};
ghost use Rattle.ports.specs.Count.{counted};
ghost use Rattle.ports.specs.Disk.{Moment};
ghost use Rattle.node_core.specs.Spending.{spent_by, spent_told};
ghost use Rattle.node_core.specs.Told.{IsNoLoss};
ghost use Rattle.signer.specs.Lives.{Spent};
ghost use Rattle.validate.specs.Certified.{certificate_of as kept_certificate};
ghost use Rattle.journal.specs.declared.event.What.TheVariants as kinds;
ghost use Rattle.node_loop.specs.Courses.{ServeState, sends_one, tells, tells_all};
ghost use Rattle.turn_rules.specs.Courses.{datagram_in};
ghost use Rattle.turn_rules.specs.Lines.{line_of};
ghost use Rattle.node_loop.specs.Lines.{WritesSpent};
ghost use Rattle.node_loop.specs.Gathering.{IsAtBut, OwesSpent, SpentBut, TellsBut};
ghost use Rattle.node_loop.specs.Writing.{Before, Extends, HandsOver, IsAt, IsBehindLine, Tells, is_lost, is_open_after, is_write_fault, standing};

use crate::fault::ServeFault;
use crate::writing::{gather, write_gathered, write_with_sent};
use ff_ids::MemberId;
use fields::{Bytes, NoMemory};
use journal::{Event, What};
use node_core::Node;
use ports::{Link, Sent, Sink};
use std::alloc::Global;

/// Whom a datagram went to, and its bytes, where the event reports one.
fn datagram_in(what: &What) -> Option<(MemberId, &Bytes)>
    ensures { MatchOption result (datagram_in what.now ≡ None)
        (λ d. datagram_in what.now ≡ Some (d.0, d.1.now)) }
{
    match what {
        What::Sent { to, bytes, .. } => Some((*to, bytes)),
        _ => None,
    }
}

/// Gives the datagram to the link, for the port in the addressee's certificate, and says whether it is lost. An addressee
/// is certified: without a certificate it would have the port 0, to which nothing can be sent.
fn hand_over<L: Link>(
    node: &Node,
    link: &mut L,
    to: MemberId,
    bytes: &[u8],
) -> Result<bool, NoMemory>
    ensures faults { (L.state link.new).faults
        ≡ counted (is_lost result) (L.state link.old).faults }
    ensures given { HandsOver (unwrap_or
        (option_map (λ c. c.port) (kept_certificate node.now.roster to)) 0) bytes.now
        (L.state link.old).contents (L.state link.new).contents result }
{
    let port = node.port_of(to).unwrap_or(0);
    match link.send(port, bytes) {
        Sent::Done => Ok(false),
        Sent::Failed => Ok(true),
        Sent::OutOfMemory => Err(NoMemory),
    }
}

/// Writes the line of a datagram, which has the number of those sent before it, and with it what was gathered. Then it sends
/// the datagram; where that fails, it gathers that the datagram is lost.
fn send_one<L: Link, O: Sink>(
    node: &Node,
    link: &mut L,
    out: &mut O,
    sent: &mut u64,
    lines: &mut Vec<u8>,
    moment: u64,
    to: MemberId,
    bytes: &[u8],
) -> Result<(), ServeFault>
    requires open { (O.state out.old).is_open ≡ true }
    ensures going { (O.state out.new).is_open ≡ is_open_after result }
    ensures faults { (O.state out.new).faults
        ≡ counted (is_write_fault result) (O.state out.old).faults }
    ensures cause { IfErr result (λ e. e ≢ ServeFault.StoreFault) }
    ensures tells { (before : Before) (moments : List Moment) (r : ServeState)
        → IsAtBut before (standing node.now (L.state link.old).contents (O.state out.old).taken
        moments sent.old) lines.old.items r
        → TellsBut before (standing node.now (L.state link.new).contents (O.state out.new).taken
        moments sent.new) lines.new.items (sends_one moment to bytes.now r) result }
    ensures behind { IsBehindLine (lines.old.items
        ++ line_of (record { moment = moment; what = kinds.Sent sent.old to bytes.now }))
        (O.state out.old).taken (O.state out.new).taken
        (L.state link.old).contents (L.state link.new).contents }
    ensures extends { Extends (O.state out.old).taken (O.state out.new).taken
        (L.state link.old).contents (L.state link.new).contents }
    ensures spent { (spent : List Spent) (before : Option (List ℕ)) (count : ℕ)
        → OwesSpent spent before (O.state out.old).taken lines.old.items count
        (L.state link.old).faults
        → SpentBut spent before (O.state out.new).taken lines.new.items count
        (L.state link.new).faults result }
{
    let number = *sent;
    write_with_sent(out, lines, moment, number, to, bytes)?;
    match hand_over(node, link, to, bytes) {
        Ok(lost) => {
            *sent = number.saturating_add(1);
            if lost {
                let what = What::Lost { number };
                return gather(out, lines, &Event { moment, what });
            }
            Ok(())
        }
        Err(NoMemory) => Err(ServeFault::OutOfMemory),
    }
}

/// Gathers what happened, or sends the datagram where it is that one was sent.
fn tell<L: Link, O: Sink>(
    node: &Node,
    link: &mut L,
    out: &mut O,
    sent: &mut u64,
    lines: &mut Vec<u8>,
    event: &Event,
) -> Result<(), ServeFault>
    requires open { (O.state out.old).is_open ≡ true }
    requires no_loss { IsNoLoss event.now }
    ensures going { (O.state out.new).is_open ≡ is_open_after result }
    ensures faults { (O.state out.new).faults
        ≡ counted (is_write_fault result) (O.state out.old).faults }
    ensures cause { IfErr result (λ e. e ≢ ServeFault.StoreFault) }
    ensures tells { (before : Before) (moments : List Moment) (r : ServeState)
        → IsAtBut before (standing node.now (L.state link.old).contents (O.state out.old).taken
        moments sent.old) lines.old.items r
        → TellsBut before (standing node.now (L.state link.new).contents (O.state out.new).taken
        moments sent.new) lines.new.items (tells r event.now) result }
    ensures extends { Extends (O.state out.old).taken (O.state out.new).taken
        (L.state link.old).contents (L.state link.new).contents }
    ensures spent { (spent : List Spent) (before : Option (List ℕ)) (count : ℕ)
        → OwesSpent spent before (O.state out.old).taken lines.old.items count
        (L.state link.old).faults
        → SpentBut (spent ++ spent_by event.now.what) before (O.state out.new).taken
        lines.new.items count (L.state link.new).faults result }
{
    match datagram_in(&event.what) {
        Some(datagram) => send_one(
            node,
            link,
            out,
            sent,
            lines,
            event.moment,
            datagram.0,
            datagram.1.as_slice(),
        ),
        None => gather(out, lines, event),
    }
}

/// Writes what happened, event after event, and sends each datagram behind its line. The lines up to and with that of a
/// datagram are one write, and so are those behind the last. What was gathered before stands in front of the first of them.
pub fn tell_each<L: Link, O: Sink>(
    node: &Node,
    link: &mut L,
    out: &mut O,
    sent: &mut u64,
    lines: &mut Vec<u8>,
    events: &[Event],
) -> Result<(), ServeFault>
    requires open { (O.state out.old).is_open ≡ true }
    requires no_loss { All IsNoLoss events.now }
    ensures going { (O.state out.new).is_open ≡ is_open_after result }
    ensures faults { (O.state out.new).faults
        ≡ counted (is_write_fault result) (O.state out.old).faults }
    ensures cause { IfErr result (λ e. e ≢ ServeFault.StoreFault) }
    ensures tells { (before : Before) (moments : List Moment) (r : ServeState)
        → IsAtBut before (standing node.now (L.state link.old).contents (O.state out.old).taken
        moments sent.old) lines.old.items r
        → Tells before (standing node.now (L.state link.new).contents (O.state out.new).taken
        moments sent.new) (tells_all events.now r) result }
    ensures extends { Extends (O.state out.old).taken (O.state out.new).taken
        (L.state link.old).contents (L.state link.new).contents }
    ensures spent { (spent : List Spent) (before : Option (List ℕ)) (count : ℕ)
        → OwesSpent spent before (O.state out.old).taken lines.old.items count
        (L.state link.old).faults
        → WritesSpent (spent ++ spent_told events.now) before (O.state out.new).taken count
        (L.state link.new).faults result }
{
    for event in events {
        tell(node, link, out, sent, lines, event)?;
    }
    write_gathered(out, lines)
}

/// Writes what happened, event after event, and sends each datagram behind its line. Where a send fails it writes that the
/// datagram is lost: none of the events says so. The lines up to and with that of a datagram are one write, and so are those
/// behind the last.
pub fn tell_all<L: Link, O: Sink>(
    alloc: Global,
    node: &Node,
    link: &mut L,
    out: &mut O,
    sent: &mut u64,
    events: &[Event],
) -> Result<(), ServeFault>
    requires open { (O.state out.old).is_open ≡ true }
    requires no_loss { All IsNoLoss events.now }
    ensures going { (O.state out.new).is_open ≡ is_open_after result }
    ensures faults { (O.state out.new).faults
        ≡ counted (is_write_fault result) (O.state out.old).faults }
    ensures cause { IfErr result (λ e. e ≢ ServeFault.StoreFault) }
    ensures tells { (before : Before) (moments : List Moment) (r : ServeState)
        → IsAt before (standing node.now (L.state link.old).contents (O.state out.old).taken moments
        sent.old) r
        → Tells before (standing node.now (L.state link.new).contents (O.state out.new).taken
        moments sent.new) (tells_all events.now r) result }
    ensures extends { Extends (O.state out.old).taken (O.state out.new).taken
        (L.state link.old).contents (L.state link.new).contents }
    ensures spent { WritesSpent (spent_told events.now) (O.state out.old).taken
        (O.state out.new).taken (L.state link.old).faults (L.state link.new).faults result }
{
    let mut lines = Vec::new(alloc);
    tell_each(node, link, out, sent, &mut lines, events)
}
