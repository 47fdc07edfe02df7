//! From the text of a member to the journal of its life.

ghost use Rattle.std.specs.Prelude.{◌≡◌, ◌≢◌, ℕ, true, List, Some, OnOk, IfErr};
ghost use Rattle.play.specs.Plays.{io};
ghost use Rattle.ports.specs.Count.{counted, next_count, Rose};
ghost use Rattle.ports.specs.Link.{LinkState};
ghost use Rattle.node_command.specs.Halts.{IsBehind, is_writable, is_write_fault};
ghost use Rattle.node_command.specs.Journal.{environment, bound_for};
ghost use Rattle.node_command.specs.Members.{IsSoundMember};
ghost use Rattle.node_command.specs.Spendings.{Spends, SpendsBehind};
ghost use Rattle.node_command.specs.Written.{LinesRest};
ghost use Rattle.node_command.specs.Running.{NetInputs, IsCaused, IsStoreCause, Runs, RunsBehind, RunsOnce, Takes};

use crate::halt::NodeHalt;
use crate::kit::{Member, member_of};
use crate::living::{Pace, live};
use crate::opening::begin;
use crate::stay::Stay;
use fields::NoMemory;
use node_core::Events;
use ports::{Clock, Disk, Link, Opened, Sink, Source};
use schedule_texts::KitText;
use std::alloc::Global;
use whole_text::read_whole;

/// Begins a life and serves it.
fn begin_and_live<D: Disk, L: Link, C: Clock, O: Sink>(
    alloc: Global,
    name: &str,
    stay: Stay,
    member: Member,
    out: &mut O,
    disk: &mut D,
    link: &mut L,
    clock: &mut C,
) -> Result<(), NodeHalt>
    requires sound { IsSoundMember member }
    requires sink { (O.state out.old).is_open ≡ true }
    ensures sink { (O.state out.new).is_open ≡ is_writable result }
    ensures write_fault { (O.state out.new).faults
        ≡ counted (is_write_fault result) (O.state out.old).faults }
    ensures no_disk_fault { OnOk result ((D.state disk.new).faults ≡ (D.state disk.old).faults) }
    ensures store_fault { IfErr result (λ h. h ≡ NodeHalt.StoreFault
        → Rose (D.state disk.old).faults (D.state disk.new).faults) }
    ensures bound { IfErr result (λ h. h ≢ NodeHalt.LinkFault) }
    ensures behind { IfErr result IsBehind }
    ensures cause { IsStoreCause member name.now
        (D.state disk.old) (D.state disk.new) result }
    ensures spends { SpendsBehind member (O.state out.old).taken (O.state out.new).taken
        (D.state disk.old) (D.state disk.new)
        (L.state link.old).faults (L.state link.new).faults result }
    ensures runs { (feed : NetInputs)
        → (L.state link.old).contents ≡ Some (bound_for member feed.link)
        → (C.state clock.old).coming ≡ Some feed.readings
        → (C.state clock.old).reading ≡ feed.reading → stay ≡ feed.stay
        → RunsOnce member feed
        (environment (O.state out.old).taken (L.state link.old).contents (D.state disk.old))
        (environment (O.state out.new).taken (L.state link.new).contents (D.state disk.new))
        result }
{
    let pace = Pace {
        millis: member.millis,
        stay,
    };
    let mut events = Events::new(alloc);
    match begin(alloc, name, member, disk, &mut events) {
        Ok(mut node) => {
            let ended = live(alloc, &mut node, pace, &events, out, disk, link, clock);
            drop(node);
            ended
        }
        Err(halt) => Err(halt),
    }
}

/// Binds the own port, and then begins a life and serves it.
fn bind_and_live<D: Disk, L: Link, C: Clock, O: Sink>(
    alloc: Global,
    name: &str,
    stay: Stay,
    member: Member,
    out: &mut O,
    disk: &mut D,
    link: &mut L,
    clock: &mut C,
) -> Result<(), NodeHalt>
    requires sound { IsSoundMember member }
    requires sink { (O.state out.old).is_open ≡ true }
    ensures sink { (O.state out.new).is_open ≡ is_writable result }
    ensures write_fault { (O.state out.new).faults
        ≡ counted (is_write_fault result) (O.state out.old).faults }
    ensures no_disk_fault { OnOk result ((D.state disk.new).faults ≡ (D.state disk.old).faults) }
    ensures store_fault { IfErr result (λ h. h ≡ NodeHalt.StoreFault
        → Rose (D.state disk.old).faults (D.state disk.new).faults) }
    ensures link_fault { IfErr result (λ h. h ≡ NodeHalt.LinkFault
        → (L.state link.new).faults ≡ next_count (L.state link.old).faults) }
    ensures behind { IfErr result IsBehind }
    ensures unwritten { IfErr result (λ h. h ≡ NodeHalt.LinkFault → out.new ≡ out.old) }
    ensures undone { IfErr result (λ h. h ≡ NodeHalt.LinkFault → disk.new ≡ disk.old) }
    ensures cause { IsStoreCause member name.now
        (D.state disk.old) (D.state disk.new) result }
    ensures spends { SpendsBehind member (O.state out.old).taken (O.state out.new).taken
        (D.state disk.old) (D.state disk.new)
        (L.state link.old).faults (L.state link.new).faults result }
    ensures runs { (feed : NetInputs) → (L.state link.old).contents ≡ Some feed.link
        → (C.state clock.old).coming ≡ Some feed.readings
        → (C.state clock.old).reading ≡ feed.reading → stay ≡ feed.stay
        → RunsBehind member feed
        (environment (O.state out.old).taken (L.state link.old).contents (D.state disk.old))
        (environment (O.state out.new).taken (L.state link.new).contents (D.state disk.new))
        result }
{
    match link.bind(member.port()) {
        Opened::Done => begin_and_live(alloc, name, stay, member, out, disk, link, clock),
        Opened::Failed => Err(NodeHalt::LinkFault),
        Opened::OutOfMemory => Err(NodeHalt::OutOfMemory),
    }
}

/// The same, for the text of a member.
fn read_and_run<S: Source, O: Sink, D: Disk, L: Link, C: Clock>(
    alloc: Global,
    name: &str,
    stay: Stay,
    input: &mut S,
    out: &mut O,
    disk: &mut D,
    link: &mut L,
    clock: &mut C,
) -> Result<(), NodeHalt>
    requires source { (S.state input.old).is_open ≡ true }
    requires sink { (O.state out.old).is_open ≡ true }
    ensures sink { (O.state out.new).is_open ≡ is_writable result }
    ensures no_disk_fault { OnOk result ((D.state disk.new).faults ≡ (D.state disk.old).faults) }
    ensures store_fault { IfErr result (λ h. h ≡ NodeHalt.StoreFault
        → Rose (D.state disk.old).faults (D.state disk.new).faults) }
    ensures link_fault { IfErr result (λ h. h ≡ NodeHalt.LinkFault
        → (L.state link.new).faults ≡ next_count (L.state link.old).faults) }
    ensures takes { Takes
        (io (S.state input.old) (O.state out.old))
        (io (S.state input.new) (O.state out.new))
        (D.state disk.old) (D.state disk.new) result }
    ensures cause { IsCaused name.now
        (io (S.state input.old) (O.state out.old))
        (D.state disk.old) (D.state disk.new) result }
    ensures spends { Spends
        (io (S.state input.old) (O.state out.old))
        (io (S.state input.new) (O.state out.new))
        (D.state disk.old) (D.state disk.new)
        (L.state link.old).faults (L.state link.new).faults result }
    ensures runs { (feed : NetInputs) → (L.state link.old).contents ≡ Some feed.link
        → (C.state clock.old).coming ≡ Some feed.readings
        → (C.state clock.old).reading ≡ feed.reading → stay ≡ feed.stay
        → Runs feed
        (io (S.state input.old) (O.state out.old))
        (io (S.state input.new) (O.state out.new))
        (environment (O.state out.old).taken (L.state link.old).contents (D.state disk.old))
        (environment (O.state out.new).taken (L.state link.new).contents (D.state disk.new))
        result }
{
    let lines = match read_whole(alloc, KitText::Start, input, out) {
        Ok(lines) => lines,
        Err(stop) => return Err(NodeHalt::from(stop)),
    };
    match member_of(alloc, lines) {
        Ok(member) => bind_and_live(alloc, name, stay, member, out, disk, link, clock),
        Err(NoMemory) => Err(NodeHalt::OutOfMemory),
    }
}

/// Reads the text of a member, binds its port, opens its store in the file of that name, begins a life, serves it for so many
/// turns, leaves where it is to, and writes the line `end`: in this order, each only where what comes before it was done. What
/// is written is the journal of the life.
pub fn run_node<S: Source, O: Sink, D: Disk, L: Link, C: Clock>(
    alloc: Global,
    name: &str,
    stay: Stay,
    input: &mut S,
    out: &mut O,
    disk: &mut D,
    link: &mut L,
    clock: &mut C,
) -> Result<(), NodeHalt>
    requires source { (S.state input.old).is_open ≡ true }
    requires sink { (O.state out.old).is_open ≡ true }
    ensures sink { (O.state out.new).is_open ≡ is_writable result }
    ensures no_disk_fault { OnOk result ((D.state disk.new).faults ≡ (D.state disk.old).faults) }
    ensures store_fault { IfErr result (λ h. h ≡ NodeHalt.StoreFault
        → Rose (D.state disk.old).faults (D.state disk.new).faults) }
    ensures link_fault { IfErr result (λ h. h ≡ NodeHalt.LinkFault
        → (L.state link.new).faults ≡ next_count (L.state link.old).faults) }
    ensures takes { Takes
        (io (S.state input.old) (O.state out.old))
        (io (S.state input.new) (O.state out.new))
        (D.state disk.old) (D.state disk.new) result }
    ensures cause { IsCaused name.now
        (io (S.state input.old) (O.state out.old))
        (D.state disk.old) (D.state disk.new) result }
    ensures runs { (feed : NetInputs) → (L.state link.old).contents ≡ Some feed.link
        → (C.state clock.old).coming ≡ Some feed.readings
        → (C.state clock.old).reading ≡ feed.reading → stay ≡ feed.stay
        → Runs feed
        (io (S.state input.old) (O.state out.old))
        (io (S.state input.new) (O.state out.new))
        (environment (O.state out.old).taken (L.state link.old).contents (D.state disk.old))
        (environment (O.state out.new).taken (L.state link.new).contents (D.state disk.new))
        result }
    // Each whole line that was written and gives a removal is reported by a tick of the life, and rests on an accusation that was
    // accepted in it, verified, and stood for the timeout; or by a delivery, which accepts a note by which the member leaves, and
    // verifies it; or by the call to leave, whose note the node signs. One that gives an accepted record or an expiry is so of the
    // life, and no accusation or expiry, nor an own accusation, is outdated by a note that the life accepted before.
    ensures rests { (feed : NetInputs) → (L.state link.old).contents ≡ Some feed.link
        → (C.state clock.old).coming ≡ Some feed.readings
        → (C.state clock.old).reading ≡ feed.reading → stay ≡ feed.stay
        → LinesRest feed
        (io (S.state input.old) (O.state out.old))
        (io (S.state input.new) (O.state out.new))
        (D.state disk.old) result }
    // What was spent of the key is what the lines of the journal give, in order. It rises from the store that was found, each index
    // once, and each epoch. The link's count of faults rises with the turns that say `failed` and the lines `lost`, one for one;
    // and where the port can't be bound.
    ensures spends { Spends
        (io (S.state input.old) (O.state out.old))
        (io (S.state input.new) (O.state out.new))
        (D.state disk.old) (D.state disk.new)
        (L.state link.old).faults (L.state link.new).faults result }
{
    read_and_run(alloc, name, stay, input, out, disk, link, clock)
}
