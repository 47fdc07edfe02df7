//! One delivery: the bytes of a datagram, whatever they are.

ghost use Rattle.std.specs.Prelude.{◌≡◌, ℕ, ◌≤◌, ◌<◌, List, true, false, Some, Ok, Err, ◌↔◌, OnOk, IfOk, IfErr, is_err};
ghost use Rattle.ports.specs.Count.{counted as counts_faults, Rose};
ghost use Rattle.ports.specs.MemoryDisk.{DiskState};
ghost use Rattle.journal.specs.declared.event.Event as journal;
ghost use Rattle.datagram.specs.Grammar.{GivesDatagram, read_of};
ghost use Rattle.datagram.specs.Spelling.{IsWritable};
ghost use Rattle.node_rules.specs.Nodes.{Setting};
ghost use Rattle.node_rules.specs.Calls.{Call, tells};
ghost use Rattle.journal.specs.declared.event.What.TheVariants as told;
ghost use Rattle.records.specs.declared.fault.FormFault.TheVariants as forms;
ghost use Rattle.node_core.specs.declared.NodeFault.TheVariants as faults;
ghost use Rattle.node_core.specs.Playing.{Plays, Stops, Grows, IsInCall, IsNode, KeepsCertificates};
ghost use Rattle.node_core.specs.Spending.{SignsNothing, Spends, SpendsIn};
ghost use Rattle.node_core.specs.Hears.{RunsHearing, brings_records};
ghost use Rattle.node_rules.specs.OnDisks.{Delivers, delivered_on, hears_on};
ghost use Rattle.node_core.specs.OnDisks.{ComesTo, FollowsDisk, on_disk, storage};
ghost use Rattle.node_core.specs.Answers.{GivesCall, Stands, IsEnded, MayStop};
ghost use Rattle.node_rules.specs.Nodes.{Node as RulesNode};

use crate::telling::CallOutput;
use crate::{Events, Node, NodeFault, Outbox};
use datagram::{Datagram, read};
use journal::What;
use ports::Disk;
use records::FormFault;
use std::alloc::Global;

impl Node {
    /// What the datagram asks for.
    fn hear<D: Disk>(
        &mut self,
        alloc: Global,
        disk: &mut D,
        datagram: Datagram,
    ) -> Result<(), NodeFault>
        requires writable { IsWritable datagram }
        requires open { IsInCall self.old }
        ensures plays { (s : Setting) (es : List journal.Event) (os : List (ℕ × List ℕ)) (c : Call)
            → Plays s es os self.old c
            → RunsHearing (Plays s es os self.new) (Stops s es os self.new) s (Ok datagram) c
            result }
        ensures grows { Grows self.old self.new }
        ensures spends { Spends self.old self.new (D.state disk.old).moments
            (D.state disk.new).moments }
        ensures closed { OnOk result (self.new.signer.closed ≡ self.old.signer.closed) }
        ensures faults { (D.state disk.new).faults
            ≡ counts_faults (is_err result) (D.state disk.old).faults }
        ensures cause { IfErr result (λ e. e ≡ faults.StoreFault) }
        ensures follows { (s : Setting) (es : List journal.Event) (os : List (ℕ × List ℕ))
            (c : Call) (d : DiskState) → Plays s es os self.old c → c.ended ≡ false
            → (D.state disk.old).model ≡ Some d → self.new.telling.failed ≡ false
            → ComesTo s es os self.new (D.state disk.new).model (is_err result)
            (hears_on storage s (Ok datagram) (on_disk c d self.old.signer.seat)) }
        ensures unsigned { brings_records (Ok datagram) ≡ false
            → (self.new.signer ≡ self.old.signer) × (D.state disk.new ≡ D.state disk.old) }
    {
        match datagram {
            Datagram::Ping { from, nonce } => self.hear_ping(alloc, from, nonce),
            Datagram::Pong { from, nonce } => self.hear_pong(from, nonce),
            Datagram::Summary {
                from,
                flag,
                summary,
            } => self.hear_summary(alloc, from, flag, &summary),
            Datagram::Records { records, .. } => {
                return self.handle_all(alloc, disk, records.into_vec());
            }
        }
        Ok(())
    }

    /// The bytes are no datagram, from this place on, or memory was refused.
    fn hear_fault(&mut self, fault: FormFault)
        ensures plays { (s : Setting) (es : List journal.Event) (os : List (ℕ × List ℕ)) (c : Call)
            (place : ℕ) → Plays s es os self.old c
            → fault ≡ forms.BadForm place
            → Plays s es os self.new (tells s (told.BadForm place) c) }
        ensures memory { fault ≡ forms.OutOfMemory
            → self.new.telling ≡ record self.old.telling { failed = true } }
        ensures grows { Grows self.old self.new }
        ensures signs_nothing { SignsNothing self.old self.new }
    {
        match fault {
            FormFault::BadForm { place } => self.tell(What::BadForm { place }),
            FormFault::OutOfMemory => self.telling.fail(),
        }
    }

    /// What was read of the bytes of a datagram.
    fn hear_read<D: Disk>(
        &mut self,
        alloc: Global,
        disk: &mut D,
        heard: Result<Datagram, FormFault>,
    ) -> Result<(), NodeFault>
        requires writable { IfOk heard (λ d. IsWritable d) }
        requires open { IsInCall self.old }
        ensures plays { (bytes : List ℕ) → GivesDatagram (read_of bytes) heard
            → (s : Setting) (es : List journal.Event) (os : List (ℕ × List ℕ)) (c : Call)
            → Plays s es os self.old c
            → RunsHearing (Plays s es os self.new) (Stops s es os self.new) s (read_of bytes) c
            result }
        ensures grows { Grows self.old self.new }
        ensures spends { Spends self.old self.new (D.state disk.old).moments
            (D.state disk.new).moments }
        ensures closed { OnOk result (self.new.signer.closed ≡ self.old.signer.closed) }
        ensures faults { (D.state disk.new).faults
            ≡ counts_faults (is_err result) (D.state disk.old).faults }
        ensures cause { IfErr result (λ e. e ≡ faults.StoreFault) }
        ensures follows { (bytes : List ℕ) → GivesDatagram (read_of bytes) heard
            → (s : Setting) (es : List journal.Event) (os : List (ℕ × List ℕ))
            (c : Call) (d : DiskState) → Plays s es os self.old c → c.ended ≡ false
            → (D.state disk.old).model ≡ Some d → self.new.telling.failed ≡ false
            → ComesTo s es os self.new (D.state disk.new).model (is_err result)
            (hears_on storage s (read_of bytes) (on_disk c d self.old.signer.seat)) }
        ensures unsigned { (bytes : List ℕ) → GivesDatagram (read_of bytes) heard
            → brings_records (read_of bytes) ≡ false
            → (self.new.signer ≡ self.old.signer) × (D.state disk.new ≡ D.state disk.old) }
    {
        match heard {
            Ok(datagram) => self.hear(alloc, disk, datagram),
            Err(fault) => {
                self.hear_fault(fault);
                Ok(())
            }
        }
    }

    /// Gives back what the call reported and sent, and says how it ended.
    pub(crate) fn finish(
        &mut self,
        done: Result<(), NodeFault>,
        out: &mut Outbox,
        events: &mut Events,
    ) -> Result<(), NodeFault>
        requires open { OnOk done (self.old.signer.closed ≡ false) }
        ensures events { events.new ≡ self.old.telling.events }
        ensures sent { out.new ≡ self.old.telling.sent }
        ensures failed { self.old.telling.failed ≡ true → result ≡ Err faults.OutOfMemory }
        ensures going { self.old.telling.failed ≡ false → result ≡ done }
        ensures ended { self.new.ended ≡ is_err result }
        ensures frame { self.new
            ≡ record self.old { telling = self.new.telling; ended = self.new.ended } }
    {
        let failed = self.telling.give_back(events, out);
        let answer = if failed {
            Err(NodeFault::OutOfMemory)
        } else {
            done
        };
        self.ended = answer.is_err();
        answer
    }

    /// As `deliver`, of bytes that were read already: `heard` is what `datagram::read` gives of them.
    pub fn deliver_read<D: Disk>(
        &mut self,
        alloc: Global,
        disk: &mut D,
        heard: Result<Datagram, FormFault>,
        out: &mut Outbox,
        events: &mut Events,
    ) -> Result<(), NodeFault>
        requires writable { IfOk heard (λ d. IsWritable d) }
        ensures step { (bytes : List ℕ) → GivesDatagram (read_of bytes) heard
            → (s : Setting) (n : RulesNode) → IsNode s self.old n → self.old.ended ≡ false
            → GivesCall s n (Delivers bytes) self.new
            (record { events = events.old; sent = out.old })
            (record { events = events.new; sent = out.new }) result }
        ensures over { (self.old.ended ≡ true) ↔ IsEnded result }
        ensures stops { self.old.ended ≡ false → IfErr result MayStop }
        ensures ended { self.new.ended ≡ is_err result }
        ensures unchanged_after_end { self.old.ended ≡ true
            → (self.new ≡ self.old) × (disk.new ≡ disk.old) × (events.new ≡ events.old)
            × (out.new ≡ out.old) }
        ensures stands { Stands (record { events = events.old; sent = out.old })
            (record { events = events.new; sent = out.new }) }
        ensures spends { SpendsIn result self.old.signer self.new.signer (D.state disk.old).moments
            (D.state disk.new).moments events.old events.new }
        ensures closed { OnOk result (self.new.signer.closed ≡ self.old.signer.closed) }
        ensures kept { KeepsCertificates self.old.roster self.new.roster }
        ensures faults { IfErr result (λ e. e ≡ faults.StoreFault
            → Rose (D.state disk.old).faults (D.state disk.new).faults) }
        ensures no_disk_fault { OnOk result
            ((D.state disk.new).faults ≡ (D.state disk.old).faults) }
        ensures follows { (bytes : List ℕ) → GivesDatagram (read_of bytes) heard
            → (s : Setting) (n : RulesNode) (d : DiskState) → IsNode s self.old n
            → self.old.ended ≡ false → (D.state disk.old).model ≡ Some d
            → FollowsDisk s self.new (record { events = events.old; sent = out.old })
            (record { events = events.new; sent = out.new }) (D.state disk.new).model
            (delivered_on storage s n bytes (record { disk = d; seat = self.old.signer.seat }))
            result }
        ensures unsigned { (bytes : List ℕ) → GivesDatagram (read_of bytes) heard
            → brings_records (read_of bytes) ≡ false
            → (self.new.signer ≡ self.old.signer) × (D.state disk.new ≡ D.state disk.old) }
    {
        if self.ended {
            return Err(NodeFault::Ended);
        }
        // Until the call is known to have ended well.
        self.ended = true;
        self.telling = CallOutput::over(alloc, events, out);
        let done = self.hear_read(alloc, disk, heard);
        self.finish(done, out, events)
    }

    /// Handles the bytes of one datagram, whatever they are: appends what that reports to `events` and what it sends to
    /// `out`. After `StoreFault` these are those of the call that the disk ended, in the answer to one of its records;
    /// after `OutOfMemory` a front of those of the whole call. `Ended` comes exactly where an earlier call answered a
    /// fault, and nothing is added. After a fault what was given stands, and the node is over. Each index that the call
    /// spends is reported, in order; where memory was refused, all but perhaps the last. The disk is the one on which the
    /// signer's store was opened: it is left as it is, and nothing is signed, where the bytes bring no record.
    pub fn deliver<D: Disk>(
        &mut self,
        alloc: Global,
        disk: &mut D,
        bytes: &[u8],
        out: &mut Outbox,
        events: &mut Events,
    ) -> Result<(), NodeFault>
        ensures step { (s : Setting) (n : RulesNode) → IsNode s self.old n → self.old.ended ≡ false
            → GivesCall s n (Delivers bytes.now) self.new
            (record { events = events.old; sent = out.old })
            (record { events = events.new; sent = out.new }) result }
        ensures over { (self.old.ended ≡ true) ↔ IsEnded result }
        ensures stops { self.old.ended ≡ false → IfErr result MayStop }
        ensures ended { self.new.ended ≡ is_err result }
        ensures unchanged_after_end { self.old.ended ≡ true
            → (self.new ≡ self.old) × (disk.new ≡ disk.old) × (events.new ≡ events.old)
            × (out.new ≡ out.old) }
        ensures stands { Stands (record { events = events.old; sent = out.old })
            (record { events = events.new; sent = out.new }) }
        ensures spends { SpendsIn result self.old.signer self.new.signer (D.state disk.old).moments
            (D.state disk.new).moments events.old events.new }
        ensures closed { OnOk result (self.new.signer.closed ≡ self.old.signer.closed) }
        ensures kept { KeepsCertificates self.old.roster self.new.roster }
        ensures faults { IfErr result (λ e. e ≡ faults.StoreFault
            → Rose (D.state disk.old).faults (D.state disk.new).faults) }
        ensures no_disk_fault { OnOk result
            ((D.state disk.new).faults ≡ (D.state disk.old).faults) }
        ensures follows { (s : Setting) (n : RulesNode) (d : DiskState) → IsNode s self.old n
            → self.old.ended ≡ false → (D.state disk.old).model ≡ Some d
            → FollowsDisk s self.new (record { events = events.old; sent = out.old })
            (record { events = events.new; sent = out.new }) (D.state disk.new).model
            (delivered_on storage s n bytes.now (record { disk = d; seat = self.old.signer.seat }))
            result }
        ensures unsigned { brings_records (read_of bytes.now) ≡ false
            → (self.new.signer ≡ self.old.signer) × (D.state disk.new ≡ D.state disk.old) }
    {
        let heard = read(alloc, bytes);
        self.deliver_read(alloc, disk, heard, out, events)
    }
}
