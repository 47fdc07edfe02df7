//! Own signatures: each is reported, accepted and sent, or it isn't made.

ghost use Rattle.std.specs.Prelude.{◌≡◌, ℕ, ◌≤◌, ◌<◌, List, true, None, Some, IfOk, IfErr, is_err, is_some, OnOk};
ghost use Rattle.std.specs.FinMap.{get};
ghost use Rattle.ff_ids.specs.Masks.{ring_count, note_mask};
ghost use Rattle.ports.specs.Count.{counted};
ghost use Rattle.journal.specs.declared.event.Event as journal;
ghost use Rattle.records.specs.declared.Body.TheVariants as bodies;
ghost use Rattle.datagram.specs.declared.Datagram.{Datagram as Sending};
ghost use Rattle.datagram.specs.Spelling.{datagram_bytes};
ghost use Rattle.node_rules.specs.Nodes.{Setting, state_of};
ghost use Rattle.node_rules.specs.Calls.{Call, own_record, sends_to_all, signs_and_sends, wants};
ghost use Rattle.node_core.specs.declared.NodeFault.TheVariants as faults;
ghost use Rattle.node_core.specs.Playing.{Plays, Stops, Grows, IsInCall};
ghost use Rattle.node_core.specs.Spending.{SignsNothing, Spends, TellsSpent};
ghost use Rattle.node_core.specs.Neighbours.{addressees};
ghost use Rattle.node_core.specs.OnDisks.{FailsIn, Stores};
ghost use Rattle.node_core.specs.Signatures.{with_stored, next_own, Runs};

use crate::parts::keep_own;
use crate::sending::datagram_of;
use crate::{Node, NodeFault};
use ff_ids::{AccBody, Mask, MemberId, RecordKey};
use fields::NoMemory;
use journal::What;
use ports::Disk;
use records::{Body, Checked};
use signer::SignFault;
use std::alloc::Global;

impl Node {
    /// The datagram of an own record goes to the neighbours and one more, if memory sufficed for it.
    fn send_own(&mut self, alloc: Global, bytes: Result<Vec<u8>, NoMemory>, also: Option<MemberId>)
        ensures plays { (s : Setting) (es : List journal.Event) (os : List (ℕ × List ℕ)) (c : Call)
            (d : Sending) → Plays s es os self.old c
            → IfOk bytes (λ b. b.items ≡ datagram_bytes d)
            → Plays s es os self.new (sends_to_all s (addressees s also (state_of s c.node)) d c) }
        ensures grows { Grows self.old self.new }
        ensures signs_nothing { SignsNothing self.old self.new }
    {
        match bytes {
            Ok(bytes) => self.send_to_neighbours(alloc, &bytes, also),
            Err(_) => self.telling.fail(),
        }
    }

    /// The own accusation is reported, accepted, and sent to the neighbours and the accused.
    fn pass_on_accusation(&mut self, alloc: Global, index: u32, rec: Checked, acc: &AccBody)
        requires body { rec.rec.body ≡ bodies.Accusation acc.now }
        requires tolerance { rec.t ≡ self.old.group.t }
        requires ring { acc.now.ring.0 < ring_count self.old.group.t }
        requires noted { is_some (get self.old.membership.notes acc.now.accused) ≡ true }
        ensures plays { (s : Setting) (es : List journal.Event) (os : List (ℕ × List ℕ)) (c : Call)
            → Plays s es os self.old (with_stored (bodies.Accusation acc.now) c)
            → index ≡ c.node.stored.next → rec.rec ≡ own_record s c.node (bodies.Accusation acc.now)
            → Plays s es os self.new
            (signs_and_sends s (bodies.Accusation acc.now) (addressees s (Some acc.now.accused))
            c) }
        ensures grows { Grows self.old self.new }
        ensures spent { TellsSpent index (bodies.Accusation acc.now) self.old self.new }
    {
        let bytes = datagram_of(alloc, self.me, rec.rec());
        self.tell_spent(index, Body::Accusation(*acc));
        self.take_accusation(rec, *acc);
        self.send_own(alloc, bytes, Some(acc.accused));
    }

    /// A note of the next epoch with this mask is wanted; behind a refusal of memory none is signed.
    pub(crate) fn want_note<D: Disk>(
        &mut self,
        alloc: Global,
        disk: &mut D,
        mask: Mask,
    ) -> Result<(), NodeFault>
        requires allowed { note_mask self.old.group.t mask.0 ≡ true }
        requires open { IsInCall self.old }
        ensures plays { (s : Setting) (es : List journal.Event) (os : List (ℕ × List ℕ)) (c : Call)
            → Plays s es os self.old c
            → Runs (Plays s es os self.new) (Stops s es os self.new)
            (λ works. wants works s (next_own s c.node mask) (addressees s None) c) result }
        ensures grows { Grows self.old self.new }
        ensures spends { Spends self.old self.new (D.state disk.old).moments
            (D.state disk.new).moments }
        ensures closed { OnOk result (self.new.signer.closed ≡ self.old.signer.closed) }
        ensures faults { (D.state disk.new).faults
            ≡ counted (is_err result) (D.state disk.old).faults }
        ensures cause { IfErr result (λ e. e ≡ faults.StoreFault) }
        ensures stores { OnOk result (Stores self.old.signer self.new.signer
            (D.state disk.old).model (D.state disk.new).model) }
        ensures fails { (s : Setting) (es : List journal.Event) (os : List (ℕ × List ℕ)) (c : Call)
            → Plays s es os self.old c
            → FailsIn (wants true s (next_own s c.node mask) (addressees s None) c) self.old
            self.new (D.state disk.old).model (D.state disk.new).model result }
    {
        if self.telling.has_failed() {
            return Ok(());
        }
        let index = self.signer.state().next;
        match self.signer.sign_note(alloc, disk, self.me, mask) {
            Ok(rec) => match rec.rec().body {
                Body::Note(note) => {
                    let bytes = datagram_of(alloc, self.me, rec.rec());
                    let key = RecordKey::Note(note.member);
                    keep_own(
                        self.heal,
                        &mut self.membership,
                        &mut self.records,
                        &mut self.changes,
                        &mut self.telling,
                        index,
                        rec,
                        &note,
                    );
                    self.add_news(key);
                    self.send_own(alloc, bytes, None);
                }
                Body::Certificate(_) | Body::Accusation(_) => unreachable!(),
            },
            Err(SignFault::Exhausted { .. }) => self.tell(What::Exhausted { next: index }),
            Err(SignFault::OutOfMemory) => self.telling.fail(),
            Err(SignFault::Closed) => unreachable!(),
            Err(SignFault::StoreFault) => {
                self.tell(What::Stopped);
                return Err(NodeFault::StoreFault);
            }
        }
        Ok(())
    }

    /// This accusation is wanted; behind a refusal of memory none is signed.
    pub(crate) fn want_accusation<D: Disk>(
        &mut self,
        alloc: Global,
        disk: &mut D,
        acc: &AccBody,
    ) -> Result<(), NodeFault>
        requires ring { acc.now.ring.0 < ring_count self.old.group.t }
        requires noted { is_some (get self.old.membership.notes acc.now.accused) ≡ true }
        requires open { IsInCall self.old }
        ensures plays { (s : Setting) (es : List journal.Event) (os : List (ℕ × List ℕ)) (c : Call)
            → Plays s es os self.old c
            → Runs (Plays s es os self.new) (Stops s es os self.new)
            (λ works. wants works s (bodies.Accusation acc.now)
            (addressees s (Some acc.now.accused)) c) result }
        ensures grows { Grows self.old self.new }
        ensures spends { Spends self.old self.new (D.state disk.old).moments
            (D.state disk.new).moments }
        ensures closed { OnOk result (self.new.signer.closed ≡ self.old.signer.closed) }
        ensures faults { (D.state disk.new).faults
            ≡ counted (is_err result) (D.state disk.old).faults }
        ensures cause { IfErr result (λ e. e ≡ faults.StoreFault) }
        ensures stores { OnOk result (Stores self.old.signer self.new.signer
            (D.state disk.old).model (D.state disk.new).model) }
        ensures fails { (s : Setting) (es : List journal.Event) (os : List (ℕ × List ℕ)) (c : Call)
            → Plays s es os self.old c
            → FailsIn (wants true s (bodies.Accusation acc.now)
            (addressees s (Some acc.now.accused)) c) self.old self.new (D.state disk.old).model
            (D.state disk.new).model result }
    {
        let refused = self.telling.has_failed();
        if refused {
            return Ok(());
        }
        let index = self.signer.state().next;
        match self.signer.sign_accusation(alloc, disk, *acc) {
            Ok(rec) => self.pass_on_accusation(alloc, index, rec, acc),
            Err(SignFault::Exhausted { .. }) => self.tell(What::Exhausted { next: index }),
            Err(SignFault::OutOfMemory) => self.telling.fail(),
            Err(SignFault::Closed) => unreachable!(),
            Err(SignFault::StoreFault) => {
                self.tell(What::Stopped);
                return Err(NodeFault::StoreFault);
            }
        }
        Ok(())
    }
}
