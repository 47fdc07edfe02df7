//! Delivered records: each is refused for its first fault, or accepted, and what asks a note of this node gets it at once.

ghost use Rattle.std.specs.Prelude.{◌≡◌, ℕ, ◌≤◌, ◌<◌, List, true, None, Some, IfErr, is_err, length, All, OnOk};
ghost use Rattle.std.specs.FinMap.{get};
ghost use Rattle.ports.specs.Count.{counted};
ghost use Rattle.journal.specs.declared.event.Event as journal;
ghost use Rattle.records.specs.declared.Body.TheVariants as bodies;
ghost use Rattle.records.specs.Spelling.{HasPort};
ghost use Rattle.records.specs.declared.Record.{Record as Recorded};
ghost use Rattle.validate.specs.Table.{IsUnrefusedBy};
ghost use Rattle.node_rules.specs.Nodes.{Setting};
ghost use Rattle.node_rules.specs.Refusals.{refusal};
ghost use Rattle.node_rules.specs.Calls.{Call, takes};
ghost use Rattle.node_rules.specs.Deliveries.{asked_with, gives_note, handles};
ghost use Rattle.rebuttal.specs.Rebuttals.{IsAgainst};
ghost use Rattle.node_core.specs.declared.NodeFault.TheVariants as faults;
ghost use Rattle.node_core.specs.Noted.{IsOthers, own_note};
ghost use Rattle.node_core.specs.Playing.{Plays, Stops, Grows, IsInCall};
ghost use Rattle.node_core.specs.Spending.{Spends};
ghost use Rattle.node_core.specs.OnDisks.{FailsIn, Stores};
ghost use Rattle.node_core.specs.Signatures.{Runs};

use crate::{Node, NodeFault};
use ff_ids::AccBody;
use journal::What;
use ports::Disk;
use rebuttal::{answer_mask, must_answer};
use records::{Body, Checked, Record};
use std::alloc::Global;
use validate::check;

impl Node {
    /// Answers an accepted accusation, if it is against this node, as far as the node's epoch may rise.
    fn answer<D: Disk>(
        &mut self,
        alloc: Global,
        disk: &mut D,
        acc: &AccBody,
    ) -> Result<(), NodeFault>
        requires asked { acc.now.accused ≡ self.old.me
            → IsAgainst (own_note self.old.me self.old.signer.state) acc.now }
        requires open { IsInCall self.old }
        ensures plays { (s : Setting) (es : List journal.Event) (os : List (ℕ × List ℕ)) (c : Call)
            (rec : Recorded) → Plays s es os self.old c
            → Runs (Plays s es os self.new) (Stops s es os self.new)
            (λ works. gives_note works s (asked_with s c.node None (bodies.Accusation acc.now) rec)
            c) result }
        ensures grows { Grows self.old self.new }
        ensures spends { Spends self.old self.new (D.state disk.old).moments
            (D.state disk.new).moments }
        ensures closed { OnOk result (self.new.signer.closed ≡ self.old.signer.closed) }
        ensures faults { (D.state disk.new).faults
            ≡ counted (is_err result) (D.state disk.old).faults }
        ensures cause { IfErr result (λ e. e ≡ faults.StoreFault) }
        ensures stores { OnOk result (Stores self.old.signer self.new.signer
            (D.state disk.old).model (D.state disk.new).model) }
        ensures fails { (s : Setting) (es : List journal.Event) (os : List (ℕ × List ℕ)) (c : Call)
            (rec : Recorded) → Plays s es os self.old c
            → FailsIn (gives_note true s
            (asked_with s c.node None (bodies.Accusation acc.now) rec) c) self.old self.new
            (D.state disk.old).model (D.state disk.new).model result }
    {
        let Some(own) = self.membership.note_of(self.me) else {
            unreachable!()
        };
        if !must_answer(&own, acc) {
            return Ok(());
        }
        if !self.may_rise() {
            return Ok(());
        }
        let tolerance = self.group.t;
        self.want_note(alloc, disk, answer_mask(tolerance, own.mask, acc.ring))
    }

    /// Accepts a record that has no fault.
    fn accept<D: Disk>(
        &mut self,
        alloc: Global,
        disk: &mut D,
        rec: Checked,
        body: &Body,
    ) -> Result<(), NodeFault>
        requires body { rec.rec.body ≡ body.now }
        requires tolerance { rec.t ≡ self.old.group.t }
        requires group { self.old.membership.group ≡ self.old.group }
        requires unrefused { IsUnrefusedBy self.old.membership self.old.roster body.now }
        requires other { IsOthers self.old.me body.now }
        requires own { get self.old.membership.notes self.old.me
            ≡ Some (own_note self.old.me self.old.signer.state) }
        requires open { IsInCall self.old }
        ensures plays { (s : Setting) (es : List journal.Event) (os : List (ℕ × List ℕ)) (c : Call)
            → Plays s es os self.old c
            → refusal s c.node rec.rec ≡ None
            → Runs (Plays s es os self.new) (Stops s es os self.new)
            (λ works. gives_note works s (asked_with s c.node None body.now rec.rec)
            (takes s rec.rec c)) result }
        ensures grows { Grows self.old self.new }
        ensures spends { Spends self.old self.new (D.state disk.old).moments
            (D.state disk.new).moments }
        ensures closed { OnOk result (self.new.signer.closed ≡ self.old.signer.closed) }
        ensures faults { (D.state disk.new).faults
            ≡ counted (is_err result) (D.state disk.old).faults }
        ensures cause { IfErr result (λ e. e ≡ faults.StoreFault) }
        ensures stores { OnOk result (Stores self.old.signer self.new.signer
            (D.state disk.old).model (D.state disk.new).model) }
        ensures fails { (s : Setting) (es : List journal.Event) (os : List (ℕ × List ℕ)) (c : Call)
            → Plays s es os self.old c
            → refusal s c.node rec.rec ≡ None
            → FailsIn (gives_note true s (asked_with s c.node None body.now rec.rec)
            (takes s rec.rec c)) self.old self.new
            (D.state disk.old).model (D.state disk.new).model result }
    {
        match body {
            Body::Certificate(cert) => self.take_certificate(rec, *cert),
            Body::Note(note) => self.take_note(rec, *note),
            Body::Accusation(acc) => {
                self.take_accusation(rec, *acc);
                return self.answer(alloc, disk, acc);
            }
        }
        Ok(())
    }

    /// One delivered record. Where memory was refused none is accepted, and none asks a note.
    pub(crate) fn handle<D: Disk>(
        &mut self,
        alloc: Global,
        disk: &mut D,
        rec: Record,
    ) -> Result<(), NodeFault>
        requires port { HasPort rec.body }
        requires open { IsInCall self.old }
        ensures plays { (s : Setting) (es : List journal.Event) (os : List (ℕ × List ℕ)) (c : Call)
            → Plays s es os self.old c
            → Runs (Plays s es os self.new) (Stops s es os self.new)
            (λ works. handles works s c rec) result }
        ensures grows { Grows self.old self.new }
        ensures spends { Spends self.old self.new (D.state disk.old).moments
            (D.state disk.new).moments }
        ensures closed { OnOk result (self.new.signer.closed ≡ self.old.signer.closed) }
        ensures faults { (D.state disk.new).faults
            ≡ counted (is_err result) (D.state disk.old).faults }
        ensures cause { IfErr result (λ e. e ≡ faults.StoreFault) }
        ensures stores { OnOk result (Stores self.old.signer self.new.signer
            (D.state disk.old).model (D.state disk.new).model) }
        ensures fails { (s : Setting) (es : List journal.Event) (os : List (ℕ × List ℕ)) (c : Call)
            → Plays s es os self.old c
            → FailsIn (handles true s c rec) self.old self.new (D.state disk.old).model
            (D.state disk.new).model result }
    {
        let body = rec.body;
        let asks_return = self.asks_return(&rec);
        let mask = self.signer.state().mask;
        match check(
            &self.group,
            &self.authority,
            &self.roster,
            &self.membership,
            self.me,
            rec,
        ) {
            Ok(checked) => {
                self.tell(What::Took { body, fault: None });
                if self.telling.has_failed() {
                    return Ok(());
                }
                self.accept(alloc, disk, checked, &body)
            }
            Err(fault) => {
                self.tell(What::Took {
                    body,
                    fault: Some(fault),
                });
                if asks_return {
                    return self.want_note(alloc, disk, mask);
                }
                Ok(())
            }
        }
    }
}
