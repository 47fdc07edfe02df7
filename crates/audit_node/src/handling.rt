//! Delivered records: each is refused for its first fault, or accepted, and what asks a note of the node gets it at once.

ghost use Rattle.std.specs.Prelude.{◌≡◌, List, true, None, Some};
ghost use Rattle.std.specs.FinMap.{get};
ghost use Rattle.journal.specs.declared.event.Event as journal;
ghost use Rattle.records.specs.declared.Body.TheVariants as bodies;
ghost use Rattle.records.specs.Spelling.{HasPort};
ghost use Rattle.records.specs.declared.Record.{Record as Recorded};
ghost use Rattle.validate.specs.Table.{IsUnrefusedBy};
ghost use Rattle.node_rules.specs.Nodes.{Setting};
ghost use Rattle.node_rules.specs.Refusals.{refusal};
ghost use Rattle.node_rules.specs.Calls.{Call, takes};
ghost use Rattle.node_rules.specs.Deliveries.{asked_with, gives_note, handles};
ghost use Rattle.rebuttal.specs.Rebuttals.{IsAgainst};
ghost use Rattle.audit_node.specs.Noted.{IsOthers, own_note};
ghost use Rattle.audit_node.specs.Playing.{Plays, Grows};

use crate::Mirror;
use audit_set::Known;
use ff_ids::AccBody;
use journal::What;
use rebuttal::{answer_mask, must_answer};
use records::{Body, Checked, Record};
use std::alloc::Global;
use validate::check;

impl Mirror {
    /// Answers an accepted accusation, if it is against the node, as far as the node's epoch may rise.
    fn answer(&mut self, alloc: Global, acc: &AccBody)
        requires { acc.now.accused ≡ self.old.me
            → IsAgainst (own_note self.old.me self.old.stored) acc.now }
        ensures plays { (s : Setting) (es : List journal.Event) (c : Call) (rec : Recorded)
            → Plays s es self.old c
            → Plays s es self.new
            (gives_note true s (asked_with s c.node None (bodies.Accusation acc.now) rec) c) }
        ensures grows { Grows self.old self.new }
    {
        let Some(own) = self.membership.note_of(self.me) else {
            unreachable!()
        };
        if !must_answer(&own, acc) {
            return;
        }
        if !self.may_rise() {
            return;
        }
        let tolerance = self.group.t;
        self.want_note(alloc, answer_mask(tolerance, own.mask, acc.ring));
    }

    /// Accepts a record that has no fault.
    fn accept(&mut self, alloc: Global, rec: Checked, body: &Body)
        requires body { rec.rec.body ≡ body.now }
        requires group { self.old.membership.group ≡ self.old.group }
        requires unrefused { IsUnrefusedBy self.old.membership self.old.roster body.now }
        requires other { IsOthers self.old.me body.now }
        requires own { get self.old.membership.notes self.old.me
            ≡ Some (own_note self.old.me self.old.stored) }
        ensures plays { (s : Setting) (es : List journal.Event) (c : Call)
            → Plays s es self.old c → refusal s c.node rec.rec ≡ None
            → Plays s es self.new
            (gives_note true s (asked_with s c.node None body.now rec.rec) (takes s rec.rec c)) }
        ensures grows { Grows self.old self.new }
    {
        let _checked = rec.rec();
        match body {
            Body::Certificate(cert) => self.take_certificate(rec, *cert),
            Body::Note(note) => self.take_note(rec, *note),
            Body::Accusation(acc) => {
                self.take_accusation(Known::Came(rec), *acc);
                self.answer(alloc, acc);
            }
        }
    }

    /// One delivered record.
    pub(crate) fn handle(&mut self, alloc: Global, rec: Record)
        requires { HasPort rec.body }
        ensures plays { (s : Setting) (es : List journal.Event) (c : Call)
            → Plays s es self.old c → Plays s es self.new (handles true s c rec) }
        ensures grows { Grows self.old self.new }
    {
        let body = rec.body;
        let asks_return = self.asks_return(&rec);
        let mask = self.stored.mask;
        match check(
            &self.group,
            &self.authority,
            &self.roster,
            &self.membership,
            self.me,
            rec,
        ) {
            Ok(checked) => {
                self.tell(What::Took { body, fault: None });
                self.accept(alloc, checked, &body);
            }
            Err(fault) => {
                self.tell(What::Took {
                    body,
                    fault: Some(fault),
                });
                if asks_return {
                    self.want_note(alloc, mask);
                }
            }
        }
    }
}
