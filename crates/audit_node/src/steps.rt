//! The small steps of a node: one event of its life, one accepted record.

ghost use Rattle.std.specs.Prelude.{◌≡◌, ◌<◌, ◌^◌, ◌-◌, true, List, None, Some, is_some, nat_eq, false};
ghost use Rattle.std.specs.FinMap.{get};
ghost use Rattle.ff_ids.specs.Masks.{ring_count};
ghost use Rattle.ff_ids.specs.Steps.{Ticks};
ghost use Rattle.journal.specs.declared.event.Event as journal;
ghost use Rattle.records.specs.declared.Body.TheVariants as bodies;
ghost use Rattle.validate.specs.Certified.{certificate_of as kept_certificate};
ghost use Rattle.node_rules.specs.Nodes.{Setting, certificate_of};
ghost use Rattle.node_rules.specs.Calls.{Call, tells, lives, takes};
ghost use Rattle.node_rules.specs.Sending.{is_sent};
ghost use Rattle.audit_node.specs.Playing.{IsSendable, Plays, Grows, record_of};
ghost use Rattle.audit_set.specs.Knowns.{body_of};

use crate::Mirror;
use crate::parts::{accept_note, report};
use audit_set::Known;
use ff_ids::{AccBody, NoteBody, RecordKey};
use journal::What;
use records::{CertBody, Checked};
use ring_order::hash_places;

impl Mirror {
    /// Tells this, which isn't that a datagram is sent.
    pub(crate) fn tell(&mut self, what: What)
        requires { is_sent what ≡ false }
        ensures plays { (s : Setting) (es : List journal.Event) (c : Call)
            → Plays s es self.old c
            → Plays s es self.new (tells s what c) }
        ensures grows { Grows self.old self.new }
        ensures frame { self.new ≡ record self.old { telling = self.new.telling } }
    {
        self.telling.tell(self.membership.now(), what);
    }

    /// One event of the life: a tick.
    pub(crate) fn live_tick(&mut self)
        requires { self.old.membership.moment < 2 ^ 64 - 1 }
        ensures plays { (s : Setting) (es : List journal.Event) (c : Call)
            → Plays s es self.old c
            → Plays s es self.new (lives s Ticks c) }
        ensures grows { Grows self.old self.new }
    {
        self.membership.tick(&mut self.changes);
        report(
            self.heal,
            &mut self.records,
            &mut self.telling,
            self.membership.now(),
            &self.changes,
        );
    }

    /// Accepts the note of this record, which is another member's.
    pub(crate) fn take_note(&mut self, rec: Checked, note: NoteBody)
        requires note { rec.rec.body ≡ bodies.Note note }
        requires other { nat_eq note.member self.old.me ≡ false }
        ensures plays { (s : Setting) (es : List journal.Event) (c : Call)
            → Plays s es self.old c
            → Plays s es self.new (takes s rec.rec c) }
        ensures grows { Grows self.old self.new }
    {
        let key = RecordKey::Note(note.member);
        let _checked = rec.rec();
        accept_note(
            self.heal,
            &mut self.membership,
            &mut self.records,
            &mut self.changes,
            &mut self.telling,
            Known::Came(rec),
            note,
        );
        self.add_news(key);
    }

    /// Accepts the accusation that this says.
    pub(crate) fn take_accusation(&mut self, known: Known, acc: AccBody)
        requires accusation { body_of known ≡ bodies.Accusation acc }
        requires ring { acc.ring.0 < ring_count self.old.group.t }
        requires noted { is_some (get self.old.membership.notes acc.accused) ≡ true }
        ensures plays { (s : Setting) (es : List journal.Event) (c : Call)
            → IsSendable s (Some known) → Plays s es self.old c
            → Plays s es self.new (takes s (record_of s known) c) }
        ensures grows { Grows self.old self.new }
        ensures stored { self.new.stored ≡ self.old.stored }
    {
        let key = RecordKey::Accusation(acc.accused, acc.ring);
        let _fault = self.membership.put_accusation(acc);
        self.records.put(known);
        self.add_news(key);
    }

    /// Accepts the certificate of this record, of a number without one.
    pub(crate) fn take_certificate(&mut self, rec: Checked, cert: CertBody)
        requires certificate { rec.rec.body ≡ bodies.Certificate cert }
        requires fresh { kept_certificate self.old.roster cert.member ≡ None }
        ensures plays { (s : Setting) (es : List journal.Event) (c : Call)
            → Plays s es self.old c
            → certificate_of c.node cert.member ≡ None
            → Plays s es self.new (takes s rec.rec c) }
        ensures grows { Grows self.old self.new }
    {
        let _checked = rec.rec();
        let places = hash_places(&self.group, cert.member);
        let _fault = self.membership.add_member(cert.member, places);
        self.roster.put(cert);
        self.records.put(Known::Came(rec));
    }
}
