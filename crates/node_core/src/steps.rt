//! The small steps of a node: one event of its life, one accepted record.

ghost use Rattle.std.specs.Prelude.{◌≡◌, ℕ, ◌≤◌, ◌<◌, ◌^◌, ◌-◌, true, List, [], None, is_some, nat_eq, false};
ghost use Rattle.std.specs.FinMap.{get};
ghost use Rattle.ff_ids.specs.Masks.{ring_count};
ghost use Rattle.ff_ids.specs.Steps.{Ticks};
ghost use Rattle.journal.specs.declared.event.Event as journal;
ghost use Rattle.journal.specs.declared.event.What.TheVariants as told;
ghost use Rattle.records.specs.declared.Body.TheVariants as bodies;
ghost use Rattle.validate.specs.Certified.{certificate_of as kept_certificate};
ghost use Rattle.node_rules.specs.Nodes.{Setting, certificate_of};
ghost use Rattle.node_rules.specs.Calls.{Call, tells, lives, takes};
ghost use Rattle.node_core.specs.Playing.{Kept, Plays, Grows};
ghost use Rattle.node_core.specs.Spending.{spent_by, SignsNothing, TellsSpent};
ghost use Rattle.node_core.specs.Told.{is_loss};

use crate::Node;
use crate::parts::{accept_note, report};
use ff_ids::{AccBody, NoteBody, RecordKey};
use journal::What;
use records::{Body, CertBody, Checked};
use ring_order::hash_places;

impl Node {
    /// Tells this, which is no signature.
    pub(crate) fn tell(&mut self, what: What)
        requires unsigned { spent_by what ≡ [] }
        requires no_loss { is_loss what ≡ false }
        ensures plays { (s : Setting) (es : List journal.Event) (os : List (ℕ × List ℕ)) (c : Call)
            → Plays s es os self.old c
            → Plays s es os self.new (tells s what c) }
        ensures grows { Grows self.old self.new }
        ensures signs_nothing { SignsNothing self.old self.new }
        ensures refused { self.new.telling.failed ≡ true
            → self.new.telling ≡ record self.old.telling { failed = true } }
        ensures frame { self.new ≡ record self.old { telling = self.new.telling } }
    {
        self.telling.tell(self.membership.now(), what);
    }

    /// Tells that the index was spent on the body.
    pub(crate) fn tell_spent(&mut self, index: u32, body: Body)
        ensures plays { (s : Setting) (es : List journal.Event) (os : List (ℕ × List ℕ)) (c : Call)
            → Plays s es os self.old c
            → Plays s es os self.new (tells s (told.Spent index body) c) }
        ensures grows { Grows self.old self.new }
        ensures spent { TellsSpent index body self.old self.new }
        ensures frame { self.new ≡ record self.old { telling = self.new.telling } }
    {
        self.telling.tell_spent(self.membership.now(), index, body);
    }

    /// One event of the life: a tick.
    pub(crate) fn live_tick(&mut self)
        requires { self.old.membership.moment < 2 ^ 64 - 1 }
        ensures plays { (s : Setting) (es : List journal.Event) (os : List (ℕ × List ℕ)) (c : Call)
            → Plays s es os self.old c
            → Plays s es os self.new (lives s Ticks c) }
        ensures grows { Grows self.old self.new }
        ensures signs_nothing { SignsNothing self.old self.new }
    {
        self.membership.tick(&mut self.changes);
        report(
            self.heal,
            &mut self.records,
            &mut self.telling,
            self.membership.now(),
            &self.changes,
        );
    }

    /// Accepts the note of this record, which is another member's.
    pub(crate) fn take_note(&mut self, rec: Checked, note: NoteBody)
        requires note { rec.rec.body ≡ bodies.Note note }
        requires tolerance { rec.t ≡ self.old.group.t }
        requires other { nat_eq note.member self.old.me ≡ false }
        ensures plays { (s : Setting) (es : List journal.Event) (os : List (ℕ × List ℕ)) (c : Call)
            → Plays s es os self.old c
            → Plays s es os self.new (takes s rec.rec c) }
        ensures grows { Grows self.old self.new }
        ensures signs_nothing { SignsNothing self.old self.new }
    {
        let key = RecordKey::Note(note.member);
        accept_note(
            self.heal,
            &mut self.membership,
            &mut self.records,
            &mut self.changes,
            &mut self.telling,
            rec,
            note,
        );
        self.add_news(key);
    }

    /// Accepts the accusation of this record.
    pub(crate) fn take_accusation(&mut self, rec: Checked, acc: AccBody)
        requires accusation { rec.rec.body ≡ bodies.Accusation acc }
        requires tolerance { rec.t ≡ self.old.group.t }
        requires ring { acc.ring.0 < ring_count self.old.group.t }
        requires noted { is_some (get self.old.membership.notes acc.accused) ≡ true }
        ensures plays { (s : Setting) (es : List journal.Event) (os : List (ℕ × List ℕ)) (c : Call)
            → Plays s es os self.old c
            → Plays s es os self.new (takes s rec.rec c) }
        ensures grows { Grows self.old self.new }
        ensures signs_nothing { SignsNothing self.old self.new }
    {
        let key = RecordKey::Accusation(acc.accused, acc.ring);
        let _fault = self.membership.put_accusation(acc);
        self.records.put(rec);
        self.add_news(key);
    }

    /// Accepts the certificate of this record, of a number without one.
    pub(crate) fn take_certificate(&mut self, rec: Checked, cert: CertBody)
        requires certificate { rec.rec.body ≡ bodies.Certificate cert }
        requires tolerance { rec.t ≡ self.old.group.t }
        requires fresh { kept_certificate self.old.roster cert.member ≡ None }
        ensures plays { (s : Setting) (es : List journal.Event) (os : List (ℕ × List ℕ)) (c : Call)
            → Plays s es os self.old c
            → certificate_of c.node cert.member ≡ None
            → Plays s es os self.new (takes s rec.rec c) }
        ensures grows { Grows self.old self.new }
        ensures signs_nothing { SignsNothing self.old self.new }
    {
        let places = hash_places(&self.group, cert.member);
        let _fault = self.membership.add_member(cert.member, places);
        self.roster.put(cert);
        self.records.put(rec);
    }
}
