//! Why a record would be refused.

ghost use Rattle.std.specs.Prelude.{◌≡◌, ◌<◌, ◌≤◌, ◌+◌, ◌-◌, ◌*◌, ◌^◌, true, Option, None, Some};
ghost use Rattle.ff_ids.specs.Masks.{ring_count};
ghost use Rattle.ff_ids.specs.Views.{State};
ghost use Rattle.ff_ids.specs.Faults.{note_fault, accusation_fault, fault_under as fault_under_note};
ghost use Rattle.membership.specs.Life.{has_joined, live_count, facts_in, note_fault_in, accusation_fault_in};
ghost use Rattle.membership.specs.Holds.{Holds};

use crate::Membership;
use crate::kept::{fault_beside, is_live};
use ff_ids::{AccBody, Fault, NoteBody, note_mask};
use ring_order::steps::Steps;
use std::marker::Brand;
use std::sync::ledger::{Blank, Ledger};

impl Membership {
    /// Why the note would be refused now, or none where it would be accepted.
    pub fn note_fault(&self, note: &NoteBody) -> Option<Fault>
        ensures value { (s : State) → Holds self.now s
            → result ≡ note_fault self.now.group.t s note.now }
        ensures kept { result ≡ note_fault_in self.now note.now }
    {
        self.fault_of_note(note)
    }

    /// Why the accusation would be refused now, or none where it would be kept.
    pub fn accusation_fault(&self, acc: &AccBody) -> Option<Fault>
        ensures value { (s : State) → Holds self.now s
            → result ≡ accusation_fault self.now.group.t s acc.now }
        ensures kept { result ≡ accusation_fault_in self.now acc.now }
    {
        self.fault_of_accusation(acc)
    }

    /// The first fault of the note, by what is kept.
    pub(crate) fn fault_of_note(&self, note: &NoteBody) -> Option<Fault>
        ensures { result ≡ note_fault_in self.now note.now }
    {
        if !self.is_member(note.member) {
            return Some(Fault::UnknownMember);
        }
        if !note_mask(self.group.t, note.mask) {
            return Some(Fault::BadMask);
        }
        match self.notes.get(note.member) {
            Some(kept) => fault_beside(kept, note),
            None => None,
        }
    }

    /// The first fault of the accusation, by what is kept.
    pub(crate) fn fault_of_accusation(&self, acc: &AccBody) -> Option<Fault>
        ensures { result ≡ accusation_fault_in self.now acc.now }
    {
        self.fault_of_accusation_in::<Brand>(Blank::new(1), acc)
    }

    /// The same, counted in a ledger of its own.
    fn fault_of_accusation_in<L: Ledger>(&self, blank: Blank, acc: &AccBody) -> Option<Fault>
        requires name { blank.name ≡ L.name }
        requires parts { blank.parts ≡ L.parts }
        requires some { 0 < blank.parts }
        ensures { result ≡ accusation_fault_in self.now acc.now }
    {
        self.fault_of_accusation_counted(acc, &mut Steps::<L>::open(blank))
    }

    /// The same. Among n live members d steps are counted, with `2^d <= 2n + 1`.
    pub(crate) fn fault_of_accusation_counted<L: Ledger>(
        &self,
        acc: &AccBody,
        steps: &mut Steps<L>,
    ) -> Option<Fault>
        ensures fault { result ≡ accusation_fault_in self.now acc.now }
        ensures counted { steps.old ≤ steps.new }
        ensures most { 2 ^ (steps.new - steps.old) ≤ 2 * live_count self.now + 1 }
    {
        if !(self.is_member(acc.accuser) && self.is_member(acc.accused)) {
            return Some(Fault::UnknownMember);
        }
        if acc.accuser == acc.accused {
            return Some(Fault::SelfAccusation);
        }
        if acc.ring.0 > 2 * self.group.t {
            return Some(Fault::BadRing);
        }
        match self.note_of(acc.accused) {
            Some(note) => self.fault_under(&note, acc, steps),
            None => Some(Fault::NoNote),
        }
    }

    /// The first fault of an accusation whose numbers are in order, under the newest note of the accused.
    fn fault_under<L: Ledger>(
        &self,
        note: &NoteBody,
        acc: &AccBody,
        steps: &mut Steps<L>,
    ) -> Option<Fault>
        requires ring { acc.now.ring.0 < ring_count self.now.group.t }
        requires joined { has_joined self.now acc.now.accused ≡ true }
        ensures fault { result ≡ fault_under_note (facts_in self.now acc.now) acc.now
            (Some note.now) }
        ensures counted { steps.old ≤ steps.new }
        ensures most { 2 ^ (steps.new - steps.old) ≤ 2 * live_count self.now + 1 }
    {
        if note.epoch != acc.epoch {
            return Some(Fault::OtherEpoch { kept: note.epoch });
        }
        if !is_live(&self.notes, &self.expired, acc.accused) {
            return Some(Fault::NotInView);
        }
        if !note.mask.enables(acc.ring) {
            return Some(Fault::RingDisabled);
        }
        let monitor = self.monitor_counted(acc.ring, acc.accused, steps);
        if monitor != Some(acc.accuser) {
            return Some(Fault::NotMonitor { monitor });
        }
        if self.timers.standing(acc.accused, acc.ring).is_some() {
            return Some(Fault::Standing);
        }
        None
    }
}
