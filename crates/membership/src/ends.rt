//! Which kept accusations a step ends: only those that it touches are looked at.

ghost use Rattle.std.specs.Prelude.{◌≡◌, ℕ, ◌<◌, ◌≤◌, ◌+◌, ◌||◌, true, not, [], List, None, Some, All, length, map, filter, slice_index_or};
ghost use Rattle.std.specs.Option.{option_map_or};
ghost use Rattle.std.specs.Bool.{OnTrue};
ghost use Rattle.ff_ids.specs.declared.TheConstants.{MAX_RINGS};
ghost use Rattle.ff_ids.specs.Masks.{ring_count};
ghost use Rattle.ff_ids.specs.Views.{is_unanswered_by as note_leaves};
ghost use Rattle.membership.specs.declared.report.TheConstants.{ACCUSATIONS};
ghost use Rattle.membership.specs.Ends.{AreTheirs, Entry, Ends, HasEnded, IsAgain, next_of, answered_on, is_ended_by, is_on, is_named, is_of, is_of_any, with_fallen};
ghost use Rattle.membership.specs.declared.kept.NoteEffect.TheVariants as effects;
ghost use Rattle.removal_timer.specs.Kept.{is_at, entry_at, IsInOrder};
ghost use Rattle.removal_timer.specs.Tally.{is_against};

use crate::Membership;
use crate::kept::{NoteEffect, successors_of_last};
use crate::report::Changes;
use ff_ids::{AccBody, MAX_RINGS, MemberId, NoteBody, RingNo};

impl Membership {
    /// Ends what an accepted note ends: of a member that entered what is kept against its successors, of one that left
    /// what is kept against it or by it, else what the note answers. Where nothing is kept no ring is looked at.
    pub(crate) fn end_by_note(&mut self, note: &NoteBody, effect: NoteEffect, out: &mut Changes)
        requires { length out.old.fell + length self.old.kept ≤ ACCUSATIONS }
        ensures ends { (effect ≡ effects.Leaves
            → AreTheirs self.old note.now.member self.old.kept)
            → Ends (ring_count self.old.group.t) (is_ended_by self.old note.now effect)
            self.old.kept out.old.fell self.new.kept out.new.fell }
        ensures rest { self.new ≡ record self.old { kept = self.new.kept } }
        ensures report { out.new ≡ record out.old { fell = out.new.fell } }
    {
        if self.timers.is_empty() {
            return;
        }
        match effect {
            NoteEffect::Enters => {
                let successors = self.next_after_last(note.member);
                self.end_named(&successors, out);
            }
            NoteEffect::Leaves => self.end_of(note.member, out),
            NoteEffect::Stays => {
                let rings = self.rings_against(note.member);
                let answered = self.answered_by(note, rings);
                self.end_first(&answered, rings, out);
            }
        }
    }

    /// The successor on the ring of a member that has joined.
    fn next_on(&self, member: MemberId, ring: RingNo) -> Option<MemberId>
        requires { ring.0 < ring_count self.now.group.t }
        ensures { result ≡ next_of self.now member ring.0 }
    {
        match self.places.get(member) {
            Some(places) => self.rings.successor(ring, member, places),
            None => None,
        }
    }

    /// The successor on each ring of the member that was the last to enter the view.
    fn next_after_last(&self, member: MemberId) -> [Option<MemberId>; MAX_RINGS as usize]
        ensures each { (ring : ℕ) → ring < ring_count self.now.group.t
            → slice_index_or result ring None
            ≡ next_of self.now member ring }
        ensures count { ring_count self.now.group.t ≤ MAX_RINGS }
    {
        match self.places.get(member) {
            Some(places) => successors_of_last(&self.rings, 2 * self.group.t + 1, member, places),
            None => [None; MAX_RINGS as usize],
        }
    }

    /// How many of the first rings there are up to the last on which something is kept against the member.
    fn rings_against(&self, member: MemberId) -> u8
        ensures few { result ≤ ring_count self.now.group.t }
        ensures most { result ≤ MAX_RINGS }
        ensures none { (ring : ℕ) → result ≤ ring → ring < ring_count self.now.group.t
            → entry_at member ring self.now.kept ≡ None }
    {
        self.timers.rings_against(member).min(2 * self.group.t + 1)
    }

    /// For each ring the note's member where the note answers what is kept against it there, which is on so many of the
    /// first rings. No other is looked at.
    fn answered_by(&self, note: &NoteBody, rings: u8) -> [Option<MemberId>; MAX_RINGS as usize]
        requires few { rings ≤ ring_count self.now.group.t }
        requires most { rings ≤ MAX_RINGS }
        requires none { (ring : ℕ) → rings ≤ ring → ring < ring_count self.now.group.t
            → entry_at note.now.member ring self.now.kept ≡ None }
        ensures each { (ring : ℕ) → ring < ring_count self.now.group.t
            → slice_index_or result ring None ≡ answered_on self.now note.now ring }
        ensures beyond { (ring : ℕ) → rings ≤ ring → slice_index_or result ring None ≡ None }
    {
        let mut named = [None; MAX_RINGS as usize];
        for ring in 0..rings {
            named[ring as usize] = self.answered_at(note, RingNo(ring));
        }
        named
    }

    fn answered_at(&self, note: &NoteBody, ring: RingNo) -> Option<MemberId>
        requires { ring.0 < ring_count self.now.group.t }
        ensures { result ≡ answered_on self.now note.now ring.0 }
    {
        match self.timers.standing(note.member, ring) {
            Some((acc, _since)) if !leaves_unanswered(note, &acc) => Some(note.member),
            _ => None,
        }
    }

    /// Ends what is kept against the member on the ring.
    fn end_at(&mut self, accused: MemberId, ring: RingNo, out: &mut Changes)
        requires { length out.old.fell + length self.old.kept ≤ ACCUSATIONS }
        ensures kept { self.new
            ≡ record self.old { kept = filter (λ p. not (is_at accused ring.0 p)) self.old.kept } }
        ensures fell { out.new
            ≡ record out.old {
              fell = option_map_or (λ p. with_fallen p.0 out.old.fell)
                  (entry_at accused ring.0 self.old.kept) out.old.fell;
            } }
        ensures room { length out.new.fell + length self.new.kept ≤ ACCUSATIONS }
    {
        if let Some((acc, _since)) = self.timers.standing(accused, ring) {
            self.timers.clear(accused, ring);
            out.report_fallen(&acc);
        }
    }

    /// Ends what is kept on the ring against the member, if there is one.
    fn end_on(&mut self, accused: Option<MemberId>, ring: RingNo, out: &mut Changes)
        requires { length out.old.fell + length self.old.kept ≤ ACCUSATIONS }
        ensures ends { Ends (ring_count self.old.group.t) (is_on accused ring.0) self.old.kept
            out.old.fell self.new.kept out.new.fell }
        ensures rest { self.new ≡ record self.old { kept = self.new.kept } }
        ensures report { out.new ≡ record out.old { fell = out.new.fell } }
        ensures room { length out.new.fell + length self.new.kept ≤ ACCUSATIONS }
    {
        if let Some(member) = accused {
            self.end_at(member, ring, out);
        }
    }

    /// Ends what is kept on each ring against the member that is named for it. Where nothing is kept no ring is looked at.
    pub(crate) fn end_named(
        &mut self,
        named: &[Option<MemberId>; MAX_RINGS as usize],
        out: &mut Changes,
    )
        requires { length out.old.fell + length self.old.kept ≤ ACCUSATIONS }
        ensures ends { Ends (ring_count self.old.group.t) (is_named named.now) self.old.kept
            out.old.fell self.new.kept out.new.fell }
        ensures rest { self.new ≡ record self.old { kept = self.new.kept } }
        ensures report { out.new ≡ record out.old { fell = out.new.fell } }
        ensures room { length out.new.fell + length self.new.kept ≤ ACCUSATIONS }
    {
        if self.timers.is_empty() {
            return;
        }
        self.end_first(named, 2 * self.group.t + 1, out);
    }

    /// Ends what is kept on each of so many of the first rings against the member that is named for it. None is named for
    /// any other ring.
    fn end_first(
        &mut self,
        named: &[Option<MemberId>; MAX_RINGS as usize],
        rings: u8,
        out: &mut Changes,
    )
        requires room { length out.old.fell + length self.old.kept ≤ ACCUSATIONS }
        requires few { rings ≤ ring_count self.old.group.t }
        requires most { rings ≤ MAX_RINGS }
        requires beyond { (ring : ℕ) → rings ≤ ring → ring < ring_count self.old.group.t
            → slice_index_or named.now ring None ≡ None }
        ensures ends { Ends (ring_count self.old.group.t) (is_named named.now) self.old.kept
            out.old.fell self.new.kept out.new.fell }
        ensures rest { self.new ≡ record self.old { kept = self.new.kept } }
        ensures report { out.new ≡ record out.old { fell = out.new.fell } }
        ensures room { length out.new.fell + length self.new.kept ≤ ACCUSATIONS }
    {
        for ring in 0..rings {
            self.end_on(named[ring as usize], RingNo(ring), out);
        }
    }

    /// Ends what is kept against the member. Where nothing is, no ring is looked at.
    fn end_against(&mut self, member: MemberId, out: &mut Changes)
        requires { length out.old.fell + length self.old.kept ≤ ACCUSATIONS }
        ensures ends { Ends (ring_count self.old.group.t) (is_against member)
            self.old.kept out.old.fell self.new.kept out.new.fell }
        ensures rest { self.new ≡ record self.old { kept = self.new.kept } }
        ensures report { out.new ≡ record out.old { fell = out.new.fell } }
        ensures room { length out.new.fell + length self.new.kept ≤ ACCUSATIONS }
    {
        if self.timers.is_accused(member) {
            self.end_named(&[Some(member); MAX_RINGS as usize], out);
        }
    }

    /// Ends what is kept against the member, and against its successors: a ring is looked at for as long as it accuses
    /// anybody, since who is accused is accused by its monitor.
    fn end_of(&mut self, member: MemberId, out: &mut Changes)
        requires { length out.old.fell + length self.old.kept ≤ ACCUSATIONS }
        ensures ends { AreTheirs self.old member self.old.kept → Ends (ring_count self.old.group.t)
            (is_of self.old member) self.old.kept out.old.fell self.new.kept out.new.fell }
        ensures rest { self.new ≡ record self.old { kept = self.new.kept } }
        ensures report { out.new ≡ record out.old { fell = out.new.fell } }
        ensures room { length out.new.fell + length self.new.kept ≤ ACCUSATIONS }
    {
        self.end_against(member, out);
        let rings = 2 * self.group.t + 1;
        for ring in 0..rings {
            if !self.timers.is_accuser(member) {
                return;
            }
            let next = self.next_on(member, RingNo(ring));
            self.end_on(next, RingNo(ring), out);
        }
    }

    /// Ends what is kept against the members that the expired accusations take out, and against their successors: once
    /// for each member. Where nothing is kept no ring is looked at.
    pub(crate) fn end_of_expired(&mut self, out: &mut Changes)
        requires room { length self.old.kept ≤ ACCUSATIONS }
        requires empty { out.old.fell ≡ [] }
        requires in_order { IsInOrder (ring_count self.old.group.t) self.old.kept }
        ensures kept { All (λ a. AreTheirs self.old a.accused self.old.kept) out.old.expired
            → self.new.kept ≡ filter (λ p. not (is_of_any self.old out.old.expired p))
            self.old.kept }
        ensures fell { All (λ a. AreTheirs self.old a.accused self.old.kept) out.old.expired
            → out.new.fell ≡ map (λ p. p.0) (filter (is_of_any self.old out.old.expired)
            self.old.kept) }
        ensures rest { self.new ≡ record self.old { kept = self.new.kept } }
        ensures report { out.new ≡ record out.old { fell = out.new.fell } }
    {
        if self.timers.is_empty() {
            return;
        }
        for index in 0..out.expired().len() {
            if !is_again(out.expired(), index) {
                let accused = out.expired()[index].accused;
                self.end_of(accused, out);
            }
        }
    }
}

/// Whether the accusation at the index is against the same member as the one before it.
fn is_again(expired: &[AccBody], index: usize) -> bool
    requires { index < length expired.now }
    ensures { OnTrue result (IsAgain expired.now index) }
{
    0 < index && expired[index - 1].accused == expired[index].accused
}

/// Whether the note has the epoch of the accusation and enables its ring.
fn leaves_unanswered(note: &NoteBody, acc: &AccBody) -> bool
    requires { acc.now.ring.0 < MAX_RINGS }
    ensures { result ≡ note_leaves acc.now note.now }
{
    note.epoch == acc.epoch && note.mask.enables(acc.ring)
}
