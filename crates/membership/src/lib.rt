//! Floor: membership. One observer's membership in one life: who has joined, the newest note of each, what expired, and
//! the view. Each call is one step of the model in `ff_ids`; contracts speak of every note accepted and every
//! accusation expired, of which far less is kept. After opening only `members_in_view` takes memory. A node calls it, and
//! the replay of plain records.
#![tactic(auto)]

ghost use Rattle.std.specs.Prelude.{◌≡◌, ℕ, ◌<◌, ◌≤◌, ◌+◌, ◌-◌, ◌*◌, ◌^◌, true, false, not, [], ◌∷◌, Option, None, Some, length, if◌then◌else◌, map, filter, slice_index_or, IfOk, IfSome, OnOk, OnErr};
ghost use Rattle.std.specs.Ordering.{nat_cmp};
ghost use Rattle.std.specs.FinMap.{get, insert, empty};
ghost use Rattle.ff_ids.specs.declared.TheConstants.{MEMBERS, MAX_RINGS, MAX_TOLERANCE};
ghost use Rattle.ff_ids.specs.Masks.{ring_count};
ghost use Rattle.ff_ids.specs.Notes.{newest};
ghost use Rattle.ff_ids.specs.Views.{State, view, is_member as member_of_state, in_view as in_view_of, monitor as monitor_of, successor as successor_of};
ghost use Rattle.ff_ids.specs.Faults.{note_fault as note_fault_of, accusation_fault as accusation_fault_of, join_fault};
ghost use Rattle.ff_ids.specs.Steps.{after_note, after_accusation, with_kept, after_tick, joined, is_due, nothing};
ghost use Rattle.ff_ids.specs.Lives.{opening};
ghost use Rattle.membership.specs.Kept.{expired_at, is_live_at, takes_out as acc_takes_out, raise as raise_by, raised, leavers};
ghost use Rattle.membership.specs.Life.{has_joined, live_monitor, live_count, note_fault_in, accusation_fault_in, effect_in, with_note};
ghost use Rattle.membership.specs.Ends.{Ends, next_of, answered_on, is_named, is_of, is_of_any, with_fallen};
ghost use Rattle.membership.specs.Holds.{Holds};
ghost use Rattle.membership.specs.Reports.{Answers, Moves, enters_by, leaves_by, kept_against};
ghost use Rattle.membership.specs.Ticks.{after_ticks};
ghost use Rattle.removal_timer.specs.Kept.{IsInOrder};

mod by_member;
mod ends;
mod expiry;
mod faults;
mod kept;
mod laws;
mod report;

pub use by_member::ByMember;
use ff_ids::{AccBody, Epoch, Fault, Group, MemberId, NoteBody, RingNo};
use fields::NoMemory;
use kept::{NoteEffect, effect_of, is_live};
pub use laws::only_the_touched_end;
use monitor_rule::Rings;
use removal_timer::Timers;
pub use report::Changes;
use ring_order::Places;
use ring_order::steps::Steps;
use std::alloc::Global;
use std::marker::Model;
use std::sync::ledger::Ledger;

/// The membership of one life. Contracts see what is kept of the life; which states that may stand for is said
/// by `Holds`.
#[derive(Drop)]
pub struct Membership {
    group: Group,
    moment: u64,
    places: ByMember<Places>,
    notes: ByMember<NoteBody>,
    expired: ByMember<Epoch>,
    rings: Rings,
    timers: Timers,
}

impl Model for Membership {
    ghost use Rattle.std.specs.Coded.{codes};
    ghost use Rattle.std.specs.FinMap.{code};
    ghost use Rattle.membership.specs.Life.{Life, IsConsistent};

    ghost Value = { Life };

    ghost coded = { Prim.hlevel (codes, code) };

    ghost view = { λ m. record {
      group = m.group;
      moment = m.moment;
      places = m.places;
      notes = m.notes;
      expired = m.expired;
      kept = m.timers.entries;
    } };

    ghost invariant = { λ m. IsConsistent m.group m.moment m.places m.notes m.expired m.rings
        m.timers };
}

impl Membership {
    /// Opens a life without members. The room for all that may come is taken here.
    pub fn open(alloc: Global, group: Group) -> Result<Membership, NoMemory>
        requires { group.t ≤ MAX_TOLERANCE }
        ensures group { IfOk result (λ m. m.group ≡ group) }
        ensures holds { IfOk result (λ m. Holds m (opening [])) }
        ensures moment { IfOk result (λ m. m.moment ≡ 0) }
        ensures members { IfOk result (λ m. m.places ≡ empty) }
    {
        let rings = Rings::open(alloc, &group)?;
        let timers = Timers::open(alloc, &group)?;
        Ok(Membership {
            group,
            moment: 0,
            places: ByMember::new(alloc)?,
            notes: ByMember::new(alloc)?,
            expired: ByMember::new(alloc)?,
            rings,
            timers,
        })
    }

    /// The group with which it was opened.
    pub fn group(&self) -> &Group
        ensures { result.now ≡ self.now.group }
    {
        &self.group
    }

    /// How many ticks the life has had.
    pub fn now(&self) -> u64
        ensures value { (s : State) → Holds self.now s → result ≡ s.moment }
        ensures moment { result ≡ self.now.moment }
    {
        self.moment
    }

    /// Whether the number has joined.
    pub fn is_member(&self, member: MemberId) -> bool
        ensures value { (s : State) → Holds self.now s → result ≡ member_of_state s member }
        ensures joined { result ≡ has_joined self.now member }
    {
        // Who has a note has joined, and notes lie close together.
        self.notes.contains(member) || self.places.contains(member)
    }

    /// Whether the member is in the view.
    pub fn in_view(&self, member: MemberId) -> bool
        ensures { (s : State) → Holds self.now s → result ≡ in_view_of s member }
    {
        is_live(&self.notes, &self.expired, member)
    }

    /// The members of the view, in order of number.
    pub fn view(&self) -> &[MemberId]
        ensures { (s : State) → Holds self.now s → result.now ≡ view s }
    {
        self.rings.numbers()
    }

    /// A copy of `view`.
    pub fn members_in_view(&self, alloc: Global) -> Result<Vec<MemberId>, NoMemory>
        ensures { (s : State) → Holds self.now s → IfOk result (λ members. members.items ≡ view s) }
    {
        let mut members = Vec::new(alloc);
        members.extend_from_slice(self.view())?;
        Ok(members)
    }

    /// The newest note of the member.
    pub fn note_of(&self, member: MemberId) -> Option<NoteBody>
        ensures value { (s : State) → Holds self.now s → result ≡ newest s.notes member }
        ensures kept { result ≡ get self.now.notes member }
        ensures joined { IfSome result (λ n. has_joined self.now member ≡ true) }
    {
        self.notes.get(member).copied()
    }

    /// The member of the view that monitors this one on the ring, or none where nobody else is in the view.
    pub fn monitor(&self, ring: RingNo, member: MemberId) -> Option<MemberId>
        requires ring { ring.0 < ring_count self.now.group.t }
        requires member { has_joined self.now member ≡ true }
        ensures value { (s : State) → Holds self.now s → result ≡ monitor_of s ring.0 member }
        ensures kept { result ≡ live_monitor self.now ring.0 member }
    {
        self.rings.monitor(ring, member, self.places_of(member))
    }

    /// As `monitor`. Among n members of the view d steps are counted, with `2^d <= 2n + 1`.
    pub fn monitor_counted<L: Ledger>(
        &self,
        ring: RingNo,
        member: MemberId,
        steps: &mut Steps<L>,
    ) -> Option<MemberId>
        requires ring { ring.0 < ring_count self.now.group.t }
        requires member { has_joined self.now member ≡ true }
        ensures value { (s : State) → Holds self.now s → result ≡ monitor_of s ring.0 member }
        ensures kept { result ≡ live_monitor self.now ring.0 member }
        ensures counted { steps.old ≤ steps.new }
        ensures most { (s : State) → Holds self.now s
            → 2 ^ (steps.new - steps.old) ≤ 2 * length (view s) + 1 }
        ensures most_live { 2 ^ (steps.new - steps.old) ≤ 2 * live_count self.now + 1 }
    {
        self.rings
            .monitor_counted(ring, member, self.places_of(member), steps)
    }

    /// The member of the view that this one monitors on the ring, or none where nobody else is in the view.
    pub fn successor(&self, ring: RingNo, member: MemberId) -> Option<MemberId>
        requires ring { ring.0 < ring_count self.now.group.t }
        requires member { has_joined self.now member ≡ true }
        ensures { (s : State) → Holds self.now s → result ≡ successor_of s ring.0 member }
    {
        self.rings.successor(ring, member, self.places_of(member))
    }

    /// As `successor`. The member's place on the ring is looked for first where it was found last, at the index `near`,
    /// and what is found is kept there: while the view stands, few members are looked at, however many it has.
    pub fn successor_near(
        &self,
        ring: RingNo,
        member: MemberId,
        near: &mut usize,
    ) -> Option<MemberId>
        requires ring { ring.0 < ring_count self.now.group.t }
        requires member { has_joined self.now member ≡ true }
        ensures { (s : State) → Holds self.now s → result ≡ successor_of s ring.0 member }
    {
        self.rings
            .successor_near(ring, member, self.places_of(member), near)
    }

    /// Adds a member with its places. A number that has joined is refused as `AlreadyMember`.
    pub fn add_member(&mut self, member: MemberId, places: Places) -> Result<(), Fault>
        requires { length places ≡ ring_count self.old.group.t }
        ensures fault { (s : State) → Holds self.old s → Answers (join_fault s member) result }
        ensures step { (s : State) → Holds self.old s
            → OnOk result (Holds self.new (joined s member places)) }
        ensures same { OnErr result (self.new ≡ self.old) }
        ensures group { self.new.group ≡ self.old.group }
        ensures moment { self.new.moment ≡ self.old.moment }
        ensures members { OnOk result (self.new.places ≡ insert self.old.places member places) }
    {
        if self.is_member(member) {
            return Err(Fault::AlreadyMember);
        }
        self.places.set(member, places);
        Ok(())
    }

    /// Takes a note of a member: the first fault of a note that holds is the answer. Where there is none the note
    /// is accepted, and `out` reports the step; else nothing changes, and `out` is empty.
    pub fn put_note(&mut self, note: NoteBody, out: &mut Changes) -> Result<(), Fault>
        ensures fault { (s : State) → Holds self.old s
            → Answers (note_fault_of self.old.group.t s note) result }
        ensures step { (s : State) → Holds self.old s
            → OnOk result (Holds self.new (after_note s note).state) }
        ensures changes { (s : State) → Holds self.old s
            → OnOk result (out.new ≡ (after_note s note).report) }
        ensures enters { (s : State) → Holds self.old s → enters_by s note ≡ true
            → OnOk result (Moves out.new (note.member ∷ []) []) }
        ensures leaves { (s : State) → Holds self.old s → leaves_by s note ≡ true
            → OnOk result (Moves out.new [] (note.member ∷ [])) }
        ensures stays { (s : State) → Holds self.old s → enters_by s note ≡ false
            → leaves_by s note ≡ false → OnOk result (Moves out.new [] []) }
        ensures same { OnErr result (self.new ≡ self.old) }
        ensures emptied { OnErr result (out.new ≡ nothing) }
        ensures group { self.new.group ≡ self.old.group }
        ensures moment { self.new.moment ≡ self.old.moment }
        ensures members { self.new.places ≡ self.old.places }
    {
        out.clear();
        if let Some(fault) = self.fault_of_note(&note) {
            return Err(fault);
        }
        let effect = self.accept(&note);
        out.report_effect(effect, note.member);
        self.end_by_note(&note, effect, out);
        Ok(())
    }

    /// Takes an accusation: the first fault of an accusation that holds is the answer, and where there is none it
    /// is kept from now on.
    pub fn put_accusation(&mut self, acc: AccBody) -> Result<(), Fault>
        ensures fault { (s : State) → Holds self.old s
            → Answers (accusation_fault_of self.old.group.t s acc) result }
        ensures step { (s : State) → Holds self.old s
            → OnOk result (Holds self.new (after_accusation s acc)) }
        ensures same { OnErr result (self.new ≡ self.old) }
        ensures group { self.new.group ≡ self.old.group }
        ensures moment { self.new.moment ≡ self.old.moment }
        ensures members { self.new.places ≡ self.old.places }
    {
        if let Some(fault) = self.fault_of_accusation(&acc) {
            return Err(fault);
        }
        self.keep(acc);
        Ok(())
    }

    /// As `put_accusation`. Among n members of the view d steps are counted, with `2^d <= 2n + 1`.
    pub fn put_accusation_counted<L: Ledger>(
        &mut self,
        acc: AccBody,
        steps: &mut Steps<L>,
    ) -> Result<(), Fault>
        ensures fault { (s : State) → Holds self.old s
            → Answers (accusation_fault_of self.old.group.t s acc) result }
        ensures step { (s : State) → Holds self.old s
            → OnOk result (Holds self.new (after_accusation s acc)) }
        ensures same { OnErr result (self.new ≡ self.old) }
        ensures group { self.new.group ≡ self.old.group }
        ensures moment { self.new.moment ≡ self.old.moment }
        ensures members { self.new.places ≡ self.old.places }
        ensures counted { steps.old ≤ steps.new }
        ensures most { (s : State) → Holds self.old s
            → 2 ^ (steps.new - steps.old) ≤ 2 * length (view s) + 1 }
    {
        if let Some(fault) = self.fault_of_accusation_counted(&acc, steps) {
            return Err(fault);
        }
        self.keep(acc);
        Ok(())
    }

    /// One tick: what was kept for the timeout expires, and `out` reports the step.
    pub fn tick(&mut self, out: &mut Changes)
        requires { self.old.moment < 2 ^ 64 - 1 }
        ensures step { (s : State) → Holds self.old s
            → Holds self.new (after_tick self.old.group.timeout s).state }
        ensures changes { (s : State) → Holds self.old s → out.new
            ≡ (after_tick self.old.group.timeout s).report }
        ensures moment { self.new.moment ≡ self.old.moment + 1 }
        ensures group { self.new.group ≡ self.old.group }
        ensures members { self.new.places ≡ self.old.places }
    {
        out.clear();
        self.advance(out);
        self.end_of_expired(out);
        self.expire_all(out);
    }

    /// Passes those of the next ticks that bring nothing, of at most so many, and answers how many they are: all up to the one
    /// at which a kept accusation is due. It takes no longer for many of them than for one.
    pub fn pass_quiet(&mut self, most: u32) -> u32
        requires { self.old.moment + most < 2 ^ 64 }
        ensures most { result ≤ most }
        ensures step { (s : State) → Holds self.old s
            → Holds self.new (after_ticks self.old.group.timeout result s) }
        ensures quiet { (s : State) → Holds self.old s → (n : ℕ) → n < result
            → (after_tick self.old.group.timeout
            (after_ticks self.old.group.timeout n s)).report ≡ nothing }
        ensures next { (s : State) → Holds self.old s → result < most
            → 0 < length (after_tick self.old.group.timeout
            (after_ticks self.old.group.timeout result s)).report.expired }
        ensures moment { self.new.moment ≡ self.old.moment + result }
        ensures group { self.new.group ≡ self.old.group }
        ensures members { self.new.places ≡ self.old.places }
    {
        self.pass(most)
    }

    /// The accusation kept against the member on the ring.
    pub fn standing(&self, accused: MemberId, ring: RingNo) -> Option<AccBody>
        ensures { (s : State) → Holds self.now s → result ≡ kept_against s.kept accused ring.0 }
    {
        self.timers.standing(accused, ring).map(|(acc, _since)| acc)
    }

    /// Begins a new life with the same members: notes and accusations go, and the clock is at 0.
    pub fn new_life(&mut self)
        ensures holds { (s : State) → Holds self.old s → Holds self.new (opening s.members) }
        ensures group { self.new.group ≡ self.old.group }
        ensures moment { self.new.moment ≡ 0 }
        ensures members { self.new.places ≡ self.old.places }
    {
        self.moment = 0;
        self.notes.clear();
        self.expired.clear();
        self.rings.clear();
        self.timers.clear_all();
    }

    fn places_of(&self, member: MemberId) -> &Places
        requires { has_joined self.now member ≡ true }
        ensures value { get self.now.places member ≡ Some result.now }
        ensures placed { length result.now ≡ ring_count self.now.group.t }
        ensures rings { self.now.group.t ≤ MAX_TOLERANCE }
    {
        self.places.get(member).unwrap()
    }

    /// Keeps an accusation without a fault from now on.
    fn keep(&mut self, acc: AccBody)
        requires { accusation_fault_in self.old acc ≡ None }
        ensures { self.new
            ≡ record self.old { kept = with_kept (acc, self.old.moment) self.old.kept } }
    {
        self.timers.set(acc, self.moment);
    }

    /// Makes a note without a fault the newest of its member, and puts the member on the rings or takes it off them.
    /// The answer is what the note does.
    fn accept(&mut self, note: &NoteBody) -> NoteEffect
        requires { note_fault_in self.old note.now ≡ None }
        ensures value { result ≡ effect_in self.old note.now }
        ensures kept { self.new ≡ with_note self.old note.now }
        ensures positive { 0 < note.now.epoch }
        ensures range { note.now.member < MEMBERS }
        ensures in_order { IsInOrder (ring_count self.old.group.t) self.old.kept }
        ensures few { ring_count self.old.group.t ≤ MAX_RINGS }
    {
        let effect = effect_of(&self.notes, &self.expired, note);
        let _epoch = note.epoch.get();
        self.notes.set(note.member, *note);
        match effect {
            NoteEffect::Enters => {
                let places = self.places.get(note.member).unwrap();
                self.rings.join(note.member, places);
            }
            NoteEffect::Leaves => {
                let places = self.places.get(note.member).unwrap();
                self.rings.leave(note.member, places);
            }
            NoteEffect::Stays => {}
        }
        effect
    }
}
