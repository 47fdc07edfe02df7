//! What one step reports.

ghost use Rattle.std.specs.Prelude.{◌≡◌, [], ◌∷◌, ◌++◌, length, ◌≤◌, ◌<◌, not, map, filter, IfOk};
ghost use Rattle.std.specs.List.{prefix_len};
ghost use Rattle.ff_ids.specs.Steps.{precedes as acc_comes_first, is_due, nothing};
ghost use Rattle.membership.specs.Ends.{with_fallen};
ghost use Rattle.membership.specs.Reports.{told_of};

use crate::kept::NoteEffect;
use ff_ids::{AccBody, MAX_ACCUSATIONS, MEMBERS, MemberId};
use fields::NoMemory;
use removal_timer::Timers;
use std::alloc::Global;
use std::marker::Model;

/// How many accusations can be kept: one for each member and ring.
pub const ACCUSATIONS: usize = MAX_ACCUSATIONS as usize;

/// What one step reports. Contracts see the four lists.
#[derive(Drop)]
pub struct Changes {
    expired: Vec<AccBody>,
    removed: Vec<MemberId>,
    entered: Vec<MemberId>,
    fell: Vec<AccBody>,
}

impl Model for Changes {
    ghost use Rattle.std.specs.Prelude.{◌≤◌, vec_capacity};
    ghost use Rattle.ff_ids.specs.Steps.{Report};
    ghost use Rattle.membership.specs.Reports.{HasRoom};

    ghost Value = { Report };

    ghost view = { λ c. record {
      expired = c.expired.items;
      removed = c.removed.items;
      entered = c.entered.items;
      fell = c.fell.items;
    } };

    ghost invariant = { λ c. HasRoom (vec_capacity c.expired) (vec_capacity c.removed)
        (vec_capacity c.entered) (vec_capacity c.fell) };
}

impl Changes {
    /// Nothing is reported yet. The room for every report is taken here.
    pub fn new(alloc: Global) -> Result<Changes, NoMemory>
        ensures { IfOk result (λ c. c ≡ nothing) }
    {
        Ok(Changes {
            expired: Vec::with_capacity(alloc, ACCUSATIONS)?,
            removed: Vec::with_capacity(alloc, ACCUSATIONS)?,
            entered: Vec::with_capacity(alloc, MEMBERS as usize)?,
            fell: Vec::with_capacity(alloc, ACCUSATIONS)?,
        })
    }

    /// The accusations that expired, in order of the accused, then of the ring.
    pub fn expired(&self) -> &[AccBody]
        ensures { result.now ≡ self.now.expired }
    {
        &self.expired
    }

    /// The members that left the view, in order of number.
    pub fn removed(&self) -> &[MemberId]
        ensures { result.now ≡ self.now.removed }
    {
        &self.removed
    }

    /// The members that entered the view, in order of number.
    pub fn entered(&self) -> &[MemberId]
        ensures { result.now ≡ self.now.entered }
    {
        &self.entered
    }

    /// The kept accusations that fell, in order of the accused, then of the ring.
    pub fn fell(&self) -> &[AccBody]
        ensures { result.now ≡ self.now.fell }
    {
        &self.fell
    }

    /// Empties the four lists.
    pub(crate) fn clear(&mut self)
        ensures { self.new ≡ nothing }
    {
        self.expired.clear();
        self.removed.clear();
        self.entered.clear();
        self.fell.clear();
    }

    /// Reports what a note did to its member's place in the view.
    pub(crate) fn report_effect(&mut self, effect: NoteEffect, member: MemberId)
        requires { self.old ≡ nothing }
        ensures { self.new ≡ told_of effect member }
    {
        match effect {
            NoteEffect::Enters => self.entered.push_reserved(member),
            NoteEffect::Leaves => self.removed.push_reserved(member),
            NoteEffect::Stays => {}
        }
    }

    /// Reports one more member that left.
    pub(crate) fn report_removal(&mut self, member: MemberId)
        requires { length self.old.removed < ACCUSATIONS }
        ensures { self.new ≡ record self.old { removed = self.old.removed ++ member ∷ [] } }
    {
        self.removed.push_reserved(member);
    }

    /// Takes out of the timers what is due at the moment, and reports it as expired.
    pub(crate) fn take_due(&mut self, timers: &mut Timers, moment: u64)
        requires empty { self.old.expired ≡ [] }
        requires few { length timers.old.entries ≤ ACCUSATIONS }
        ensures expired { self.new
            ≡ record self.old {
              expired = map (λ p. p.0)
                  (filter (is_due timers.old.timeout moment) timers.old.entries);
            } }
        ensures left { timers.new
            ≡ record timers.old {
              entries = filter (λ p. not (is_due timers.old.timeout moment p))
                  timers.old.entries;
            } }
    {
        timers.due(moment, &mut self.expired);
    }

    /// Reports one more kept accusation that fell, at its place in the order.
    pub(crate) fn report_fallen(&mut self, acc: &AccBody)
        requires { length self.old.fell < ACCUSATIONS }
        ensures { self.new ≡ record self.old { fell = with_fallen acc.now self.old.fell } }
    {
        let place = place_of(&self.fell, acc);
        let _ = self.fell.insert(place, *acc);
    }
}

/// How many of the first accusations come before this one, in order of the accused, then of the ring.
fn place_of(fell: &[AccBody], acc: &AccBody) -> usize
    ensures value { result ≡ prefix_len (λ a. acc_comes_first a acc.now) fell.now }
    ensures range { result ≤ length fell.now }
{
    fell.iter().take_while(|a| comes_first(a, acc)).count()
}

fn comes_first(a: &AccBody, b: &AccBody) -> bool
    ensures { result ≡ acc_comes_first a.now b.now }
{
    a.accused < b.accused || (a.accused == b.accused && a.ring < b.ring)
}
