//! What expires at a tick, and who leaves the view by that.

ghost use Rattle.std.specs.Prelude.{◌≡◌, ℕ, None, ◌<◌, ◌≤◌, ◌+◌, ◌-◌, ◌^◌, not, [], length, map, filter};
ghost use Rattle.std.specs.FinMap.{get};
ghost use Rattle.ff_ids.specs.Masks.{ring_count};
ghost use Rattle.ff_ids.specs.Steps.{is_due};
ghost use Rattle.removal_timer.specs.Kept.{IsInOrder};
ghost use Rattle.membership.specs.declared.report.TheConstants.{ACCUSATIONS};
ghost use Rattle.membership.specs.Kept.{expired_at, takes_out as acc_takes_out, raise as raise_by, raised, leavers};

use crate::Membership;
use crate::kept::{raise, takes_out};
use crate::report::Changes;
use ff_ids::AccBody;

impl Membership {
    /// Raises the clock, and reports what is due then as expired.
    pub(crate) fn advance(&mut self, out: &mut Changes)
        requires below { self.old.moment < 2 ^ 64 - 1 }
        requires empty { out.old.expired ≡ [] }
        ensures kept { self.new
            ≡ record self.old {
              moment = self.old.moment + 1;
              kept = filter (λ p. not (is_due self.old.group.timeout (self.old.moment + 1) p))
                  self.old.kept;
            } }
        ensures expired { out.new
            ≡ record out.old {
              expired = map (λ p. p.0)
                  (filter (is_due self.old.group.timeout (self.old.moment + 1)) self.old.kept);
            } }
        ensures few { length out.new.expired + length self.new.kept ≤ ACCUSATIONS }
        ensures in_order { IsInOrder (ring_count self.old.group.t) self.old.kept }
        ensures noted { (m : ℕ) → get self.old.places m ≡ None → get self.old.notes m ≡ None }
    {
        self.moment += 1;
        out.take_due(&mut self.timers, self.moment);
    }

    /// Raises the clock by as many ticks as nothing is due at, at most so many.
    pub(crate) fn pass(&mut self, most: u32) -> u32
        requires { self.old.moment + most < 2 ^ 64 }
        ensures most { result ≤ most }
        ensures kept { self.new ≡ record self.old { moment = self.old.moment + result } }
        ensures quiet { (n : ℕ) → n < result
            → filter (is_due self.old.group.timeout (self.old.moment + n + 1)) self.old.kept ≡ [] }
        ensures next { result < most → 0 < length
            (filter (is_due self.old.group.timeout (self.old.moment + result + 1)) self.old.kept) }
        ensures in_order { IsInOrder (ring_count self.old.group.t) self.old.kept }
        ensures noted { (m : ℕ) → get self.old.places m ≡ None → get self.old.notes m ≡ None }
    {
        let ticks = self.timers.quiet_ticks(self.moment, most);
        self.moment += u64::from(ticks);
        ticks
    }

    /// Counts the reported accusations as expired, and reports the members that they take out of the view.
    pub(crate) fn expire_all(&mut self, out: &mut Changes)
        requires empty { out.old.removed ≡ [] }
        requires few { length out.old.expired ≤ ACCUSATIONS }
        ensures kept { self.new
            ≡ record self.old { expired = raised self.old.expired out.old.expired } }
        ensures removed { out.new
            ≡ record out.old { removed = leavers self.old.notes self.old.expired out.old.expired } }
    {
        for index in 0..out.expired().len() {
            let acc = out.expired()[index];
            if self.expire(&acc) {
                out.report_removal(acc.accused);
            }
        }
    }

    /// Counts the accusation as expired, and the answer is whether that takes its member out of the view.
    fn expire(&mut self, acc: &AccBody) -> bool
        ensures value { result
            ≡ acc_takes_out (expired_at self.old.expired acc.now.accused)
            (get self.old.notes acc.now.accused) acc.now }
        ensures kept { self.new ≡ record self.old { expired = raise_by self.old.expired acc.now } }
    {
        let leaves = takes_out(&self.notes, &self.expired, acc);
        raise(&mut self.expired, acc);
        if leaves {
            let places = self.places.get(acc.accused).unwrap();
            self.rings.leave(acc.accused, places);
        }
        leaves
    }
}
