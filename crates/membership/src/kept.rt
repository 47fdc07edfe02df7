//! What is kept of each member, by number.

ghost use Rattle.std.specs.Prelude.{◌≡◌, ℕ, ◌<◌, ◌≤◌, ◌&&◌, not, nat_lt, max, None, Some, length, slice_index_or};
ghost use Rattle.std.specs.FinMap.{get};
ghost use Rattle.std.specs.Option.{option_copied};
ghost use Rattle.ff_ids.specs.declared.TheConstants.{MAX_RINGS};
ghost use Rattle.ff_ids.specs.Notes.{note_cmp};
ghost use Rattle.ff_ids.specs.Faults.{fault_beside as note_fault_beside};
ghost use Rattle.ff_ids.specs.Rings.{nearest_after as number_after};
ghost use Rattle.ff_ids.specs.Views.{key_at};
ghost use Rattle.monitor_rule.specs.Joined.{keys_on};
ghost use Rattle.membership.specs.Kept.{expired_at, is_live as is_live_by, is_live_at, effect_by, takes_out as acc_takes_out, raise as raised_by};

use crate::ByMember;
use ff_ids::{AccBody, Epoch, Fault, MAX_RINGS, MemberId, NoteBody, RingNo};
use monitor_rule::Rings;
use ring_order::Places;
use std::cmp::Ordering;

/// What an accepted note does to its member's place in the view.
#[derive(Clone, Copy)]
pub enum NoteEffect {
    /// The member was out of the view, and is in it now.
    Enters,
    /// The member was in the view, and left it by the note.
    Leaves,
    /// The member is in the view, or out of it, as before.
    Stays,
}

/// The greatest epoch of an accusation against the member that expired, 0 for none.
fn expired_epoch(expired: &ByMember<Epoch>, member: MemberId) -> u64
    ensures { result ≡ expired_at expired.now member }
{
    match expired.get(member) {
        Some(epoch) => epoch.get(),
        None => 0,
    }
}

/// Whether the newest note, if there is one, has its member in the view, given the greatest epoch that expired.
fn is_viewed(newest: Option<&NoteBody>, expired: u64) -> bool
    ensures { result ≡ is_live_by expired (option_copied newest.entry) }
{
    match newest {
        Some(note) => note.in_view(note.epoch.get() <= expired),
        None => false,
    }
}

/// Whether the member is in the view.
pub fn is_live(notes: &ByMember<NoteBody>, expired: &ByMember<Epoch>, member: MemberId) -> bool
    ensures { result ≡ is_live_at notes.now expired.now member }
{
    is_viewed(notes.get(member), expired_epoch(expired, member))
}

/// How the note compares with the newest: a smaller one is older, an equal one is known.
pub fn fault_beside(kept: &NoteBody, note: &NoteBody) -> Option<Fault>
    ensures { result ≡ note_fault_beside kept.now (note_cmp note.now kept.now) }
{
    let order = note.epoch.get().cmp(&kept.epoch.get());
    match order.then(note.mask.0.cmp(&kept.mask.0)) {
        Ordering::Less => Some(Fault::Older {
            epoch: kept.epoch,
            mask: kept.mask,
        }),
        Ordering::Equal => Some(Fault::Known),
        Ordering::Greater => None,
    }
}

/// What the note does to its member's place in the view, where it is accepted.
pub fn effect_of(
    notes: &ByMember<NoteBody>,
    expired: &ByMember<Epoch>,
    note: &NoteBody,
) -> NoteEffect
    ensures { result
        ≡ effect_by (expired_at expired.now note.now.member) (get notes.now note.now.member)
        note.now }
{
    let epoch = expired_epoch(expired, note.member);
    match (
        is_viewed(notes.get(note.member), epoch),
        is_viewed(Some(note), epoch),
    ) {
        (false, true) => NoteEffect::Enters,
        (true, false) => NoteEffect::Leaves,
        _ => NoteEffect::Stays,
    }
}

/// Whether the accusation takes its member out of the view.
pub fn takes_out(notes: &ByMember<NoteBody>, expired: &ByMember<Epoch>, acc: &AccBody) -> bool
    ensures { result
        ≡ acc_takes_out (expired_at expired.now acc.now.accused) (get notes.now acc.now.accused)
        acc.now }
{
    match notes.get(acc.accused) {
        Some(note) => {
            is_viewed(Some(note), expired_epoch(expired, acc.accused))
                && note.epoch.get() <= acc.epoch.get()
        }
        None => false,
    }
}

/// The greater of the epoch of the accusation and those that expired before.
fn raised_epoch(expired: &ByMember<Epoch>, acc: &AccBody) -> Epoch
    ensures { result ≡ max (expired_at expired.now acc.now.accused) acc.now.epoch }
{
    match expired.get(acc.accused) {
        Some(epoch) => {
            if acc.epoch.get() < epoch.get() {
                *epoch
            } else {
                acc.epoch
            }
        }
        None => acc.epoch,
    }
}

/// Counts the epoch of the accusation as expired.
pub fn raise(expired: &mut ByMember<Epoch>, acc: &AccBody)
    ensures { expired.new ≡ raised_by expired.old acc.now }
{
    let epoch = raised_epoch(expired, acc);
    expired.set(acc.accused, epoch);
}

/// The successors on the rings, of which there are so many, of the member that was the last to join them: its place is
/// looked for where that one was put.
pub fn successors_of_last(
    rings: &Rings,
    count: u8,
    member: MemberId,
    places: &Places,
) -> [Option<MemberId>; MAX_RINGS as usize]
    requires count { count ≡ rings.now.rings }
    requires few { count ≤ MAX_RINGS }
    requires placed { length places.now ≡ rings.now.rings }
    ensures each { (ring : ℕ) → ring < rings.now.rings → slice_index_or result ring None
        ≡ number_after (keys_on ring rings.now.members) (key_at ring places.now member) }
{
    let mut next = [None; MAX_RINGS as usize];
    for ring in 0..count {
        next[ring as usize] = rings.successor_of_last(RingNo(ring), member, places);
    }
    next
}
