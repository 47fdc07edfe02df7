//! Whether a member has accused another, and on which ring it may.

ghost use Rattle.std.specs.Prelude.{◌≡◌, ◌≤◌, ◌<◌, ◌&&◌, true, filter, IfSome};
ghost use Rattle.std.specs.List.{list_any, range_with_len, slice_get};
ghost use Rattle.std.specs.Option.{option_map};
ghost use Rattle.ff_ids.specs.declared.TheConstants.{MASK_BITS, MAX_TOLERANCE};
ghost use Rattle.ff_ids.specs.Masks.{ring_count, enables, enabled};
ghost use Rattle.ff_ids.specs.Views.{State, monitor, is_number};
ghost use Rattle.membership.specs.Life.{has_joined};
ghost use Rattle.membership.specs.Holds.{Holds};
ghost use Rattle.membership.specs.Reports.{kept_against};
ghost use Rattle.node_rules.specs.Ticking.{is_by as is_accused_by};

use ff_ids::{AccBody, MemberId, NoteBody, RingNo};
use membership::Membership;

/// Whether it is an accusation by this member.
fn is_by(kept: Option<AccBody>, me: MemberId) -> bool
    ensures { result ≡ is_accused_by me kept }
{
    match kept {
        Some(acc) => acc.accuser == me,
        None => false,
    }
}

/// Whether an accusation by this member against another is kept.
pub fn has_accused(membership: &Membership, me: MemberId, member: MemberId) -> bool
    requires few { membership.now.group.t ≤ MAX_TOLERANCE }
    ensures { (st : State) → Holds membership.now st
        → result
        ≡ list_any (λ ring. is_accused_by me (kept_against st.kept member ring))
        (range_with_len 0 (ring_count membership.now.group.t)) }
{
    for ring in 0..2 * membership.group().t + 1 {
        if is_by(membership.standing(member, RingNo(ring)), me) {
            return true;
        }
    }
    false
}

/// Whether the note enables the ring, and this member is the other's monitor there.
fn monitors_on(
    membership: &Membership,
    me: MemberId,
    member: MemberId,
    note: &NoteBody,
    ring: RingNo,
) -> bool
    requires joined { has_joined membership.now member ≡ true }
    requires ring { ring.0 < ring_count membership.now.group.t }
    requires few { ring.0 < MASK_BITS }
    ensures { (st : State) → Holds membership.now st
        → result ≡ (enables note.now.mask.0 ring.0 && is_number (monitor st ring.0 member) me) }
{
    note.mask.enables(ring) && membership.monitor(ring, member) == Some(me)
}

/// The lowest of the rings that the note enables on which this member is the other's monitor.
pub fn ring_for(
    membership: &Membership,
    me: MemberId,
    member: MemberId,
    note: &NoteBody,
) -> Option<RingNo>
    requires few { membership.now.group.t ≤ MAX_TOLERANCE }
    requires joined { has_joined membership.now member ≡ true }
    ensures ring { (st : State) → Holds membership.now st → option_map (λ r. r.0) result
        ≡ slice_get
        (filter (λ ring. is_number (monitor st ring member) me)
        (enabled (ring_count membership.now.group.t) note.now.mask.0)) 0 }
    ensures below { IfSome result (λ r. r.0 < ring_count membership.now.group.t) }
{
    for ring in 0..2 * membership.group().t + 1 {
        let ring = RingNo(ring);
        if monitors_on(membership, me, member, note, ring) {
            return Some(ring);
        }
    }
    None
}
