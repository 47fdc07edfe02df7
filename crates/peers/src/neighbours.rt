//! To whom a member's records go: its successors on the rings.

ghost use Rattle.std.specs.Prelude.{◌≡◌, ◌≤◌, ◌∷◌, map, true};
ghost use Rattle.std.specs.List.{list_any, range_with_len};
ghost use Rattle.ff_ids.specs.declared.TheConstants.{MAX_TOLERANCE};
ghost use Rattle.ff_ids.specs.Masks.{ring_count};
ghost use Rattle.ff_ids.specs.Views.{State, successor, is_number};
ghost use Rattle.membership.specs.Life.{has_joined};
ghost use Rattle.membership.specs.Holds.{Holds};

use arrayvec::ArrayVec;
use ff_ids::{MAX_RINGS, MemberId, RingNo};
use membership::Membership;

/// How many members a record goes to at most: one on each ring, and one more.
pub const RECIPIENTS: usize = MAX_RINGS as usize + 1;

/// The successors of the member on each ring, behind one more.
pub fn list_successors(
    membership: &Membership,
    me: MemberId,
    also: Option<MemberId>,
) -> ArrayVec<Option<MemberId>, RECIPIENTS>
    requires joined { has_joined membership.now me ≡ true }
    requires few { membership.now.group.t ≤ MAX_TOLERANCE }
    ensures { (st : State) → Holds membership.now st
        → result.items
        ≡ also ∷ map (λ ring. successor st ring me)
        (range_with_len 0 (ring_count membership.now.group.t)) }
{
    let mut listed = ArrayVec::new();
    listed.push(also);
    for ring in 0..2 * membership.group().t + 1 {
        listed.push(membership.successor(RingNo(ring), me));
    }
    listed
}

/// Whether the member is listed.
pub fn is_listed(listed: &[Option<MemberId>], member: MemberId) -> bool
    ensures { result ≡ list_any (λ o. is_number o member) listed.now }
{
    for one in listed {
        if *one == Some(member) {
            return true;
        }
    }
    false
}
