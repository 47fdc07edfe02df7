//! Whom a member watches.

ghost use Rattle.std.specs.Prelude.{◌≡◌, ℕ, ◌+◌, ◌<◌, ◌≤◌, true, length, vec_capacity};
ghost use Rattle.std.specs.List.{prefix_len};
ghost use Rattle.std.specs.Prelude.{nat_lt};
ghost use Rattle.ff_ids.specs.declared.TheConstants.{MASK_BITS, MAX_TOLERANCE};
ghost use Rattle.ff_ids.specs.Masks.{ring_count};
ghost use Rattle.ff_ids.specs.Views.{State};
ghost use Rattle.membership.specs.Life.{has_joined};
ghost use Rattle.membership.specs.Holds.{Holds};
ghost use Rattle.detector.specs.Watching.{watched};
ghost use Rattle.detector.specs.Successors.{watched_on as watched_by_successor, with_watched};

use ff_ids::{Epoch, MAX_RINGS, MemberId, RingNo};
use membership::Membership;

/// How many members one member can watch: one on each ring.
pub const WATCHED: usize = MAX_RINGS as usize;

/// A member that is watched, and the epoch of its newest note.
#[derive(Clone, Copy)]
pub struct Watched {
    pub member: MemberId,
    pub epoch: Epoch,
}

/// The successor of this member on the ring, where its newest note enables the ring. This member's place there is looked
/// for from where it was last.
fn watched_on(
    membership: &Membership,
    ring: RingNo,
    me: MemberId,
    near: &mut usize,
) -> Option<Watched>
    requires ring { ring.0 < ring_count membership.now.group.t }
    requires few { ring.0 < MASK_BITS }
    requires joined { has_joined membership.now me ≡ true }
    ensures { (s : State) → Holds membership.now s → result ≡ watched_by_successor s ring.0 me }
{
    let Some(member) = membership.successor_near(ring, me, near) else {
        return None;
    };
    let Some(note) = membership.note_of(member) else {
        return None;
    };
    if !note.mask.enables(ring) {
        return None;
    }
    Some(Watched {
        member,
        epoch: note.epoch,
    })
}

/// How many of the watched have a smaller number.
fn place_of(list: &[Watched], member: MemberId) -> usize
    ensures value { result ≡ prefix_len (λ w. nat_lt w.member member) list.now }
    ensures range { result ≤ length list.now }
{
    list.iter().take_while(|w| w.member < member).count()
}

/// Puts one more into the list, which is in order of number, where its number isn't there yet.
fn put(list: &mut Vec<Watched>, watched: Watched)
    requires room { length list.old.items < vec_capacity list.old }
    ensures items { list.new.items ≡ with_watched watched list.old.items }
    ensures few { length list.new.items ≤ length list.old.items + 1 }
    ensures room { vec_capacity list.new ≡ vec_capacity list.old }
{
    let place = place_of(list, watched.member);
    if place < list.len() && list[place].member == watched.member {
        return;
    }
    let _ = list.insert(place, watched);
}

/// Lists those that this member watches, in order of number. Its own places on the rings are looked for from where they
/// were last.
pub fn watch_all(
    membership: &Membership,
    me: MemberId,
    near: &mut [usize; WATCHED],
    list: &mut Vec<Watched>,
)
    requires few { membership.now.group.t ≤ MAX_TOLERANCE }
    requires joined { has_joined membership.now me ≡ true }
    requires room { WATCHED ≤ vec_capacity list.old }
    ensures items { (s : State) → Holds membership.now s → list.new.items
        ≡ watched membership.now.group.t s me }
    ensures few { length list.new.items ≤ WATCHED }
    ensures room { vec_capacity list.new ≡ vec_capacity list.old }
{
    list.clear();
    let _number = me.get();
    if !membership.in_view(me) {
        return;
    }
    for ring in 0..2 * membership.group().t + 1 {
        if let Some(watched) = watched_on(membership, RingNo(ring), me, &mut near[ring as usize]) {
            put(list, watched);
        }
    }
}
