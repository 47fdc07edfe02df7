//! Floor: node. The mask of the note with which a member answers an accusation: it disables the accusation's ring, and
//! enables more than t others. No call takes memory. `node_core` calls it.
#![tactic(auto)]

ghost use Rattle.std.specs.Prelude.{◌≡◌, ℕ, ◌^◌, ◌<◌, ◌≤◌, ◌↔◌, true, false, bit_xor, MatchOption};
ghost use Rattle.ff_ids.specs.declared.TheConstants.{MASK_BITS, MAX_TOLERANCE};
ghost use Rattle.ff_ids.specs.Masks.{enables, good_mask as is_good};
ghost use Rattle.rebuttal.specs.Rebuttals.{IsAgainst, answering_mask, is_lowest_disabled};

use ff_ids::{AccBody, Bits, MASK_BITS, Mask, NoteBody, RingNo, good_mask};

/// The mask with this one ring switched.
fn switched(mask: Mask, ring: RingNo) -> Mask
    requires { ring.0 < MASK_BITS }
    ensures { result.0 ≡ bit_xor mask.0 (2 ^ ring.0) }
{
    Mask(mask.0 ^ (1 << ring.0))
}

/// The lowest-numbered of the first rings that the mask disables.
fn lowest_disabled(mask: Mask, rings: u8) -> Option<RingNo>
    requires { rings < MASK_BITS }
    ensures { MatchOption result ((r : ℕ) → r < rings → enables mask.0 r ≡ true)
        (λ r. (r.0 < rings) × (is_lowest_disabled mask.0 r.0 ≡ true)) }
{
    for ring in 0..rings {
        if !mask.enables(RingNo(ring)) {
            return Some(RingNo(ring));
        }
    }
    None
}

/// The mask of the note that answers an accusation on this ring, in a group of tolerance `t`: the ring
/// is disabled, and where `t` rings are disabled already, the lowest-numbered of those is enabled again. The
/// mask is good and enables the ring.
pub fn answer_mask(t: u8, mask: Mask, ring: RingNo) -> Mask
    requires tolerance { 1 ≤ t × t ≤ MAX_TOLERANCE }
    requires good { is_good t mask.0 ≡ true }
    requires enabled { enables mask.0 ring.0 ≡ true }
    ensures good { is_good t result.0 ≡ true }
    ensures lacks { enables result.0 ring.0 ≡ false }
    ensures exact { result.0 ≡ answering_mask t mask.0 ring.0 }
{
    let without = switched(mask, ring);
    if good_mask(t, without) {
        return without;
    }
    match lowest_disabled(mask, 2 * t + 1) {
        Some(lowest) => switched(without, lowest),
        None => without,
    }
}

/// Whether the ring of this number is enabled. No mask has a bit at or above `MASK_BITS`.
fn is_enabled(rings: Bits, ring: u8) -> bool
    ensures { result ≡ enables rings ring }
{
    ring < MASK_BITS && Mask(rings).enables(RingNo(ring))
}

/// Whether an accepted accusation is against the member whose newest note this is: accused, epoch and enabled
/// ring are the note's.
pub fn must_answer(own: &NoteBody, acc: &AccBody) -> bool
    ensures { (result ≡ true) ↔ IsAgainst own.now acc.now }
{
    acc.accused == own.member && acc.epoch == own.epoch && is_enabled(own.mask.0, acc.ring.0)
}
