//! Answers in groups of 3, of 5, of 31 and of 63 rings.

use ff_ids::{AccBody, Epoch, Mask, MemberId, NoteBody, RingNo, good_mask};
use rebuttal::{answer_mask, must_answer};

/// The answer's rings, where the mask is good and enables the ring.
fn answered(t: u8, rings: u64, ring: u8) -> Option<u64> {
    let (mask, ring) = (Mask(rings), RingNo(ring));
    if 1 <= t && t <= 31 && ring.0 < 64 && good_mask(t, mask) && mask.enables(ring) {
        Some(answer_mask(t, mask, ring).0)
    } else {
        None
    }
}

#[test]
fn the_ring_is_disabled_and_the_lowest_enabled_again(rt: HostRuntime) {
    let rows = [
        (1u8, 7u64, 0u8, 6u64),
        (1, 7, 2, 3),
        (1, 6, 1, 5),
        (1, 5, 2, 3),
        (2, 31, 0, 30),
        (2, 30, 1, 28),
        (2, 28, 2, 25),
        (2, 14, 3, 7),
        (15, 0x7fff_ffff, 30, 0x3fff_ffff),
        (15, 0x7fff_8000, 30, 0x3fff_8001),
        (31, 0x7fff_ffff_ffff_ffff, 62, 0x3fff_ffff_ffff_ffff),
        (31, 0x7fff_ffff_ffff_ffff, 32, 0x7fff_fffe_ffff_ffff),
        (31, 0x7fff_ffff_8000_0000, 62, 0x3fff_ffff_8000_0001),
        (31, 0xffff_ffff, 0, 0x1_ffff_fffe),
    ];
    for (t, rings, ring, answer) in &rows {
        assert_eq!(rt; answered(*t, *rings, *ring), Some(*answer));
    }
}

#[test]
fn an_accusation_is_answered_where_it_is_against_the_note(rt: HostRuntime) {
    let own = NoteBody {
        member: MemberId::new(1),
        epoch: Epoch::new(2),
        mask: Mask(6),
    };
    let against = AccBody {
        accuser: MemberId::new(2),
        accused: MemberId::new(1),
        epoch: Epoch::new(2),
        ring: RingNo(1),
    };
    let others = [
        AccBody {
            accused: MemberId::new(2),
            ..against
        },
        AccBody {
            epoch: Epoch::new(1),
            ..against
        },
        AccBody {
            ring: RingNo(0),
            ..against
        },
        AccBody {
            ring: RingNo(200),
            ..against
        },
    ];
    assert_eq!(rt; must_answer(&own, &against), true);
    for other in &others {
        assert_eq!(rt; must_answer(&own, other), false);
    }
}
