//! A member that is accused and removed, and the next life.

use ff_ids::{AccBody, Epoch, Fault, Group, Mask, MemberId, NoteBody, RingNo};
use membership::{Changes, Membership};
use ring_order::number_places;
use std::test::Fail;

fn note(member: MemberId, mask: u64) -> NoteBody {
    NoteBody {
        member,
        epoch: Epoch::new(1),
        mask: Mask(mask),
    }
}

#[test]
fn accused_member_is_removed(rt: HostRuntime) -> Result<(), Fail> {
    let group = Group {
        tag: [7; 16],
        t: 1,
        timeout: 1,
        period: 1,
        misses: 1,
    };
    let (a, b) = (MemberId::new(5), MemberId::new(9));
    let mut out = Changes::new(rt.alloc()).ok().ok_or("no memory")?;
    let mut life = Membership::open(rt.alloc(), group).ok().ok_or("no memory")?;
    assert_eq!(rt; life.add_member(a, number_places(&[10, 2, 5])), Ok(()));
    assert_eq!(rt; life.add_member(b, number_places(&[20, 9, 5])), Ok(()));
    assert_eq!(rt; life.put_note(note(a, 7), &mut out), Ok(()));
    assert_eq!(rt; life.put_note(note(b, 3), &mut out), Ok(()));
    assert_eq!(rt; out.entered().first().copied(), Some(b));
    assert_eq!(rt; life.put_note(note(b, 3), &mut out), Err(Fault::Known));
    let acc = AccBody {
        accuser: a,
        accused: b,
        epoch: Epoch::new(1),
        ring: RingNo(1),
    };
    assert_eq!(rt; life.put_accusation(acc), Ok(()));
    assert_eq!(rt; life.put_accusation(acc), Err(Fault::Standing));
    assert_eq!(rt; life.now(), 0);
    life.tick(&mut out);
    assert_eq!(rt; out.removed().first().copied(), Some(b));
    assert!(rt; life.in_view(a) && !life.in_view(b));
    life.new_life();
    assert!(rt; life.is_member(b) && !life.in_view(a));
    Ok(())
}
