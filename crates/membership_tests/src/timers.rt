//! Timeouts that are reached, and accusations that fall.

ghost use Rattle.std.specs.Prelude.{◌≡◌, ◌<◌};

use ff_ids::{AccBody, Epoch, Group, MemberId, RingNo};
use removal_timer::Timers;
use std::test::Fail;

fn accusation(accused: u16, ring: u8) -> AccBody
    requires { accused < 1024 }
    ensures accused { result.accused ≡ accused }
    ensures ring { result.ring.0 ≡ ring }
{
    AccBody {
        accuser: MemberId::new(1),
        accused: MemberId::new(accused),
        epoch: Epoch::new(1),
        ring: RingNo(ring),
    }
}

#[test]
fn timeout_reached_in_order(rt: HostRuntime) -> Result<(), Fail> {
    let group = Group {
        tag: [0; 16],
        t: 1,
        timeout: 3,
        period: 1,
        misses: 1,
    };
    let alloc = rt.alloc();
    let mut timers = Timers::open(alloc, &group)?;
    let none = timers.standing(MemberId::new(7), RingNo(2));
    assert_eq!(rt; none, None);
    timers.set(accusation(7, 2), 5);
    assert_eq!(rt;
        timers.standing(MemberId::new(7), RingNo(2)),
        Some((accusation(7, 2), 5))
    );
    let mut out = Vec::with_capacity(alloc, 4)?;
    timers.due(7, &mut out);
    assert_eq!(rt; out.len(), 0);
    timers.due(8, &mut out);
    assert_eq!(rt; out.as_slice(), [accusation(7, 2)].as_slice());
    assert_eq!(rt; timers.standing(MemberId::new(7), RingNo(2)), None);
    Ok(())
}

#[test]
fn falls_once_or_with_all(rt: HostRuntime) -> Result<(), Fail> {
    let group = Group {
        tag: [0; 16],
        t: 1,
        timeout: 3,
        period: 1,
        misses: 1,
    };
    let mut timers = Timers::open(rt.alloc(), &group)?;
    timers.set(accusation(7, 2), 5);
    timers.clear(MemberId::new(7), RingNo(1));
    assert!(rt; !timers.is_empty());
    timers.clear(MemberId::new(7), RingNo(2));
    assert!(rt; timers.is_empty());
    timers.clear_all();
    timers.set(accusation(9, 0), 0);
    timers.clear_all();
    assert_eq!(rt; timers.standing(MemberId::new(9), RingNo(0)), None);
    Ok(())
}
