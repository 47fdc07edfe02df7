//! The monitors among members that joined, and the comparisons of a question.

ghost use Rattle.std.specs.Prelude.{◌≡◌, ◌+◌, ◌<◌, [], length};

use ff_ids::{Group, MemberId, RingNo};
use monitor_rule::Rings;
use ring_order::number_places;
use ring_order::steps::Steps;
use std::marker::Brand;
use std::sync::ledger::{Blank, Ledger};
use std::test::Fail;

const GROUP: Group = Group {
    tag: [7; 16],
    t: 1,
    timeout: 3,
    period: 1,
    misses: 1,
};

#[test]
fn neighbours_of_the_joined(rt: HostRuntime) -> Result<(), Fail> {
    let mut rings = Rings::open(rt.alloc(), &GROUP)?;
    let places = number_places(&[30, 2, 5]);
    rings.join(MemberId::new(7), &places);
    let own = number_places(&[20, 9, 5]);
    let ring = RingNo(0);
    assert_eq!(rt;
        rings.monitor(ring, MemberId::new(3), &own),
        Some(MemberId::new(7))
    );
    assert_eq!(rt; rings.successor(ring, MemberId::new(7), &own), None);
    rings.leave(MemberId::new(7), &places);
    assert_eq!(rt; rings.monitor(ring, MemberId::new(3), &own), None);
    Ok(())
}

/// Joins members 0 to 510 at the even places.
fn join_511(rings: &mut Rings)
    requires { rings.old ≡ record { rings = 3; members = [] } }
    ensures rings { rings.new.rings ≡ 3 }
    ensures many { length rings.new.members ≡ 511 }
{
    for number in 0..511u16 {
        let place = 2 * u32::from(number) + 2;
        rings.join(MemberId::new(number), &number_places(&[place; 3]));
    }
}

/// One question among 511 members.
fn ask<L: Ledger>(
    rings: &Rings,
    member: MemberId,
    place: u32,
    steps: &mut Steps<L>,
) -> Option<MemberId>
    requires rings { rings.now.rings ≡ 3 }
    requires many { length rings.now.members ≡ 511 }
    ensures { steps.new ≡ steps.old + 9 }
{
    rings.monitor_counted(RingNo(0), member, &number_places(&[place; 3]), steps)
}

/// Whether the monitors of members 511 to 1,022, which are at the odd places, are as they must be.
fn ask_512<L: Ledger>(rings: &Rings, blank: Blank) -> bool
    requires name { blank.name ≡ L.name }
    requires parts { blank.parts ≡ L.parts }
    requires some { 0 < blank.parts }
    requires rings { rings.now.rings ≡ 3 }
    requires many { length rings.now.members ≡ 511 }
{
    let mut steps = Steps::<L>::open(blank);
    for number in 511..1023u16 {
        let place = 2 * u32::from(number - 511) + 1;
        let monitor = ask(rings, MemberId::new(number), place, &mut steps);
        let wanted = if number == 511 { 510 } else { number - 512 };
        if monitor.map(|m| m.get()) != Some(wanted) {
            return false;
        }
    }
    true
}

#[test]
fn questions_of_nine_steps(rt: HostRuntime) -> Result<(), Fail> {
    let mut rings = Rings::open(rt.alloc(), &GROUP)?;
    join_511(&mut rings);
    assert!(rt; ask_512::<Brand>(&rings, Blank::new(1)));
    Ok(())
}
