//! Neighbours on a ring where members tie.

ghost use Rattle.std.specs.Prelude.{◌≡◌, ◌<◌, length, All};

use ff_ids::{MemberId, RingNo};
use ring_order::steps::Steps;
use ring_order::{Places, nearest_after, nearest_before, number_places};
use std::marker::Brand;
use std::sync::ledger::{Blank, Ledger};

/// Members 5, 6 and 7: on the first ring 5 and 6 tie and 7 follows, on the second 7 comes first and 5 last.
fn listed() -> [(Places, MemberId); 3]
    ensures { All (λ p. length p.0 ≡ 2) result }
{
    [
        (number_places(&[50, 30]), MemberId::new(5)),
        (number_places(&[50, 20]), MemberId::new(6)),
        (number_places(&[60, 10]), MemberId::new(7)),
    ]
}

/// The neighbours of the member on both sides.
fn neighbours(
    ring: RingNo,
    places: &Places,
    member: MemberId,
    live: &[(Places, MemberId)],
) -> (Option<MemberId>, Option<MemberId>)
    requires own { ring.0 < length places.now }
    requires each { All (λ p. ring.0 < length p.0) live.now }
{
    neighbours_in::<Brand>(Blank::new(1), ring, places, member, live)
}

/// The neighbours of the member on both sides, counted in a ledger of their own.
fn neighbours_in<L: Ledger>(
    blank: Blank,
    ring: RingNo,
    places: &Places,
    member: MemberId,
    live: &[(Places, MemberId)],
) -> (Option<MemberId>, Option<MemberId>)
    requires name { blank.name ≡ L.name }
    requires parts { blank.parts ≡ L.parts }
    requires some { 0 < blank.parts }
    requires own { ring.0 < length places.now }
    requires each { All (λ p. ring.0 < length p.0) live.now }
{
    let mut steps = Steps::<L>::open(blank);
    (
        nearest_before(ring, places, member, live, &mut steps),
        nearest_after(ring, places, member, live, &mut steps),
    )
}

#[test]
fn nobody_else_is_listed(rt: HostRuntime) {
    let places = number_places(&[50, 30]);
    let member = MemberId::new(5);
    assert_eq!(rt; places.rings(), 2);
    let alone = neighbours(RingNo(1), &places, member, &[(places, member)]);
    assert_eq!(rt; alone, (None, None));
}

#[test]
fn members_that_tie_are_in_order_of_number(rt: HostRuntime) {
    let live = listed();
    for ring in 0..2u8 {
        for (places, member) in &live {
            let ring = RingNo(ring);
            let (before, after) = neighbours(ring, places, *member, &live);
            let wanted = match (ring.0, member.get()) {
                (0, 5) => (7, 6),
                (0, 6) => (5, 7),
                (0, _) => (6, 5),
                (_, 5) => (6, 7),
                (_, 6) => (7, 5),
                (_, _) => (5, 6),
            };
            assert_eq!(rt; before.map(|m| m.get()), Some(wanted.0));
            assert_eq!(rt; after.map(|m| m.get()), Some(wanted.1));
        }
    }
}
