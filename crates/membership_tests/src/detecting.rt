//! Lives of a few ticks, whose nonces come from the seed of zeros: they were computed by another program.

ghost use Rattle.std.specs.Prelude.{◌≡◌, true, length, IfOk};
ghost use Rattle.ff_ids.specs.Masks.{ring_count};
ghost use Rattle.membership.specs.Life.{has_joined};

use detector::{Detector, Found};
use ff_ids::{Epoch, Group, Mask, MemberId, NoteBody};
use membership::{Changes, Membership};
use ring_order::{Places, number_places};
use std::alloc::Global;
use std::test::Fail;

const GROUP: Group = Group {
    tag: [7; 16],
    t: 1,
    timeout: 3,
    period: 1,
    misses: 2,
};

/// The nonces of three due ticks.
const NONCES: [[u64; 2]; 3] = [
    [0xade0_b876_903d_f1a0, 0xe56a_5d40_28bd_8653],
    [0xb819_d2bd_1aed_8da0, 0xccef_36a8_c70d_778b],
    [0x7c59_41da_8d48_5751, 0x3fe0_2477_374a_d8b8],
];

/// One ping to each of members 2 and 3.
fn pings(nonces: [u64; 2]) -> [(MemberId, u64); 2] {
    [(MemberId::new(2), nonces[0]), (MemberId::new(3), nonces[1])]
}

/// The note of the member that enables all three rings.
fn note(member: MemberId) -> NoteBody {
    NoteBody {
        member,
        epoch: Epoch::new(1),
        mask: Mask(7),
    }
}

/// Adds a member with its note.
fn join(
    life: &mut Membership,
    member: MemberId,
    places: Places,
    out: &mut Changes,
) -> Result<(), Fail>
    requires { length places ≡ ring_count life.old.group.t }
    ensures { life.new.group ≡ life.old.group }
{
    if life.add_member(member, places).is_err() {
        return Err(Fail::new("joined"));
    }
    match life.put_note(note(member), out) {
        Ok(()) => Ok(()),
        Err(_) => Err(Fail::new("noted")),
    }
}

/// Members 1, 2 and 3: the first watches the second on two rings, and the third on the other.
fn three_members(alloc: Global, group: Group) -> Result<Membership, Fail>
    requires { group.t ≡ 1 }
    ensures group { IfOk result (λ m. m.group ≡ group) }
    ensures joined { IfOk result (λ m. has_joined m 1 ≡ true) }
{
    let mut out = Changes::new(alloc)?;
    let mut life = Membership::open(alloc, group)?;
    join(
        &mut life,
        MemberId::new(2),
        number_places(&[20, 30, 20]),
        &mut out,
    )?;
    join(
        &mut life,
        MemberId::new(3),
        number_places(&[30, 20, 30]),
        &mut out,
    )?;
    join(
        &mut life,
        MemberId::new(1),
        number_places(&[10, 10, 10]),
        &mut out,
    )?;
    if !life.is_member(MemberId::new(1)) {
        return Err(Fail::new("not a member"));
    }
    Ok(life)
}

/// Whether a tick of member 1 finds these silent, and sends these pings.
fn finds(
    detector: &mut Detector,
    due: bool,
    life: &Membership,
    silent: &[MemberId],
    pings: &[(MemberId, u64)],
    out: &mut Found,
) -> bool
    requires group { life.now.group ≡ detector.old.group }
    requires joined { has_joined life.now 1 ≡ true }
    ensures { detector.new.group ≡ detector.old.group }
{
    detector.tick(due, life, MemberId::new(1), out);
    out.silent() == silent && out.pings() == pings
}

/// Two due ticks: the third member answers both pings, the second none.
fn begins(detector: &mut Detector, life: &Membership, out: &mut Found) -> bool
    requires group { life.now.group ≡ detector.old.group }
    requires joined { has_joined life.now 1 ≡ true }
    ensures { detector.new.group ≡ detector.old.group }
{
    let (second, third) = (MemberId::new(2), MemberId::new(3));
    let first_tick = finds(detector, true, life, &[], &pings(NONCES[0]), out);
    let heard = detector.pong(third, NONCES[0][1]);
    let mistaken = detector.pong(second, NONCES[0][1]);
    let second_tick = finds(detector, true, life, &[], &pings(NONCES[1]), out);
    let again = detector.pong(third, NONCES[1][1]);
    first_tick && heard && !mistaken && second_tick && again
}

/// Three more, of which the second is due: the second member answers its ping, but not by the nonce of the first.
fn goes_on(detector: &mut Detector, life: &Membership, out: &mut Found) -> bool
    requires group { life.now.group ≡ detector.old.group }
    requires joined { has_joined life.now 1 ≡ true }
{
    let second = MemberId::new(2);
    let third_tick = finds(detector, false, life, &[second], &[], out);
    let fourth_tick = finds(detector, true, life, &[second], &pings(NONCES[2]), out);
    let forgotten = detector.pong(second, NONCES[0][0]);
    let heard = detector.pong(second, NONCES[2][0]);
    let fifth_tick = finds(detector, false, life, &[], &[], out);
    third_tick && fourth_tick && !forgotten && heard && fifth_tick
}

#[test]
fn silent_after_two_unanswered_pings(rt: HostRuntime) -> Result<(), Fail> {
    let life = three_members(rt.alloc(), GROUP)?;
    let mut detector = Detector::open(rt.alloc(), &GROUP, [0; 32])?;
    let mut out = Found::new(rt.alloc())?;
    assert!(rt; out.silent().is_empty() && out.pings().is_empty());
    assert!(rt; begins(&mut detector, &life, &mut out));
    assert!(rt; goes_on(&mut detector, &life, &mut out));
    Ok(())
}

/// A due tick, of whose pings the third member's gets another nonce behind it: its pong with that one counts, and not
/// with the one that was drawn. The next ping has the next nonce that is drawn.
fn learns(detector: &mut Detector, life: &Membership, out: &mut Found) -> bool
    requires group { life.now.group ≡ detector.old.group }
    requires joined { has_joined life.now 1 ≡ true }
{
    let (second, third) = (MemberId::new(2), MemberId::new(3));
    let first_tick = finds(detector, true, life, &[], &pings(NONCES[0]), out);
    detector.renonce(third, 7);
    let drawn = detector.pong(third, NONCES[0][1]);
    let learned = detector.pong(third, 7);
    let other = detector.pong(second, NONCES[0][0]);
    let second_tick = finds(detector, true, life, &[], &pings(NONCES[1]), out);
    first_tick && !drawn && learned && other && second_tick
}

#[test]
fn nonce_learned_behind_the_tick(rt: HostRuntime) -> Result<(), Fail> {
    let life = three_members(rt.alloc(), GROUP)?;
    let mut detector = Detector::open(rt.alloc(), &GROUP, [0; 32])?;
    let mut out = Found::new(rt.alloc())?;
    assert!(rt; learns(&mut detector, &life, &mut out));
    Ok(())
}
