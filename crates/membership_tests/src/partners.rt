//! What is lacking between two summaries, and the partners and the pages of rounds.

ghost use Rattle.std.specs.Prelude.{◌≡◌};

use ff_ids::{
    Epoch, Group, Heal, MAX_TOLERANCE, Mask, MemberId, NoteBody, RecordKey, RingNo, Summary,
    SummaryEntry,
};
use fields::NoMemory;
use gossip::{exchange_of, lacks, page_of};
use membership::{Changes, Membership};
use ring_order::number_places;
use std::alloc::Global;
use std::process::Abort;
use std::test::Fail;

/// An entry, as member, epoch, mask and rings.
type Row = (MemberId, u64, u64, u64);

fn summary(rows: &[Row]) -> Summary {
    let mut summary = Summary::new();
    for (member, epoch, mask, rings) in rows {
        if summary.entries().len() < 32 {
            summary.push(SummaryEntry {
                member: *member,
                epoch: *epoch,
                mask: Mask(*mask),
                rings: *rings,
            });
        }
    }
    summary
}

/// What theirs lacks, behind a key that was there.
fn lacking(alloc: Global, mine: &[Row], theirs: &[Row]) -> Result<Vec<RecordKey>, NoMemory> {
    let mut out = vec![in alloc; RecordKey::Note(MemberId::new(9))]?;
    lacks(&summary(mine), &summary(theirs), &mut out)?;
    Ok(out)
}

#[test]
fn a_new_member_and_a_new_accusation_are_lacking(rt: HostRuntime) -> Result<(), Fail> {
    let (a, b, c) = (MemberId::new(0), MemberId::new(1), MemberId::new(2));
    let found = lacking(
        rt.alloc(),
        &[(a, 1, 7, 0), (b, 1, 6, 2), (c, 0, 0, 0)],
        &[(a, 1, 7, 0), (b, 1, 6, 0)],
    )?;
    let wanted = [
        RecordKey::Note(MemberId::new(9)),
        RecordKey::Certificate(c),
        RecordKey::Accusation(b, RingNo(1)),
    ];
    assert_eq!(rt; found.as_slice(), wanted.as_slice());
    Ok(())
}

#[test]
fn a_newer_note_and_its_accusations_are_lacking(rt: HostRuntime) -> Result<(), Fail> {
    let a = MemberId::new(0);
    let found = lacking(rt.alloc(), &[(a, 2, 7, 2)], &[(a, 1, 7, 7)])?;
    let wanted = [
        RecordKey::Note(MemberId::new(9)),
        RecordKey::Note(a),
        RecordKey::Accusation(a, RingNo(1)),
    ];
    assert_eq!(rt; found.as_slice(), wanted.as_slice());
    Ok(())
}

#[test]
fn nothing_is_lacking_where_theirs_is_newer(rt: HostRuntime) -> Result<(), Fail> {
    let a = MemberId::new(0);
    let found = lacking(rt.alloc(), &[(a, 2, 7, 2)], &[(a, 3, 7, 0)])?;
    assert_eq!(rt;
        found.as_slice(),
        [RecordKey::Note(MemberId::new(9))].as_slice()
    );
    Ok(())
}

#[test]
fn each_page_comes_for_as_many_rounds_as_there_are_rings(rt: HostRuntime) {
    let rows = [
        (0u64, 3u8, 63u16, 0u8),
        (2, 3, 63, 0),
        (3, 3, 63, 1),
        (6, 3, 63, 0),
        (5, 3, 31, 0),
        (992, 31, 1023, 0),
        (961, 31, 1023, 31),
        (2016, 63, 1023, 0),
        (1953, 63, 1023, 31),
        (u64::MAX, 1, 1023, 31),
    ];
    for (round, k, highest, page) in &rows {
        if *k > 0 && *highest < 1024 {
            assert_eq!(rt; page_of(*round, *k, MemberId::new(*highest)), *page);
        }
    }
}

/// The member joins with these places and enters by its first note.
fn enter(life: &mut Membership, out: &mut Changes, member: MemberId, places: &[u32; 3])
    requires { life.old.group.t ≡ 1 }
    ensures { life.new.group.t ≡ 1 }
{
    let _joined = life.add_member(member, number_places(places));
    let note = NoteBody {
        member,
        epoch: Epoch::new(1),
        mask: Mask(7),
    };
    let _entered = life.put_note(note, out);
}

/// A life in whose view are 5, 9 and 11: in this order on rings 0 and 2, and 5, 11, 9 on ring 1.
fn three(alloc: Global) -> Result<Membership, NoMemory> {
    let group = Group {
        tag: [7; 16],
        t: 1,
        timeout: 1,
        period: 1,
        misses: 1,
    };
    let mut out = Changes::new(alloc)?;
    let mut life = Membership::open(alloc, group)?;
    enter(&mut life, &mut out, MemberId::new(5), &[10, 2, 5]);
    enter(&mut life, &mut out, MemberId::new(9), &[20, 9, 5]);
    enter(&mut life, &mut out, MemberId::new(11), &[30, 5, 7]);
    Ok(life)
}

/// The partner and the page of the round of 5, of which one of so many goes out of the view, or with 0 none.
fn exchange(life: &Membership, every: u16, round: u64) -> Option<(u16, u8)> {
    let (me, last) = (MemberId::new(5), MemberId::new(50));
    let certified = [
        me,
        MemberId::new(9),
        MemberId::new(11),
        MemberId::new(40),
        last,
    ];
    if life.is_member(me) && life.group().t <= MAX_TOLERANCE {
        let found = exchange_of(Heal::new(every, 0), life, &certified, last, me, round)?;
        Some((found.partner.get(), found.page))
    } else {
        None
    }
}

/// These are the partner and the page of the round.
fn compare_rounds(rt: &impl Abort, life: &Membership, every: u16, rows: &[(u64, u16, u8)]) {
    for (round, partner, page) in rows {
        assert_eq!(rt; exchange(life, every, *round), Some((*partner, *page)));
    }
}

#[test]
fn one_round_of_so_many_goes_out_of_the_view(rt: HostRuntime) -> Result<(), Fail> {
    let life = three(rt.alloc())?;
    assert_eq!(rt; life.view().len(), 3);
    let rows = [
        (0u64, 9u16, 0u8),
        (1, 11, 0),
        (2, 40, 1),
        (3, 9, 0),
        (4, 9, 1),
        (5, 50, 1),
        (8, 40, 1),
        (u64::MAX, 11, 1),
    ];
    compare_rounds(&rt, &life, 3, &rows);
    Ok(())
}

#[test]
fn no_round_goes_out_of_the_view_without_the_option(rt: HostRuntime) -> Result<(), Fail> {
    let life = three(rt.alloc())?;
    compare_rounds(&rt, &life, 0, &[(2, 9, 0), (3, 9, 1), (5, 9, 1)]);
    Ok(())
}
