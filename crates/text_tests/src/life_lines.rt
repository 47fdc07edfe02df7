use ff_ids::{AccBody, Epoch, Fault, KeyBytes, Mask, MemberId, NoteBody, RingNo};
use life_events::{Event, Verdict, What, write_event, write_members, write_verdict};
use std::test::Fail;

fn at(moment: u64, what: What) -> Event {
    Event { moment, what }
}

fn accusation() -> AccBody {
    AccBody {
        accuser: MemberId::new(3),
        accused: MemberId::new(1023),
        epoch: Epoch::new(u64::MAX),
        ring: RingNo(4),
    }
}

fn note(epoch: Epoch, mask: u64) -> NoteBody {
    NoteBody {
        member: MemberId::new(2),
        epoch,
        mask: Mask(mask),
    }
}

#[test]
fn writes_each_event(rt: HostRuntime) -> Result<(), Fail> {
    let events = [
        at(0, What::Entered(MemberId::new(0))),
        at(10, What::Expired(accusation())),
        at(3, What::Removed(MemberId::new(2))),
        at(u64::MAX, What::Fell(accusation())),
    ];
    let mut out = Vec::new(rt.alloc());
    for event in &events {
        write_event(event, &mut out)?;
        out.push(b'\n')?;
    }
    let lines = "at 0 entered 0
at 10 expired 3 1023 18446744073709551615 4
at 3 removed 2
at 18446744073709551615 fell 3 1023 18446744073709551615 4
";
    assert_eq!(rt; out.as_slice(), lines.as_bytes());
    Ok(())
}

#[test]
fn writes_each_fault(rt: HostRuntime) -> Result<(), Fail> {
    let epoch = Epoch::new(5);
    let monitor = Some(MemberId::new(20));
    let faults = [
        Fault::AlreadyMember,
        Fault::UnknownMember,
        Fault::BadMask,
        Fault::Known,
        Fault::Older {
            epoch,
            mask: Mask(31),
        },
        Fault::SelfAccusation,
        Fault::BadRing,
        Fault::NoNote,
        Fault::OtherEpoch { kept: epoch },
        Fault::NotInView,
        Fault::RingDisabled,
        Fault::NotMonitor { monitor },
        Fault::NotMonitor { monitor: None },
        Fault::Standing,
        Fault::BadSignature,
        Fault::OwnAhead {
            stored: note(epoch, 7),
            seen: note(Epoch::new(9), 3),
        },
        Fault::OtherCertificate {
            port: 20002,
            key: KeyBytes::Lms(
                *b"\x00\x00\x00\x05\x00\x00\x00\x04identifier of 16root of thirty-two bytes, or 32\xff",
            ),
        },
        Fault::OtherCertificate {
            port: 20002,
            key: KeyBytes::Hss(
                *b"\x00\x00\x00\x02\x00\x00\x00\x05\x00\x00\x00\x04identifier of 16root of thirty-two bytes, or 32\xff",
            ),
        },
    ];
    let mut out = Vec::new(rt.alloc());
    for fault in &faults {
        write_verdict(&Verdict::Refused(*fault), &mut out)?;
        out.push(b',')?;
    }
    let texts = "refused already-member,refused unknown-member,refused bad-mask,refused known,\
refused older 5 31,refused self-accusation,refused bad-ring,refused no-note,refused other-epoch 5,\
refused not-in-view,refused ring-disabled,refused not-monitor 20,refused not-monitor none,\
refused standing,refused bad-signature,refused own-ahead 5 7 9 3,\
refused other-certificate 20002 0000000500000004\
6964656e746966696572206f66203136726f6f74206f66207468697274792d74776f2062797465732c206f72203332ff,\
refused other-certificate 20002 000000020000000500000004\
6964656e746966696572206f66203136726f6f74206f66207468697274792d74776f2062797465732c206f72203332ff,";
    assert_eq!(rt; out.as_slice(), texts.as_bytes());
    Ok(())
}

#[test]
fn writes_members_and_verdicts(rt: HostRuntime) -> Result<(), Fail> {
    let members = [MemberId::new(0), MemberId::new(7), MemberId::new(1023)];
    let mut out = Vec::new(rt.alloc());
    for count in 0..4 {
        write_members(&members[..count], &mut out)?;
        out.push(b',')?;
    }
    let verdicts = [
        Verdict::Monitor(Some(members[2])),
        Verdict::Monitor(None),
        Verdict::Joined,
        Verdict::Accepted,
        Verdict::Life(2),
    ];
    for verdict in &verdicts {
        write_verdict(verdict, &mut out)?;
        out.push(b',')?;
    }
    assert_eq!(rt;
        out.as_slice(),
        b"nobody,0,0 7,0 7 1023,1023,none,joined,accepted,2,".as_slice()
    );
    Ok(())
}
