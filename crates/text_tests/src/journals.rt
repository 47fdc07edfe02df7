mod turns;

use ff_ids::{AccBody, Epoch, Fault, Mask, MemberId, NoteBody, RingNo};
use fields::Bytes;
use journal::{Event, EventFault, What, read_event, write_event};
use records::Body;
use std::alloc::Global;
use std::test::Fail;

/// The text of each kind of event, but for faults.
const EVENTS: [&str; 25] = [
    "at 0 entered 0",
    "at 10 expired 3 1023 18446744073709551615 255",
    "at 3 removed 2",
    "at 18446744073709551615 fell 3 1023 5 4",
    "at 0 spent 1 note 1 2 6",
    "at 0 spent 2 note 1 3 4294967303",
    "at 0 spent 4294967295 accuse 2 1 1 0",
    "at 0 spent 0 cert 1023 65535 0000000500000004101112131415161718191a1b1c1d1e1fe0e1e2e3e4e5e6e7e8e9eaebecedeeeff0f1f2f3f4f5f6f7f8f9fafbfcfdfeff",
    "at 0 took accuse 2 1 1 0 : accepted",
    "at 4 took cert 7 20007 0000000500000004101112131415161718191a1b1c1d1e1fe0e1e2e3e4e5e6e7e8e9eaebecedeeeff0f1f2f3f4f5f6f7f8f9fafbfcfdfeff : accepted",
    "at 18446744073709551615 took cert 1023 65535 0000000500000004101112131415161718191a1b1c1d1e1fe0e1e2e3e4e5e6e7e8e9eaebecedeeeff0f1f2f3f4f5f6f7f8f9fafbfcfdfeff : refused other-certificate 65535 0000000500000004101112131415161718191a1b1c1d1e1fe0e1e2e3e4e5e6e7e8e9eaebecedeeeff0f1f2f3f4f5f6f7f8f9fafbfcfdfeff",
    "at 0 spent 0 cert 1023 65535 000000020000000500000004101112131415161718191a1b1c1d1e1fe0e1e2e3e4e5e6e7e8e9eaebecedeeeff0f1f2f3f4f5f6f7f8f9fafbfcfdfeff",
    "at 4 took cert 7 20007 000000020000000500000004101112131415161718191a1b1c1d1e1fe0e1e2e3e4e5e6e7e8e9eaebecedeeeff0f1f2f3f4f5f6f7f8f9fafbfcfdfeff : refused other-certificate 20008 0000000500000004101112131415161718191a1b1c1d1e1fe0e1e2e3e4e5e6e7e8e9eaebecedeeeff0f1f2f3f4f5f6f7f8f9fafbfcfdfeff",
    "at 7 bad-form 18446744073709551615",
    "at 7 ping 2 0",
    "at 7 pong 2 18446744073709551615 counted",
    "at 7 pong 2 1 stray",
    "at 7 summary 2 31 0",
    "at 7 summary 2 0 1",
    "at 9 silent 5",
    "at 9 exhausted 32",
    "at 9 sent 0 2 00ff7a",
    "at 9 lost 3",
    "at 9 got 18446744073709551615",
    "at 9 stopped",
];

/// The text of each kind of fault.
const FAULTS: [&str; 19] = [
    "already-member",
    "unknown-member",
    "bad-mask",
    "known",
    "older 5 31",
    "older 5 18446744073709551615",
    "bad-signature",
    "own-ahead 5 7 9 3",
    "other-certificate 20002 0000000500000004101112131415161718191a1b1c1d1e1fe0e1e2e3e4e5e6e7e8e9eaebecedeeeff0f1f2f3f4f5f6f7f8f9fafbfcfdfeff",
    "other-certificate 20002 000000020000000500000004101112131415161718191a1b1c1d1e1fe0e1e2e3e4e5e6e7e8e9eaebecedeeeff0f1f2f3f4f5f6f7f8f9fafbfcfdfeff",
    "self-accusation",
    "bad-ring",
    "no-note",
    "other-epoch 18446744073709551615",
    "not-in-view",
    "ring-disabled",
    "not-monitor 20",
    "not-monitor none",
    "standing",
];

/// Texts in which a word is missing.
const CUT: [&str; 10] = [
    "",
    "at",
    "at 5",
    "at 5 entered",
    "at 5 took note 1 1 7",
    "at 5 took note 1 1 7 :",
    "at 5 took note 1 1 7 : refused",
    "at 5 took note 1 1 7 : refused own-ahead 5 7 9",
    "at 5 sent 0 2",
    "at 5 spent 1",
];

/// Texts in which a word fails, and where it begins.
const FAILING: [(&str, usize); 41] = [
    ("at@ 5 stopped", 0),
    ("@1 at 5 stopped at", 0),
    ("at 05 stopped", 3),
    ("at +5 stopped", 3),
    ("at 18446744073709551616 stopped", 3),
    ("at 5  stopped", 5),
    ("at 5 stop", 5),
    ("at 5 stopped\n", 5),
    ("at 5 stopped ", 13),
    ("at 5 stopped x", 13),
    ("at 5 entered 1024", 13),
    ("at 5 entered -1", 13),
    ("at 5 spent 4294967296 note 1 1 7", 11),
    ("at 5 spent 1 notes 1 1 7", 13),
    ("at 5 spent 1 note 1 0 7", 20),
    ("at 5 spent 1 note 1 1 18446744073709551616", 22),
    ("at 5 spent 1 accuse 1 2 3 256", 26),
    (
        "at 5 spent 1 cert 1 0 0000000500000004101112131415161718191a1b1c1d1e1fe0e1e2e3e4e5e6e7e8e9eaebecedeeeff0f1f2f3f4f5f6f7f8f9fafbfcfdfeff",
        20,
    ),
    (
        "at 5 spent 1 cert 1 65536 0000000500000004101112131415161718191a1b1c1d1e1fe0e1e2e3e4e5e6e7e8e9eaebecedeeeff0f1f2f3f4f5f6f7f8f9fafbfcfdfeff",
        20,
    ),
    (
        "at 5 spent 1 cert 1 1 0000000500000004101112131415161718191a1b1c1d1e1fe0e1e2e3e4e5e6e7e8e9eaebecedeeeff0f1f2f3f4f5f6f7f8f9fafbfcfdfe",
        22,
    ),
    (
        "at 5 spent 1 cert 1 1 0000000500000004101112131415161718191a1b1c1d1e1fe0e1e2e3e4e5e6e7e8e9eaebecedeeeff0f1f2f3f4f5f6f7f8f9fafbfcfdfef",
        22,
    ),
    (
        "at 5 spent 1 cert 1 1 0000000500000004101112131415161718191a1b1c1d1e1fe0e1e2e3e4e5e6e7e8e9eaebecedeeeff0f1f2f3f4f5f6f7f8f9fafbfcfdfefF",
        22,
    ),
    (
        "at 5 spent 1 cert 1 1 0000000800000004101112131415161718191a1b1c1d1e1fe0e1e2e3e4e5e6e7e8e9eaebecedeeeff0f1f2f3f4f5f6f7f8f9fafbfcfdfeff",
        22,
    ),
    // no two levels, W2, a key of two levels cut to 112 digits, and one of one level with 120
    (
        "at 5 spent 1 cert 1 1 000000010000000500000004101112131415161718191a1b1c1d1e1fe0e1e2e3e4e5e6e7e8e9eaebecedeeeff0f1f2f3f4f5f6f7f8f9fafbfcfdfeff",
        22,
    ),
    (
        "at 5 spent 1 cert 1 1 000000020000000500000002101112131415161718191a1b1c1d1e1fe0e1e2e3e4e5e6e7e8e9eaebecedeeeff0f1f2f3f4f5f6f7f8f9fafbfcfdfeff",
        22,
    ),
    (
        "at 5 spent 1 cert 1 1 000000020000000500000004101112131415161718191a1b1c1d1e1fe0e1e2e3e4e5e6e7e8e9eaebecedeeeff0f1f2f3f4f5f6f7f8f9fafb",
        22,
    ),
    (
        "at 5 spent 1 cert 1 1 0000000500000004101112131415161718191a1b1c1d1e1fe0e1e2e3e4e5e6e7e8e9eaebecedeeeff0f1f2f3f4f5f6f7f8f9fafbfcfdfeff00000002",
        22,
    ),
    ("at 5 took note 1 1 7 accepted", 21),
    ("at 5 took note 1 1 7 : joined", 23),
    ("at 5 took note 1 1 7 : accepted known", 32),
    ("at 5 took note 1 1 7 : refused unknown", 31),
    ("at 5 took note 1 1 7 : refused not-monitor nobody", 43),
    ("at 5 took note 1 1 7 : refused not-monitor 1024", 43),
    ("at 5 pong 1 2 count", 14),
    ("at 5 summary 1 32 0", 15),
    ("at 5 summary 1 0 2", 17),
    ("at 5 sent 0 2 AB", 14),
    ("at 5 sent 0 2 abc", 14),
    ("at 5 sent 0 2 -", 14),
    ("at 5 sent 0 2 0g", 14),
    ("at 5 sent x 2 00", 10),
];

fn at(moment: u64, what: What) -> Event {
    Event { moment, what }
}

fn accusation() -> AccBody {
    AccBody {
        accuser: MemberId::new(3),
        accused: MemberId::new(1023),
        epoch: Epoch::new(u64::MAX),
        ring: RingNo(255),
    }
}

fn note(epoch: Epoch, mask: u64) -> NoteBody {
    NoteBody {
        member: MemberId::new(1),
        epoch,
        mask: Mask(mask),
    }
}

/// A note that came, and what was said of it.
fn took(fault: Option<Fault>) -> What {
    What::Took {
        body: Body::Note(note(Epoch::new(2), 6)),
        fault,
    }
}

/// Whether the text is read, and what was read is written as the text.
fn comes_back(alloc: Global, text: &[u8]) -> bool {
    let mut out = Vec::new(alloc);
    match read_event(alloc, text) {
        Ok(event) => write_event(&event, &mut out).is_ok() && out.as_slice() == text,
        Err(_) => false,
    }
}

/// Where the text is refused.
fn refused_at(alloc: Global, text: &[u8]) -> Option<usize> {
    match read_event(alloc, text) {
        Err(EventFault::BadEvent { place }) => Some(place),
        _ => None,
    }
}

#[test]
fn reads_each_event_back(rt: HostRuntime) -> Result<(), Fail> {
    for text in &EVENTS {
        assert!(rt; comes_back(rt.alloc(), text.as_bytes()), "{text}");
    }
    Ok(())
}

#[test]
fn reads_each_fault_back(rt: HostRuntime) -> Result<(), Fail> {
    for fault in &FAULTS {
        let text = format!(in rt.alloc(); "at 0 took note 1 2 6 : refused {fault}")?;
        assert!(rt; comes_back(rt.alloc(), text.as_bytes()), "{text}");
    }
    Ok(())
}

#[test]
fn a_missing_word_is_told_at_the_end(rt: HostRuntime) -> Result<(), Fail> {
    for text in &CUT {
        assert_eq!(rt;
            refused_at(rt.alloc(), text.as_bytes()),
            Some(text.len()),
            "{text}"
        );
    }
    Ok(())
}

#[test]
fn a_word_that_fails_is_told_where_it_begins(rt: HostRuntime) -> Result<(), Fail> {
    for (text, place) in &FAILING {
        assert_eq!(rt;
            refused_at(rt.alloc(), text.as_bytes()),
            Some(*place),
            "{text}"
        );
    }
    Ok(())
}

#[test]
fn no_front_of_an_event_is_one(rt: HostRuntime) -> Result<(), Fail> {
    let text = b"at 0 took note 1 2 6 : refused older 5 31";
    for length in 0..36 {
        assert!(rt; refused_at(rt.alloc(), &text[..length]).is_some());
    }
    Ok(())
}

#[test]
fn writes_what_happens_in_a_life(rt: HostRuntime) -> Result<(), Fail> {
    let events = [
        at(0, What::Entered(MemberId::new(0))),
        at(10, What::Expired(accusation())),
        at(3, What::Removed(MemberId::new(2))),
        at(u64::MAX, What::Fell(accusation())),
    ];
    let mut out = Vec::new(rt.alloc());
    for event in &events {
        write_event(event, &mut out)?;
        out.push(b',')?;
    }
    let texts = "at 0 entered 0,at 10 expired 3 1023 18446744073709551615 255,at 3 removed 2,\
at 18446744073709551615 fell 3 1023 18446744073709551615 255,";
    assert_eq!(rt; out.as_slice(), texts.as_bytes());
    Ok(())
}

#[test]
fn writes_records_and_verdicts(rt: HostRuntime) -> Result<(), Fail> {
    let body = Body::Note(note(Epoch::new(2), 6));
    let ahead = Fault::OwnAhead {
        stored: note(Epoch::new(5), 7),
        seen: note(Epoch::new(9), 3),
    };
    let events = [
        at(0, What::Spent { index: 1, body }),
        at(1, took(None)),
        at(1, took(Some(ahead))),
    ];
    let mut out = Vec::new(rt.alloc());
    for event in &events {
        write_event(event, &mut out)?;
        out.push(b',')?;
    }
    let texts = "at 0 spent 1 note 1 2 6,at 1 took note 1 2 6 : accepted,\
at 1 took note 1 2 6 : refused own-ahead 5 7 9 3,";
    assert_eq!(rt; out.as_slice(), texts.as_bytes());
    Ok(())
}

#[test]
fn writes_datagrams(rt: HostRuntime) -> Result<(), Fail> {
    let (from, to) = (MemberId::new(2), MemberId::new(7));
    let bytes = Bytes::from_vec(Vec::from_slice(rt.alloc(), b"\x00\xff\x7a")?);
    let events = [
        at(
            4,
            What::Sent {
                number: 9,
                to,
                bytes,
            },
        ),
        at(
            4,
            What::Pong {
                from,
                nonce: 5,
                counted: true,
            },
        ),
        at(
            4,
            What::Summary {
                from,
                page: 31,
                flag: true,
            },
        ),
        at(5, What::Stopped),
    ];
    let mut out = Vec::new(rt.alloc());
    for event in &events {
        write_event(event, &mut out)?;
        out.push(b',')?;
    }
    let texts = "at 4 sent 9 7 00ff7a,at 4 pong 2 5 counted,at 4 summary 2 31 1,at 5 stopped,";
    assert_eq!(rt; out.as_slice(), texts.as_bytes());
    Ok(())
}
