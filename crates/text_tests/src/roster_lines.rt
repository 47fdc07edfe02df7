//! Texts that are read line by line.

use ff_ids::{Group, MemberId};
use hss::HssKey;
use line_text::{BadWord, LineFault, Reader};
use lms_ots::OtsKind;
use lms_tree::{PublicKey, TreeKind};
use records::{CertBody, Key};
use schedule_texts::{Kinds, RosterLine, RosterText, SecretLine, SecretText};
use std::alloc::Global;
use std::test::Fail;

const GROUP: &str = "group 31 10000 1000 16 00112233445566778899aAbBcCdDeEfF\n";

const SECRET: &str = "secret 5A5a5a5a5a5a5a5a5a5a5a5a5a5a5a5a5a5a5a5a5a5a5a5a5a5a5a5a5a5a5a5A\n";

fn bad(word: BadWord) -> Option<LineFault> {
    Some(LineFault::Bad(word))
}

#[test]
fn a_secret_is_read(rt: HostRuntime) -> Result<(), Fail> {
    let alloc = rt.alloc();
    let mut lines = Reader::open(SecretText::Start);
    assert_eq!(rt;
        lines.line(alloc, b"fireflies 1 secret\n")?,
        SecretLine::Header
    );
    let group = Group {
        tag: *b"\x00\x11\x22\x33\x44\x55\x66\x77\x88\x99\xaa\xbb\xcc\xdd\xee\xff",
        t: 31,
        timeout: 10_000,
        period: 1_000,
        misses: 16,
    };
    assert_eq!(rt;
        lines.line(alloc, GROUP.as_bytes())?,
        SecretLine::Group(group)
    );
    let kinds = Kinds {
        ots: OtsKind::W8,
        tree: TreeKind::H15,
        bottom: None,
    };
    assert_eq!(rt;
        lines.line(alloc, b"kinds 8 15\n")?,
        SecretLine::Kinds(kinds)
    );
    assert_eq!(rt;
        lines.line(alloc, SECRET.as_bytes())?,
        SecretLine::Secret([0x5a; 32])
    );
    assert_eq!(rt; lines.end().err(), bad(BadWord::End));
    assert_eq!(rt; lines.line(alloc, b"end\n")?, SecretLine::End);
    assert_eq!(rt; lines.end().err(), None);
    Ok(())
}

/// The line is taken.
fn take(alloc: Global, lines: &mut Reader<RosterText>, bytes: &[u8]) -> Result<(), LineFault> {
    match lines.line(alloc, bytes) {
        Ok(_) => Ok(()),
        Err(fault) => Err(fault),
    }
}

/// A reader of a roster that has read all that stands before its certificates.
fn asked(alloc: Global) -> Result<Reader<RosterText>, LineFault> {
    let mut lines = Reader::open(RosterText::Start);
    take(alloc, &mut lines, b"fireflies 1 roster\n")?;
    take(alloc, &mut lines, GROUP.as_bytes())?;
    take(alloc, &mut lines, b"kinds 8 5\n")?;
    take(alloc, &mut lines, SECRET.as_bytes())?;
    Ok(lines)
}

#[test]
fn certificates_are_asked_for(rt: HostRuntime) -> Result<(), Fail> {
    let alloc = rt.alloc();
    let mut lines = asked(alloc)?;
    let line =
        "cert 1023 65535 0000000700000001A1a1A1a1a1a1a1a1a1a1a1a1a1a1a1a1b2b2b2b2b2b2b2b2b2b2b2b2b2b2b2b2b2b2b2b2b2b2b2b2b2b2b2b2b2b2b2b2\n";
    let wanted = CertBody {
        member: MemberId::new(1023),
        port: 65_535,
        key: Key::Lms(PublicKey {
            tree: TreeKind::H15,
            ots: OtsKind::W1,
            id: [0xa1; 16],
            root: [0xb2; 32],
        }),
    };
    assert_eq!(rt;
        lines.line(alloc, line.as_bytes())?,
        RosterLine::Cert(wanted)
    );
    assert_eq!(rt;
        lines.line(alloc, line.as_bytes()).err(),
        bad(BadWord::Limit)
    );
    let line =
        "cert 7 20007 000000020000000700000003A1a1A1a1a1a1a1a1a1a1a1a1a1a1a1a1b2b2b2b2b2b2b2b2b2b2b2b2b2b2b2b2b2b2b2b2b2b2b2b2b2b2b2b2b2b2b2b2\n";
    let wanted = CertBody {
        member: MemberId::new(7),
        port: 20_007,
        key: Key::Hss(HssKey {
            top: PublicKey {
                tree: TreeKind::H15,
                ots: OtsKind::W4,
                id: [0xa1; 16],
                root: [0xb2; 32],
            },
        }),
    };
    assert_eq!(rt;
        lines.line(alloc, line.as_bytes())?,
        RosterLine::Cert(wanted)
    );
    assert_eq!(rt; lines.number(), 7);
    assert_eq!(rt; lines.line(alloc, b"end\n")?, RosterLine::End);
    assert_eq!(rt; lines.end().err(), None);
    Ok(())
}
