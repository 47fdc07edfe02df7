//! A member's text. The keys and the signatures are another implementation's, for the tag of zeros and the tolerance 1.

mod signed;

use ff_ids::{Heal, KeyBytes, MemberId};
use line_text::{BadWord, LineFault};
use records::Body;
use schedule::{Command, Line, Lines};
use schedule_texts::KitLine;
use signed::{AUTHORITY, KEY_OF_1, OF_1, OF_2, OWN};
use std::alloc::Global;
use std::process::Abort;
use std::test::Fail;

fn bad(word: BadWord) -> Option<LineFault> {
    Some(LineFault::Bad(word))
}

/// The line is taken.
fn take(alloc: Global, lines: &mut Lines, bytes: &[u8]) -> Result<(), LineFault> {
    let _line = lines.line(alloc, bytes)?;
    Ok(())
}

/// Whether the line is the text's last.
fn is_end(alloc: Global, lines: &mut Lines, bytes: &[u8]) -> Result<bool, LineFault> {
    Ok(matches!(lines.line(alloc, bytes)?, Line::Kit(KitLine::End)))
}

/// What the line is refused for.
fn fault_of(alloc: Global, lines: &mut Lines, bytes: &[u8]) -> Option<LineFault> {
    lines.line(alloc, bytes).err()
}

/// The member and the port in the certificate.
fn certified(body: &Body) -> Result<(MemberId, u16), Fail> {
    match body {
        Body::Certificate(cert) => Ok((cert.member, cert.port)),
        Body::Note(_) | Body::Accusation(_) => Err("another body".into()),
    }
}

/// The member and the port in the certificate of the line.
fn certified_in(alloc: Global, lines: &mut Lines, bytes: &[u8]) -> Result<(MemberId, u16), Fail> {
    match lines.line(alloc, bytes) {
        Ok(Line::Kit(KitLine::Cert(checked))) => certified(&checked.rec().body),
        _ => Err("no certificate".into()),
    }
}

/// The head of the text of member 1, up to its kinds.
fn take_head(alloc: Global, lines: &mut Lines) -> Result<(), LineFault> {
    take(alloc, lines, b"fireflies 1 kit\n")?;
    take(
        alloc,
        lines,
        b"group 1 4 1 2 00000000000000000000000000000000\n",
    )?;
    take(alloc, lines, b"kinds 2 5\n")
}

/// The own key of member 1 is made.
fn compare_own(rt: &impl Abort, alloc: Global, lines: &mut Lines) -> Result<(), Fail> {
    take_head(alloc, lines)?;
    let Line::Kit(KitLine::Own { key, .. }) = lines.line(alloc, OWN)? else {
        panic!(rt; "the own number and secret");
    };
    assert_eq!(rt; key.public().write(), KeyBytes::Lms(KEY_OF_1));
    Ok(())
}

#[test]
fn the_own_key_is_made(rt: HostRuntime) -> Result<(), Fail> {
    let mut lines = Lines::open(Command::Kit);
    compare_own(&rt, rt.alloc(), &mut lines)
}

/// The option that the line is.
fn heal_of(line: &Line) -> Option<Heal> {
    match line {
        Line::Kit(KitLine::Heal(heal)) => Some(*heal),
        _ => None,
    }
}

/// The option is read below the kinds, once.
fn compare_heal(rt: &impl Abort, alloc: Global, lines: &mut Lines) -> Result<(), Fail> {
    take_head(alloc, lines)?;
    assert_eq!(rt; fault_of(alloc, lines, b"heal 1 1\n"), bad(BadWord::Limit));
    let line = lines.line(alloc, b"heal 1000 0\n")?;
    assert_eq!(rt; heal_of(&line), Heal::new(1_000, 0));
    assert_eq!(rt;
        fault_of(alloc, lines, b"heal 1000 0\n"),
        bad(BadWord::Order)
    );
    Ok(())
}

#[test]
fn a_line_heal_is_read(rt: HostRuntime) -> Result<(), Fail> {
    let mut lines = Lines::open(Command::Kit);
    compare_heal(&rt, rt.alloc(), &mut lines)
}

/// What stands before the certificates.
fn take_up_to_tick(alloc: Global, lines: &mut Lines) -> Result<(), LineFault> {
    take_head(alloc, lines)?;
    take(alloc, lines, OWN)?;
    take(alloc, lines, AUTHORITY)?;
    take(alloc, lines, b"tick 100\n")
}

/// A certificate that another one's signature stands behind: another last digit.
fn another_digit(alloc: Global) -> Result<Vec<u8>, Fail> {
    let mut other = OF_1.to_vec(alloc)?;
    other.pop();
    other.pop();
    other.extend_from_slice(b"0\n")?;
    Ok(other)
}

/// The certificate of 2 is read, and not a second time.
fn compare_second(rt: &impl Abort, alloc: Global, lines: &mut Lines) -> Result<(), Fail> {
    take_up_to_tick(alloc, lines)?;
    let (member, port) = certified_in(alloc, lines, OF_2)?;
    assert_eq!(rt; member, MemberId::new(2));
    assert_eq!(rt; port, 20_002);
    // the own certificate is missing yet, and that of 2 is known
    assert_eq!(rt; fault_of(alloc, lines, b"end\n"), bad(BadWord::OwnKey));
    assert_eq!(rt; fault_of(alloc, lines, OF_2), bad(BadWord::Cert));
    Ok(())
}

/// The own certificate is read, and the end of the text.
fn compare_rest(rt: &impl Abort, alloc: Global, lines: &mut Lines) -> Result<(), Fail> {
    let other = another_digit(alloc)?;
    assert_eq!(rt; fault_of(alloc, lines, &other), bad(BadWord::Cert));
    take(alloc, lines, OF_1)?;
    assert_eq!(rt; is_end(alloc, lines, b"end\n"), Ok(true));
    assert_eq!(rt; lines.end().err(), None);
    Ok(())
}

fn compare_certificates(rt: &impl Abort, alloc: Global, lines: &mut Lines) -> Result<(), Fail> {
    compare_second(rt, alloc, lines)?;
    compare_rest(rt, alloc, lines)
}

#[test]
fn certificates_are_checked(rt: HostRuntime) -> Result<(), Fail> {
    let mut lines = Lines::open(Command::Kit);
    compare_certificates(&rt, rt.alloc(), &mut lines)
}
