//! Lines that are read, and lines at the limits of a text.

use ff_ids::{Epoch, Mask, MemberId, NoteBody, RingNo};
use line_text::{BadWord, LineFault, Reader};
use schedule_direct::{Direct, DirectLine};
use std::alloc::Global;
use std::test::Fail;

/// A reader that has read the header and a group of tolerance 1.
fn below_group(alloc: Global) -> Result<Reader<Direct>, LineFault> {
    let mut lines = Reader::open(Direct::Start);
    lines.line(alloc, b"fireflies 1 direct\n")?;
    lines.line(alloc, b"group 1 3\n")?;
    Ok(lines)
}

fn bad(word: BadWord) -> Option<LineFault> {
    Some(LineFault::Bad(word))
}

#[test]
fn members_and_notes_are_read(rt: HostRuntime) -> Result<(), Fail> {
    let alloc = rt.alloc();
    let mut lines = below_group(alloc)?;
    let DirectLine::Member { member, places } = lines.line(alloc, b"member 1023 0 4294967295 7\n")?
    else {
        return Err(Fail::from("no member"));
    };
    assert_eq!(rt; member, MemberId::new(1023));
    assert_eq!(rt; places.as_slice(), [0, 4294967295, 7].as_slice());
    let DirectLine::Note(note) = lines.line(
        alloc,
        b"note 0 18446744073709551615 18446744073709551615\n",
    )?
    else {
        return Err(Fail::from("no note"));
    };
    let wanted = NoteBody {
        member: MemberId::new(0),
        epoch: Epoch::new(u64::MAX),
        mask: Mask(u64::MAX),
    };
    assert_eq!(rt; note, wanted);
    Ok(())
}

#[test]
fn the_other_lines_are_read(rt: HostRuntime) -> Result<(), Fail> {
    let alloc = rt.alloc();
    let mut lines = below_group(alloc)?;
    let DirectLine::Accuse(accusation) = lines.line(alloc, b"accuse 1 2 3 255\n")? else {
        return Err(Fail::from("no accusation"));
    };
    assert_eq!(rt; accusation.accused, MemberId::new(2));
    assert_eq!(rt; accusation.ring, RingNo(255));
    assert!(rt;
        matches!(
            lines.line(alloc, b"tick 10000\n")?,
            DirectLine::Tick(10_000)
        )
    );
    assert!(rt; matches!(lines.line(alloc, b"view\n")?, DirectLine::View));
    assert!(rt;
        matches!(
            lines.line(alloc, b"monitor 2 10\n")?,
            DirectLine::Monitor { .. }
        )
    );
    assert!(rt; matches!(lines.line(alloc, b"life\n")?, DirectLine::Life));
    assert_eq!(rt; lines.end().err(), bad(BadWord::End));
    assert!(rt; matches!(lines.line(alloc, b"end\n")?, DirectLine::End));
    assert_eq!(rt; lines.end().err(), None);
    assert_eq!(rt; lines.line(alloc, b"x\n").err(), bad(BadWord::AfterEnd));
    Ok(())
}

#[test]
fn long_lines_and_long_texts_are_refused(rt: HostRuntime) -> Result<(), Fail> {
    let alloc = rt.alloc();
    let mut lines = below_group(alloc)?;
    let mut text = vec![in alloc; b'x'; 65_600]?;
    text.push(b'\n')?;
    assert_eq!(rt;
        lines.line(alloc, text.as_slice()).err(),
        bad(BadWord::Word)
    );
    text.insert(0, b'x')?;
    assert_eq!(rt;
        lines.line(alloc, text.as_slice()).err(),
        bad(BadWord::Long)
    );
    for _ in 3..100_001 {
        lines.line(alloc, b"view\n")?;
    }
    assert_eq!(rt; lines.line(alloc, b"view\n").err(), bad(BadWord::Lines));
    assert_eq!(rt; lines.line(alloc, b"view").err(), bad(BadWord::LineFeed));
    Ok(())
}
