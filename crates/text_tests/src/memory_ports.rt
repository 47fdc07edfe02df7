//! The objects in memory at work.

ghost use Rattle.std.specs.Prelude.{◌≡◌, true};

use fields::Bytes;
use ports::{
    Clock, Failed, Given, Link, LinkAnswer, MemoryClock, MemoryLink, MemorySink, MemorySource,
    Opened, Received, Sent, Sink, Source, Taken, write_all,
};
use std::alloc::Global;
use std::test::Fail;

/// Two reads of up to eight bytes, the second only where the first got some.
fn read_twice<S: Source>(source: &mut S, buf: &mut [u8]) -> (Taken, Option<Taken>)
    requires { (S.state source.old).is_open ≡ true }
{
    let first = source.read(buf);
    if let Taken::Got(_) = first {
        return (first, Some(source.read(buf)));
    }
    (first, None)
}

#[test]
fn source_gives_steps_and_ends(rt: HostRuntime) -> Result<(), Fail> {
    let mut source = MemorySource::new(b"abcde".to_vec(rt.alloc())?, 3, Vec::new(rt.alloc()));
    let mut buf = [b'-'; 8];
    let Taken::Got(3) = source.read(&mut buf) else {
        return Err("no first step".into());
    };
    assert_eq!(rt; buf, *b"abc-----");
    assert_eq!(rt;
        read_twice(&mut source, &mut buf[6..]),
        (Taken::Got(2), Some(Taken::End))
    );
    assert_eq!(rt; buf, *b"abc---de");
    Ok(())
}

#[test]
fn source_fails_at_its_number(rt: HostRuntime) -> Result<(), Fail> {
    let fail = [1u64].to_vec(rt.alloc())?;
    let mut source = MemorySource::new(b"abcde".to_vec(rt.alloc())?, 3, fail);
    let mut buf = [b'-'; 8];
    assert_eq!(rt;
        read_twice(&mut source, &mut buf),
        (Taken::Got(3), Some(Taken::Failed))
    );
    assert_eq!(rt; buf, *b"abc-----");
    Ok(())
}

#[test]
fn sink_takes_steps_and_fills(rt: HostRuntime) -> Result<(), Fail> {
    let mut sink = MemorySink::new(rt.alloc(), 5, 3, Vec::new(rt.alloc())).or(Err("no memory"))?;
    let Given::Took(3) = sink.write(b"abcd") else {
        return Err("no first step".into());
    };
    let Given::Took(0) = sink.write(b"") else {
        return Err("an empty piece refused".into());
    };
    assert_eq!(rt; write_all(&mut sink, b"def"), Err(Failed));
    assert_eq!(rt; sink.bytes(), b"abcde".as_slice());
    Ok(())
}

#[test]
fn write_all_goes_on_until_a_fault(rt: HostRuntime) -> Result<(), Fail> {
    let fail = [4u64].to_vec(rt.alloc())?;
    let mut sink = MemorySink::new(rt.alloc(), 100, 2, fail).or(Err("no memory"))?;
    let Ok(()) = write_all(&mut sink, b"abcde") else {
        return Err("not written".into());
    };
    assert_eq!(rt; write_all(&mut sink, b"fghij"), Err(Failed));
    assert_eq!(rt; sink.bytes(), b"abcdefg".as_slice());
    Ok(())
}

/// A link that gets five bytes and then fails; its second send fails.
fn failing_link(alloc: Global) -> Result<MemoryLink, Fail> {
    let got = Bytes::from_vec(b"abcde".to_vec(alloc)?);
    let mut answers = Vec::new(alloc);
    answers.push(LinkAnswer::Got(got))?;
    answers.push(LinkAnswer::Failed)?;
    let fail_sends = [1u64].to_vec(alloc)?;
    Ok(MemoryLink::new(alloc, answers, fail_sends, false))
}

/// Whether the link has kept these two, each with its port, and no more.
fn has_sent(link: &MemoryLink, one: (u16, &[u8]), other: (u16, &[u8])) -> bool {
    match link.sent() {
        [first, second] => {
            (first.0, first.1.as_slice()) == one && (second.0, second.1.as_slice()) == other
        }
        _ => false,
    }
}

#[test]
fn link_gives_its_answers_and_keeps_what_is_sent(rt: HostRuntime) -> Result<(), Fail> {
    let mut link = failing_link(rt.alloc())?;
    let mut buf = [b'-'; 3];
    assert_eq!(rt; link.bind(7), Opened::Done);
    assert_eq!(rt; link.receive(&mut buf), Received::Got(3));
    assert_eq!(rt; buf, *b"abc");
    assert_eq!(rt; link.receive(&mut buf), Received::Failed);
    assert_eq!(rt; link.receive(&mut buf), Received::Nothing);
    assert_eq!(rt; link.send(8, b"x"), Sent::Done);
    assert_eq!(rt; link.send(9, b"yz"), Sent::Failed);
    assert!(rt; has_sent(&link, (8, b"x"), (9, b"yz")));
    Ok(())
}

#[test]
fn clock_stands_at_its_last_reading(rt: HostRuntime) -> Result<(), Fail> {
    let mut clock = MemoryClock::new([5u64, 9].to_vec(rt.alloc())?);
    assert_eq!(rt; clock.now(), 5);
    assert_eq!(rt; clock.now(), 9);
    assert_eq!(rt; clock.now(), 9);
    assert_eq!(rt; MemoryClock::new(Vec::new(rt.alloc())).now(), 0);
    Ok(())
}
