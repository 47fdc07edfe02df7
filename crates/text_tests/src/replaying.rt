//! A run over a short text, and over one whose line is refused.

use fixtures::{sink, source};
use line_text::BadWord;
use play::{Stop, play};
use replay::Player;
use std::test::Fail;

const SCHEDULE: &str =
    "fireflies 1 direct\ngroup 1 1\nmember 1 10 10 10\nmember 2 20 20 20\nnote 1 1 7\nnote 2 1 7\n\
    accuse 1 2 1 0\ntick 1\nview\nend\n";

const TRACE: &str =
    "fireflies 1 direct\ngroup 1 1\nmember 1 10 10 10 : joined\nmember 2 20 20 20 : joined\n\
    note 1 1 7 : accepted\nat 0 entered 1\nnote 2 1 7 : accepted\nat 0 entered 2\naccuse 1 2 1 0 : accepted\n\
    tick 1\nat 1 expired 1 2 1 0\nat 1 removed 2\nview : 1\nend\n";

#[test]
fn a_schedule_is_played_to_its_end(rt: HostRuntime) -> Result<(), Fail> {
    let mut input = source(rt.alloc(), SCHEDULE)?;
    let mut out = sink(rt.alloc(), 1000)?;
    assert_eq!(rt;
        play(rt.alloc(), &mut Player::new(), &mut input, &mut out),
        Ok(())
    );
    assert_eq!(rt; out.bytes(), TRACE.as_bytes());
    Ok(())
}

#[test]
fn a_refused_line_ends_the_run(rt: HostRuntime) -> Result<(), Fail> {
    let mut input = source(rt.alloc(), "fireflies 1 direct\ngroup 1 01\nend\n")?;
    let mut out = sink(rt.alloc(), 1000)?;
    let refused = Stop::Refused {
        line: 2,
        cause: BadWord::Number,
    };
    assert_eq!(rt;
        play(rt.alloc(), &mut Player::new(), &mut input, &mut out),
        Err(refused)
    );
    assert_eq!(rt; out.bytes(), b"fireflies 1 direct\n".as_slice());
    Ok(())
}
