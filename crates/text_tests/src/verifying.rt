//! A question that is answered, and one that is refused.

use fixtures::{sink, source};
use line_text::BadWord;
use play::Stop;
use std::test::Fail;
use verifier::verify_input;

const QUESTION: &str = "fireflies 1 verify\n\
    key 0000000500000003a1a1a1a1a1a1a1a1a1a1a1a1a1a1a1a1b2b2b2b2b2b2b2b2b2b2b2b2b2b2b2b2b2b2b2b2b2b2b2b2b2b2b2b2b2b2b2b2\n\
    message 00ff\nsignature 0a0b0c\nend\n";

#[test]
fn a_question_is_answered_at_its_end(rt: HostRuntime) -> Result<(), Fail> {
    let mut input = source(rt.alloc(), QUESTION)?;
    let mut out = sink(rt.alloc(), 1000)?;
    assert_eq!(rt; verify_input(rt.alloc(), &mut input, &mut out), Ok(()));
    assert_eq!(rt; out.bytes(), b"signature refused length\n".as_slice());
    Ok(())
}

#[test]
fn a_text_without_its_end_is_refused(rt: HostRuntime) -> Result<(), Fail> {
    let mut input = source(rt.alloc(), "fireflies 1 verify\n")?;
    let mut out = sink(rt.alloc(), 1000)?;
    let refused = Stop::Refused {
        line: 2,
        cause: BadWord::End,
    };
    assert_eq!(rt;
        verify_input(rt.alloc(), &mut input, &mut out),
        Err(refused)
    );
    assert_eq!(rt; out.bytes(), b"".as_slice());
    Ok(())
}
