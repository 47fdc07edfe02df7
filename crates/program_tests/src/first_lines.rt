//! Short texts of either form, and one of neither.

use command_line::replay;
use fixtures::{sink, source};
use line_text::BadWord;
use play::Stop;
use std::alloc::Global;
use std::process::Abort;
use std::test::Fail;
use world_rules::Cause;

const DIRECT: &str = "fireflies 1 direct\ngroup 1 1\nend\n";

const WORLD: &str =
    "fireflies 1 world\ngroup 1 4 1 2 000102030405060708090a0b0c0d0e0f\nkinds 2 5\nnode 1\nbegin\nend\n";

/// The text is played, and is its own trace.
fn is_played(rt: &impl Abort, alloc: Global, text: &str) -> Result<(), Fail> {
    let mut input = source(alloc, text)?;
    let mut out = sink(alloc, 1000)?;
    assert!(rt; replay(alloc, &mut input, &mut out).is_ok());
    assert_eq!(rt; out.bytes(), text.as_bytes());
    Ok(())
}

#[test]
fn texts_of_both_forms_are_played(rt: HostRuntime) -> Result<(), Fail> {
    is_played(&rt, rt.alloc(), DIRECT)?;
    is_played(&rt, rt.alloc(), WORLD)
}

#[test]
fn a_text_of_neither_form_is_refused(rt: HostRuntime) -> Result<(), Fail> {
    let mut input = source(rt.alloc(), "fireflies 1 worlds\ngroup 1 1\nend\n")?;
    let mut out = sink(rt.alloc(), 1000)?;
    let answer = replay(rt.alloc(), &mut input, &mut out);
    assert!(rt;
        matches!(
            answer,
            Err(Stop::Refused {
                line: 1,
                cause: Cause::Bad(BadWord::Header),
            })
        )
    );
    assert!(rt; out.bytes().is_empty());
    Ok(())
}
