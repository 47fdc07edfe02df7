//! Three nodes that gossip, lose one, and see it again.

use super::HEAD;
use crate::player::play;
use std::alloc::{AllocError, Global};
use std::test::Fail;

/// A tick of each node that runs, and a flow.
fn add_rounds(
    alloc: Global,
    rounds: u32,
    running: &[u32],
    text: &mut String,
) -> Result<(), AllocError> {
    for _round in 0..rounds {
        for member in running {
            let member = *member;
            text.push_str(format!(in alloc; "tick {member} 1\nflow 100\n")?.as_str())?;
        }
    }
    Ok(())
}

/// The lines of the trace that have a verdict, `refused` and `life` among them.
fn verdicts(alloc: Global, trace: &[u8]) -> Result<Vec<u8>, AllocError> {
    let mut found = Vec::new(alloc);
    for line in trace.split(|byte| *byte == b'\n') {
        if line.starts_with(b"view") || line.starts_with(b"start") {
            found.extend_from_slice(line)?;
            found.extend_from_slice(b"\n")?;
        }
    }
    Ok(found)
}

#[test]
fn three_nodes_see_one_another_come_and_go(rt: HostRuntime) -> Result<(), Fail> {
    let alloc = rt.alloc();
    let mut text = format!(in alloc;
        "{HEAD}node 1\nnode 2\nnode 3\nbegin\nstart 1\nstart 2\nstart 3\n"
    )?;
    add_rounds(alloc, 3, &[1, 2, 3], &mut text)?;
    text.push_str("view 1\nview 2\nview 3\nstop 3 0\n")?;
    add_rounds(alloc, 12, &[1, 2], &mut text)?;
    text.push_str("view 1\nview 2\nview 3\nstart 3\n")?;
    add_rounds(alloc, 3, &[1, 2, 3], &mut text)?;
    text.push_str("view 1\nview 2\nview 3\nend\n")?;
    let played = play(alloc, text.as_bytes())?;
    let found = verdicts(alloc, &played.trace)?;
    let wanted = b"start 1 : life 1\nstart 2 : life 1\nstart 3 : life 1\n\
view 1 : 1 2 3\nview 2 : 1 2 3\nview 3 : 1 2 3\n\
view 1 : 1 2\nview 2 : 1 2\nview 3 : refused stopped\nstart 3 : life 2\n\
view 1 : 1 2 3\nview 2 : 1 2 3\nview 3 : 1 2 3\n";
    assert_eq!(rt; found.as_slice(), wanted.as_slice());
    Ok(())
}

#[test]
fn who_leaves_is_gone_without_a_silence_and_may_return(rt: HostRuntime) -> Result<(), Fail> {
    let alloc = rt.alloc();
    let mut text = format!(in alloc;
        "{HEAD}node 1\nnode 2\nnode 3\nbegin\nstart 1\nstart 2\nstart 3\n"
    )?;
    add_rounds(alloc, 3, &[1, 2, 3], &mut text)?;
    text.push_str("view 1\nview 2\nview 3\nleave 3\n")?;
    add_rounds(alloc, 2, &[1, 2, 3], &mut text)?;
    text.push_str("view 1\nview 2\nview 3\nstop 3 0\n")?;
    add_rounds(alloc, 12, &[1, 2], &mut text)?;
    text.push_str("view 1\nview 2\nstart 3\n")?;
    add_rounds(alloc, 3, &[1, 2, 3], &mut text)?;
    text.push_str("view 1\nview 2\nview 3\nend\n")?;
    let played = play(alloc, text.as_bytes())?;
    let found = verdicts(alloc, &played.trace)?;
    let wanted = b"start 1 : life 1\nstart 2 : life 1\nstart 3 : life 1\n\
view 1 : 1 2 3\nview 2 : 1 2 3\nview 3 : 1 2 3\n\
view 1 : 1 2\nview 2 : 1 2\nview 3 : 1 2\n\
view 1 : 1 2\nview 2 : 1 2\nstart 3 : life 2\n\
view 1 : 1 2 3\nview 2 : 1 2 3\nview 3 : 1 2 3\n";
    assert_eq!(rt; found.as_slice(), wanted.as_slice());
    Ok(())
}
