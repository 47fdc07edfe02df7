//! The smallest workload.

use std::test::Fail;
use world_replay::{soak, write_summary};

/// Each node reports one other of itself at its tick. Two of the three meet twice over, so two notes come that are known.
const SUMMARY: &str = "soak 7 3 1\n\
lines 15\n\
sent 12\n\
notes 4\n\
accusations 0\n\
refused 2\n\
removed 0 correct 0\n\
spent 3\n\
end\n";

#[test]
fn a_workload_without_liars_loses_nobody(rt: HostRuntime) -> Result<(), Fail> {
    let alloc = rt.alloc();
    let Ok(summary) = soak(alloc, 7, 3, 1) else {
        return Err(Fail::from("no summary"));
    };
    let mut text = Vec::new(alloc);
    write_summary(7, 3, 1, &summary, &mut text)?;
    assert_eq!(rt; text.as_slice(), SUMMARY.as_bytes());
    Ok(())
}
