//! A line, a verdict and an event as texts.

use ff_ids::MemberId;
use journal::{Event, What};
use schedule_world::WorldLine;
use std::test::Fail;
use world_rules::{MemberList, RefusalReason, Verdict};
use world_text::{write_line, write_told, write_verdict};

#[test]
fn a_line_and_what_stands_behind_it(rt: HostRuntime) -> Result<(), Fail> {
    let member = MemberId::new(7);
    let mut out = Vec::new(rt.alloc());
    write_line(&WorldLine::View { member }, &mut out)?;
    write_verdict(
        &Verdict::Refused(RefusalReason::UsedUp { first: 32 }),
        &mut out,
    )?;
    write_told(
        member,
        &Event {
            moment: 3,
            what: What::Removed(MemberId::new(1)),
        },
        &mut out,
    )?;
    assert_eq!(rt;
        out.as_slice(),
        b"view 7refused exhausted 32@7 at 3 removed 1".as_slice()
    );
    out.clear();
    let seen = MemberList::from_vec(Vec::from_slice(rt.alloc(), &[MemberId::new(1), member])?);
    write_verdict(&Verdict::Sees(seen), &mut out)?;
    assert_eq!(rt; out.as_slice(), b"1 7".as_slice());
    Ok(())
}
