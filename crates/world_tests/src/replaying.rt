//! A run over a short schedule.

use fixtures::{sink, source};
use play::play;
use std::test::Fail;
use world_replay::Player;

const SCHEDULE: &str =
    "fireflies 1 world\ngroup 1 10 1 1 000102030405060708090A0B0C0D0E0F\nkinds 4 5\nnode 1\nliar 2\nbegin\n\
    tick 1 1\narm 2 0 0\nend\n";

const TRACE: &str =
    "fireflies 1 world\ngroup 1 10 1 1 000102030405060708090a0b0c0d0e0f\nkinds 4 5\nnode 1\nliar 2\nbegin\n\
    tick 1 1 : refused stopped\narm 2 0 0 : refused not-node\nend\n";

#[test]
fn a_schedule_is_played_to_its_end(rt: HostRuntime) -> Result<(), Fail> {
    let mut input = source(rt.alloc(), SCHEDULE)?;
    let mut out = sink(rt.alloc(), 1000)?;
    let mut player = Player::new(rt.alloc());
    let ended = play(rt.alloc(), &mut player, &mut input, &mut out);
    assert!(rt; ended.is_ok());
    assert_eq!(rt; out.bytes(), TRACE.as_bytes());
    Ok(())
}
