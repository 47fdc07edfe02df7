//! Nodes that leave, and come back by their next lives.

use super::stops::all_lives;
use super::{PAIR, STARTED, plays};
use std::alloc::Global;
use std::process::Abort;
use std::test::Fail;

#[test]
fn a_node_leaves_once_in_a_life(rt: HostRuntime) -> Result<(), Fail> {
    let alloc = rt.alloc();
    plays(
        &rt,
        alloc,
        format!(in alloc;
            "{PAIR}leave 2\nleave 1\nstart 1\nleave 1\nleave 1\nview 1\nstop 1 0\nleave 1\nstart 1\n\
leave 1\n"
        )?
        .as_str(),
        format!(in alloc;
            "{PAIR}leave 2 : refused not-node\n\
leave 1 : refused stopped\n\
{STARTED}leave 1\n\
@1 at 0 spent 1 note 1 2 0\n\
@1 at 0 removed 1\n\
leave 1 : refused left\n\
view 1 : nobody\n\
stop 1 0\n\
leave 1 : refused stopped\n\
start 1 : life 2\n\
@1 at 0 spent 2 note 1 3 7\n\
@1 at 0 entered 1\n\
leave 1\n\
@1 at 0 spent 3 note 1 4 0\n\
@1 at 0 removed 1\n"
        )?
        .as_str(),
    )
}

/// A stop as the node leaves: the next life begins with this index and this note.
fn stops_leaving(
    rt: &impl Abort,
    alloc: Global,
    calls: u64,
    outcome: u16,
    first: &str,
) -> Result<(), Fail> {
    plays(
        rt,
        alloc,
        format!(in alloc; "{PAIR}start 1\narm 1 {calls} {outcome}\nleave 1\nstart 1\n")?.as_str(),
        format!(in alloc;
            "{PAIR}{STARTED}arm 1 {calls} {outcome}\n\
leave 1\n\
@1 at 0 stopped\n\
start 1 : life 2\n\
@1 at 0 spent {first}\n\
@1 at 0 entered 1\n"
        )?
        .as_str(),
    )
}

#[test]
fn a_stop_in_a_leaving_leaves_the_store_of_before_or_after(rt: HostRuntime) -> Result<(), Fail> {
    let alloc = rt.alloc();
    for calls in 0..4u64 {
        for outcome in [0u16, 1, 2, 183] {
            // A store that keeps the mask 0 is started from with all rings.
            let first = if calls >= 2 && (outcome == 1 || outcome == 183) {
                "2 note 1 3 7"
            } else {
                "1 note 1 2 7"
            };
            stops_leaving(&rt, alloc, calls, outcome, first)?;
        }
    }
    Ok(())
}

#[test]
fn a_used_up_key_signs_no_leaving(rt: HostRuntime) -> Result<(), Fail> {
    let alloc = rt.alloc();
    let (mut text, mut wanted) = all_lives(alloc)?;
    text.push_str("leave 1\nview 1\nleave 1\n")?;
    wanted.push_str("leave 1\n@1 at 0 exhausted 32\nview 1 : 1\nleave 1\n@1 at 0 exhausted 32\n")?;
    plays(&rt, alloc, text.as_str(), wanted.as_str())
}

/// Two nodes, of which each finds the other by one summary.
const MEET: &str = "node 1\nnode 2\nbegin\nstart 1\nstart 2\ntick 1 1\nflow 100\n";

/// What is written for that.
const MET: &str = "node 1\n\
node 2\n\
begin\n\
start 1 : life 1\n\
@1 at 0 spent 0 note 1 1 7\n\
@1 at 0 entered 1\n\
start 2 : life 1\n\
@2 at 0 spent 0 note 2 1 7\n\
@2 at 0 entered 2\n\
tick 1 1\n\
@1 at 1 sent 0 2 464601030001000002000100000000000000010000000700000000000200000000000000000000000000000000\n\
flow 100\n\
@2 at 0 got 0\n\
@2 at 0 summary 1 0 0\n\
@2 at 0 sent 1 1 4646010400020001020002000000000000000100000007HEX\n\
@2 at 0 sent 2 1 464601030002000102000100000000000000000000000000000000000200000000000000010000000700000000\n\
@1 at 1 got 1\n\
@1 at 1 took note 2 1 7 : accepted\n\
@1 at 1 entered 2\n\
@1 at 1 got 2\n\
@1 at 1 summary 2 0 1\n\
@1 at 1 sent 3 2 4646010400010001020001000000000000000100000007HEX\n\
@2 at 0 got 3\n\
@2 at 0 took note 1 1 7 : accepted\n\
@2 at 0 entered 1\n";

/// These lines behind the meeting of two nodes.
fn plays_met(rt: &impl Abort, alloc: Global, text: &str, wanted: &str) -> Result<(), Fail> {
    plays(
        rt,
        alloc,
        format!(in alloc; "{MEET}{text}")?.as_str(),
        format!(in alloc; "{MET}{wanted}")?.as_str(),
    )
}

/// 2 is out of the view of 1 once its note is delivered there, and in it again by the note of its next life.
const REMOVED: &str = "leave 2\n\
@2 at 0 spent 1 note 2 2 0\n\
@2 at 0 removed 2\n\
@2 at 0 sent 4 1 4646010400020001020002000000000000000200000000HEX\n\
view 1 : 1 2\n\
deliver 4 1\n\
@1 at 1 got 4\n\
@1 at 1 took note 2 2 0 : accepted\n\
@1 at 1 removed 2\n\
view 1 : 1\n\
view 2 : 1\n\
stop 2 0\n\
start 2 : life 2\n\
@2 at 0 spent 2 note 2 3 7\n\
@2 at 0 entered 2\n\
tick 2 1\n\
@2 at 1 sent 5 1 464601030002000002000100000000000000000000000000000000000200000000000000030000000700000000\n\
flow 100\n\
@1 at 1 got 4\n\
@1 at 1 took note 2 2 0 : refused known\n\
@1 at 1 got 5\n\
@1 at 1 summary 2 0 0\n\
@1 at 1 sent 6 2 4646010400010001020001000000000000000100000007HEX\n\
@1 at 1 sent 7 2 464601030001000102000100000000000000010000000700000000000200000000000000020000000000000000\n\
@2 at 1 got 6\n\
@2 at 1 took note 1 1 7 : accepted\n\
@2 at 1 entered 1\n\
@2 at 1 got 7\n\
@2 at 1 summary 1 0 1\n\
@2 at 1 sent 8 1 4646010400020001020002000000000000000300000007HEX\n\
@1 at 1 got 8\n\
@1 at 1 took note 2 3 7 : accepted\n\
@1 at 1 entered 2\n\
view 1 : 1 2\n\
view 2 : 1 2\n";

#[test]
fn who_leaves_is_removed_at_the_delivery_and_may_return(rt: HostRuntime) -> Result<(), Fail> {
    let text =
        "leave 2\nview 1\ndeliver 4 1\nview 1\nview 2\nstop 2 0\nstart 2\ntick 2 1\nflow 100\nview 1\nview 2\n";
    plays_met(&rt, rt.alloc(), text, REMOVED)
}

/// 1 accuses 2, which then leaves: the accusation falls, and none is there to expire.
const SILENT: &str = "tick 1 3\n\
@1 at 2 sent 4 2 464601010001ac42a0bdb52fd2b9\n\
@1 at 2 sent 5 2 464601030001000002000100000000000000010000000700000000000200000000000000010000000700000000\n\
@1 at 3 sent 6 2 464601010001e3b0376a24181f03\n\
@1 at 3 sent 7 2 464601030001000002000100000000000000010000000700000000000200000000000000010000000700000000\n\
@1 at 4 silent 2\n\
@1 at 4 spent 1 accuse 1 2 1 0\n\
@1 at 4 sent 8 2 46460104000100010300010002000000000000000100HEX\n\
@1 at 4 sent 9 2 4646010100014b31d4fc585dbcb0\n\
@1 at 4 sent 10 2 464601030001000002000100000000000000010000000700000000000200000000000000010000000700000001\n\
leave 2\n\
@2 at 0 spent 1 note 2 2 0\n\
@2 at 0 removed 2\n\
@2 at 0 sent 11 1 4646010400020001020002000000000000000200000000HEX\n\
deliver 11 1\n\
@1 at 4 got 11\n\
@1 at 4 took note 2 2 0 : accepted\n\
@1 at 4 removed 2\n\
@1 at 4 fell 1 2 1 0\n\
tick 1 5\n\
@1 at 5 sent 12 2 464601030001000002000100000000000000010000000700000000000200000000000000020000000000000000\n\
@1 at 6 sent 13 2 464601030001000002000100000000000000010000000700000000000200000000000000020000000000000000\n\
@1 at 7 sent 14 2 464601030001000002000100000000000000010000000700000000000200000000000000020000000000000000\n\
@1 at 8 sent 15 2 464601030001000002000100000000000000010000000700000000000200000000000000020000000000000000\n\
@1 at 9 sent 16 2 464601030001000002000100000000000000010000000700000000000200000000000000020000000000000000\n\
view 1 : 1\n";

#[test]
fn a_silent_member_leaves_and_nothing_expires(rt: HostRuntime) -> Result<(), Fail> {
    let text = "tick 1 3\nleave 2\ndeliver 11 1\ntick 1 5\nview 1\n";
    plays_met(&rt, rt.alloc(), text, SILENT)
}

/// 2 has left: it sends summaries and no ping, and answers pings. 1 finds nobody silent.
const GOSSIPS: &str = "leave 2\n\
@2 at 0 spent 1 note 2 2 0\n\
@2 at 0 removed 2\n\
@2 at 0 sent 4 1 4646010400020001020002000000000000000200000000HEX\n\
flow 1\n\
@1 at 1 got 4\n\
@1 at 1 took note 2 2 0 : accepted\n\
@1 at 1 removed 2\n\
tick 2 3\n\
@2 at 1 sent 5 1 464601030002000002000100000000000000010000000700000000000200000000000000020000000000000000\n\
@2 at 2 sent 6 1 464601030002000002000100000000000000010000000700000000000200000000000000020000000000000000\n\
@2 at 3 sent 7 1 464601030002000002000100000000000000010000000700000000000200000000000000020000000000000000\n\
tick 1 3\n\
@1 at 2 sent 8 2 464601030001000002000100000000000000010000000700000000000200000000000000020000000000000000\n\
@1 at 3 sent 9 2 464601030001000002000100000000000000010000000700000000000200000000000000020000000000000000\n\
@1 at 4 sent 10 2 464601030001000002000100000000000000010000000700000000000200000000000000020000000000000000\n\
deliver 5 1\n\
@1 at 4 got 5\n\
@1 at 4 summary 2 0 0\n\
@1 at 4 sent 11 2 464601030001000102000100000000000000010000000700000000000200000000000000020000000000000000\n\
deliver 11 2\n\
@2 at 3 got 11\n\
@2 at 3 summary 1 0 1\n\
raw 2 4646010100010000000000000102\n\
@2 at 3 ping 1 258\n\
@2 at 3 sent 12 1 4646010200020000000000000102\n\
view 1 : 1\n\
view 2 : 1\n";

#[test]
fn who_has_left_gossips_and_is_not_found_silent(rt: HostRuntime) -> Result<(), Fail> {
    let text =
        "leave 2\nflow 1\ntick 2 3\ntick 1 3\ndeliver 5 1\ndeliver 11 2\nraw 2 4646010100010000000000000102\nview 1\nview 2\n";
    plays_met(&rt, rt.alloc(), text, GOSSIPS)
}

/// The first life of 1 keeps the newest note of 2; its next one is handed the older ones again.
const REPLAYED_LINES: &str =
    "sign-note 2 2 1 7 a\nsign-note 2 2 2 0 b\nsign-note 2 2 3 7 c\ngive a 1\ngive b 1\ngive c 1\n\
give b 1\nstop 1 0\nstart 1\ngive a 1\ngive b 1\ngive a 1\nview 1\ngive c 1\ngive b 1\nview 1\n";

const REPLAYED: &str = "sign-note 2 2 1 7 a : signed 0\n\
sign-note 2 2 2 0 b : signed 1\n\
sign-note 2 2 3 7 c : signed 2\n\
give a 1\n\
@1 at 0 took note 2 1 7 : accepted\n\
@1 at 0 entered 2\n\
give b 1\n\
@1 at 0 took note 2 2 0 : accepted\n\
@1 at 0 removed 2\n\
give c 1\n\
@1 at 0 took note 2 3 7 : accepted\n\
@1 at 0 entered 2\n\
give b 1\n\
@1 at 0 took note 2 2 0 : refused older 3 7\n\
stop 1 0\n\
start 1 : life 2\n\
@1 at 0 spent 1 note 1 2 7\n\
@1 at 0 entered 1\n\
give a 1\n\
@1 at 0 took note 2 1 7 : accepted\n\
@1 at 0 entered 2\n\
give b 1\n\
@1 at 0 took note 2 2 0 : accepted\n\
@1 at 0 removed 2\n\
give a 1\n\
@1 at 0 took note 2 1 7 : refused older 2 0\n\
view 1 : 1\n\
give c 1\n\
@1 at 0 took note 2 3 7 : accepted\n\
@1 at 0 entered 2\n\
give b 1\n\
@1 at 0 took note 2 2 0 : refused older 3 7\n\
view 1 : 1 2\n";

#[test]
fn an_old_leaving_note_removes_in_a_new_life_until_a_newer_comes(
    rt: HostRuntime,
) -> Result<(), Fail> {
    let alloc = rt.alloc();
    plays(
        &rt,
        alloc,
        format!(in alloc; "{PAIR}start 1\n{REPLAYED_LINES}")?.as_str(),
        format!(in alloc; "{PAIR}{STARTED}{REPLAYED}")?.as_str(),
    )
}

/// Leaving at the greatest epoch, and coming back by the greater mask; behind an expiry no note is left that would do it again.
const GREATEST_LINES: &str = "sign-note 2 2 1 7 a\nsign-note 2 2 18446744073709551615 0 b\n\
sign-note 2 2 18446744073709551615 7 c\ngive a 1\ngive b 1\ngive a 1\ngive c 1\ngive b 1\ntick 1 3\n\
tick 1 4\ngive c 1\ngive b 1\nview 1\n";

const GREATEST: &str = "sign-note 2 2 1 7 a : signed 0\n\
sign-note 2 2 18446744073709551615 0 b : signed 1\n\
sign-note 2 2 18446744073709551615 7 c : signed 2\n\
give a 1\n\
@1 at 0 took note 2 1 7 : accepted\n\
@1 at 0 entered 2\n\
give b 1\n\
@1 at 0 took note 2 18446744073709551615 0 : accepted\n\
@1 at 0 removed 2\n\
give a 1\n\
@1 at 0 took note 2 1 7 : refused older 18446744073709551615 0\n\
give c 1\n\
@1 at 0 took note 2 18446744073709551615 7 : accepted\n\
@1 at 0 entered 2\n\
give b 1\n\
@1 at 0 took note 2 18446744073709551615 0 : refused older 18446744073709551615 7\n\
tick 1 3\n\
@1 at 1 sent 0 2 464601010001ac42a0bdb52fd2b9\n\
@1 at 1 sent 1 2 4646010300010000020001000000000000000100000007000000000002ffffffffffffffff0000000700000000\n\
@1 at 2 sent 2 2 464601010001e3b0376a24181f03\n\
@1 at 2 sent 3 2 4646010300010000020001000000000000000100000007000000000002ffffffffffffffff0000000700000000\n\
@1 at 3 silent 2\n\
@1 at 3 spent 1 accuse 1 2 18446744073709551615 0\n\
@1 at 3 sent 4 2 46460104000100010300010002ffffffffffffffff00HEX\n\
@1 at 3 sent 5 2 4646010100014b31d4fc585dbcb0\n\
@1 at 3 sent 6 2 4646010300010000020001000000000000000100000007000000000002ffffffffffffffff0000000700000001\n\
tick 1 4\n\
@1 at 4 sent 7 2 4646010100016d6822ed6b3b1302\n\
@1 at 4 sent 8 2 4646010300010000020001000000000000000100000007000000000002ffffffffffffffff0000000700000001\n\
@1 at 5 sent 9 2 46460101000113ddbfbc903d8b8c\n\
@1 at 5 sent 10 2 4646010300010000020001000000000000000100000007000000000002ffffffffffffffff0000000700000001\n\
@1 at 6 sent 11 2 4646010100011960d02a5d5fff0b\n\
@1 at 6 sent 12 2 4646010300010000020001000000000000000100000007000000000002ffffffffffffffff0000000700000001\n\
@1 at 7 expired 1 2 18446744073709551615 0\n\
@1 at 7 removed 2\n\
@1 at 7 sent 13 2 4646010300010000020001000000000000000100000007000000000002ffffffffffffffff0000000700000000\n\
give c 1\n\
@1 at 7 took note 2 18446744073709551615 7 : refused known\n\
give b 1\n\
@1 at 7 took note 2 18446744073709551615 0 : refused older 18446744073709551615 7\n\
view 1 : 1\n";

#[test]
fn who_leaves_at_the_greatest_epoch_returns_once(rt: HostRuntime) -> Result<(), Fail> {
    let alloc = rt.alloc();
    plays(
        &rt,
        alloc,
        format!(in alloc; "{PAIR}start 1\n{GREATEST_LINES}")?.as_str(),
        format!(in alloc; "{PAIR}{STARTED}{GREATEST}")?.as_str(),
    )
}
