//! Bytes and records that are handed to one node.

use super::{PAIR, STARTED, plays};
use std::test::Fail;

#[test]
fn raw_bytes_are_handed_over(rt: HostRuntime) -> Result<(), Fail> {
    let alloc = rt.alloc();
    plays(
        &rt,
        alloc,
        format!(in alloc;
            "{PAIR}start 1\nraw 1 4646010100020000000000000102\nraw 1 4646\nraw 2 00\nraw 1 -\n"
        )?.as_str(),
        format!(in alloc;
            "{PAIR}{STARTED}raw 1 4646010100020000000000000102\n\
@1 at 0 ping 2 258\n\
@1 at 0 sent 0 2 4646010200010000000000000102\n\
raw 1 4646\n\
@1 at 0 bad-form 2\n\
raw 2 00 : refused not-node\n\
raw 1 -\n\
@1 at 0 bad-form 0\n"
        )?
        .as_str(),
    )
}

const ANSWERED: &str = "sign-note 2 2 1 7 a : signed 0\n\
give a 1\n\
@1 at 0 took note 2 1 7 : accepted\n\
@1 at 0 entered 2\n\
give a 1\n\
@1 at 0 took note 2 1 7 : refused known\n\
give a 1\n\
@1 at 0 took note 2 1 7 : refused known\n\
sign-accusation 2 2 1 1 0 b : signed 1\n\
give b 1\n\
@1 at 0 took accuse 2 1 1 0 : accepted\n\
@1 at 0 spent 1 note 1 2 6\n\
@1 at 0 fell 2 1 1 0\n\
@1 at 0 sent 0 2 HEX\n\
sign-accusation 2 2 1 2 1 c : signed 2\n\
give c 1\n\
@1 at 0 took accuse 2 1 2 1 : accepted\n\
@1 at 0 spent 2 note 1 3 5\n\
@1 at 0 fell 2 1 2 1\n\
@1 at 0 sent 1 2 HEX\n\
sign-accusation 2 2 1 now 1 d : signed 3\n\
give d 1\n\
@1 at 0 took accuse 2 1 3 1 : refused ring-disabled\n\
give-all d\n\
@1 at 0 took accuse 2 1 3 1 : refused ring-disabled\n";

#[test]
fn accusations_by_a_liar_are_answered(rt: HostRuntime) -> Result<(), Fail> {
    let alloc = rt.alloc();
    plays(
        &rt,
        alloc,
        format!(in alloc;
            "{PAIR}start 1\nsign-note 2 2 1 7 a\ngive a 1\ngive a 1\ngive a 1\n\
sign-accusation 2 2 1 1 0 b\ngive b 1\nsign-accusation 2 2 1 2 1 c\ngive c 1\n\
sign-accusation 2 2 1 now 1 d\ngive d 1\ngive-all d\n"
        )?
        .as_str(),
        format!(in alloc; "{PAIR}{STARTED}{ANSWERED}")?.as_str(),
    )
}

#[test]
fn each_line_that_cant_be_done_is_refused(rt: HostRuntime) -> Result<(), Fail> {
    let alloc = rt.alloc();
    plays(
        &rt,
        alloc,
        format!(in alloc;
            "{PAIR}start 2\nstart 3\nstop 1 0\nview 1\ngive a 1\ndeliver 0 1\nsign-note 1 2 1 7 a\n\
give-all a\nmonitor 1 0 2\nsign-accusation 2 2 1 now 0 b\nstart 1\nstart 1\nmonitor 1 0 2\nmonitor 1 0 9\nview 1\n\
tick 2 1\narm 2 0 0\nsign-note 2 2 1 7 a\nstop 1 3\ngive a 1\ntick 1 1\n"
        )?
        .as_str(),
        format!(in alloc;
            "{PAIR}start 2 : refused not-node\n\
start 3 : refused not-node\n\
stop 1 0 : refused stopped\n\
view 1 : refused stopped\n\
give a 1 : refused no-name\n\
deliver 0 1 : refused no-datagram\n\
sign-note 1 2 1 7 a : refused not-liar\n\
give-all a : refused no-name\n\
monitor 1 0 2 : refused stopped\n\
sign-accusation 2 2 1 now 0 b : refused no-note\n\
{STARTED}start 1 : refused running\n\
monitor 1 0 2 : 1\n\
monitor 1 0 9 : refused unknown-member\n\
view 1 : 1\n\
tick 2 1 : refused not-node\n\
arm 2 0 0 : refused not-node\n\
sign-note 2 2 1 7 a : signed 0\n\
stop 1 3\n\
give a 1 : refused stopped\n\
tick 1 1 : refused stopped\n"
        )?
        .as_str(),
    )
}
