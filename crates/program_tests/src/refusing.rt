//! Texts of operators that are refused, each for its first bad word. No disk is touched for them.

use crate::runs::answers;
use std::alloc::Global;
use std::process::Abort;
use std::test::Fail;

const GROUP: &str = "group 1 4 1 2 00000000000000000000000000000000\n";

const SECRET: &str = "secret 5a5a5a5a5a5a5a5a5a5a5a5a5a5a5a5a5a5a5a5a5a5a5a5a5a5a5a5a5a5a5a5a\n";

const KEY: &str =
    "0000000500000002a1a1a1a1a1a1a1a1a1a1a1a1a1a1a1a1b2b2b2b2b2b2b2b2b2b2b2b2b2b2b2b2b2b2b2b2b2b2b2b2b2b2b2b2b2b2b2b2";

/// What stands behind the front, and the line that is answered.
type Refused = (&'static str, &'static str);

/// The text with a key for each `#`.
fn filled(alloc: Global, text: &str) -> Result<String, Fail> {
    let mut filled = String::new(alloc);
    for letter in text.chars() {
        if letter == '#' {
            filled.push_str(KEY)?;
        } else {
            filled.push(letter)?;
        }
    }
    Ok(filled)
}

/// The text is refused, with its line and nothing before it.
fn refuse_row(
    rt: &impl Abort,
    alloc: Global,
    words: &str,
    front: &str,
    row: &Refused,
) -> Result<(), Fail> {
    let (rest, wanted) = row;
    let rest = filled(alloc, rest)?;
    let text = format!(in alloc; "{front}{rest}")?;
    answers(rt, alloc, words, text.as_str(), wanted, 3)
}

/// Each text is refused.
fn refuse(
    rt: &impl Abort,
    alloc: Global,
    words: &str,
    front: &str,
    rows: &[Refused],
) -> Result<(), Fail> {
    for row in rows {
        refuse_row(rt, alloc, words, front, row)?;
    }
    Ok(())
}

/// The head of a text up to its kinds.
fn head(alloc: Global, kind: &str) -> Result<String, Fail> {
    Ok(format!(in alloc; "fireflies 1 {kind}\n{GROUP}kinds 2 5\n")?)
}

/// Nothing stands behind the header of this kind but what is refused.
fn refuse_groups(rt: &impl Abort, alloc: Global, words: &str, kind: &str) -> Result<(), Fail> {
    let header = format!(in alloc; "fireflies 1 {kind}\n")?;
    refuse(rt, alloc, words, header.as_str(), &NO_GROUP)
}

/// Nothing stands behind the group but what is refused.
fn refuse_kinds(rt: &impl Abort, alloc: Global, words: &str, kind: &str) -> Result<(), Fail> {
    let grouped = format!(in alloc; "fireflies 1 {kind}\n{GROUP}")?;
    refuse(rt, alloc, words, grouped.as_str(), &NO_KINDS)
}

/// The words of each command that reads a text of operators, and the kind of that text.
const KINDS: [(&str, &str); 4] = [
    ("store a.st", "secret"),
    ("enroll a.st", "roster"),
    ("node n.st 2", "kit"),
    ("migrate a.st", "migrate"),
];

#[test]
fn what_each_text_begins_with(rt: HostRuntime) -> Result<(), Fail> {
    for (words, kind) in KINDS {
        refuse(&rt, rt.alloc(), words, "", &NO_HEADER)?;
        refuse_groups(&rt, rt.alloc(), words, kind)?;
        if kind != "migrate" {
            refuse_kinds(&rt, rt.alloc(), words, kind)?;
        }
    }
    Ok(())
}

const NO_HEADER: [Refused; 3] = [
    ("", "bad 1 end\n"),
    ("fireflies 1 direct\n", "bad 1 header\n"),
    ("fireflies  1 secret\n", "bad 1 spaces\n"),
];

const NO_GROUP: [Refused; 17] = [
    ("", "bad 2 end\n"),
    ("end\n", "bad 2 order\n"),
    ("kinds 2 5\n", "bad 2 order\n"),
    ("view\n", "bad 2 word\n"),
    ("group 1 4 1 2\n", "bad 2 count\n"),
    ("group 1 4 01 2 00\n", "bad 2 number\n"),
    ("group 1 4 1 2 0\n", "bad 2 hex\n"),
    ("group 1 4 1 2 00\n", "bad 2 limit\n"),
    (
        "group 0 4 1 2 00000000000000000000000000000000\n",
        "bad 2 limit\n",
    ),
    (
        "group 32 4 1 2 00000000000000000000000000000000\n",
        "bad 2 limit\n",
    ),
    (
        "group 1 0 1 2 00000000000000000000000000000000\n",
        "bad 2 limit\n",
    ),
    (
        "group 1 10001 1 2 00000000000000000000000000000000\n",
        "bad 2 limit\n",
    ),
    (
        "group 1 4 0 2 00000000000000000000000000000000\n",
        "bad 2 limit\n",
    ),
    (
        "group 1 4 1 0 00000000000000000000000000000000\n",
        "bad 2 limit\n",
    ),
    (
        "group 1 4 1001 2 00000000000000000000000000000000\n",
        "bad 2 limit\n",
    ),
    (
        "group 1 4 1 17 00000000000000000000000000000000\n",
        "bad 2 limit\n",
    ),
    (
        "group 1 4 1 2 0000000000000000000000000000000g\n",
        "bad 2 hex\n",
    ),
];

const NO_KINDS: [Refused; 6] = [
    ("end\n", "bad 3 order\n"),
    ("kinds 2\n", "bad 3 count\n"),
    ("kinds 3 5\n", "bad 3 limit\n"),
    ("kinds 2 20\n", "bad 3 limit\n"),
    ("kinds x 5\n", "bad 3 number\n"),
    ("kinds 2 5", "bad 3 line-feed\n"),
];

/// What stands behind the head of a secret's text, and behind its secret.
fn refuse_secrets(rt: &impl Abort, alloc: Global, head: &str) -> Result<(), Fail> {
    refuse(rt, alloc, "store a.st", head, &SECRETS)?;
    let whole = format!(in alloc; "{head}{SECRET}")?;
    refuse(rt, alloc, "store a.st", whole.as_str(), &BEHIND_SECRET)
}

#[test]
fn the_text_of_a_secret(rt: HostRuntime) -> Result<(), Fail> {
    let head = head(rt.alloc(), "secret")?;
    refuse_secrets(&rt, rt.alloc(), head.as_str())
}

/// A secret of 31 bytes, one of 33, and others that are none.
const SECRETS: [Refused; 7] = [
    (
        "secret 5a5a5a5a5a5a5a5a5a5a5a5a5a5a5a5a5a5a5a5a5a5a5a5a5a5a5a5a5a5a5a\n",
        "bad 4 limit\n",
    ),
    (
        "secret 5a5a5a5a5a5a5a5a5a5a5a5a5a5a5a5a5a5a5a5a5a5a5a5a5a5a5a5a5a5a5a5a5a\n",
        "bad 4 limit\n",
    ),
    ("secret 5\n", "bad 4 hex\n"),
    ("secret -\n", "bad 4 hex\n"),
    ("secret\n", "bad 4 count\n"),
    ("end\n", "bad 4 order\n"),
    ("heal 2 0\n", "bad 4 word\n"),
];

const BEHIND_SECRET: [Refused; 6] = [
    ("", "bad 5 end\n"),
    ("end", "bad 5 line-feed\n"),
    ("end\nx", "bad 6 after-end\n"),
    ("end\n\n", "bad 6 after-end\n"),
    ("secret 00\n", "bad 5 order\n"),
    ("cert 1 20001 #\n", "bad 5 word\n"),
];

/// What stands behind the head of a roster, and behind its secret.
fn refuse_rosters(rt: &impl Abort, alloc: Global, head: &str) -> Result<(), Fail> {
    refuse(rt, alloc, "enroll a.st", head, &SECRETS)?;
    let front = format!(in alloc; "{head}{SECRET}")?;
    refuse(rt, alloc, "enroll a.st", front.as_str(), &ASKED)
}

#[test]
fn the_text_of_a_roster(rt: HostRuntime) -> Result<(), Fail> {
    let head = head(rt.alloc(), "roster")?;
    refuse_rosters(&rt, rt.alloc(), head.as_str())
}

const ASKED: [Refused; 13] = [
    ("", "bad 5 end\n"),
    ("secret 00\n", "bad 5 order\n"),
    ("self 1 00\n", "bad 5 word\n"),
    ("cert 1 20001\n", "bad 5 count\n"),
    ("cert 1 20001 # 00\n", "bad 5 count\n"),
    ("cert -1 20001 #\n", "bad 5 number\n"),
    ("cert 1024 20001 #\n", "bad 5 limit\n"),
    ("cert 1 0 #\n", "bad 5 limit\n"),
    ("cert 1 65536 #\n", "bad 5 limit\n"),
    ("cert 1 20001 0\n", "bad 5 hex\n"),
    ("cert 1 20001 #00\n", "bad 5 limit\n"),
    ("cert 1 20001 #\ncert 1 20002 #\n", "bad 6 limit\n"),
    ("cert 1 20001 #\nend\nx", "bad 7 after-end\n"),
];

/// What stands in the place of a second group.
fn refuse_second_groups(rt: &impl Abort, alloc: Global) -> Result<(), Fail> {
    let front = format!(in alloc; "fireflies 1 migrate\n{LETTERS}")?;
    refuse(rt, alloc, "migrate a.st", front.as_str(), &NO_SECOND_GROUP)
}

/// What stands behind two groups, and behind the secret.
fn refuse_moves(rt: &impl Abort, alloc: Global) -> Result<(), Fail> {
    let front = format!(in alloc; "fireflies 1 migrate\n{LETTERS}{GROUP}")?;
    refuse(rt, alloc, "migrate a.st", front.as_str(), &BEHIND_GROUPS)?;
    let whole = format!(in alloc; "{front}kinds 2 5\n{SECRET}")?;
    refuse(rt, alloc, "migrate a.st", whole.as_str(), &BEHIND_MOVED)
}

#[test]
fn the_text_that_moves_a_store(rt: HostRuntime) -> Result<(), Fail> {
    refuse_second_groups(&rt, rt.alloc())?;
    refuse_moves(&rt, rt.alloc())
}

/// A group whose tag has letters.
const LETTERS: &str = "group 1 4 1 2 abcdefabcdefabcdefabcdefabcdefab\n";

/// The last two of these have the tolerance or the tag of the first group, and not both: they are good.
const NO_SECOND_GROUP: [Refused; 11] = [
    ("", "bad 3 end\n"),
    ("kinds 2 5\n", "bad 3 order\n"),
    ("end\n", "bad 3 order\n"),
    ("cert 1 20001 #\n", "bad 3 word\n"),
    (
        "group 1 4 1 2 abcdefabcdefabcdefabcdefabcdefab\n",
        "bad 3 limit\n",
    ),
    (
        "group 1 9 8 7 ABCDEFABCDEFABCDEFABCDEFABCDEFAB\n",
        "bad 3 limit\n",
    ),
    (
        "group 1 4 1 2 abcdefabcdefabcdefabcdefabcdefag\n",
        "bad 3 hex\n",
    ),
    (
        "group 32 4 1 2 abcdefabcdefabcdefabcdefabcdefab\n",
        "bad 3 limit\n",
    ),
    (
        "group 1 4 1 x abcdefabcdefabcdefabcdefabcdefab\n",
        "bad 3 number\n",
    ),
    (
        "group 2 4 1 2 abcdefabcdefabcdefabcdefabcdefab\n",
        "bad 4 end\n",
    ),
    (
        "group 1 4 1 2 abcdefabcdefabcdefabcdefabcdefac\n",
        "bad 4 end\n",
    ),
];

const BEHIND_GROUPS: [Refused; 6] = [
    (
        "group 2 4 1 2 00000000000000000000000000000000\n",
        "bad 4 order\n",
    ),
    ("secret 00\n", "bad 4 order\n"),
    ("kinds 2\n", "bad 4 count\n"),
    ("kinds 3 5\n", "bad 4 limit\n"),
    ("kinds 2 5\n", "bad 5 end\n"),
    ("kinds 2 5\nsecret 00\n", "bad 5 limit\n"),
];

const BEHIND_MOVED: [Refused; 4] = [
    ("", "bad 6 end\n"),
    ("cert 1 20001 #\n", "bad 6 word\n"),
    ("end", "bad 6 line-feed\n"),
    ("end\nx", "bad 7 after-end\n"),
];

/// The text of a member up to its secret, of which a key is made at once.
fn owned(alloc: Global) -> Result<String, Fail> {
    let head = head(alloc, "kit")?;
    let own = SECRET.strip_prefix("secret ").ok_or("no secret")?;
    Ok(format!(in alloc; "{head}self 1 {own}")?)
}

/// What stands behind the head of a kit.
fn refuse_kits(rt: &impl Abort, alloc: Global) -> Result<(), Fail> {
    let head = head(alloc, "kit")?;
    refuse(rt, alloc, "node n.st 2", head.as_str(), &OWN)
}

/// What stands behind the member's own line.
fn refuse_owned(rt: &impl Abort, alloc: Global) -> Result<(), Fail> {
    let owned = owned(alloc)?;
    refuse(rt, alloc, "node n.st 2", owned.as_str(), &BEHIND_OWN)
}

#[test]
fn the_text_of_a_member(rt: HostRuntime) -> Result<(), Fail> {
    refuse_kits(&rt, rt.alloc())?;
    refuse_owned(&rt, rt.alloc())
}

const OWN: [Refused; 12] = [
    ("authority #\n", "bad 4 order\n"),
    ("secret 00\n", "bad 4 word\n"),
    ("self 1 00\n", "bad 4 limit\n"),
    ("self 1024 00\n", "bad 4 limit\n"),
    ("self 1\n", "bad 4 count\n"),
    ("heal 1 1\n", "bad 4 limit\n"),
    ("heal 1001 1\n", "bad 4 limit\n"),
    ("heal 2 1001\n", "bad 4 limit\n"),
    ("heal x 1\n", "bad 4 number\n"),
    ("heal 2\n", "bad 4 count\n"),
    ("heal 2 0\nheal 2 0\n", "bad 5 order\n"),
    ("heal 1000 1000\nself 1 00\n", "bad 5 limit\n"),
];

const BEHIND_OWN: [Refused; 5] = [
    ("tick 100\n", "bad 5 order\n"),
    ("heal 2 0\n", "bad 5 order\n"),
    ("authority 00\n", "bad 5 limit\n"),
    ("authority #\ntick 60001\n", "bad 6 limit\n"),
    ("authority #\ntick 1x\n", "bad 6 number\n"),
];

#[test]
fn the_certificates_of_a_member(rt: HostRuntime) -> Result<(), Fail> {
    let owned = owned(rt.alloc())?;
    let front = format!(in rt.alloc(); "{owned}authority {KEY}\ntick 100\n")?;
    refuse(&rt, rt.alloc(), "node n.st 2", front.as_str(), &CERTIFIED)
}

const CERTIFIED: [Refused; 4] = [
    ("", "bad 7 end\n"),
    ("end\n", "bad 7 self\n"),
    ("cert 1 20001 # -\n", "bad 7 hex\n"),
    ("cert 1 20001 # 00\n", "bad 7 cert\n"),
];

/// A line of so many letters.
fn letters(alloc: Global, count: usize) -> Result<String, Fail> {
    let mut line = String::new(alloc);
    for _ in 0..count {
        line.push('v')?;
    }
    Ok(line)
}

/// Each command refuses this line.
fn refuse_long(rt: &impl Abort, alloc: Global, line: &str) -> Result<(), Fail> {
    for (words, kind) in KINDS {
        let text = format!(in alloc; "fireflies 1 {kind}\n{line}\n")?;
        answers(rt, alloc, words, text.as_str(), "bad 2 long\n", 3)?;
    }
    Ok(())
}

#[test]
fn a_line_that_is_too_long(rt: HostRuntime) -> Result<(), Fail> {
    let line = letters(rt.alloc(), 65_601)?;
    refuse_long(&rt, rt.alloc(), line.as_str())
}
