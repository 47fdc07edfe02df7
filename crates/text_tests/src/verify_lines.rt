//! A text with bytes, read line by line.

use line_text::{BadWord, LineFault, Reader};
use records::Key;
use std::test::Fail;
use verify_text::{Asked, Verify};

const LINES: [&str; 5] = [
    "fireflies 1 verify\n",
    "key 0000000500000003A1a1A1a1a1a1a1a1a1a1a1a1a1a1a1a1b2b2b2b2b2b2b2b2b2b2b2b2b2b2b2b2b2b2b2b2b2b2b2b2b2b2b2b2b2b2b2b2\n",
    "message 00fF\n",
    "signature 0a0b0c\n",
    "end\n",
];

#[test]
fn asks_a_question(rt: HostRuntime) -> Result<(), Fail> {
    let mut reader = Reader::open(Verify::Start);
    let mut asked = Asked::Nothing;
    for line in LINES {
        asked = asked.after(reader.line(rt.alloc(), line.as_bytes())?);
    }
    reader.end()?;
    let Asked::Question(question) = asked else {
        panic!(rt; "a question");
    };
    assert_eq!(rt; question.message.as_slice(), b"\x00\xff".as_slice());
    assert_eq!(rt; question.signature.as_slice(), b"\x0a\x0b\x0c".as_slice());
    let Key::Lms(key) = question.key else {
        panic!(rt; "a key of one level");
    };
    assert_eq!(rt; key.id, [0xa1; 16]);
    Ok(())
}

#[test]
fn bytes_at_the_limits(rt: HostRuntime) -> Result<(), Fail> {
    for (place, word, bytes, wanted) in [
        (2usize, "message ", 16_384u32, None),
        (2, "message ", 16_385, Some(LineFault::Bad(BadWord::Limit))),
        (3, "signature ", 10_000, None),
        (
            3,
            "signature ",
            10_001,
            Some(LineFault::Bad(BadWord::Limit)),
        ),
    ] {
        let mut reader = Reader::open(Verify::Start);
        for line in LINES.iter().take(place) {
            reader.line(rt.alloc(), line.as_bytes())?;
        }
        let mut text = String::from_str(rt.alloc(), word)?;
        for _ in 0..bytes {
            text.push_str("5a")?;
        }
        text.push_str("\n")?;
        assert_eq!(rt;
            reader.line(rt.alloc(), text.as_bytes()).err(),
            wanted,
            "for {bytes}"
        );
    }
    Ok(())
}
