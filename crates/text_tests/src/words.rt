//! Words that take memory.

use line_text::{BadWord, LineFault, Words};
use std::test::Fail;

#[test]
fn bytes_are_read_in_either_case(rt: HostRuntime) -> Result<(), Fail> {
    let mut words = Words::of(b"00fFAb - 0a0b").ok_or("no words")?;
    let bytes = words.bytes_up_to(rt.alloc(), 3)?;
    assert_eq!(rt; bytes.as_slice(), b"\x00\xff\xab".as_slice());
    let none = words.bytes_up_to(rt.alloc(), 0)?;
    assert_eq!(rt; none.as_slice(), b"".as_slice());
    assert_eq!(rt;
        words.bytes_up_to(rt.alloc(), 1).err(),
        Some(LineFault::Bad(BadWord::Limit))
    );
    Ok(())
}

#[test]
fn names_are_read(rt: HostRuntime) -> Result<(), Fail> {
    let mut words = Words::of(b"n-18 N18").ok_or("no words")?;
    let name = words.name(rt.alloc())?;
    assert_eq!(rt; name.as_slice(), b"n-18".as_slice());
    assert_eq!(rt;
        words.name(rt.alloc()).err(),
        Some(LineFault::Bad(BadWord::Name))
    );
    Ok(())
}
