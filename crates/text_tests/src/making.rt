//! A store that is made, over objects in memory.

use authority::{Halt, make_store};
use fixtures::{disk, sink, source};
use line_text::BadWord;
use std::test::Fail;

const SECRET: &str = "fireflies 1 secret\n\
    group 1 4 1 2 00000000000000000000000000000000\nkinds 2 5\n\
    secret 5a5a5a5a5a5a5a5a5a5a5a5a5a5a5a5a5a5a5a5a5a5a5a5a5a5a5a5a5a5a5a5a\nend\n";

#[test]
fn a_store_is_made_once(rt: HostRuntime) -> Result<(), Fail> {
    let mut disk = disk(rt.alloc(), &[])?;
    let mut input = source(rt.alloc(), SECRET)?;
    let mut out = sink(rt.alloc(), 1000)?;
    assert_eq!(rt;
        make_store(rt.alloc(), "a.st", &mut input, &mut out, &mut disk),
        Ok(())
    );
    assert_eq!(rt; out.bytes().len(), 117);
    assert_eq!(rt; &out.bytes()[..20], b"key 0000000500000002".as_slice());
    assert_eq!(rt; disk.image().len(), 58);
    let mut input = source(rt.alloc(), SECRET)?;
    let mut out = sink(rt.alloc(), 1000)?;
    assert_eq!(rt;
        make_store(rt.alloc(), "a.st", &mut input, &mut out, &mut disk),
        Err(Halt::StoreTaken { len: 58 })
    );
    assert_eq!(rt; out.bytes(), b"".as_slice());
    Ok(())
}

#[test]
fn a_disk_that_fails_is_answered(rt: HostRuntime) -> Result<(), Fail> {
    for call in 0..4u64 {
        let mut disk = disk(rt.alloc(), &[call])?;
        let mut input = source(rt.alloc(), SECRET)?;
        let mut out = sink(rt.alloc(), 1000)?;
        assert_eq!(rt;
            make_store(rt.alloc(), "a.st", &mut input, &mut out, &mut disk),
            Err(Halt::StoreFault)
        );
        assert_eq!(rt; out.bytes(), b"".as_slice());
    }
    Ok(())
}

#[test]
fn a_bad_text_makes_nothing(rt: HostRuntime) -> Result<(), Fail> {
    let mut disk = disk(rt.alloc(), &[0])?;
    let mut input = source(rt.alloc(), "fireflies 1 secret\nkinds 2 5\n")?;
    let mut out = sink(rt.alloc(), 1000)?;
    assert_eq!(rt;
        make_store(rt.alloc(), "a.st", &mut input, &mut out, &mut disk),
        Err(Halt::Refused {
            line: 2,
            word: BadWord::Order
        })
    );
    Ok(())
}
