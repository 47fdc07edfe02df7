//! Certificates that are signed, over objects in memory.

ghost use Rattle.std.specs.Prelude.{◌≡◌, true, IfOk};

use authority::{Halt, enroll};
use epoch_store::make;
use ff_ids::{Group, Mask};
use fixtures::{disk, failing_sink, failing_source};
use lms_ots::OtsKind;
use lms_tree::TreeKind;
use ports::{MemoryDisk, MemorySource};
use secrets::{make_key, store_tag};
use sign_keys::Kinds;
use std::alloc::Global;
use std::process::Abort;
use std::test::Fail;

const HEAD: &str = "fireflies 1 roster\n\
    group 1 4 1 2 00000000000000000000000000000000\nkinds 2 5\n\
    secret 5a5a5a5a5a5a5a5a5a5a5a5a5a5a5a5a5a5a5a5a5a5a5a5a5a5a5a5a5a5a5a5a\n";

const KEY: &str =
    "0000000500000004a1a1a1a1a1a1a1a1a1a1a1a1a1a1a1a1b2b2b2b2b2b2b2b2b2b2b2b2b2b2b2b2b2b2b2b2b2b2b2b2b2b2b2b2b2b2b2b2";

/// A source of a roster that asks for so many certificates.
fn roster(alloc: Global, count: u16) -> Result<MemorySource, Fail>
    ensures { IfOk result (λ s. s.is_open ≡ true) }
{
    let mut text = String::from_str(alloc, HEAD)?;
    for member in 0..count {
        let line = format!(in alloc; "cert {member} 20000 {KEY}\n")?;
        text.push_str(line.as_str())?;
    }
    text.push_str("end\n")?;
    Ok(failing_source(alloc, text.as_str(), 512, &[])?)
}

/// The tag of the authority's store.
fn tag(alloc: Global) -> Result<[u8; 32], Fail> {
    let kinds = Kinds {
        ots: OtsKind::W2,
        tree: TreeKind::H5,
        bottom: None,
    };
    let key = make_key(alloc, kinds, &[0x5a; 32])?;
    let group = Group {
        tag: [0; 16],
        t: 1,
        timeout: 4,
        period: 1,
        misses: 2,
    };
    Ok(store_tag(&group, &key))
}

/// A disk with the authority's store, whose calls with these numbers fail.
fn made(alloc: Global, fail: &[u64]) -> Result<MemoryDisk, Fail> {
    let mut disk = disk(alloc, fail)?;
    make(&mut disk, "a.st", &tag(alloc)?, Mask(7)).or(Err("make"))?;
    Ok(disk)
}

/// What an enrolment answered and wrote.
#[derive(Drop)]
struct Enrolled {
    done: Result<(), Halt>,
    written: Vec<u8>,
}

/// Enrolls so many certificates from the store in the disk's file.
fn enroll_on(alloc: Global, count: u16, disk: &mut MemoryDisk) -> Result<Enrolled, Fail> {
    let mut input = roster(alloc, count)?;
    let mut out = failing_sink(alloc, 300_000, 4_096, &[])?;
    let done = enroll(alloc, "a.st", &mut input, &mut out, disk);
    Ok(Enrolled {
        done,
        written: out.bytes().to_vec(alloc)?,
    })
}

/// Compares an enrolment with one that signed the certificate of member 0 with this index.
fn compare_one(rt: &impl Abort, alloc: Global, got: &Enrolled, index: u8) -> Result<(), Fail> {
    let wanted = format!(in alloc; "cert 0 20000 {KEY} 0000000{index}")?;
    assert_eq!(rt; got.done, Ok(()));
    assert_eq!(rt; got.written.len(), wanted.len().wrapping_add(8_913));
    assert_eq!(rt; got.written.as_slice().starts_with(wanted.as_bytes()), true);
    Ok(())
}

/// The number of lines.
fn lines(text: &[u8]) -> u32 {
    let mut lines = 0u32;
    for byte in text {
        if *byte == b'\n' {
            lines = lines.wrapping_add(1);
        }
    }
    lines
}

#[test]
fn each_certificate_has_the_next_index(rt: HostRuntime) -> Result<(), Fail> {
    let mut disk = made(rt.alloc(), &[])?;
    let first = enroll_on(rt.alloc(), 1, &mut disk)?;
    compare_one(&rt, rt.alloc(), &first, 0)?;
    let second = enroll_on(rt.alloc(), 1, &mut disk)?;
    compare_one(&rt, rt.alloc(), &second, 1)
}

#[test]
fn a_key_is_used_up(rt: HostRuntime) -> Result<(), Fail> {
    let mut disk = made(rt.alloc(), &[])?;
    let got = enroll_on(rt.alloc(), 33, &mut disk)?;
    assert_eq!(rt; got.done, Err(Halt::Exhausted { next: 32 }));
    assert_eq!(rt; lines(&got.written), 32);
    Ok(())
}

#[test]
fn an_empty_file_is_no_store(rt: HostRuntime) -> Result<(), Fail> {
    let mut disk = disk(rt.alloc(), &[])?;
    let got = enroll_on(rt.alloc(), 1, &mut disk)?;
    let broken = Halt::StoreBroken {
        place: 0,
        byte: None,
    };
    assert_eq!(rt; got.done, Err(broken));
    Ok(())
}

#[test]
fn nothing_is_written_for_a_put_that_fails(rt: HostRuntime) -> Result<(), Fail> {
    let mut disk = made(rt.alloc(), &[9])?;
    let got = enroll_on(rt.alloc(), 1, &mut disk)?;
    assert_eq!(rt; got.done, Err(Halt::StoreFault));
    assert_eq!(rt; got.written.as_slice(), b"".as_slice());
    Ok(())
}
