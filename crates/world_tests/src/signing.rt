//! A key that signs, and the kit of a life.

ghost use Rattle.std.specs.Prelude.{◌≡◌, true};
ghost use Rattle.records.specs.Spelling.{HasPort};
ghost use Rattle.sign_keys.specs.Kinds.{is_in_profile};

use ff_ids::{Epoch, Group, Mask, MemberId, NoteBody};
use lms_ots::OtsKind;
use lms_tree::TreeKind;
use records::{Body, Checked, Key, signed_bytes};
use sign_keys::Kinds;
use std::alloc::Global;
use std::process::Abort;
use std::test::Fail;
use world_host::{Authority, SigningKey, is_same, key_of};

const GROUP: Group = Group {
    tag: [7; 16],
    t: 1,
    timeout: 3,
    period: 1,
    misses: 1,
};

/// The first note of member 1.
fn first_note() -> Body
    ensures { HasPort result }
{
    Body::Note(NoteBody {
        member: MemberId::new(1),
        epoch: Epoch::new(1),
        mask: Mask(7),
    })
}

/// The key of member 1, of these kinds.
fn key_of_one(alloc: Global, kinds: Kinds) -> Result<SigningKey, Fail>
    requires { is_in_profile kinds ≡ true }
{
    Ok(SigningKey::of(key_of(alloc, &GROUP, kinds, 1)?))
}

/// The record is that of the first note, and its signature is one of the key's.
fn expect_signed(rt: &impl Abort, key: &Key, checked: &Checked) {
    let rec = checked.rec();
    assert!(rt; is_same(&rec.body, &first_note()));
    let message = signed_bytes(&GROUP, &first_note());
    assert!(rt;
        key.verify(message.as_slice(), rec.signature.as_slice())
            .is_ok()
    );
}

#[test]
fn a_key_signs_by_its_next_leaf(rt: HostRuntime) -> Result<(), Fail> {
    let kinds = Kinds {
        ots: OtsKind::W2,
        tree: TreeKind::H5,
        bottom: None,
    };
    let mut key = key_of_one(rt.alloc(), kinds)?;
    let signed = key.sign(rt.alloc(), &GROUP, first_note())?;
    assert_eq!(rt; key.next(), 1);
    let Some(checked) = signed else {
        panic!(rt; "no leaf is left");
    };
    expect_signed(&rt, &key.public(), &checked);
    Ok(())
}

/// The four bytes there: the number of a leaf, in a signature of two levels.
fn leaf_at(signature: &[u8], place: usize) -> Option<u8> {
    match signature.get(place..)?.split_at_checked(4)?.0 {
        [0, 0, 0, leaf] => Some(*leaf),
        _ => None,
    }
}

#[test]
fn a_key_of_two_levels_signs_on_in_its_next_bottom_tree(rt: HostRuntime) -> Result<(), Fail> {
    let kinds = Kinds {
        ots: OtsKind::W8,
        tree: TreeKind::H5,
        bottom: Some(TreeKind::H5),
    };
    let mut key = key_of_one(rt.alloc(), kinds)?;
    for _index in 0..32 {
        key.sign(rt.alloc(), &GROUP, first_note())?;
    }
    let Some(checked) = key.sign(rt.alloc(), &GROUP, first_note())? else {
        panic!(rt; "no index is left");
    };
    assert_eq!(rt; key.next(), 33);
    expect_signed(&rt, &key.public(), &checked);
    let signature = checked.rec().signature.as_slice();
    assert_eq!(rt; signature.len(), 2644);
    assert_eq!(rt; leaf_at(signature, 4), Some(1));
    assert_eq!(rt; leaf_at(signature, 1352), Some(0));
    Ok(())
}

#[test]
fn the_kit_of_a_life_has_what_the_authority_keeps(rt: HostRuntime) -> Result<(), Fail> {
    let kinds = Kinds {
        ots: OtsKind::W2,
        tree: TreeKind::H5,
        bottom: None,
    };
    let Key::Lms(public) = key_of_one(rt.alloc(), kinds)?.public() else {
        panic!(rt; "a key of two levels");
    };
    let kit = Authority::new(rt.alloc(), GROUP, None, public).kit(rt.alloc(), MemberId::new(1), 0)?;
    assert_eq!(rt; kit.me.get(), 1);
    assert!(rt; kit.certificates.is_empty());
    Ok(())
}
