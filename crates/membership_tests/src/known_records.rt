//! What an audit knows of a node's own records, before and behind the line that shows a signature.

ghost use Rattle.std.specs.Prelude.{◌<◌};
ghost use Rattle.record_slots.specs.Held.{key_of};
ghost use Rattle.record_slots.specs.Slots.{HasSlot};
ghost use Rattle.audit_set.specs.Knowns.{body_of};

use audit_set::{AuditSet, Known, Unseen};
use ff_ids::{AccBody, Epoch, Mask, MemberId, NoteBody, RecordKey, RingNo};
use records::Body;
use std::test::Fail;

/// The node's note with this index, with a signature that is taken to have 4,460 bytes.
fn own_note(index: u32, member: MemberId) -> Known
    ensures { HasSlot (key_of (body_of result)) }
{
    Known::Own(Unseen {
        index,
        body: Body::Note(NoteBody {
            member,
            epoch: Epoch::new(1),
            mask: Mask(7),
        }),
        length: 4460,
    })
}

/// The same of an accusation.
fn own_accusation(index: u32, accused: MemberId, ring: u8) -> Known
    requires { ring < 3 }
    ensures { HasSlot (key_of (body_of result)) }
{
    Known::Own(Unseen {
        index,
        body: Body::Accusation(AccBody {
            accuser: MemberId::new(5),
            accused,
            epoch: Epoch::new(1),
            ring: RingNo(ring),
        }),
        length: 4460,
    })
}

/// How many bytes the signature of the node's own record has, or is taken to have.
fn own_length(set: &AuditSet, key: &RecordKey) -> Option<u16> {
    match set.get(key) {
        Some(Known::Own(own)) => Some(own.length),
        _ => None,
    }
}

#[test]
fn a_signature_is_shown_where_its_record_is_held(rt: HostRuntime) -> Result<(), Fail> {
    let member = MemberId::new(3);
    let mut set = AuditSet::open(rt.alloc())?;
    set.put(own_note(6, MemberId::new(5)));
    set.put(own_accusation(7, member, 1));
    set.retire(member, RingNo(1));
    set.show(7, 4464);
    assert!(rt; !set.contains(&RecordKey::Accusation(member, RingNo(1))));
    assert_eq!(rt; own_length(&set, &RecordKey::Removal(member)), Some(4464));
    assert_eq!(rt;
        own_length(&set, &RecordKey::Note(MemberId::new(5))),
        Some(4460)
    );
    Ok(())
}
