//! Fields of records, one step of a reader each. A refused step gives the place at which its field begins; the
//! reader may then have moved.

ghost use Rattle.std.specs.Prelude.{◌≡◌, true, IfOk};
ghost use Rattle.std.specs.Int.{w16, w32, w64};
ghost use Rattle.lms_ots.specs.Ots.{kind_of};
ghost use Rattle.lms_tree.specs.Lms.{tree_of};
ghost use Rattle.hss.specs.Keys.{is_in_profile};
ghost use Rattle.records.specs.Grammar.{Reads, number_at, byte_at, bytes_at, any_number, member_number, nonzero, wide_mask, profile_kind, two_levels, key_at, top_key_at, hss_key_at};

use ff_ids::{Bits, Epoch, MEMBERS, Mask, MemberId, RingNo};
use fields::Reader;
use hss::{HssKey, is_in_profile};
use lms_ots::OtsKind;
use lms_tree::{PublicKey, TreeKind};

/// Where the first field begins that is cut short or breaks its rule.
#[derive(Clone, Copy, Debug, PartialEq, Eq)]
pub struct Misread {
    pub place: usize,
}

/// Two bytes: a number below 1,024.
pub fn member(reader: &mut Reader) -> Result<MemberId, Misread>
    ensures { Reads (λ m. m) result reader.new (number_at w16 member_number reader.old) }
{
    let place = reader.place();
    match reader.u16() {
        Ok(number) if number < MEMBERS => Ok(MemberId::new(number)),
        _ => Err(Misread { place }),
    }
}

/// Two bytes: a number from 1 on.
pub fn port(reader: &mut Reader) -> Result<u16, Misread>
    ensures { Reads (λ p. p) result reader.new (number_at w16 nonzero reader.old) }
{
    let place = reader.place();
    match reader.u16() {
        Ok(port) if port > 0 => Ok(port),
        _ => Err(Misread { place }),
    }
}

/// Eight bytes: a number from 1 on.
pub fn epoch(reader: &mut Reader) -> Result<Epoch, Misread>
    ensures { Reads (λ e. e) result reader.new (number_at w64 nonzero reader.old) }
{
    let place = reader.place();
    match reader.u64() {
        Ok(number) if number > 0 => Ok(Epoch::new(number)),
        _ => Err(Misread { place }),
    }
}

/// Four bytes: any number.
pub fn mask(reader: &mut Reader) -> Result<Mask, Misread>
    ensures { Reads (λ m. m.0) result reader.new (number_at w32 any_number reader.old) }
{
    let place = reader.place();
    match reader.u32() {
        Ok(rings) => Ok(Mask(Bits::from(rings))),
        Err(_) => Err(Misread { place }),
    }
}

/// Eight bytes: a mask that four don't hold.
pub fn wide_mask(reader: &mut Reader) -> Result<Mask, Misread>
    ensures { Reads (λ m. m.0) result reader.new (number_at w64 wide_mask reader.old) }
{
    let place = reader.place();
    match reader.u64() {
        Ok(rings) if rings > Bits::from(u32::MAX) => Ok(Mask(rings)),
        _ => Err(Misread { place }),
    }
}

/// One byte: any number.
pub fn ring(reader: &mut Reader) -> Result<RingNo, Misread>
    ensures { Reads (λ r. r.0) result reader.new (byte_at any_number reader.old) }
{
    let place = reader.place();
    match reader.u8() {
        Ok(number) => Ok(RingNo(number)),
        Err(_) => Err(Misread { place }),
    }
}

/// Four bytes: the type of a tree.
pub fn tree_kind(reader: &mut Reader) -> Result<TreeKind, Misread>
    ensures { Reads (λ k. k) result reader.new (number_at w32 tree_of reader.old) }
{
    let place = reader.place();
    let Ok(number) = reader.u32() else {
        return Err(Misread { place });
    };
    TreeKind::from_type(number).ok_or(Misread { place })
}

/// Four bytes: the type of a one-time signature.
pub fn ots_kind(reader: &mut Reader) -> Result<OtsKind, Misread>
    ensures { Reads (λ k. k) result reader.new (number_at w32 kind_of reader.old) }
{
    let place = reader.place();
    let Ok(number) = reader.u32() else {
        return Err(Misread { place });
    };
    OtsKind::from_type(number).ok_or(Misread { place })
}

/// Four bytes: the type of W4 or W8.
pub fn profile_kind(reader: &mut Reader) -> Result<OtsKind, Misread>
    ensures read { Reads (λ k. k) result reader.new (number_at w32 profile_kind reader.old) }
    ensures in_profile { IfOk result (λ k. is_in_profile k ≡ true) }
{
    let place = reader.place();
    let Ok(number) = reader.u32() else {
        return Err(Misread { place });
    };
    match OtsKind::from_type(number) {
        Some(kind) if is_in_profile(kind) => Ok(kind),
        _ => Err(Misread { place }),
    }
}

/// Four bytes: the number 2, of a key's levels.
pub fn levels(reader: &mut Reader) -> Result<u32, Misread>
    ensures { Reads (λ n. n) result reader.new (number_at w32 two_levels reader.old) }
{
    let place = reader.place();
    match reader.u32() {
        Ok(number) if number == 2 => Ok(number),
        _ => Err(Misread { place }),
    }
}

/// So many bytes.
pub fn array<const N: usize>(reader: &mut Reader) -> Result<[u8; N], Misread>
    ensures { Reads (λ a. a) result reader.new (bytes_at N reader.old) }
{
    let place = reader.place();
    let Ok(bytes) = reader.bytes(N) else {
        return Err(Misread { place });
    };
    let mut array = [0; N];
    array.copy_from_slice(bytes);
    Ok(array)
}

/// A public key of one level in 56 bytes, as four fields (RFC 8554, section 5.3).
#[tactic(auto, unfolding(crate::specs::Grammar::key_at))]
pub fn key(reader: &mut Reader) -> Result<PublicKey, Misread>
    ensures { Reads (λ k. k) result reader.new (key_at reader.old) }
{
    let tree = tree_kind(reader)?;
    let ots = ots_kind(reader)?;
    let id = array::<16>(reader)?;
    let root = array::<32>(reader)?;
    Ok(PublicKey {
        tree,
        ots,
        id,
        root,
    })
}

/// The top key of a key of two levels, in 56 bytes: a key whose one-time signatures are of W4 or W8.
#[tactic(auto, unfolding(crate::specs::Grammar::top_key_at))]
pub fn top_key(reader: &mut Reader) -> Result<PublicKey, Misread>
    ensures read { Reads (λ k. k) result reader.new (top_key_at reader.old) }
    ensures in_profile { IfOk result (λ k. is_in_profile k.ots ≡ true) }
{
    let tree = tree_kind(reader)?;
    let ots = profile_kind(reader)?;
    let id = array::<16>(reader)?;
    let root = array::<32>(reader)?;
    Ok(PublicKey {
        tree,
        ots,
        id,
        root,
    })
}

/// A public key of two levels in 60 bytes: the number of its levels, and its top key (RFC 8554, section 6.1).
#[tactic(auto, unfolding(crate::specs::Grammar::hss_key_at))]
pub fn hss_key(reader: &mut Reader) -> Result<HssKey, Misread>
    ensures { Reads (λ k. k) result reader.new (hss_key_at reader.old) }
{
    levels(reader)?;
    let top = top_key(reader)?;
    Ok(HssKey { top })
}
