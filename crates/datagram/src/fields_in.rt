//! Fields of datagrams, one step of a reader each. A refused step gives the place at which its field begins; the
//! reader may then have moved.

ghost use Rattle.std.specs.Prelude.{◌≡◌, ◌≤◌, IfOk};
ghost use Rattle.std.specs.Int.{w16, w64};
ghost use Rattle.records.specs.Grammar.{Reads, number_at, byte_at, any_number, number_within};
ghost use Rattle.datagram.specs.Grammar.{head_at};
ghost use Rattle.datagram.specs.Spelling.{bits_width};

use ff_ids::{Bits, MemberId};
use fields::Reader;
use records::steps::{Misread, member};

/// One byte: a number of this range.
pub(crate) fn byte_within(reader: &mut Reader, least: u8, most: u8) -> Result<u8, Misread>
    ensures reads { Reads (λ n. n) result reader.new
        (byte_at (number_within least most) reader.old) }
    ensures range { IfOk result (λ n. (least ≤ n) × (n ≤ most)) }
{
    let place = reader.place();
    match reader.u8() {
        Ok(number) if least <= number && number <= most => Ok(number),
        _ => Err(Misread { place }),
    }
}

/// Two bytes: a number of this range.
pub(crate) fn u16_within(reader: &mut Reader, least: u16, most: u16) -> Result<u16, Misread>
    ensures reads { Reads (λ n. n) result reader.new
        (number_at w16 (number_within least most) reader.old) }
    ensures range { IfOk result (λ n. (least ≤ n) × (n ≤ most)) }
{
    let place = reader.place();
    match reader.u16() {
        Ok(number) if least <= number && number <= most => Ok(number),
        _ => Err(Misread { place }),
    }
}

/// Four bytes, or in a wide summary eight: a mask or rings up to this number.
pub(crate) fn bits_up_to(reader: &mut Reader, wide: bool, most: Bits) -> Result<Bits, Misread>
    ensures { Reads (λ n. n) result reader.new
        (number_at (bits_width wide) (number_within 0 most) reader.old) }
{
    let place = reader.place();
    let bits = if wide {
        reader.u64()
    } else {
        reader.u32().map(Bits::from)
    };
    match bits {
        Ok(number) if number <= most => Ok(number),
        _ => Err(Misread { place }),
    }
}

/// Eight bytes: any number.
pub(crate) fn u64_any(reader: &mut Reader) -> Result<u64, Misread>
    ensures { Reads (λ n. n) result reader.new (number_at w64 any_number reader.old) }
{
    let place = reader.place();
    match reader.u64() {
        Ok(number) => Ok(number),
        Err(_) => Err(Misread { place }),
    }
}

/// What each datagram begins with: the letters FF, version 1, its kind, 1 to 5, and its sender.
#[tactic(auto, unfolding(crate::specs::Grammar::head_at))]
pub(crate) fn head(reader: &mut Reader) -> Result<(u8, MemberId), Misread>
    ensures { Reads (λ h. h) result reader.new (head_at reader.old) }
{
    u16_within(reader, 0x4646, 0x4646)?;
    byte_within(reader, 1, 1)?;
    let kind = byte_within(reader, 1, 5)?;
    let from = member(reader)?;
    Ok((kind, from))
}
