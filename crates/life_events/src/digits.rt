// Bytes at the end of a text, as hexadecimal digits.

ghost use Rattle.std.specs.Prelude.{◌≡◌, ◌*◌, ◌<◌, ◌++◌, OnOk, OnErr, length, slice_index, take};
ghost use Rattle.hex.specs.Hex.{encode_lower, lower_digits};

use crate::number::write_bytes;
use fields::NoMemory;

/// The digit of a number below 16. It is reckoned, and not read from a table, so that many bytes are written at once.
#[inline]
fn hex_digit(number: u8) -> u8
    requires { number < 16 }
    ensures { result ≡ slice_index lower_digits number }
{
    if number < 10 {
        b'0' + number
    } else {
        b'a' - 10 + number
    }
}

/// Writes the digits of the bytes over the room, which they fill.
fn fill_with_digits(bytes: &[u8], room: &mut [u8])
    requires { length room.old ≡ 2 * length bytes.now }
    ensures { room.new ≡ encode_lower bytes.now }
{
    'bytes: for i in 0..bytes.len() {
        let byte = bytes[i];
        room[2 * i] = hex_digit(byte >> 4);
        room[2 * i + 1] = hex_digit(byte & 0x0f);
    }
}

/// Adds the digits of the bytes, all at once. Where memory is refused, `out` begins with what it held.
pub fn add_digits(bytes: &[u8], out: &mut Vec<u8>) -> Result<(), NoMemory>
    ensures ok { OnOk result (out.new.items ≡ out.old.items ++ encode_lower bytes.now) }
    ensures refused { OnErr result (take (length out.old.items) out.new.items ≡ out.old.items) }
{
    let held = out.len();
    let Some(whole) = held.checked_add(2 * bytes.len()) else {
        return Err(NoMemory);
    };
    out.resize(whole, 0)?;
    fill_with_digits(bytes, &mut out[held..]);
    Ok(())
}

/// Adds a word, and the digits of the bytes. Where memory is refused, `out` begins with what it held.
pub fn add_of_digits(word: &[u8], bytes: &[u8], out: &mut Vec<u8>) -> Result<(), NoMemory>
    ensures ok { OnOk result
        (out.new.items ≡ out.old.items ++ word.now ++ encode_lower bytes.now) }
    ensures refused { OnErr result (take (length out.old.items) out.new.items ≡ out.old.items) }
{
    write_bytes(word, out)?;
    add_digits(bytes, out)?;
    Ok(())
}
