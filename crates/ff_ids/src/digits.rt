// Bytes as hexadecimal digits.

ghost use Rattle.std.specs.Prelude.{◌≡◌, ◌<◌, [], ◌∷◌, Some, slice_index};
ghost use Rattle.std.specs.Char.{encode_utf8};
ghost use Rattle.hex.specs.Hex.{encode_lower, lower_digits};

use std::fmt;

/// Bytes that are written as two lower case digits each.
#[derive(Drop)]
pub struct Digits<'a>(pub &'a [u8]);

/// The digit of this value.
pub fn digit_byte(value: u8) -> u8
    requires { value < 16 }
    ensures { result ≡ slice_index lower_digits value }
{
    b"0123456789abcdef"[value as usize]
}

/// The same as a character.
pub fn digit(value: u8) -> char
    requires { value < 16 }
    ensures { encode_utf8 result ≡ slice_index lower_digits value ∷ [] }
{
    char::from(digit_byte(value))
}

impl<'a> fmt::Display for Digits<'a> {
    ghost output = { λ bytes. Some (encode_lower bytes.0.now) };

    fn fmt<W: fmt::Write>(&self, f: &mut fmt::Formatter<W>) -> fmt::Result {
        for byte in self.0 {
            f.write_char(digit(*byte / 16))?;
            f.write_char(digit(*byte % 16))?;
        }
        Ok(())
    }
}
