//! Parts of byte strings.

ghost use Rattle.std.specs.Prelude.{◌≡◌, ◌+◌, ◌≤◌, ◌++◌, length, take};
ghost use Rattle.lms_ots.specs.Ots.{number_at};

/// Writes `value` into `out` at `place`.
pub fn put(out: &mut [u8], place: usize, value: &[u8])
    requires { place + length value.now ≤ length out.old }
    ensures { take (place + length value.now) out.new ≡ take place out.old ++ value.now }
{
    out[place..place + value.len()].copy_from_slice(value);
}

/// The big-endian number in the four bytes at `place`.
pub fn number_at(bytes: &[u8], place: usize) -> u32
    requires { place + 4 ≤ length bytes.now }
    ensures { result ≡ number_at place bytes.now }
{
    let mut number = [0; 4];
    number.copy_from_slice(&bytes[place..place + 4]);
    u32::from_be_bytes(number)
}
