// Numbers at the end of a list of bytes, and bytes.

ghost use Rattle.std.specs.Prelude.{◌≡◌, ◌+◌, ◌<◌, ◌++◌, OnOk, OnErr, length, take, codes};
ghost use Rattle.std.specs.Fmt.{decimal};

use fields::NoMemory;
use itoa::Buffer;

/// Adds the bytes.
#[inline]
pub fn write_bytes(bytes: &[u8], out: &mut Vec<u8>) -> Result<(), NoMemory>
    ensures ok { OnOk result (out.new.items ≡ out.old.items ++ bytes.now) }
    ensures refused { OnErr result (out.new.items ≡ out.old.items) }
{
    out.extend_from_slice(bytes)?;
    Ok(())
}

#[inline]
fn digit(number: u64) -> u8
    requires { number < 10 }
    ensures { result ≡ 48 + number }
{
    b'0' + number as u8
}

/// Adds the digits of a number. Those of one below 1,000 are reckoned where they go.
#[tactic(auto, using(crate::proofs::TextLemmas::of_one, crate::proofs::TextLemmas::of_two, crate::proofs::TextLemmas::of_three))]
#[inline]
pub fn write_number(number: u64, out: &mut Vec<u8>) -> Result<(), NoMemory>
    ensures ok { OnOk result (out.new.items ≡ out.old.items ++ decimal number) }
    ensures refused { OnErr result (out.new.items ≡ out.old.items) }
{
    if number < 10 {
        return write_bytes(&[digit(number)], out);
    }
    let ones = digit(number % 10);
    if number < 100 {
        return write_bytes(&[digit(number / 10), ones], out);
    }
    if number < 1000 {
        return write_bytes(&[digit(number / 100), digit(number / 10 % 10), ones], out);
    }
    write_bytes(Buffer::new().format(number).as_bytes(), out)
}

/// Adds a word and the digits of a number. Where memory is refused, `out` begins with what it held.
#[tactic(auto, using(crate::proofs::TextLemmas::begins, crate::proofs::TextLemmas::begins_so))]
pub fn add_of_number(word: &[u8], number: u64, out: &mut Vec<u8>) -> Result<(), NoMemory>
    ensures ok { OnOk result (out.new.items ≡ out.old.items ++ word.now ++ decimal number) }
    ensures refused { OnErr result (take (length out.old.items) out.new.items ≡ out.old.items) }
{
    write_bytes(word, out)?;
    write_number(number, out)
}

/// Adds a word, and the digits of two numbers with one space between them. Where memory is refused, `out` begins with
/// what it held.
#[tactic(auto, using(crate::proofs::TextLemmas::begins, crate::proofs::TextLemmas::begins_so))]
pub fn add_of_two(word: &[u8], first: u64, second: u64, out: &mut Vec<u8>) -> Result<(), NoMemory>
    ensures ok { OnOk result (out.new.items
        ≡ out.old.items ++ word.now ++ decimal first ++ codes " " ++ decimal second) }
    ensures refused { OnErr result (take (length out.old.items) out.new.items ≡ out.old.items) }
{
    write_bytes(word, out)?;
    write_number(first, out)?;
    write_bytes(b" ", out)?;
    write_number(second, out)
}
