//! The numbers of a line.

ghost use Rattle.std.specs.Prelude.{◌≡◌, ◌+◌, ◌-◌, ◌*◌, ◌^◌, ◌<◌, ◌≤◌, ◌==◌, ◌&&◌, not, true, length, take, Some, IfOk, IfSome};
ghost use Rattle.std.specs.Char.{is_ascii_digit};
ghost use Rattle.std.specs.List.{list_all};
ghost use Rattle.std.specs.Option.{SomeIff};
ghost use Rattle.line_text.specs.Numbers.{has_leading_zero, number_of, read_digits};
ghost use Rattle.line_text.specs.Answers.{refusal};
ghost use Rattle.line_text.specs.Fields.{bad_number, is_within, or_zero};
ghost use Rattle.line_text.specs.Frame.{behind, first_word};
ghost use Rattle.line_text.specs.Words.{parts, parts_left};

use crate::bad_word::BadWord;

/// Whether a 0 stands before other digits.
fn has_leading_zero(word: &[u8]) -> bool
    ensures { result ≡ has_leading_zero word.now }
{
    word.len() > 1 && word[0] == b'0'
}

/// The number with one more digit behind it, if 64 bits hold it.
fn with_digit(number: u64, digit: u8) -> Option<u64>
    ensures { SomeIff result (10 * number + (digit - 48) < 2 ^ 64) (10 * number + (digit - 48)) }
{
    number
        .checked_mul(10)?
        .checked_add(u64::from(digit.saturating_sub(b'0')))
}

/// The number that the word spells.
#[cold]
#[inline(never)]
pub(crate) fn number_of(word: &[u8]) -> Option<u64>
    ensures { result ≡ number_of word.now }
{
    if word.is_empty() || has_leading_zero(word) {
        return None;
    }
    let mut number = 0;
    for digit in word {
        if !digit.is_ascii_digit() {
            return None;
        }
        number = with_digit(number, *digit)?;
    }
    Some(number)
}

/// The number that the digits at the head of the text stand for, and how many they are, or the first 19, whose
/// number 64 bits always hold.
#[inline(always)]
fn head_digits(text: &[u8]) -> (u64, usize)
    ensures digits { list_all is_ascii_digit (take result.1 text.now) ≡ true }
    ensures value { result.0 ≡ read_digits 0 (take result.1 text.now) }
    ensures within { result.1 ≤ length text.now }
{
    let most = text.len().min(19);
    let mut number: u64 = 0;
    for at in 0..most {
        let byte = text[at];
        if !byte.is_ascii_digit() {
            return (number, at);
        }
        number = 10 * number + u64::from(byte - b'0');
    }
    (number, most)
}

/// Whether the word has a byte, and no 0 before others.
#[inline(always)]
fn begins_numeral(word: &[u8]) -> bool
    ensures { result ≡ (not (length word.now == 0) && not (has_leading_zero word.now)) }
{
    !word.is_empty() && !has_leading_zero(word)
}

/// The number that the first word of the text spells, and what stands behind that word, where one pass over the
/// word shows it.
#[inline(always)]
pub(crate) fn head_number(text: &[u8]) -> Option<(u64, Option<&[u8]>)>
    ensures number { IfSome result (λ r. number_of (first_word (parts text.now)) ≡ Some r.0) }
    ensures left { IfSome result (λ r. parts_left r.1 ≡ behind (parts text.now)) }
{
    let (number, end) = head_digits(text);
    if !begins_numeral(&text[..end]) {
        None
    } else if end == text.len() {
        Some((number, None))
    } else if text[end] == b' ' {
        Some((number, Some(&text[end + 1..])))
    } else {
        None
    }
}

/// The number that was read, from `low` to `high`.
#[inline(always)]
pub(crate) fn number_within(read: Option<u64>, low: u64, high: u64) -> Result<u64, BadWord>
    ensures refused { bad_number (is_within low high) read ≡ refusal result }
    ensures value { IfOk result (λ n. n ≡ or_zero read) }
    ensures low { IfOk result (λ n. low ≤ n) }
    ensures high { IfOk result (λ n. n ≤ high) }
{
    let number = read.ok_or(BadWord::Number)?;
    if low <= number && number <= high {
        Ok(number)
    } else {
        Err(BadWord::Limit)
    }
}
