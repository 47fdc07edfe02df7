//! What the lines of all forms share.

ghost use Rattle.std.specs.Prelude.{◌≡◌, ◌≤◌, not, true, IfOk, OnOk};
ghost use Rattle.line_text.specs.Answers.{refusal};
ghost use Rattle.line_text.specs.Fields.{bad_where};
ghost use Rattle.line_text.specs.Frame.{before_line_feed, first_of, has_line_feed, text_lines, text_tests};
ghost use Rattle.line_text.specs.Words.{is_spaced, parts};

use crate::bad_word::BadWord;
use crate::words::Words;
use text_trace::{LINE_BYTES, TEXT_LINES};

/// Whether a line feed ends the bytes.
fn has_line_feed(bytes: &[u8]) -> bool
    ensures { result ≡ has_line_feed bytes.now }
{
    !bytes.is_empty() && bytes[bytes.len() - 1] == b'\n'
}

/// What stands before the line feed that ends the bytes, or all of them.
fn before_line_feed(bytes: &[u8]) -> &[u8]
    ensures { result.now ≡ before_line_feed bytes.now }
{
    if has_line_feed(bytes) {
        &bytes[..bytes.len() - 1]
    } else {
        bytes
    }
}

/// What stands before the line feed of the next line, which has this number, where a text has or hasn't ended.
pub(crate) fn frame_text(ended: bool, number: u32, bytes: &[u8]) -> Result<&[u8], BadWord>
    ensures refused { first_of (text_tests ended number bytes.now) ≡ refusal result }
    ensures text { IfOk result (λ text. text.now ≡ before_line_feed bytes.now) }
    ensures few { OnOk result (number ≤ text_lines) }
{
    let text = before_line_feed(bytes);
    if ended {
        Err(BadWord::AfterEnd)
    } else if text.len() > LINE_BYTES {
        Err(BadWord::Long)
    } else if !has_line_feed(bytes) {
        Err(BadWord::LineFeed)
    } else if number > TEXT_LINES {
        Err(BadWord::Lines)
    } else {
        Ok(text)
    }
}

/// The words of the text, if it is words with one space between two and none elsewhere.
pub(crate) fn spaced_words(text: &[u8]) -> Result<Words, BadWord>
    ensures refused { bad_where BadWord.Spaces (not (is_spaced text.now)) ≡ refusal result }
    ensures spaced { OnOk result (is_spaced text.now ≡ true) }
    ensures words { IfOk result (λ words. words ≡ parts text.now) }
{
    Words::of(text).ok_or(BadWord::Spaces)
}
