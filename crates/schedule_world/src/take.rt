//! The words of a line, taken one by one.

ghost use Rattle.std.specs.Prelude.{◌≡◌, IfOk};
ghost use Rattle.line_text.specs.Answers.{refusal};
ghost use Rattle.line_text.specs.Frame.{behind, first_word};
ghost use Rattle.line_text.specs.Shapes.{any_name, test, value as value_in};
ghost use Rattle.schedule_world.specs.Rows.{epoch, epoch_or_now, height, member, newcomer, outcome, width};

use crate::text::WorldText;
use ff_ids::{Epoch, LAST_MEMBER, MemberId};
use fields::Name;
use line_text::{BadWord, Words};
use lms_ots::OtsKind;
use lms_tree::TreeKind;

/// Takes the number of a member.
pub(crate) fn take_member(words: &mut Words) -> Result<MemberId, BadWord>
    ensures refused { test member (first_word words.old) ≡ refusal result }
    ensures value { IfOk result (λ n. n ≡ value_in member (first_word words.old)) }
    ensures moved { words.new ≡ behind words.old }
{
    let number = words.number(0, LAST_MEMBER as u64)?;
    Ok(MemberId::new(number as u16))
}

/// Takes the number of a member that may be named here.
pub(crate) fn take_newcomer(text: &WorldText, words: &mut Words) -> Result<MemberId, BadWord>
    ensures refused { test (newcomer text.now) (first_word words.old) ≡ refusal result }
    ensures value { IfOk result (λ n. n ≡ value_in (newcomer text.now) (first_word words.old)) }
    ensures moved { words.new ≡ behind words.old }
{
    let member = take_member(words)?;
    if text.may_name(member) {
        Ok(member)
    } else {
        Err(BadWord::Limit)
    }
}

/// Takes the width of a kind of one-time signatures.
pub(crate) fn take_width(words: &mut Words) -> Result<OtsKind, BadWord>
    ensures refused { test width (first_word words.old) ≡ refusal result }
    ensures value { IfOk result (λ kind. kind ≡ value_in width (first_word words.old)) }
    ensures moved { words.new ≡ behind words.old }
{
    match words.number(0, u64::MAX)? {
        1 => Ok(OtsKind::W1),
        2 => Ok(OtsKind::W2),
        4 => Ok(OtsKind::W4),
        8 => Ok(OtsKind::W8),
        _ => Err(BadWord::Limit),
    }
}

/// Takes the height of a kind of trees.
pub(crate) fn take_height(words: &mut Words) -> Result<TreeKind, BadWord>
    ensures refused { test height (first_word words.old) ≡ refusal result }
    ensures value { IfOk result (λ kind. kind ≡ value_in height (first_word words.old)) }
    ensures moved { words.new ≡ behind words.old }
{
    match words.number(0, u64::MAX)? {
        5 => Ok(TreeKind::H5),
        10 => Ok(TreeKind::H10),
        _ => Err(BadWord::Limit),
    }
}

/// Takes an epoch.
pub(crate) fn take_epoch(words: &mut Words) -> Result<Epoch, BadWord>
    ensures refused { test epoch (first_word words.old) ≡ refusal result }
    ensures value { IfOk result (λ n. n ≡ value_in epoch (first_word words.old)) }
    ensures moved { words.new ≡ behind words.old }
{
    let number = words.number(1, u64::MAX)?;
    Ok(Epoch::new(number))
}

/// Takes an epoch, or `now`, which is none.
pub(crate) fn take_epoch_or_now(words: &mut Words) -> Result<Option<Epoch>, BadWord>
    ensures refused { test epoch_or_now (first_word words.old) ≡ refusal result }
    ensures value { IfOk result (λ e. e ≡ value_in epoch_or_now (first_word words.old)) }
    ensures moved { words.new ≡ behind words.old }
{
    let (word, behind) = words.again().split();
    if word == b"now".as_slice() {
        *words = behind;
        Ok(None)
    } else {
        let epoch = take_epoch(words)?;
        Ok(Some(epoch))
    }
}

/// Takes the outcome of a crash.
pub(crate) fn take_outcome(words: &mut Words) -> Result<u16, BadWord>
    ensures refused { test outcome (first_word words.old) ≡ refusal result }
    ensures value { IfOk result (λ n. n ≡ value_in outcome (first_word words.old)) }
    ensures moved { words.new ≡ behind words.old }
{
    let number = words.number(0, 65_535)?;
    Ok(number as u16)
}

/// Goes past a name, for which no memory is asked.
pub(crate) fn pass_name(words: &mut Words) -> Result<(), BadWord>
    ensures refused { test any_name (first_word words.old) ≡ refusal result }
    ensures moved { words.new ≡ behind words.old }
{
    let (word, behind) = words.again().split();
    *words = behind;
    if Name::is_name(word) {
        Ok(())
    } else {
        Err(BadWord::Name)
    }
}
