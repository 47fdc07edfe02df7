//! The lines of numbers, where one pass over them shows what they are.

ghost use Rattle.std.specs.Prelude.{◌≡◌, ◌≤◌, ◌∷◌, true, None, IfSome};
ghost use Rattle.ff_ids.specs.declared.TheConstants.{MAX_TOLERANCE};
ghost use Rattle.line_text.specs.Fields.{number_in};
ghost use Rattle.line_text.specs.Frame.{first_word};
ghost use Rattle.line_text.specs.Shapes.{test};
ghost use Rattle.line_text.specs.Words.{is_word};
ghost use Rattle.schedule_direct.specs.Rows.{AreRead, epoch, member, tolerance};

use crate::direct::{Direct, ticks_left, tolerance};
use crate::line::{DirectLine, LineWord};
use ff_ids::{ALL_BITS, AccBody, Epoch, LAST_MEMBER, Mask, MemberId, NoteBody, RingNo};
use line_text::Glance;

/// Takes the number of a member.
#[inline(always)]
fn glance_member(words: &mut Glance) -> Option<MemberId>
    ensures part { IfSome result (λ _. words.old ≡ first_word words.old ∷ words.new) }
    ensures word { IfSome result (λ _. is_word (first_word words.old) ≡ true) }
    ensures good { IfSome result (λ _. test member (first_word words.old) ≡ None) }
    ensures value { IfSome result (λ n. n ≡ number_in (first_word words.old)) }
{
    let number = words.number(0, LAST_MEMBER as u64)?;
    Some(MemberId::new(number as u16))
}

/// Takes an epoch.
#[inline(always)]
fn glance_epoch(words: &mut Glance) -> Option<Epoch>
    ensures part { IfSome result (λ _. words.old ≡ first_word words.old ∷ words.new) }
    ensures word { IfSome result (λ _. is_word (first_word words.old) ≡ true) }
    ensures good { IfSome result (λ _. test epoch (first_word words.old) ≡ None) }
    ensures value { IfSome result (λ n. n ≡ number_in (first_word words.old)) }
{
    let number = words.number(1, u64::MAX)?;
    Some(Epoch::new(number))
}

fn glance_note(direct: Direct, mut args: Glance) -> Option<DirectLine>
    ensures { IfSome result (λ l. AreRead direct LineWord.Note args.entry l) }
{
    let note = NoteBody {
        member: glance_member(&mut args)?,
        epoch: glance_epoch(&mut args)?,
        mask: Mask(args.number(0, ALL_BITS)?),
    };
    if args.is_empty() {
        Some(DirectLine::Note(note))
    } else {
        None
    }
}

fn glance_accuse(direct: Direct, mut args: Glance) -> Option<DirectLine>
    ensures { IfSome result (λ l. AreRead direct LineWord.Accuse args.entry l) }
{
    let accusation = AccBody {
        accuser: glance_member(&mut args)?,
        accused: glance_member(&mut args)?,
        epoch: glance_epoch(&mut args)?,
        ring: RingNo(args.number(0, 255)? as u8),
    };
    if args.is_empty() {
        Some(DirectLine::Accuse(accusation))
    } else {
        None
    }
}

/// The ticks of one line, where no more than `left` may come.
fn glance_tick(direct: Direct, mut args: Glance) -> Option<DirectLine>
    ensures { IfSome result (λ l. AreRead direct LineWord.Tick args.entry l) }
{
    let number = args.number(1, u64::from(ticks_left(direct).min(10_000)))?;
    if args.is_empty() {
        Some(DirectLine::Tick(number as u32))
    } else {
        None
    }
}

fn glance_monitor(direct: Direct, mut args: Glance) -> Option<DirectLine>
    requires { tolerance direct ≤ MAX_TOLERANCE }
    ensures { IfSome result (λ l. AreRead direct LineWord.Monitor args.entry l) }
{
    let ring = args.number(0, 2 * u64::from(tolerance(direct)))?;
    let member = glance_member(&mut args)?;
    if args.is_empty() {
        Some(DirectLine::Monitor {
            ring: RingNo(ring as u8),
            member,
        })
    } else {
        None
    }
}

fn glance_view(direct: Direct, args: Glance) -> Option<DirectLine>
    ensures { IfSome result (λ l. AreRead direct LineWord.View args.entry l) }
{
    if args.is_empty() {
        Some(DirectLine::View)
    } else {
        None
    }
}

/// The line of this line word, where each part behind the word is a number in its range.
#[inline(always)]
pub(crate) fn glance_line(direct: Direct, word: LineWord, args: Glance) -> Option<DirectLine>
    requires { tolerance direct ≤ MAX_TOLERANCE }
    ensures { IfSome result (λ l. AreRead direct word args.entry l) }
{
    match word {
        LineWord::Note => glance_note(direct, args),
        LineWord::Accuse => glance_accuse(direct, args),
        LineWord::Tick => glance_tick(direct, args),
        LineWord::View => glance_view(direct, args),
        LineWord::Monitor => glance_monitor(direct, args),
        LineWord::Group | LineWord::Member | LineWord::Life | LineWord::End => None,
    }
}
