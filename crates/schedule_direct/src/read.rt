//! The lines that take no memory, read word by word.

ghost use Rattle.std.specs.Prelude.{◌≡◌, ◌*◌, ◌≤◌, [], IfOk};
ghost use Rattle.ff_ids.specs.declared.TheConstants.{MAX_TOLERANCE};
ghost use Rattle.line_text.specs.Answers.{refusal};
ghost use Rattle.line_text.specs.Fields.{number_in};
ghost use Rattle.line_text.specs.Frame.{behind, fields_line, first_word};
ghost use Rattle.line_text.specs.Shapes.{test, tests};
ghost use Rattle.schedule_direct.specs.Rows.{accuse_fields, epoch, group_fields, line_of, member, monitor_fields, note_fields, tick_fields};

use crate::line::{DirectLine, LineWord};
use ff_ids::{
    ALL_BITS, AccBody, Epoch, LAST_MEMBER, MAX_TOLERANCE, Mask, MemberId, NoteBody, RingNo,
};
use line_text::{BadWord, Words};

/// Takes the number of a member.
pub(crate) fn take_member(words: &mut Words) -> Result<MemberId, BadWord>
    ensures refused { test member (first_word words.old) ≡ refusal result }
    ensures value { IfOk result (λ n. n ≡ number_in (first_word words.old)) }
    ensures moved { words.new ≡ behind words.old }
{
    let number = words.number(0, LAST_MEMBER as u64)?;
    Ok(MemberId::new(number as u16))
}

/// Takes an epoch.
fn take_epoch(words: &mut Words) -> Result<Epoch, BadWord>
    ensures refused { test epoch (first_word words.old) ≡ refusal result }
    ensures value { IfOk result (λ n. n ≡ number_in (first_word words.old)) }
    ensures moved { words.new ≡ behind words.old }
{
    let number = words.number(1, u64::MAX)?;
    Ok(Epoch::new(number))
}

pub(crate) fn group_line(args: Words) -> Result<DirectLine, BadWord>
    ensures { result ≡ fields_line (tests group_fields) (line_of LineWord.Group) args.entry }
{
    let mut args = args.exactly(2)?;
    let t = args.number(1, MAX_TOLERANCE as u64)?;
    let timeout = args.number(1, 10_000)?;
    Ok(DirectLine::Group {
        t: t as u8,
        timeout: timeout as u32,
    })
}

pub(crate) fn note_line(args: Words) -> Result<DirectLine, BadWord>
    ensures { result ≡ fields_line (tests note_fields) (line_of LineWord.Note) args.entry }
{
    let mut args = args.exactly(3)?;
    Ok(DirectLine::Note(NoteBody {
        member: take_member(&mut args)?,
        epoch: take_epoch(&mut args)?,
        mask: Mask(args.number(0, ALL_BITS)?),
    }))
}

pub(crate) fn accuse_line(args: Words) -> Result<DirectLine, BadWord>
    ensures { result ≡ fields_line (tests accuse_fields) (line_of LineWord.Accuse) args.entry }
{
    let mut args = args.exactly(4)?;
    Ok(DirectLine::Accuse(AccBody {
        accuser: take_member(&mut args)?,
        accused: take_member(&mut args)?,
        epoch: take_epoch(&mut args)?,
        ring: RingNo(args.number(0, 255)? as u8),
    }))
}

/// The ticks of one line, where no more than `left` may come.
pub(crate) fn tick_line(left: u32, args: Words) -> Result<DirectLine, BadWord>
    ensures { result ≡ fields_line (tests (tick_fields left)) (line_of LineWord.Tick) args.entry }
{
    let mut args = args.exactly(1)?;
    let number = args.number(1, u64::from(left.min(10_000)))?;
    Ok(DirectLine::Tick(number as u32))
}

pub(crate) fn monitor_line(t: u8, args: Words) -> Result<DirectLine, BadWord>
    requires { t ≤ MAX_TOLERANCE }
    ensures { result ≡ fields_line (tests (monitor_fields t)) (line_of LineWord.Monitor)
        args.entry }
{
    let mut args = args.exactly(2)?;
    let ring = args.number(0, 2 * u64::from(t))?;
    let member = take_member(&mut args)?;
    Ok(DirectLine::Monitor {
        ring: RingNo(ring as u8),
        member,
    })
}

/// A line of one word.
pub(crate) fn lone_line(line: DirectLine, args: Words) -> Result<DirectLine, BadWord>
    ensures { result ≡ fields_line [] (λ _. line) args.entry }
{
    args.exactly(0)?;
    Ok(line)
}
