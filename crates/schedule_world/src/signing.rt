//! The lines that take memory: raw bytes, and those with a name.

ghost use Rattle.std.specs.Prelude.{◌≡◌};
ghost use Rattle.line_text.specs.Answers.{AnswersBy};
ghost use Rattle.schedule_world.specs.Rows.{TakesMemory, any_line};

use crate::line::{LineWord, WorldLine};
use crate::take::{pass_name, take_epoch, take_epoch_or_now, take_member};
use ff_ids::{ALL_BITS, Mask, NoteBody, RingNo};
use line_text::{BadWord, LineFault, Words};
use std::alloc::Global;

/// How many bytes may be handed over: one more than a datagram may have.
const RAW_BYTES: usize = 32_769;

pub(crate) fn raw_line(alloc: Global, args: Words) -> Result<WorldLine, LineFault>
    ensures { AnswersBy TakesMemory (any_line LineWord.Raw args.entry) result }
{
    let mut args = args.exactly(2)?;
    let member = take_member(&mut args)?;
    let bytes = args.bytes_up_to(alloc, RAW_BYTES)?;
    Ok(WorldLine::Raw { member, bytes })
}

pub(crate) fn sign_note_line(alloc: Global, args: Words) -> Result<WorldLine, LineFault>
    ensures { AnswersBy TakesMemory (any_line LineWord.SignNote args.entry) result }
{
    let mut args = args.exactly(5)?;
    let key = take_member(&mut args)?;
    let note = NoteBody {
        member: take_member(&mut args)?,
        epoch: take_epoch(&mut args)?,
        mask: Mask(args.number(0, ALL_BITS)?),
    };
    let name = args.name(alloc)?;
    Ok(WorldLine::SignNote { key, note, name })
}

pub(crate) fn sign_accusation_line(alloc: Global, args: Words) -> Result<WorldLine, LineFault>
    ensures { AnswersBy TakesMemory (any_line LineWord.SignAccusation args.entry) result }
{
    let mut args = args.exactly(6)?;
    let key = take_member(&mut args)?;
    let accuser = take_member(&mut args)?;
    let accused = take_member(&mut args)?;
    let epoch = take_epoch_or_now(&mut args)?;
    let ring = args.number(0, 255)?;
    let name = args.name(alloc)?;
    Ok(WorldLine::SignAccusation {
        key,
        accuser,
        accused,
        epoch,
        ring: RingNo(ring as u8),
        name,
    })
}

/// The words are judged before memory is asked for.
pub(crate) fn give_line(alloc: Global, args: Words) -> Result<WorldLine, LineFault>
    ensures { AnswersBy TakesMemory (any_line LineWord.Give args.entry) result }
{
    let mut args = args.exactly(2)?;
    let mut words = args.again();
    pass_name(&mut words)?;
    let member = take_member(&mut words)?;
    let name = args.name(alloc)?;
    Ok(WorldLine::Give { name, member })
}

pub(crate) fn give_all_line(alloc: Global, args: Words) -> Result<WorldLine, LineFault>
    ensures { AnswersBy TakesMemory (any_line LineWord.GiveAll args.entry) result }
{
    let mut args = args.exactly(1)?;
    let name = args.name(alloc)?;
    Ok(WorldLine::GiveAll { name })
}
