//! The lines below `begin` that take no memory, read word by word.

ghost use Rattle.std.specs.Prelude.{◌≡◌, ◌≤◌, []};
ghost use Rattle.ff_ids.specs.declared.TheConstants.{MAX_TOLERANCE};
ghost use Rattle.line_text.specs.Frame.{fields_line};
ghost use Rattle.schedule_world.specs.Rows.{any_line, tolerance, words_line};

use crate::line::{LineWord, WorldLine};
use crate::take::{take_member, take_outcome};
use crate::text::WorldText;
use ff_ids::RingNo;
use line_text::{BadWord, Words};

pub(crate) fn start_line(args: Words) -> Result<WorldLine, BadWord>
    ensures { result ≡ any_line LineWord.Start args.entry }
{
    let mut args = args.exactly(1)?;
    let member = take_member(&mut args)?;
    Ok(WorldLine::Start { member })
}

pub(crate) fn stop_line(args: Words) -> Result<WorldLine, BadWord>
    ensures { result ≡ any_line LineWord.Stop args.entry }
{
    let mut args = args.exactly(2)?;
    Ok(WorldLine::Stop {
        member: take_member(&mut args)?,
        outcome: take_outcome(&mut args)?,
    })
}

pub(crate) fn arm_line(args: Words) -> Result<WorldLine, BadWord>
    ensures { result ≡ any_line LineWord.Arm args.entry }
{
    let mut args = args.exactly(3)?;
    Ok(WorldLine::Arm {
        member: take_member(&mut args)?,
        calls: args.number(0, 1_000)?,
        outcome: take_outcome(&mut args)?,
    })
}

pub(crate) fn tick_line(text: &WorldText, args: Words) -> Result<WorldLine, BadWord>
    ensures { result ≡ words_line text.now LineWord.Tick args.entry }
{
    let mut args = args.exactly(2)?;
    let member = take_member(&mut args)?;
    let ticks = args.number(1, u64::from(text.ticks_left().min(10_000)))?;
    Ok(WorldLine::Tick {
        member,
        ticks: ticks as u32,
    })
}

pub(crate) fn leave_line(args: Words) -> Result<WorldLine, BadWord>
    ensures { result ≡ any_line LineWord.Leave args.entry }
{
    let mut args = args.exactly(1)?;
    let member = take_member(&mut args)?;
    Ok(WorldLine::Leave { member })
}

pub(crate) fn deliver_line(args: Words) -> Result<WorldLine, BadWord>
    ensures { result ≡ any_line LineWord.Deliver args.entry }
{
    let mut args = args.exactly(2)?;
    Ok(WorldLine::Deliver {
        datagram: args.number(0, u64::MAX)?,
        member: take_member(&mut args)?,
    })
}

pub(crate) fn flow_line(args: Words) -> Result<WorldLine, BadWord>
    ensures { result ≡ any_line LineWord.Flow args.entry }
{
    let mut args = args.exactly(1)?;
    let most = args.number(1, 100_000)?;
    Ok(WorldLine::Flow { most: most as u32 })
}

pub(crate) fn view_line(args: Words) -> Result<WorldLine, BadWord>
    ensures { result ≡ any_line LineWord.View args.entry }
{
    let mut args = args.exactly(1)?;
    let member = take_member(&mut args)?;
    Ok(WorldLine::View { member })
}

pub(crate) fn monitor_line(text: &WorldText, args: Words) -> Result<WorldLine, BadWord>
    requires { tolerance text.now ≤ MAX_TOLERANCE }
    ensures { result ≡ words_line text.now LineWord.Monitor args.entry }
{
    let mut args = args.exactly(3)?;
    let member = take_member(&mut args)?;
    let ring = args.number(0, 2 * u64::from(text.tolerance()))?;
    let of = take_member(&mut args)?;
    Ok(WorldLine::Monitor {
        member,
        ring: RingNo(ring as u8),
        of,
    })
}

/// A line of one word.
pub(crate) fn lone_line(line: WorldLine, args: Words) -> Result<WorldLine, BadWord>
    ensures { result ≡ fields_line [] (λ _. line) args.entry }
{
    args.exactly(0)?;
    Ok(line)
}
