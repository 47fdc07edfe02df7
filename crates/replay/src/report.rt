//! What is written behind a line: a verdict, and a line for each event.

ghost use Rattle.std.specs.Prelude.{◌≡◌, ◌++◌, ◌∷◌, [], OnOk, codes, map};
ghost use Rattle.ff_ids.specs.Texts.{monitor_text};
ghost use Rattle.life_events.specs.Verdicts.{verdict_words};
ghost use Rattle.trace.specs.Answers.{events_at, events_text, verdict_on};

use ff_ids::{AccBody, Fault, MemberId};
use fields::NoMemory;
use life_events::{Event, Verdict, What, write_event, write_number, write_verdict};
use membership::Changes;

/// Adds bytes to the text.
pub fn add(text: &mut Vec<u8>, bytes: &[u8]) -> Result<(), NoMemory>
    ensures { OnOk result (text.new.items ≡ text.old.items ++ bytes.now) }
{
    text.extend_from_slice(bytes)?;
    Ok(())
}

/// Adds ` : ` and the verdict.
pub fn add_verdict(text: &mut Vec<u8>, verdict: Verdict) -> Result<(), NoMemory>
    ensures { OnOk result
        (text.new.items ≡ text.old.items ++ codes " : " ++ verdict_words verdict) }
{
    add(text, b" : ")?;
    write_verdict(&verdict, text)
}

/// Adds ` : `, the verdict on a record, accepted or refused for the fault, and a line feed.
pub fn add_verdict_on(text: &mut Vec<u8>, fault: Option<Fault>) -> Result<(), NoMemory>
    ensures { OnOk result
        (text.new.items ≡ text.old.items ++ codes " : " ++ verdict_on fault ++ codes "\n") }
{
    match fault {
        None => add(text, b" : accepted\n"),
        Some(fault) => {
            add_verdict(text, Verdict::Refused(fault))?;
            add(text, b"\n")
        }
    }
}

/// Adds ` : `, the monitor, or `none` where there is none, and a line feed.
pub fn add_monitor(text: &mut Vec<u8>, monitor: Option<MemberId>) -> Result<(), NoMemory>
    ensures { OnOk result
        (text.new.items ≡ text.old.items ++ codes " : " ++ monitor_text monitor ++ codes "\n") }
{
    match monitor {
        None => add(text, b" : none\n"),
        Some(member) => {
            add(text, b" : ")?;
            write_number(member.get().into(), text)?;
            add(text, b"\n")
        }
    }
}

/// Adds a line for an event.
fn add_event(text: &mut Vec<u8>, moment: u64, what: What) -> Result<(), NoMemory>
    ensures { OnOk result
        (text.new.items
        ≡ text.old.items ++ events_text (record { moment = moment; what = what } ∷ [])) }
{
    write_event(&Event { moment, what }, text)?;
    add(text, b"\n")
}

/// Adds a line for each accusation that expired.
fn add_expired(text: &mut Vec<u8>, moment: u64, accusations: &[AccBody]) -> Result<(), NoMemory>
    ensures { OnOk result
        (text.new.items
        ≡ text.old.items ++ events_text
        (map (λ a. record { moment = moment; what = What.Expired a }) accusations.now)) }
{
    for accusation in accusations {
        add_event(text, moment, What::Expired(*accusation))?;
    }
    Ok(())
}

/// Adds a line for each member that left the view.
fn add_removed(text: &mut Vec<u8>, moment: u64, members: &[MemberId]) -> Result<(), NoMemory>
    ensures { OnOk result
        (text.new.items
        ≡ text.old.items ++ events_text
        (map (λ m. record { moment = moment; what = What.Removed m }) members.now)) }
{
    for member in members {
        add_event(text, moment, What::Removed(*member))?;
    }
    Ok(())
}

/// Adds a line for each member that entered the view.
fn add_entered(text: &mut Vec<u8>, moment: u64, members: &[MemberId]) -> Result<(), NoMemory>
    ensures { OnOk result
        (text.new.items
        ≡ text.old.items ++ events_text
        (map (λ m. record { moment = moment; what = What.Entered m }) members.now)) }
{
    for member in members {
        add_event(text, moment, What::Entered(*member))?;
    }
    Ok(())
}

/// Adds a line for each accusation that fell.
fn add_fell(text: &mut Vec<u8>, moment: u64, accusations: &[AccBody]) -> Result<(), NoMemory>
    ensures { OnOk result
        (text.new.items
        ≡ text.old.items ++ events_text
        (map (λ a. record { moment = moment; what = What.Fell a }) accusations.now)) }
{
    for accusation in accusations {
        add_event(text, moment, What::Fell(*accusation))?;
    }
    Ok(())
}

/// Adds a line for each event of a report, in order.
pub fn add_report(text: &mut Vec<u8>, moment: u64, report: &Changes) -> Result<(), NoMemory>
    ensures { OnOk result
        (text.new.items ≡ text.old.items ++ events_text (events_at moment report.now)) }
{
    add_expired(text, moment, report.expired())?;
    add_removed(text, moment, report.removed())?;
    add_entered(text, moment, report.entered())?;
    add_fell(text, moment, report.fell())
}
