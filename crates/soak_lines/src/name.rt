//! The names under which the liars' records are kept.

ghost use Rattle.std.specs.Prelude.{◌≡◌, ◌<◌, IfOk};
ghost use Rattle.ff_ids.specs.declared.TheConstants.{MEMBERS};
ghost use Rattle.soak_lines.specs.Workload.{accusation_name, note_name};

use fields::{Name, NoMemory};
use std::alloc::Global;

/// The name of the latest note of this member: `n` and its number.
pub(crate) fn note_name(alloc: Global, member: u16) -> Result<Name, NoMemory>
    requires { member < MEMBERS }
    ensures { IfOk result (λ name. name ≡ note_name member) }
{
    let text = format!(in alloc; "n{member}")?;
    Ok(Name::from_vec(text.into_bytes()))
}

/// The name of the latest accusation by this member: `a` and its number.
pub(crate) fn accusation_name(alloc: Global, member: u16) -> Result<Name, NoMemory>
    requires { member < MEMBERS }
    ensures { IfOk result (λ name. name ≡ accusation_name member) }
{
    let text = format!(in alloc; "a{member}")?;
    Ok(Name::from_vec(text.into_bytes()))
}
