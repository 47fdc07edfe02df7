//! Among whom a member finds its partners.

ghost use Rattle.std.specs.Prelude.{◌≡◌, ◌++◌, ◌∷◌, [], None, IfOk, is_some, filter, if◌then◌else◌, unwrap_or};
ghost use Rattle.std.specs.List.{last_or};
ghost use Rattle.ff_ids.specs.Views.{all_numbers};
ghost use Rattle.validate.specs.Certified.{certificate_of};

use ff_ids::{MEMBERS, MemberId};
use fields::NoMemory;
use std::alloc::Global;
use validate::Roster;

/// Lists the member, if it has a certificate.
fn list_certified(
    roster: &Roster,
    member: MemberId,
    listed: &mut Vec<MemberId>,
) -> Result<(), NoMemory>
    ensures { IfOk result (λ done. listed.new.items
        ≡ (if is_some (certificate_of roster.now member) then listed.old.items ++ member ∷ [] else
        listed.old.items)) }
{
    if roster.get(member).is_some() {
        listed.push(member)?;
    }
    Ok(())
}

/// Those with a certificate, in order of number.
pub fn certified(alloc: Global, roster: &Roster) -> Result<Vec<MemberId>, NoMemory>
    ensures { IfOk result
        (λ listed. listed.items
        ≡ filter (λ m. is_some (certificate_of roster.now m)) all_numbers) }
{
    let mut listed = Vec::new(alloc);
    for number in 0..MEMBERS {
        list_certified(roster, MemberId::new(number), &mut listed)?;
    }
    Ok(listed)
}

/// The last of the numbers, 0 where there is none.
pub fn highest(numbers: &[MemberId]) -> MemberId
    ensures { result ≡ unwrap_or (last_or None numbers.now) 0 }
{
    let mut last = MemberId::new(0);
    for member in numbers {
        last = *member;
    }
    last
}
