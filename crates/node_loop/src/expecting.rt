//! The link is told from which port each certified member sends.

ghost use Rattle.std.specs.Prelude.{◌≡◌, ◌<◌, ℕ, Option, None, List, [], ◌∷◌, option_to_list};
ghost use Rattle.ff_ids.specs.declared.TheConstants.{MEMBERS};
ghost use Rattle.ports.specs.Outside.{OfLink};
ghost use Rattle.node_loop.specs.Expecting.{Tells, certified_at, certified_below, certified_in, newly_certified};

use ff_ids::{MEMBERS, MemberId};
use journal::{Event, What};
use node_core::Node;
use ports::Link;
use records::Body;

/// Who is told from which port a member sends. Each link is one; whom it was told of is known of none of them, but where
/// it is known, the clauses below say it.
pub trait Expects {
    /// The members that it was told of, each with its port, in order.
    ghost told: { Self → Option (List (ℕ × ℕ)) };

    /// What it holds as a link, and its faults.
    ghost held: { Self → OfLink };

    /// The member sends from this port.
    fn tell(&mut self, member: u16, port: u16)
        ensures tells { Tells (told self.old) (told self.new) ((member, port) ∷ []) }
        ensures same { held self.new ≡ held self.old };
}

impl<L: Link> Expects for L {
    ghost told = { λ _. None };

    ghost held = { λ l. L.state l };

    fn tell(&mut self, member: u16, port: u16) {
        self.expect(member, port);
    }
}

/// The member and its port, where it has a certificate here.
fn certified(node: &Node, member: u16) -> Option<(u16, u16)>
    requires { member < MEMBERS }
    ensures { result ≡ certified_at node.now.roster member }
{
    node.port_of(MemberId::new(member))
        .map(|port| (member, port))
}

/// The member and its port, where it is told that its certificate was accepted.
fn newly_certified(what: &What) -> Option<(u16, u16)>
    ensures { result ≡ certified_in what.now }
{
    match what {
        What::Took {
            body: Body::Certificate(cert),
            fault: None,
        } => Some((cert.member.get(), cert.port)),
        _ => None,
    }
}

/// Tells of the member, if there is one.
fn tell_of<E: Expects>(link: &mut E, certified: Option<(u16, u16)>)
    ensures tells { Tells (E.told link.old) (E.told link.new) (option_to_list certified) }
    ensures same { E.held link.new ≡ E.held link.old }
{
    if let Some((member, port)) = certified {
        link.tell(member, port);
    }
}

/// Tells of each member that has a certificate here.
pub fn expect_certified<E: Expects>(node: &Node, link: &mut E)
    ensures tells { Tells (E.told link.old) (E.told link.new)
        (certified_below node.now.roster MEMBERS) }
    ensures same { E.held link.new ≡ E.held link.old }
{
    for number in 0..MEMBERS {
        tell_of(link, certified(node, number));
    }
}

/// Tells of each member whose certificate was accepted, by what a call reported.
pub fn expect_newly_certified<E: Expects>(link: &mut E, events: &[Event])
    ensures tells { Tells (E.told link.old) (E.told link.new) (newly_certified events.now) }
    ensures same { E.held link.new ≡ E.held link.old }
{
    for event in events {
        tell_of(link, newly_certified(&event.what));
    }
}
