//! Pings and the summary of a due tick.

ghost use Rattle.std.specs.Prelude.{◌≡◌, ◌<◌, List, IfSome, is_some, filter};
ghost use Rattle.std.specs.Option.{option_map};
ghost use Rattle.ff_ids.specs.declared.TheConstants.{PAGES};
ghost use Rattle.ff_ids.specs.Views.{all_numbers};
ghost use Rattle.journal.specs.declared.event.Event as journal;
ghost use Rattle.validate.specs.Certified.{certificate_of};
ghost use Rattle.node_rules.specs.Nodes.{Setting, Node as RulesNode};
ghost use Rattle.node_rules.specs.Pages.{page_number, partner as partner_of};
ghost use Rattle.node_rules.specs.Calls.{Call, sends};
ghost use Rattle.node_rules.specs.Ticking.{gossips};
ghost use Rattle.datagram.specs.declared.Datagram.TheVariants as kinds;
ghost use Rattle.audit_node.specs.Playing.{Plays, Grows, IsMirror};

use crate::Mirror;
use ff_ids::MemberId;
use gossip::{Exchange, exchange_of};
use peers::{certified, highest};
use std::alloc::Global;

impl Mirror {
    /// A ping with this nonce goes to the member.
    pub(crate) fn send_ping(&mut self, to: MemberId, nonce: u64)
        ensures plays { (s : Setting) (es : List journal.Event) (c : Call)
            → Plays s es self.old c
            → Plays s es self.new (sends s (kinds.Ping s.me nonce) c to) }
        ensures grows { Grows self.old self.new }
    {
        self.telling.send_ping(self.membership.now(), nonce, to);
    }

    /// The summary of the round's page goes to the partner of the round, if there is one.
    pub(crate) fn gossip(&mut self, alloc: Global, round: u64)
        ensures plays { (s : Setting) (es : List journal.Event) (c : Call)
            → Plays s es self.old c
            → Plays s es self.new (gossips s round c) }
        ensures grows { Grows self.old self.new }
    {
        match certified(alloc, &self.roster) {
            Ok(numbers) => self.gossip_among(alloc, round, &numbers),
            Err(_) => self.telling.fail(),
        }
    }

    /// With whom summaries are exchanged in the round, and of which page, where these are the certified members.
    fn exchange_at(&self, numbers: &[MemberId], round: u64) -> Option<Exchange>
        ensures partner { (s : Setting) (n : RulesNode) → IsMirror s self.now n
            → numbers.now ≡ filter (λ m. is_some (certificate_of self.now.roster m)) all_numbers
            → option_map (λ e. e.partner) result ≡ partner_of s n round }
        ensures page { (s : Setting) (n : RulesNode) → IsMirror s self.now n
            → numbers.now ≡ filter (λ m. is_some (certificate_of self.now.roster m)) all_numbers
            → IfSome result (λ e. e.page ≡ page_number s n round) }
        ensures range { IfSome result (λ e. e.page < PAGES) }
    {
        let last = highest(numbers);
        exchange_of(self.heal, &self.membership, numbers, last, self.me, round)
    }

    /// The same, where these are the certified members.
    fn gossip_among(&mut self, alloc: Global, round: u64, numbers: &[MemberId])
        ensures plays { (s : Setting) (es : List journal.Event) (c : Call)
            → Plays s es self.old c
            → numbers.now ≡ filter (λ m. is_some (certificate_of self.old.roster m)) all_numbers
            → Plays s es self.new (gossips s round c) }
        ensures grows { Grows self.old self.new }
    {
        let exchange = self.exchange_at(numbers, round);
        if let Some(with) = exchange {
            self.send_page(alloc, with.partner, false, with.page);
        }
    }
}
