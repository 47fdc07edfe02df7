//! Notes to come back: where the group has that option, an accusation against the node that is refused for its place alone
//! says that others removed the node. And how far its epoch may rise for others' sake.

ghost use Rattle.std.specs.Prelude.{◌≡◌};
ghost use Rattle.records.specs.Spelling.{HasPort};
ghost use Rattle.node_rules.specs.Nodes.{Setting, Node as RulesNode};
ghost use Rattle.node_rules.specs.Refusals.{refusal};
ghost use Rattle.node_rules.specs.Deliveries.{may_rise, verifies_for};
ghost use Rattle.audit_node.specs.Playing.{IsMirror};
ghost use Rattle.audit_node.specs.Returning.{is_placed, is_misplaced, asks_return};

use crate::Mirror;
use ff_ids::{AccBody, Fault, MemberId};
use rebuttal::must_answer;
use records::{Body, Record, signed_bytes};

/// Whether it is a fault of the place of the accuser or the accused.
fn is_of_place(fault: Option<Fault>) -> bool
    ensures { result ≡ is_placed fault }
{
    matches!(fault, Some(Fault::NotInView | Fault::NotMonitor { .. }))
}

impl Mirror {
    /// Whether the epoch of the node's note may still rise in this span.
    pub(crate) fn may_rise(&self) -> bool
        ensures { (s : Setting) (n : RulesNode) → IsMirror s self.now n
            → result ≡ may_rise s.heal n }
    {
        let Some(heal) = self.heal else {
            return true;
        };
        let risen = self.stored.epoch.saturating_sub(self.since);
        heal.most() == 0 || risen < u64::from(heal.most())
    }

    /// Whether the record verifies under the member's key.
    fn verifies_for(&self, member: MemberId, rec: &Record) -> bool
        requires { HasPort rec.now.body }
        ensures { (s : Setting) (n : RulesNode) → IsMirror s self.now n
            → result ≡ verifies_for s n member rec.now }
    {
        let Some(cert) = self.roster.get(member) else {
            return false;
        };
        let signed = signed_bytes(&self.group, &rec.body);
        cert.key
            .verify(signed.as_slice(), rec.signature.as_slice())
            .is_ok()
    }

    /// Whether the accusation is against the node's newest note, on a ring that it enables, and would be refused for the place
    /// of its accuser or its accused.
    fn is_misplaced(&self, acc: &AccBody) -> bool
        ensures { (s : Setting) (n : RulesNode) → IsMirror s self.now n
            → result ≡ is_misplaced s n acc.now }
    {
        let Some(own) = self.membership.note_of(self.me) else {
            unreachable!()
        };
        let fault = self.membership.accusation_fault(acc);
        is_of_place(fault) && must_answer(&own, acc)
    }

    /// Whether the record is refused, and asks a note to come back of the node.
    pub(crate) fn asks_return(&self, rec: &Record) -> bool
        requires { HasPort rec.now.body }
        ensures { (s : Setting) (n : RulesNode) → IsMirror s self.now n
            → result ≡ asks_return s n (refusal s n rec.now) rec.now }
    {
        let Body::Accusation(acc) = rec.body else {
            return false;
        };
        self.heal.is_some()
            && self.may_rise()
            && self.is_misplaced(&acc)
            && self.verifies_for(acc.accuser, rec)
    }
}
