//! How a node leaves: a note of the next epoch with no ring is made, accepted and sent.

ghost use Rattle.std.specs.Prelude.{◌≡◌, ◌↔◌, true, OnOk};
ghost use Rattle.node_rules.specs.Nodes.{Setting, Node as RulesNode};
ghost use Rattle.node_rules.specs.Leaving.{left};
ghost use Rattle.audit_node.specs.Playing.{IsMirror};
ghost use Rattle.audit_node.specs.Learning.{Gives};

use crate::Mirror;
use crate::owing::OwedEvent;
use crate::telling::CallOutput;
use ff_ids::Mask;
use fields::NoMemory;
use std::alloc::Global;

impl Mirror {
    /// Whether the node has left: its own newest note is one by which it leaves.
    pub fn has_left(&self) -> bool
        ensures { (s : Setting) (n : RulesNode) → IsMirror s self.now n
            → (result ≡ true) ↔ (n.stored.mask.0 ≡ 0) }
    {
        self.stored.mask.0 == 0
    }

    /// The node leaves: appends what it must have reported of that. After a refusal of memory the mirror stands for no node.
    pub fn leave(&mut self, alloc: Global, owed: &mut Vec<OwedEvent>) -> Result<(), NoMemory>
        ensures { OnOk result ((s : Setting) (n : RulesNode) → IsMirror s self.old n
            → Gives s n self.new owed.old.items owed.new.items (left s n)) }
    {
        self.telling = CallOutput::over(alloc, owed);
        self.want_note(alloc, Mask(0));
        self.finish(owed)
    }
}
