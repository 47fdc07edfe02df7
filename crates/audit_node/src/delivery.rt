//! One delivery: the bytes of a datagram, whatever they are.

ghost use Rattle.std.specs.Prelude.{◌≡◌, ℕ, List, false, Ok, OnOk, IfOk};
ghost use Rattle.journal.specs.declared.event.Event as journal;
ghost use Rattle.datagram.specs.Grammar.{GivesDatagram, read_of};
ghost use Rattle.datagram.specs.Spelling.{IsWritable};
ghost use Rattle.node_rules.specs.Nodes.{Setting, Node as RulesNode};
ghost use Rattle.node_rules.specs.Calls.{Call};
ghost use Rattle.node_rules.specs.Deliveries.{delivered, hears};
ghost use Rattle.audit_node.specs.Playing.{IsMirror, Plays, Grows};
ghost use Rattle.audit_node.specs.Learning.{Gives};

use crate::Mirror;
use crate::owing::OwedEvent;
use crate::telling::CallOutput;
use datagram::{Datagram, read};
use fields::NoMemory;
use journal::What;
use records::FormFault;
use std::alloc::Global;

impl Mirror {
    /// What the datagram asks for.
    fn hear(&mut self, alloc: Global, datagram: Datagram)
        requires { IsWritable datagram }
        ensures plays { (s : Setting) (es : List journal.Event) (c : Call)
            → Plays s es self.old c → Plays s es self.new (hears s (Ok datagram) c) }
        ensures grows { Grows self.old self.new }
    {
        match datagram {
            Datagram::Ping { from, nonce } => self.hear_ping(alloc, from, nonce),
            Datagram::Pong { from, nonce } => self.hear_pong(from, nonce),
            Datagram::Summary {
                from,
                flag,
                summary,
            } => self.hear_summary(alloc, from, flag, &summary),
            Datagram::Records { records, .. } => self.handle_all(alloc, records.into_vec()),
        }
    }

    /// What was read of the bytes of a datagram: a datagram, or that they are none from a place on; or memory was refused.
    fn hear_read(&mut self, alloc: Global, heard: Result<Datagram, FormFault>)
        requires { IfOk heard (λ d. IsWritable d) }
        ensures plays { (bytes : List ℕ) → GivesDatagram (read_of bytes) heard
            → (s : Setting) (es : List journal.Event) (c : Call)
            → Plays s es self.old c → Plays s es self.new (hears s (read_of bytes) c) }
        ensures grows { Grows self.old self.new }
    {
        match heard {
            Ok(datagram) => self.hear(alloc, datagram),
            Err(FormFault::BadForm { place }) => self.tell(What::BadForm { place }),
            Err(FormFault::OutOfMemory) => self.telling.fail(),
        }
    }

    /// Gives back what the call owes, and says whether memory sufficed.
    pub(crate) fn finish(&mut self, owed: &mut Vec<OwedEvent>) -> Result<(), NoMemory>
        ensures events { owed.new.items ≡ self.old.telling.events }
        ensures going { OnOk result (self.old.telling.failed ≡ false) }
        ensures frame { self.new ≡ record self.old { telling = self.new.telling } }
    {
        if self.telling.give_back(owed) {
            return Err(NoMemory);
        }
        Ok(())
    }

    /// The bytes of one datagram are delivered, whatever they are: appends what the node must have reported of that. After a
    /// refusal of memory the mirror stands for no node.
    pub fn deliver(
        &mut self,
        alloc: Global,
        bytes: &[u8],
        owed: &mut Vec<OwedEvent>,
    ) -> Result<(), NoMemory>
        ensures { OnOk result ((s : Setting) (n : RulesNode) → IsMirror s self.old n
            → Gives s n self.new owed.old.items owed.new.items (delivered s n bytes.now)) }
    {
        self.telling = CallOutput::over(alloc, owed);
        let heard = read(alloc, bytes);
        self.hear_read(alloc, heard);
        self.finish(owed)
    }
}
