//! From the store of a member to a life that has begun.

ghost use Rattle.std.specs.Prelude.{◌≡◌, []};
ghost use Rattle.node_command.specs.Members.{IsSoundMember};
ghost use Rattle.node_command.specs.Opening.{Begins, OpensFile};

use crate::halt::NodeHalt;
use crate::kit::{Member, Own};
use epoch_store::Store;
use node_core::{Events, Kit, Node};
use ports::Disk;
use secrets::{nonce_seed, store_tag};
use signer::Signer;
use std::alloc::Global;

/// Opens the member's store in the file of that name, and begins a life: signs its first note, and reports what that brings.
pub fn begin<D: Disk>(
    alloc: Global,
    name: &str,
    member: Member,
    disk: &mut D,
    events: &mut Events,
) -> Result<Node, NodeHalt>
    requires sound { IsSoundMember member }
    requires untold { events.old ≡ [] }
    ensures begins { Begins member
        (D.state disk.old) (D.state disk.new) events.new result }
    ensures opened { OpensFile member name.now (D.state disk.old) (D.state disk.new) result }
{
    let Member {
        group,
        heal,
        own,
        authority,
        certificates,
        ..
    } = member;
    let Own {
        member: me,
        secret,
        key,
    } = own;
    let store = match Store::open(disk, name, &store_tag(&group, &key)) {
        Ok(store) => store,
        Err(error) => return Err(NodeHalt::unopened(error)),
    };
    let next = store.state().next;
    if next > key.index_count() {
        return Err(NodeHalt::Exhausted { next });
    }
    let kit = Kit {
        group,
        me,
        authority,
        certificates,
        nonce_seed: nonce_seed(&secret, next),
        heal,
    };
    let signer = Signer::open(group, key, store);
    match Node::start(alloc, kit, signer, disk, events) {
        Ok(node) => Ok(node),
        Err(fault) => Err(NodeHalt::unstarted(fault)),
    }
}
