//! Where nodes and liars have their places.

ghost use Rattle.std.specs.Prelude.{◌≡◌, ◌<◌, IfSome, length};
ghost use Rattle.ff_ids.specs.declared.TheConstants.{MEMBERS};
ghost use Rattle.node_rules.specs.Nodes.{in_order};
ghost use Rattle.world_rules.specs.Settings.{Setting, nodes};
ghost use Rattle.world.specs.Courses.{IsLiarPlace, IsNodePlace, liar_place_of, place_of};
ghost use Rattle.world.specs.Holding.{liar_numbers, numbers};

use crate::World;
use ff_ids::MemberId;

impl World {
    /// The host of the member, if it is a node.
    pub(crate) fn host_of(&self, member: MemberId) -> Option<usize>
        ensures exact { result ≡ place_of self.now member }
        ensures within { IfSome result (λ at. at < length self.now.hosts) }
        ensures place { (s : Setting) → numbers self.now ≡ nodes s
            → IsNodePlace s self.now member result }
    {
        let number = member.get();
        self.hosts
            .iter()
            .position(|host| host.member().get() == number)
    }

    /// The place of the member, if it is a liar.
    pub(crate) fn liar_of(&self, member: MemberId) -> Option<usize>
        ensures exact { result ≡ liar_place_of self.now member }
        ensures within { IfSome result (λ at. at < length self.now.liars) }
        ensures place { (s : Setting) → liar_numbers self.now ≡ in_order s.liars
            → IsLiarPlace s self.now member result }
    {
        let number = member.get();
        self.liars
            .iter()
            .position(|liar| liar.member.get() == number)
    }
}
