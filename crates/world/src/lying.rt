//! Records that liars sign.

ghost use Rattle.std.specs.Prelude.{◌≡◌, ◌<◌, ◌++◌, ◌∷◌, [], ℕ, List, Some, IfOk, IfSome, OnOk, length, map};
ghost use Rattle.std.specs.List.{slice_get};
ghost use Rattle.std.specs.Option.{option_map};
ghost use Rattle.records.specs.Spelling.{HasPort};
ghost use Rattle.world_rules.specs.Refusals.{newest_signed as newest_in};
ghost use Rattle.world_rules.specs.Settings.{Setting};
ghost use Rattle.world_rules.specs.Steps.{NodeEvent, epoch_meant as epoch_in, lies};
ghost use Rattle.world_rules.specs.Worlds.{World as ModelWorld, next_of_liar};
ghost use Rattle.world.specs.Courses.{HasLeafAt, body_in};
ghost use Rattle.world.specs.Holding.{Holds, numbers};

use crate::liar::Given;
use crate::{World, WorldFault};
use ff_ids::{AccBody, Epoch, MemberId, RingNo};
use fields::{Name, NoMemory};
use records::Body;
use schedule_world::WorldLine;
use world_host::newest_of;

impl World {
    /// The greatest epoch among the notes of the member that its own key has signed.
    pub(crate) fn newest_signed(&self, member: MemberId) -> Option<Epoch>
        ensures { (s : Setting) (w : ModelWorld) (told : List NodeEvent) → Holds s w told self.now
            → result ≡ newest_in w member }
    {
        if let Some(at) = self.host_of(member) {
            return self.hosts[at].newest_signed();
        }
        let at = self.liar_of(member)?;
        newest_of(member, &self.liars[at].signed)
    }

    /// The liar, whose key isn't used up, signs the body, and its record is kept under the name. Gives the index that was
    /// spent.
    pub(crate) fn lie(&mut self, at: usize, body: Body, name: &Name) -> Result<u32, NoMemory>
        requires liar { at < length self.old.liars }
        requires left { HasLeafAt self.old (Some at) }
        requires port { HasPort body }
        ensures numbers { numbers self.new ≡ numbers self.old }
        ensures lies { (s : Setting) (w : ModelWorld) (told : List NodeEvent) (key : ℕ)
            → Holds s w told self.old → slice_get (map (λ x. x.member) self.old.liars) at ≡ Some key
            → IfOk result
            (λ index. (index ≡ next_of_liar w key)
            × Holds s (lies s key body name.now w).world told self.new) }
    {
        let liar = &mut self.liars[at];
        let index = liar.key.next();
        let Some(checked) = liar.sign(self.alloc, self.authority.group(), body)? else {
            unreachable!();
        };
        let given = Given::of(self.alloc, liar.member, &checked)?;
        let name = name.as_slice().to_vec(self.alloc)?;
        self.named.insert(name, given)?;
        Ok(index)
    }

    /// The epoch that is said; or else that of the newest note of the accused which its own key has signed.
    fn epoch_meant(&self, accused: MemberId, said: Option<Epoch>) -> Option<Epoch>
        ensures { (s : Setting) (w : ModelWorld) (told : List NodeEvent) → Holds s w told self.now
            → result ≡ epoch_in w accused said }
    {
        match said {
            Some(epoch) => Some(epoch),
            None => self.newest_signed(accused),
        }
    }

    /// The accusation that is meant.
    fn accusation_meant(
        &self,
        accuser: MemberId,
        accused: MemberId,
        epoch: Option<Epoch>,
        ring: RingNo,
    ) -> Option<AccBody>
        ensures { (s : Setting) (w : ModelWorld) (told : List NodeEvent) → Holds s w told self.now
            → result
            ≡ option_map
            (λ e. record { accuser = accuser; accused = accused; epoch = e; ring = ring })
            (epoch_in w accused epoch) }
    {
        let epoch = self.epoch_meant(accused, epoch)?;
        Some(AccBody {
            accuser,
            accused,
            epoch,
            ring,
        })
    }

    /// The body that the line has a liar sign.
    pub(crate) fn body_meant(&self, line: &WorldLine) -> Option<Body>
        ensures port { IfSome result (λ body. HasPort body) }
        ensures value { (s : Setting) (w : ModelWorld) (told : List NodeEvent)
            → Holds s w told self.now → result ≡ body_in w line.now }
    {
        match line {
            WorldLine::SignNote { note, .. } => Some(Body::Note(*note)),
            WorldLine::SignAccusation {
                accuser,
                accused,
                epoch,
                ring,
                ..
            } => {
                let acc = self.accusation_meant(*accuser, *accused, *epoch, *ring)?;
                Some(Body::Accusation(acc))
            }
            _ => None,
        }
    }
}
