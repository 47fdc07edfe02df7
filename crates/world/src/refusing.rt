//! Why a line can't be done: the first row of a table that holds.

ghost use Rattle.std.specs.Prelude.{◌≡◌, ℕ, List, not, nat_lt, is_some, true, false, length, IfNone};
ghost use Rattle.std.specs.Option.{option_and_then, option_map};
ghost use Rattle.world_rules.specs.Refusals.{asks_for_unknown as asks_in, datagram_named, first_row, has_left as has_left_in, holds_of, key_named as key_in, leaver_named as leaver_in, name_named as name_in, newest_signed as newest_in, node_named as node_in, noted_named, runner_named as runner_in, starter_named as starter_in, why_not as refusal};
ghost use Rattle.world_rules.specs.Settings.{Setting, is_liar, is_node};
ghost use Rattle.world_rules.specs.Steps.{NodeEvent};
ghost use Rattle.world_rules.specs.Worlds.{World as ModelWorld, is_running as runs, named_so};
ghost use Rattle.world.specs.Courses.{CanSign, CanTell, HasLeafAt, before_opening, key_used_up, last_rows, liar_place_of};
ghost use Rattle.world.specs.Holding.{Holds};

use crate::World;
use ff_ids::MemberId;
use fields::Name;
use schedule_world::WorldLine;
use world_rules::RefusalReason;

/// The member that is to be a node.
pub fn node_named(line: &WorldLine) -> Option<MemberId>
    ensures { result ≡ node_in line.now }
{
    match line {
        WorldLine::Start { member }
        | WorldLine::Stop { member, .. }
        | WorldLine::Arm { member, .. }
        | WorldLine::Tick { member, .. }
        | WorldLine::Leave { member }
        | WorldLine::Deliver { member, .. }
        | WorldLine::Raw { member, .. }
        | WorldLine::Give { member, .. }
        | WorldLine::View { member }
        | WorldLine::Monitor { member, .. } => Some(*member),
        _ => None,
    }
}

/// The member that is to run.
fn runner_named(line: &WorldLine) -> Option<MemberId>
    ensures { result ≡ runner_in line.now }
{
    match line {
        WorldLine::Start { .. } | WorldLine::Arm { .. } => None,
        _ => node_named(line),
    }
}

/// The member that is to leave.
fn leaver_named(line: &WorldLine) -> Option<MemberId>
    ensures { result ≡ leaver_in line.now }
{
    match line {
        WorldLine::Leave { member } => Some(*member),
        _ => None,
    }
}

/// The member that is to start.
fn starter_named(line: &WorldLine) -> Option<MemberId>
    ensures { result ≡ starter_in line.now }
{
    match line {
        WorldLine::Start { member } => Some(*member),
        _ => None,
    }
}

/// The owner of the key that is to be a liar.
fn key_named(line: &WorldLine) -> Option<MemberId>
    ensures { result ≡ key_in line.now }
{
    match line {
        WorldLine::SignNote { key, .. } | WorldLine::SignAccusation { key, .. } => Some(*key),
        _ => None,
    }
}

/// The member whose newest note is asked for.
fn accused_named(line: &WorldLine) -> Option<MemberId>
    ensures { result ≡ noted_named line.now }
{
    match line {
        WorldLine::SignAccusation {
            accused,
            epoch: None,
            ..
        } => Some(*accused),
        _ => None,
    }
}

impl World {
    fn names_no_node(&self, line: &WorldLine) -> bool
        ensures { (s : Setting) (w : ModelWorld) (told : List NodeEvent) → Holds s w told self.now
            → result ≡ holds_of (λ m. not (is_node s m)) (node_in line.now) }
    {
        match node_named(line) {
            Some(member) => self.host_of(member).is_none(),
            None => false,
        }
    }

    fn names_no_liar(&self, line: &WorldLine) -> bool
        ensures { (s : Setting) (w : ModelWorld) (told : List NodeEvent) → Holds s w told self.now
            → result ≡ holds_of (λ key. not (is_liar s key)) (key_in line.now) }
    {
        match key_named(line) {
            Some(key) => self.liar_of(key).is_none(),
            None => false,
        }
    }

    /// Whether nothing is kept under the name.
    fn is_free(&self, name: &Name) -> bool
        ensures { (s : Setting) (w : ModelWorld) (told : List NodeEvent) → Holds s w told self.now
            → result ≡ not (is_some (named_so w name.now)) }
    {
        self.named.get(name.as_slice()).is_none()
    }

    fn names_no_record(&self, line: &WorldLine) -> bool
        ensures { (s : Setting) (w : ModelWorld) (told : List NodeEvent) → Holds s w told self.now
            → result ≡ holds_of (λ name. not (is_some (named_so w name))) (name_in line.now) }
    {
        match line {
            WorldLine::Give { name, .. } | WorldLine::GiveAll { name } => self.is_free(name),
            _ => false,
        }
    }

    fn names_no_datagram(&self, line: &WorldLine) -> bool
        ensures { (s : Setting) (w : ModelWorld) (told : List NodeEvent) → Holds s w told self.now
            → result
            ≡ holds_of (λ number. not (nat_lt number (length w.sent))) (datagram_named line.now) }
    {
        match line {
            WorldLine::Deliver { datagram, .. } => self.sent.as_slice().len() as u64 <= *datagram,
            _ => false,
        }
    }

    fn is_running(&self, member: MemberId) -> bool
        ensures { (s : Setting) (w : ModelWorld) (told : List NodeEvent) → Holds s w told self.now
            → result ≡ runs w member }
    {
        match self.host_of(member) {
            Some(at) => self.hosts[at].is_running(),
            None => false,
        }
    }

    fn starts_running(&self, line: &WorldLine) -> bool
        ensures { (s : Setting) (w : ModelWorld) (told : List NodeEvent) → Holds s w told self.now
            → result ≡ holds_of (runs w) (starter_in line.now) }
    {
        match starter_named(line) {
            Some(member) => self.is_running(member),
            None => false,
        }
    }

    fn names_stopped(&self, line: &WorldLine) -> bool
        ensures { (s : Setting) (w : ModelWorld) (told : List NodeEvent) → Holds s w told self.now
            → result ≡ holds_of (λ m. not (runs w m)) (runner_in line.now) }
    {
        match runner_named(line) {
            Some(member) => !self.is_running(member),
            None => false,
        }
    }

    /// Whether the member runs, and has left.
    fn has_left(&self, member: MemberId) -> bool
        ensures { (s : Setting) (w : ModelWorld) (told : List NodeEvent) → Holds s w told self.now
            → result ≡ has_left_in s w member }
    {
        match self.host_of(member) {
            Some(at) => self.hosts[at].has_left(),
            None => false,
        }
    }

    fn names_left(&self, line: &WorldLine) -> bool
        ensures { (s : Setting) (w : ModelWorld) (told : List NodeEvent) → Holds s w told self.now
            → result ≡ holds_of (has_left_in s w) (leaver_in line.now) }
    {
        match leaver_named(line) {
            Some(member) => self.has_left(member),
            None => false,
        }
    }

    fn means_no_note(&self, line: &WorldLine) -> bool
        ensures { (s : Setting) (w : ModelWorld) (told : List NodeEvent) → Holds s w told self.now
            → result ≡ holds_of (λ m. not (is_some (newest_in w m))) (noted_named line.now) }
    {
        match accused_named(line) {
            Some(accused) => self.newest_signed(accused).is_none(),
            None => false,
        }
    }

    /// The next index of the liar's key, if it is used up.
    fn used_up(&self, key: MemberId) -> Option<u32>
        ensures value { (s : Setting) (w : ModelWorld) (told : List NodeEvent)
            → Holds s w told self.now
            → is_liar s key ≡ true → result ≡ key_used_up s w key }
        ensures left { IfNone result (HasLeafAt self.now (liar_place_of self.now key)) }
    {
        let at = self.liar_of(key)?;
        let liar = &self.liars[at];
        if liar.key.is_used_up() {
            Some(liar.key.next())
        } else {
            None
        }
    }

    /// Of a liar's key that is to sign, the next index, if it is used up.
    fn signer_used_up(&self, line: &WorldLine) -> Option<u32>
        ensures left { IfNone result (CanSign self.now line.now) }
        ensures value { (s : Setting) (w : ModelWorld) (told : List NodeEvent)
            → Holds s w told self.now
            → holds_of (λ key. not (is_liar s key)) (key_in line.now) ≡ false
            → result ≡ option_and_then (key_used_up s w) (key_in line.now) }
    {
        match key_named(line) {
            Some(key) => self.used_up(key),
            None => None,
        }
    }

    fn asks_for_unknown(&self, line: &WorldLine) -> bool
        ensures known { result ≡ false → CanTell self.now line.now }
        ensures value { (s : Setting) (w : ModelWorld) (told : List NodeEvent)
            → Holds s w told self.now → result ≡ asks_in w line.now }
    {
        let WorldLine::Monitor { member, of, .. } = line else {
            return false;
        };
        let Some(at) = self.host_of(*member) else {
            return false;
        };
        match self.hosts[at].node() {
            Some(node) => node.port_of(*of).is_none(),
            None => false,
        }
    }

    /// Why the line can't be done, as far as the last rows of the table say.
    fn why_not_signed(&self, line: &WorldLine) -> Option<RefusalReason>
        ensures left { IfNone result (CanSign self.now line.now) }
        ensures known { IfNone result (CanTell self.now line.now) }
        ensures value { (s : Setting) (w : ModelWorld) (told : List NodeEvent)
            → Holds s w told self.now
            → holds_of (λ key. not (is_liar s key)) (key_in line.now) ≡ false
            → result ≡ first_row (last_rows s w line.now) }
    {
        if self.means_no_note(line) {
            return Some(RefusalReason::NoNote);
        }
        if let Some(first) = self.signer_used_up(line) {
            return Some(RefusalReason::UsedUp { first });
        }
        if self.asks_for_unknown(line) {
            return Some(RefusalReason::UnknownMember);
        }
        None
    }

    /// Why the line can't be done, if it can't. Whether a node's key is used up shows once its store is open.
    pub(crate) fn why_not(&self, line: &WorldLine) -> Option<RefusalReason>
        ensures left { IfNone result (CanSign self.now line.now) }
        ensures known { IfNone result (CanTell self.now line.now) }
        ensures value { (s : Setting) (w : ModelWorld) (told : List NodeEvent)
            → Holds s w told self.now
            → result ≡ before_opening line.now (refusal s w line.now) }
    {
        if self.names_no_node(line) {
            return Some(RefusalReason::NotNode);
        }
        if self.names_no_liar(line) {
            return Some(RefusalReason::NotLiar);
        }
        if self.names_no_record(line) {
            return Some(RefusalReason::NoName);
        }
        if self.names_no_datagram(line) {
            return Some(RefusalReason::NoDatagram);
        }
        if self.starts_running(line) {
            return Some(RefusalReason::Running);
        }
        if self.names_stopped(line) {
            return Some(RefusalReason::NotRunning);
        }
        if self.names_left(line) {
            return Some(RefusalReason::Left);
        }
        self.why_not_signed(line)
    }
}
