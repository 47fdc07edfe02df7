//! Where a workload is: the line that comes next.

ghost use Rattle.std.specs.Prelude.{◌≡◌};
ghost use Rattle.soak_lines.specs.Places.{accusation_place, liar_place, node_place, note_place, round_place, start_place, tick_place};

use crate::plan::Plan;

/// The line that comes next.
#[derive(Clone, Copy, Debug, PartialEq, Eq)]
pub(crate) enum Place {
    /// One above the rounds.
    Head(Head),
    /// One of this round.
    Round(u16, Step),
    /// The line `end`.
    End,
    /// None.
    Done,
}

/// The lines above the rounds.
#[derive(Clone, Copy, Debug, PartialEq, Eq)]
pub(crate) enum Head {
    Header,
    Group,
    Kinds,
    /// The node of this number.
    Node(u16),
    /// The liar of this number.
    Liar(u16),
    Begin,
    /// The start of this node.
    Start(u16),
}

/// The lines of a round.
#[derive(Clone, Copy, Debug, PartialEq, Eq)]
pub(crate) enum Step {
    /// The note of this liar, which it signs.
    SignNote(u16),
    /// The same, given to all.
    GiveNote(u16),
    /// The tick of this node.
    Tick(u16),
    /// The accusation by this liar, which it signs.
    SignAccusation(u16),
    /// The same, given to all.
    GiveAccusation(u16),
    Flow,
}

impl Place {
    /// This node, or the liars where there is none.
    pub(crate) fn node(plan: &Plan, member: u16) -> Place
        ensures { result ≡ node_place plan.now member }
    {
        if member < plan.correct {
            Place::Head(Head::Node(member))
        } else {
            Place::liar(plan, plan.correct)
        }
    }

    /// This liar, or `begin` where there is none.
    pub(crate) fn liar(plan: &Plan, member: u16) -> Place
        ensures { result ≡ liar_place plan.now member }
    {
        if member < plan.members {
            Place::Head(Head::Liar(member))
        } else {
            Place::Head(Head::Begin)
        }
    }

    /// The start of this node, or the first round where there is none.
    pub(crate) fn start(plan: &Plan, member: u16) -> Place
        ensures { result ≡ start_place plan.now member }
    {
        if member < plan.correct {
            Place::Head(Head::Start(member))
        } else {
            Place::round(plan, 1)
        }
    }

    /// This round, or the end where there is none. In the first round of ten, the liars sign notes.
    pub(crate) fn round(plan: &Plan, round: u16) -> Place
        ensures { result ≡ round_place plan.now round }
    {
        if plan.rounds < round {
            Place::End
        } else if round % 10 == 1 {
            Place::note(plan, round, plan.correct)
        } else {
            Place::tick(plan, round, 0)
        }
    }

    /// The note of this liar, or the ticks where there is none.
    pub(crate) fn note(plan: &Plan, round: u16, liar: u16) -> Place
        ensures { result ≡ note_place plan.now round liar }
    {
        if liar < plan.members {
            Place::Round(round, Step::SignNote(liar))
        } else {
            Place::tick(plan, round, 0)
        }
    }

    /// The tick of this node, or the accusations where there is none.
    pub(crate) fn tick(plan: &Plan, round: u16, member: u16) -> Place
        ensures { result ≡ tick_place plan.now round member }
    {
        if member < plan.correct {
            Place::Round(round, Step::Tick(member))
        } else {
            Place::accusation(plan, round, plan.correct)
        }
    }

    /// The accusation by this liar, or the flow where there is none.
    pub(crate) fn accusation(plan: &Plan, round: u16, liar: u16) -> Place
        ensures { result ≡ accusation_place plan.now round liar }
    {
        if liar < plan.members {
            Place::Round(round, Step::SignAccusation(liar))
        } else {
            Place::Round(round, Step::Flow)
        }
    }
}
