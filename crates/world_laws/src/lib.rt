//! Floor: world. What no liar brings about in a world, as theorems alone, on each world that lines lead to, none of
//! which is forged: which notes a removed node had signed, at which ticks nodes sign accusations, and that what is
//! written is what was spent, sent and removed. Each is the contract of a function that does nothing. The headline in
//! `command_line` cites them.
#![tactic(auto)]

ghost use Rattle.world_laws.specs.Laws.{RostersAreKept, OwnAheadNeverComes, TheRemovedHadSigned, NodesAccuseTheSilent, NodesLeaveAsCalled, AcceptedAccusationsWereSigned, KeysVerify, TopLeavesSignOnce, RemovalsAreVerified, ToldRemovalsAreVerified};
ghost use Rattle.world_laws.specs.Telling.{AcceptedIsLived, AcceptedWasSignedFirst, AuthoritySpendsOnce, SendingIsTold, SpendingIsTold};
ghost use Rattle.world_laws.specs.Flows.{FlowsGoOn, OnlySentIsHandedOver, OthersTakeNone};
ghost use Rattle.world_laws.specs.Forged.{ForgedLinesHandItOver, ForgeriesAreFirst};
ghost use Rattle.world_laws.specs.Replies.{AnswersHoldInWorlds, ToldExpiriesAreLived};
ghost use Rattle.world_laws.specs.Sent.{SentRecordsVerify};
ghost use Rattle.world_laws.specs.Texts.{FlowsTakeEachOnce, ForgedTextsHandItOver, TextsAnswerViews, TextsAreLawful, TextsComeToWorlds};
ghost use Rattle.world_laws.specs.Views.{EqualRecordsGiveOneView};

/// In every life a node keeps the authority's certificates of the members, and no others.
pub fn rosters_are_kept()
    ensures { RostersAreKept }
{}

/// No verdict that is reported refuses a record as a note of the node's own that is ahead of its newest.
pub fn own_ahead_never_comes()
    ensures { OwnAheadNeverComes }
{}

/// Whichever accusation a removal of a node from any node's view rests on: the note of the removed that was the newest
/// there, as that was accepted, the removed had itself signed before, as is reported, of that accusation's epoch and with
/// its ring enabled. And whichever note a node leaves any node's view by, it had itself signed by then, as is reported, and as
/// it was called to leave.
pub fn the_removed_had_signed()
    ensures { TheRemovedHadSigned }
{}

/// A node signs no accusation but at a tick of one of its lives at which the accused is silent there, and it is the
/// accused's monitor in its own view, on a ring that the newest note enables that it has of the accused, and at the
/// epoch of that note. Each accepted accusation of a node's was signed so before, as is reported, whoever accepts it.
pub fn accusations_are_of_the_silent()
    ensures signed { NodesAccuseTheSilent }
    ensures accepted { AcceptedAccusationsWereSigned }
{}

/// A node signs no note of mask 0 but as it is called to leave, in one of its lives; and that note is its own.
pub fn nodes_leave_as_called()
    ensures { NodesLeaveAsCalled }
{}

/// What is signed at an index of a world's key verifies under that key.
pub fn keys_verify()
    ensures { KeysVerify }
{}

/// Of keys of two levels each top leaf signs one message in all lives of the key: the public key of its own bottom tree.
pub fn top_leaves_sign_once()
    ensures { TopLeavesSignOnce }
{}

/// Each removal in a life of a node has for its cause a note of the member's, accepted there, by which it left; or it rests on
/// an accusation that was accepted earlier in that life, by the node's monitor of the member, and stood so and unanswered for
/// the timeout. The record of it verifies under the key of the certificate of the member or of the accuser, as the node keeps
/// it: the one of a delivered datagram that the node accepted there; or, where the node was called to leave itself, or came to
/// accuse there itself at a tick at which the accused was silent, one with the signature of the index that the call spent on
/// it. If a node is removed, it had itself signed that note by then, as it was called to leave; or, before the accusation was
/// accepted, the note of that same accusation's epoch, with its ring enabled. And each removal that is reported of a node is
/// one of these, at a place that has the reported moment behind it.
pub fn removals_are_verified()
    ensures lived { RemovalsAreVerified }
    ensures told { ToldRemovalsAreVerified }
{}

/// A note or an accusation of a node's is reported as accepted only after it was reported that the node's key spent an index
/// on it.
pub fn accepted_was_signed_first()
    ensures { AcceptedWasSignedFirst }
{}

/// What is reported as spent by a node, in order over all its lives, is what its key has spent.
pub fn spending_is_told()
    ensures { SpendingIsTold }
{}

/// What is reported as sent is the list of all datagrams, each with its number there, counted from 0.
pub fn sending_is_told()
    ensures { SendingIsTold }
{}

/// Each record in each datagram that a node sends verifies: a certificate under the authority's key, a note under its
/// member's and an accusation under its accuser's. The authority is to have an index for each certificate.
pub fn sent_records_verify()
    ensures { SentRecordsVerify }
{}

/// The notes and accusations that are reported of a node as accepted, or as its own, are in this order those that came into its
/// lives, one life after another.
pub fn what_is_accepted_is_lived()
    ensures { AcceptedIsLived }
{}

/// Each datagram that is reported as handed over was sent, and flows took no more datagrams than were sent.
pub fn only_sent_is_handed_over()
    ensures { OnlySentIsHandedOver }
{}

/// A flow takes the datagrams from the first that no flow has taken, one after another, as many as it may, or all that
/// were sent; it hands over none but these, in order, each to its addressee. No other line takes any. So over a whole text
/// flows hand over each datagram at most once.
pub fn flows_take_each_once()
    ensures order { FlowsGoOn }
    ensures others { OthersTakeNone }
    ensures once { FlowsTakeEachOnce }
{}

/// The authority's key spends an index on each member's certificate, in order of number, and no index beside.
pub fn the_authority_spends_once()
    ensures { AuthoritySpendsOnce }
{}

/// In every life no accusation of an older epoch than an accepted note's is accepted behind it against its member, or
/// expires; and what the note answers otherwise expires only where it was accepted again, and stood for the timeout since.
/// Each expiry that is reported of a node is one in a life of the node, at a place that has the reported moment behind it.
pub fn answers_hold()
    ensures lived { AnswersHoldInWorlds }
    ensures told { ToldExpiriesAreLived }
{}

/// Two lives of nodes of a world have the same view where they accept the same notes and the same accusations expire in them,
/// whatever their order and repeats. In a text a line that is answered by members asks for the view of a node, and is answered
/// by the view of the life that the node lives then; so where two such lives hold the same records, the answers are the same.
pub fn equal_records_give_one_view()
    ensures lives { EqualRecordsGiveOneView }
    ensures answers { TextsAnswerViews }
{}

/// What is found to be forged in the bytes of a datagram is the first of its records that verifies under a key of the
/// authority's or of a node's and whose body was never signed with that key; and it is forged for the first of these owners,
/// the authority before all nodes, and a node before those of higher numbers.
pub fn forgeries_are_first()
    ensures { ForgeriesAreFirst }
{}

/// A line ends as forged, and so a text does, only where it hands over bytes in which just that is found: those that it
/// says, those of the datagram of its number or of one that no flow had taken, or those of what is kept under its name. What
/// is found verifies under the named key, with which no signature of it was made until then.
pub fn what_is_forged_is_handed_over()
    ensures lines { ForgedLinesHandItOver }
    ensures texts { ForgedTextsHandItOver }
{}

/// Whatever a text in the world form is, and whatever ends it: as soon as its roster is whole, the lines that were taken
/// lead to its world, none of them is forged, and what was reported is what they report. Nobody in it is both a node and a
/// liar, the group has its rings, and what is signed with its keys verifies under them.
pub fn texts_come_to_worlds()
    ensures { TextsComeToWorlds }
{}

/// What holds of all worlds holds of what any text in the world form comes to: what is reported of its nodes' views, of what
/// they spend and of what they send is all of it; and its removals, what answers rule out, what its nodes and the authority
/// have signed and whom its nodes have accused are as the other laws say.
pub fn texts_are_lawful()
    ensures { TextsAreLawful }
{}
