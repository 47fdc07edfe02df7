//! Floor: node. What a node does with each call, as definitions and theorems alone: the steps of a node's life, the
//! events that it reports and the datagrams that it sends. Each theorem is the contract of a function that does
//! nothing. The contracts of all nodes and worlds cite it.
#![tactic(auto)]

ghost use Rattle.node_rules.specs.Lives.{EqualRecordsGiveOneView, EachLifeIsJustified, AnswersHoldInLives, AnswersRevokeInLives, EachCallTellsItsLife, OwnNoteIsKept, OwnAnswersAreAccepted, OwnLeavingIsAccepted};
ghost use Rattle.node_rules.specs.Vouching.{LivesAreVouchedFor, NoIndexBeyondTheKey, SentRecordsVerify};
ghost use Rattle.node_rules.specs.Accusing.{HasAccusedIsKept, OwnAccusationsAreAccepted, OnlyTheSilentAreAccused};
ghost use Rattle.node_rules.specs.Verdicts.{VerdictsAreTold, BadFormsAreTold};
ghost use Rattle.node_rules.specs.Answering.{AnswersAreTold, RecordsAreTold, AnswersAreSent};
ghost use Rattle.node_rules.specs.Outgoing.{LeavingSends, LeavingTells, TickSends, TickTells};
ghost use Rattle.node_rules.specs.Stopping.{StoppedDeliveryEnds, StoppedVerdictsAreTold, StoppedTickEnds, StoppedLeavingEnds, OnlySignaturesStop, WholeCallsGoOn};
ghost use Rattle.node_rules.specs.Sending.{SentIsTold, PingsBring, PongsBring, SummariesBring};
ghost use Rattle.node_rules.specs.Told.{CallsTellNow, MomentsFit, StartsTellNow, CallsTellSendings};
ghost use Rattle.node_rules.specs.Readable.{OwnRecordsVerify, SentRecordsAreRead, SpelledRecordsAreRead, ToldRecordsAreRead};
ghost use Rattle.node_rules.specs.GoingOut.{OwnAccusationsGoOut};
ghost use Rattle.node_rules.specs.Gaining.{LeavingIsLived, RecordsAreLived, TicksAreLived};
ghost use Rattle.node_rules.specs.OnRings.{RingForIsLowest, NeighboursAreSuccessors, AccusedAreAddressed};
ghost use Rattle.node_rules.specs.OneExchange.{WhatIsHeldIsTheLife, WhatIsHeldCanBeSent, SummariesAreAnswered, OneExchangeIsEnough, NothingLackingIsEnough};
ghost use Rattle.node_rules.specs.Known.{OnlyKnownIsSent};
ghost use Rattle.node_rules.specs.Addressing.{OnlyCertifiedAreAddressed, AddresseesHavePorts};
ghost use Rattle.node_rules.specs.Plain.{LivesArePlain};
ghost use Rattle.node_rules.specs.ComingBack.{WhoIsRemovedIsTold, WhoIsToldComesBack, NextNotesBringBack};
ghost use Rattle.node_rules.specs.Spans.{EpochsAreBounded};
ghost use Rattle.node_rules.specs.OtherNonces.{StartsOverlookSources, DeliveriesOverlookSources, LeavingOverlooksSources, TicksOverlookSources, TicksDrawPings, TicksDifferInNonces, OtherNoncesAreTold, ShownNoncesAreSent, PingsAreTold, PingsAreApart, PingsShowNonces, LivesGiveAll, EachHasASource, LearnedLivesBegin, LearnedLivesGoOn};

/// In every life of a node each member that goes out of the view does so by an accepted note of its own that leaves, or at a
/// tick, and then an accusation accepted earlier against it stood in each state between, for the timeout at least.
pub fn each_life_is_justified()
    ensures { EachLifeIsJustified }
{}

/// Once a node has accepted a note in a life, it accepts no accusation of an older epoch against the note's member in
/// that life, and none expires. One that the note answers otherwise expires later in the life only where it was accepted
/// again, and stood for the timeout since.
pub fn answers_hold_in_lives()
    ensures older { AnswersHoldInLives }
    ensures answered { AnswersRevokeInLives }
{}

/// What a call reports of the view and of accusations is what the events report that it adds to the life, in order; also
/// where a put fails in it.
pub fn each_call_tells_its_life()
    ensures { EachCallTellsItsLife }
{}

/// As long as each call is answered, the node's newest note is the one that its store keeps.
pub fn own_note_is_kept()
    ensures { OwnNoteIsKept }
{}

/// The note that answers an accepted accusation is always accepted.
pub fn own_answers_are_accepted()
    ensures { OwnAnswersAreAccepted }
{}

/// The note by which a node leaves is always accepted, and takes the node out of its own view.
pub fn own_leaving_is_accepted()
    ensures { OwnLeavingIsAccepted }
{}

/// A life that starts with an index of its key left never spends one that the key doesn't have.
pub fn no_index_beyond_the_key()
    ensures { NoIndexBeyondTheKey }
{}

/// Each record that a life rests on verifies, where the life starts with an index of its key left: for each
/// certificate, note and accusation among its events, own ones included, there is a record that stands in the kit, or
/// was accepted or signed in the life, and verifies under its author's key, by the certificates that the node holds.
pub fn lives_are_vouched_for()
    ensures { LivesAreVouchedFor }
{}

/// Two nodes of a group have the same view where their lives accept the same notes and the same accusations expire in
/// them, whatever their order and repeats.
pub fn equal_records_give_one_view()
    ensures { EqualRecordsGiveOneView }
{}

/// In every life the node has accused a member exactly where an accusation by it against the member is kept.
pub fn has_accused_is_kept()
    ensures { HasAccusedIsKept }
{}

/// At a tick, for each silent member in order, after the accusations of those before it: unless one by the node
/// against it is kept already, there is a ring for its accusation, and the accusation has no fault; where the key has
/// an index left it is kept then.
pub fn own_accusations_are_accepted()
    ensures { OwnAccusationsAreAccepted }
{}

/// A node signs no accusation but at a tick, and none but of a member that is silent at it, whose monitor the node is
/// there in its own view, on a ring that the member's newest note enables, and at the epoch of that note.
pub fn only_the_silent_are_accused()
    ensures { OnlyTheSilentAreAccused }
{}

/// Each accusation on which a call spends an index goes to the accused in that very call, with the signature of that index.
pub fn own_accusations_go_out()
    ensures { OwnAccusationsGoOut }
{}

/// A delivery reports one verdict on each record that was read, in order: its body and its first fault, in the node as
/// the records before it have left it. Where the disk fails in the note that a record asks, the verdict on that is the last.
pub fn verdicts_are_told()
    ensures whole { VerdictsAreTold }
    ensures stopped { StoppedVerdictsAreTold }
{}

/// Of bytes that are no datagram exactly one event reports the place, and nothing else is reported or sent, and the node
/// stays as it was; no other delivery reports one.
pub fn bad_forms_are_told()
    ensures { BadFormsAreTold }
{}

/// Each record that asks a note of the node, and no other, spends one index on it, or reports that the key is used up,
/// directly behind the verdict: an accepted accusation against the node asks its answer, and one by which the node hears that
/// others removed it a note to come back. Where records are delivered, nothing goes out but these notes, in order, each
/// to the node's neighbours.
pub fn answers_go_out()
    ensures told { AnswersAreTold }
    ensures behind { RecordsAreTold }
    ensures sent { AnswersAreSent }
{}

/// At a due tick there go out, in order: what is new and still held, in one datagram to the neighbours; for each silent
/// member that the node has not accused, as long as its key has an index, one accusation, to the neighbours and to the
/// member; the pings; the summary. At any other tick nothing does. Beside the life and the datagrams it is reported that
/// each of those is silent, and behind each the index that is spent on it, or that none is left; and nothing else.
pub fn ticks_go_out()
    ensures sent { TickSends }
    ensures told { TickTells }
{}

/// As a node leaves, an index is spent on a note of the next epoch with no ring, and it goes to each of the node's
/// neighbours; or it is reported that the key is used up.
pub fn leaving_goes_out()
    ensures sent { LeavingSends }
    ensures told { LeavingTells }
{}

/// Where the put for a note that is asked, for an accusation or for a leaving note fails, what comes before it is reported
/// and sent as ever, nothing behind it is, and the life is over. No other put ends a call, and a call that none ends is
/// whole and ends no life.
pub fn stopped_calls_end()
    ensures delivery { StoppedDeliveryEnds }
    ensures tick { StoppedTickEnds }
    ensures leaving { StoppedLeavingEnds }
    ensures only { OnlySignaturesStop }
    ensures others { WholeCallsGoOn }
{}

/// In every life each record that a call sends stands in the kit, or was accepted or signed before in the life, or is
/// signed in that call; also in a call in which a put fails.
pub fn only_known_is_sent()
    ensures { OnlyKnownIsSent }
{}

/// In every life that starts with an index left each record in each datagram of a call verifies: a certificate under the
/// authority's key, a note or an accusation under that of its signer, by the certificate which the node holds of it; also
/// in a call in which a put fails. The kit's certificates are to verify, and what the node signs, under its own key.
pub fn sent_records_verify()
    ensures { SentRecordsVerify }
{}

/// In every life each datagram of a call goes to another member, whose certificate the node holds; also in a call in
/// which a put fails. That certificate has a port, where the node is correct and what it is handed is bytes.
pub fn only_certified_are_addressed()
    ensures others { OnlyCertifiedAreAddressed }
    ensures ports { AddresseesHavePorts }
{}

/// What a call reports as sent is what it sends, in order, each with its place among the datagrams of the call; also in a
/// call in which a put fails.
pub fn sent_is_told()
    ensures { SentIsTold }
{}

/// Where a ping, a pong or a summary is delivered, that is reported, and beside datagrams nothing else. Where the sender is
/// another certified member, a ping brings it a pong, and a summary what it lacks and, unless the summary is an answer,
/// the node's page. A pong brings nothing, and the probes see it.
pub fn what_probes_and_summaries_bring()
    ensures ping { PingsBring }
    ensures pong { PongsBring }
    ensures summary { SummariesBring }
{}

/// Delivered records add to the life what is accepted of them, in order, each with the note that it asks behind it.
/// A tick adds itself and the accusations that are made at it, and the probes see it. A node that leaves adds its leaving note,
/// where the key has an index for it. None adds anything else.
pub fn what_lives_gain()
    ensures records { RecordsAreLived }
    ensures tick { TicksAreLived }
    ensures leaving { LeavingIsLived }
{}

/// A member is accused on the lowest ring of those that its newest note enables and on which the node is its monitor.
pub fn accused_on_the_lowest_ring()
    ensures { RingForIsLowest }
{}

/// A node's neighbours are its successors on the rings of the group, each once, in order of number. An accusation goes
/// to these and to the accused.
pub fn neighbours_are_successors()
    ensures all { NeighboursAreSuccessors }
    ensures accused { AccusedAreAddressed }
{}

/// A correct node holds what its life has come to: the newest note of each member, each verified under the key in its
/// member's certificate, and a certificate, verified under the authority's key, of exactly those who have joined. It holds
/// just the accusations that it keeps, beside those by which a member was removed that is out of its view since, each
/// verified under the key in its accuser's certificate.
pub fn what_is_held_is_the_life()
    ensures { WhatIsHeldIsTheLife }
{}

/// Whatever a correct node holds has a spelling, so what it gives of that is read as it was sent.
pub fn what_is_held_can_be_sent()
    ensures { WhatIsHeldCanBeSent }
{}

/// A summary of a certified member other than the node itself is answered first of all by the datagram of what it lacks,
/// if it lacks anything.
pub fn summaries_are_answered()
    ensures { SummariesAreAnswered }
{}

/// One exchange is enough. A correct node answers a summary, which another correct node of the group made earlier in its
/// present life, with a datagram that holds all that the summary lacks of its page, and the other is handed it. Then the
/// other has of each member of the page a note at least as great, by epoch and then by mask, as the first had; and where
/// nothing was lacking, it has so already. As the first made the datagram and the other is handed it, the two keep no
/// two different certificates for one number, and the other's own note is not less than the first's note of it. Two
/// such datagrams, one each way, give it for both.
pub fn one_exchange_is_enough()
    ensures handed { OneExchangeIsEnough }
    ensures nothing { NothingLackingIsEnough }
{}

/// Where the setting doesn't have nodes come together again, nothing is ever news in a life, and nothing is held as that by
/// which a member was removed. No news goes out then, an accepted accusation against the node asks its answer and no other
/// record asks a note, the partner and the page of a round are those of the plain rules, and a summary is answered by what
/// it lacks alone.
pub fn nothing_changes_without_the_option()
    ensures { LivesArePlain }
{}

/// Who was removed comes back. Of all that a member lacks by its summary the accusation by which the node removed it is
/// the last. A correct node with the option that is delivered an accusation against it, of its newest epoch, on a ring that
/// its mask enables, and verifying under the key of another member, signs a note of the next epoch, whatever its own view is
/// of the accuser and of itself; that is its newest note then, and goes to its neighbours. The accusation is to be new to
/// it, its epoch may rise in the span, and its key has an index. And an accepted note of a greater epoch than its
/// member's newest, by which the member doesn't leave, brings the member into the view, and ends the removal that is held.
pub fn who_is_told_comes_back()
    ensures asks { WhoIsRemovedIsTold }
    ensures told { WhoIsToldComesBack }
    ensures back { NextNotesBringBack }
{}

/// With the option and a bound in it, the epoch of a node that hasn't left is in every state of every life at most that bound
/// above its epoch as the present span of one timeout began.
pub fn epochs_are_bounded()
    ensures { EpochsAreBounded }
{}

/// Nothing but the nonces of pings comes from their source. With another source a start, a delivery and a leaving report and
/// send the same, and so does a tick with given pings; and the node that they leave has that source, and is else the same. A
/// tick is the one with the pings that are drawn: one to each of the watched in order where it is due, and none at another.
pub fn sources_give_nonces_alone()
    ensures start { StartsOverlookSources }
    ensures delivery { DeliveriesOverlookSources }
    ensures leaving { LeavingOverlooksSources }
    ensures tick { TicksOverlookSources }
    ensures drawn { TicksDrawPings }
{}

/// Of a tick with these pings and one with others to the same members, each report is the same, or one of a ping each to
/// the same member: the other reports the same with its own nonces. The nodes behind them are the same, but that each has its
/// pings as the last. And reports that are so alike to a tick's are those of a tick with pings to the same members.
pub fn ticks_differ_in_nonces()
    ensures alike { TicksDifferInNonces }
    ensures told { OtherNoncesAreTold }
    ensures shown { ShownNoncesAreSent }
{}

/// Among the reports of a due tick those of pings are of the pings that it sends, in order, and any other tick reports none. The
/// bytes of a ping are those of no other datagram, and show its nonce.
pub fn pings_are_told()
    ensures each { PingsAreTold }
    ensures apart { PingsAreApart }
    ensures nonce { PingsShowNonces }
{}

/// A node with whatever source follows a life with another, where it puts the pings that it learns in the place of those that it
/// drew: each source that gives all of these their nonces brings the life to the node, but for the source, and the calls of
/// that life are those of the node. There is such a source, and that of a life gives its own pings theirs.
pub fn nonces_may_be_learned()
    ensures begins { LearnedLivesBegin }
    ensures goes_on { LearnedLivesGoOn }
    ensures one { EachHasASource }
    ensures own { LivesGiveAll }
{}

/// Each event of a whole call has the node's moment as the call began, and at a tick the next one; so it fits in 64 bits where
/// the call began before the last. None says that a datagram was lost or handed over, or that the disk failed. What is reported
/// as sent is numbered from 0 on. A start is at the moment 0, and sends nothing.
pub fn calls_tell_now()
    ensures calls { CallsTellNow }
    ensures fit { MomentsFit }
    ensures numbered { CallsTellSendings }
    ensures starts { StartsTellNow }
{}

/// The records in each datagram that a correct node sends in a whole call, and reports as sent, are read as it sent them, where what it began with is
/// within its ranges and what it was handed is bytes. So are those of any life whose own signatures have the length of one,
/// whatever they verify.
pub fn sent_records_are_read()
    ensures sent { SentRecordsAreRead }
    ensures told { ToldRecordsAreRead }
    ensures spelled { SpelledRecordsAreRead }
{}

/// Each own record that is read in a datagram which a whole call reports as sent verifies under the own key, as the first signature
/// of it does; whatever other members' keys verify.
pub fn own_records_verify()
    ensures { OwnRecordsVerify }
{}
