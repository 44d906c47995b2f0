//! The law of a lane: the messages of one sender that one destination is given, and the outcomes that the sender is told.
//!
//! Nothing runs here. `specs/` has a small machine, and each function below is a law of it: its body is empty, and its contract
//! is what was proved. To apply the laws to a real sender and a real destination, run the machine beside them, event by event
//! (`lanes_go_on`, `broadcasts_go_on`).
//!
//! # The machine
//!
//! There is one sender and one destination, and a way from each to the other that keeps its order. The machine has only what the
//! laws need:
//!
//! - `sent`: the messages that were accepted for sending. Their places, from 1, are the message numbers.
//! - `forward`: the sender's frames that are ahead of the destination, on the bus or still in the sender's queue. `again` is the
//!   one frame that the destination would take if it took a frame again, a list of at most one. `reached` and `queued` say which
//!   message, and which offset, the two ends of `forward` are in.
//! - `session`: the incoming session that the last RTS (or BAM) opened, and `given`: what the destination was given.
//! - `answers`: the end acknowledgements and Acknowledgements that are ahead of the sender. `heard` is the one that it would
//!   take if it took a frame again, a list of at most one.
//! - `phase`, `token`, `pending`, `outcomes`: the sender's books. A message is `Begun` with its RTS, and `Granted` once a CTS
//!   was taken. If it ends in another way than by its end acknowledgement, the lane is `InDoubt`, and no message begins until a
//!   Request that carries the token was answered. Then the other token is next.
//!
//! Frames, sessions and answers hold message numbers for the laws alone: the wire has none, and no event depends on them. So the
//! sender takes any end acknowledgement that it hears for that of its message.
//!
//! A stream (`specs/Stream.antt`) is the part from `sent` to `given`, and all that there is of a broadcast. A lane
//! (`specs/Lane.antt`) is a stream with the answers and the books. A sender (`specs/Sender.antt`) is the books alone, for lanes
//! whose answers are unknown: broadcasts, and lanes to a node outside.
//!
//! # A Take, and a frame taken again
//!
//! A Take moves the first frame of `forward` to `again`, and does only what must be done: an RTS replaces the session, a DPO
//! sets its offset. Each thing that the destination may do then is an event of its own that looks at `again`: it accepts the
//! packet, gives the message, replies to the Request, ends the session. So a frame that is taken again needs no Take: those
//! events look at `again` a second time, and an RTS reopens its session. Likewise the sender hears an answer, which moves it to
//! `heard`, and its reaction is an event that looks at `heard`. A frame of somebody else, and an overrun, leave both empty.
//!
//! # What is left out, and why that is sound
//!
//! CTS frames and their windows, holds, timers, the count of retransmissions, the kinds of sessions, abort frames, ports, and
//! what an end acknowledgement says of its message are not there. Each is replaced by a free choice: a CTS may be taken whenever
//! a message is under way, a message and a session may end at any time, any packet of the message under way may be queued, in
//! any order and any number of times, and each end acknowledgement is as good as any other. So the machine allows more than the
//! protocol does. Each run of the protocol is one of its runs, so what holds of all its runs holds of the protocol. If a source
//! has two incoming sessions, a TP and an ETP one, the machine has that of the last RTS: the other gets no frame before an RTS
//! of its kind has replaced it.
//!
//! # The laws
//!
//! - `given_once_in_order`: in every stream, the given messages are among the sent ones. Their numbers rise strictly, and each
//!   message is the one that was sent under its number, byte for byte.
//! - `outcomes_are_true`: that law for every lane. Also an acknowledged message had been given before, and the end
//!   acknowledgement was its own; an unreachable one is never given; each number has at most one outcome, and only sent ones
//!   have one.
//! - `broadcasts_end_once`: the law of outcomes for every sender, whatever the answers are.
//! - `lanes_go_on`, `broadcasts_go_on`: how a run begins and continues, and what a session and the message under way are.
//! - `a_message_comes`: runs in which messages are given, acknowledged, lost, cancelled and unreachable, so that the other laws
//!   are not vacuous.
//!
//! They don't say that a message arrives, or gets an outcome. If an outcome is neither Acknowledged nor Unreachable, they don't
//! say whether the message was given.
#![tactic(auto)]

ghost use Rattle.std.specs.Prelude.{All, Bool, Contains, ◌≡◌, ℕ, Some, length};
ghost use Rattle.lane_law.specs.Choice.{IsChoice, IsGiven};
ghost use Rattle.lane_law.specs.Example.{GivesAcknowledged, GivesBroadcast, GivesTwoOfSix};
ghost use Rattle.lane_law.specs.Lane.{Acknowledges, Lane, LaneEvent};
ghost use Rattle.lane_law.specs.Lane.{IsLastBegun, IsReached, MayHappen, OnEachLane, after, start};
ghost use Rattle.lane_law.specs.Message.{Message};
ghost use Rattle.lane_law.specs.Outcome.{AreOneEach, AreTrue, AreWithin};
ghost use Rattle.lane_law.specs.Sender;
ghost use Rattle.lane_law.specs.Sender.{OnEachSender};
ghost use Rattle.lane_law.specs.Session.{Session};
ghost use Rattle.lane_law.specs.Stream;
ghost use Rattle.lane_law.specs.Stream.{IsOfReached, OnEachStream};

/// A destination is given each message at most once, in the order sent, byte for byte. This holds for a broadcast and every
/// other stream, whatever its sender is told.
pub fn given_once_in_order()
    ensures { OnEachStream (λ stream. IsChoice stream.given stream.sent) }
{}

/// The outcomes that the sender of a lane is told are true.
///
/// An acknowledged message had been given before the sender could acknowledge it. A message that is reported unreachable was not
/// given, and as its outcome stays, it never will be. Each number has at most one outcome, and only numbers that were sent have
/// one.
pub fn outcomes_are_true()
    // at most once, in the order sent, byte for byte, as of every stream
    ensures given { OnEachLane (λ lane. IsChoice lane.stream.given lane.stream.sent) }

    // whichever outcomes there are by now, and whatever was given by now
    ensures agree { OnEachLane (λ lane. AreTrue lane.stream.given lane.outcomes) }

    // a message that may be acknowledged next was given by now, so in an earlier step
    ensures earlier { OnEachLane (λ lane. (number heard : ℕ)
        → MayHappen (Acknowledges number heard) lane → IsGiven lane.stream.given number) }

    // the end acknowledgement that was heard is the message's own, and not that of an equal one
    ensures own { OnEachLane (λ lane. (number heard : ℕ)
        → MayHappen (Acknowledges number heard) lane → heard ≡ number) }

    // only numbers that were sent have an outcome, and each has one at most
    ensures sent { OnEachLane (λ lane. AreWithin (length lane.stream.sent) lane.outcomes) }
    ensures single { OnEachLane (λ lane. AreOneEach lane.outcomes) }

    // no event takes an outcome back
    ensures stays { (lane : Lane) (event : LaneEvent) → All (Contains (after event lane).outcomes) lane.outcomes }
{}

/// Each number has at most one outcome, and only numbers that were sent have one, even if nothing is known of the answers, as
/// for a broadcast lane and a lane to a node outside.
pub fn broadcasts_end_once()
    ensures single { OnEachSender (λ sender. AreOneEach sender.outcomes) }
    ensures sent { OnEachSender (λ sender. AreWithin sender.sent sender.outcomes) }
{}

/// For running a lane beside a real one: how it begins, that an event leads on, and what a reached lane has under way.
pub fn lanes_go_on()
    ensures begins { (token : Bool) → IsReached token (start token) }
    ensures goes_on { (token : Bool) (lane : Lane) (event : LaneEvent)
        → IsReached token lane → MayHappen event lane → IsReached token (after event lane) }

    // an open session is that of the message of the last RTS that was taken
    ensures session { OnEachLane (λ lane. (session : Session)
        → lane.stream.session ≡ Some session → IsOfReached lane.stream session) }

    // the message under way is that of the last RTS that was queued
    ensures last { OnEachLane (λ lane. IsLastBegun lane.stream.queued.number lane.phase) }
{}

/// For running a stream and a sender beside a real broadcast lane: how they begin, and that an event leads on.
pub fn broadcasts_go_on()
    ensures stream_begins { Stream.IsReached Stream.empty_stream }
    ensures stream_goes_on { (stream : Stream.Stream) (event : Stream.StreamEvent)
        → Stream.IsReached stream → Stream.MayHappen event stream
        → Stream.IsReached (Stream.after event stream) }
    ensures session { OnEachStream (λ stream. (session : Session)
        → stream.session ≡ Some session → IsOfReached stream session) }
    ensures sender_begins { Sender.IsReached Sender.new_sender }
    ensures sender_goes_on { (sender : Sender.Sender) (event : Sender.SenderEvent)
        → Sender.IsReached sender → Sender.MayHappen event sender
        → Sender.IsReached (Sender.after event sender) }
{}

/// The laws aren't vacuous: a broadcast can be given, a message can be given and acknowledged, and a lane can go through frames
/// taken again, late answers, two rounds of doubt, an overrun on either side and each kind of outcome.
pub fn a_message_comes()
    ensures broadcast { (message : Message) × (stream : Stream.Stream) × GivesBroadcast message stream }
    ensures acknowledged { (message : Message) × (lane : Lane) × GivesAcknowledged message lane }
    ensures each_fate { (message : Message) × (lane : Lane) × GivesTwoOfSix message lane }
{}
