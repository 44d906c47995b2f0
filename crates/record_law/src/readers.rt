//! What a segment's readers say of a Take and of its counts, and what it answers after frames were missed. The laws use the
//! definitions alone, and a call of one does nothing.
ghost use Rattle.std.specs.Prelude.{◌≡◌, ℕ, Bool, List};
ghost use Rattle.pgn_ids.specs.declared.address.Address.{Address};
ghost use Rattle.message_events.specs.declared.event.Event.{Event};
ghost use Rattle.segment_law.specs.Segment.{Segment};
ghost use Rattle.segment_law.specs.Calls.{applied};
ghost use Rattle.segment_law.specs.declared.call.Call.TheVariants.{Overrun};
ghost use Rattle.segment_law.specs.declared.reply.Reply.TheVariants.{Done};
ghost use Rattle.segment_law.specs.Readers.{given_by_take, wanted};
ghost use Rattle.segment_law.specs.Record.{Record, StandsAt};
ghost use Rattle.record_law.specs.Counting.{counts_over};
ghost use Rattle.record_law.specs.Missed.{HasMissed};

/// A law: the ports that a station's next Take, or its TakeAgain, is said to want room for are those that this call with room
/// gives a message at, in this order; none if it gives none.
pub fn wants_are_what_is_given()
    ensures { (seg : Segment) (a : Address) (again : Bool) → (wanted seg a again).0 ≡ (given_by_take seg a again).0 }
{}

/// A law: at each record, the ports and the length that a station's next Take, or its TakeAgain, is said to want are those of
/// the message that this call with room gives; none and 0 if it gives none.
pub fn wants_are_what_is_given_whole()
    ensures { (addresses : List Address) (steps : Record) (seg : Segment) → StandsAt addresses steps seg
        → (a : Address) (again : Bool) → wanted seg a again ≡ given_by_take seg a again }
{}

/// A law: the counts of a segment are those of its record, each up to the last value of `u64`: the frames put; the takes,
/// repeated ones too, at which a station looked at a malformed frame; the frames taken again; the messages given; and the
/// outcomes by their kind.
pub fn counts_are_those_of_the_record()
    ensures { (addresses : List Address) (steps : Record) (seg : Segment) → StandsAt addresses steps seg
        → seg.counts ≡ counts_over addresses steps }
{}

/// A law: at each record, after an Overrun that was done the station has no incoming session and no connection under way. Its
/// TakeAgain is refused after any calls, until it has taken a frame.
pub fn overruns_leave_nothing_to_take_again()
    ensures { (addresses : List Address) (steps : Record) (seg next : Segment) (a : Address) (n : ℕ) (events : List Event)
        → StandsAt addresses steps seg → applied seg (Overrun a n) ≡ (next, Done events) → HasMissed next a }
{}
