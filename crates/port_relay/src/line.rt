//! The line between the two workers: a bounded channel under the rule that the messages put are those taken, and then those
//! that the line holds.
ghost use Rattle.std.specs.Prelude.{◌≡◌, ◌+◌, ◌≤◌, ◌<◌, true, false, List, [], ◌∷◌, ◌++◌, length, IfOk, MatchOption, vec_len, vec_capacity};
ghost use Rattle.crossbeam_channel.specs.Claims.{view, IsSeatAt};
ghost use Rattle.crossbeam_channel.specs.Ends.{sends_on, receives_on, ruled_capacity};
ghost use Rattle.segment_rings.specs.declared.words.Delivery.{Delivery};
ghost use Rattle.port_relay.specs.declared.line.TheConstants.{LINE_PLACES};
ghost use Rattle.port_relay.specs.Line.{log, in_hand};

use crossbeam_channel::protocol::{Join, Lesson, Outcome, Protocol, Split};
use crossbeam_channel::{Pass, RuledReceiver, RuledSender, bounded_with};
use segment_shared::Delivery;
use std::alloc::{AllocError, Global};
use std::collections::LinkedList;
use std::sync::Wait;

/// How many messages the line holds.
pub const LINE_PLACES: usize = 16;

/// A law: the line holds at most 16 messages.
pub fn at_most_16_messages()
    ensures { LINE_PLACES ≡ 16 }
{}

// What a pass may do, and what it has put and taken. No value of it is made.
pub(crate) struct Log {
    pub(crate) puts: bool,
    pub(crate) takes: bool,
    pub(crate) put: LinkedList<Delivery>,
    pub(crate) taken: LinkedList<Delivery>,
}

pub(crate) struct InOrder;

impl Protocol<Delivery, Log> for InOrder {
    ghost use Rattle.std.specs.Prelude.{true, []};
    ghost use Rattle.port_relay.specs.Line.{log, KeepsOrder};

    ghost holds = { KeepsOrder };

    ghost first = { log true true [] [] };
}

// One pass puts, and the other takes.
struct Roles;

impl Split<Log> for Roles {
    ghost use Rattle.std.specs.Prelude.{true, false, []};
    ghost use Rattle.port_relay.specs.Line.{log};

    ghost left = { λ v. log true false v.put [] };

    ghost right = { λ v. log false true [] v.taken };
}

impl Join<Log> for Roles {
    ghost use Rattle.std.specs.Prelude.{true, false, []};
    ghost use Rattle.port_relay.specs.Line.{log};

    ghost both = { λ v w. log true true v.put w.taken };

    ghost spent = { log false false [] [] };
}

struct HasPut;

impl Outcome<Delivery, Log> for HasPut {
    ghost then = { λ v x w. w ≡ log v.puts v.takes (v.put ++ x ∷ []) v.taken };
}

impl Lesson<Delivery, Log> for HasPut {
    ghost fact = { λ v items. Unit {0} };
}

struct HasTaken;

impl Outcome<Delivery, Log> for HasTaken {
    ghost then = { λ v x w. (w ≡ log v.puts v.takes v.put (v.taken ++ x ∷ [])) × (v.puts ≡ true → v.takes ≡ true → length v.taken < length v.put) };
}

impl Lesson<Delivery, Log> for HasTaken {
    ghost fact = { λ v items. v.puts ≡ true → v.takes ≡ true → v.put ≡ v.taken ++ items };
}

struct Rest;

impl Lesson<Delivery, Log> for Rest {
    ghost fact = { λ v items. v.puts ≡ true → v.takes ≡ true → (length items ≤ LINE_PLACES) × (v.put ≡ v.taken ++ items) };
}

pub(crate) type Way = Pass<Delivery, Log>;

pub(crate) type Sender = RuledSender<Delivery, Log, InOrder>;

pub(crate) type Receiver = RuledReceiver<Delivery, Log, InOrder>;

/// The two ends of an empty line, with a pass that puts and one that takes.
pub(crate) fn open(alloc: Global) -> Result<(Sender, Receiver, Way, Way), AllocError>
    ensures line { IfOk result (λ l. (receives_on l.1 ≡ sends_on l.0) × (ruled_capacity (sends_on l.0) ≡ LINE_PLACES)) }
    ensures seats { IfOk result (λ l. IsSeatAt (sends_on l.0) l.2 × IsSeatAt (sends_on l.0) l.3) }
    ensures views { IfOk result (λ l. (view l.2 ≡ log true false [] []) × (view l.3 ≡ log false true [] [])) }
{
    let (sender, receiver, mut writer) = bounded_with(alloc, LINE_PLACES)?;
    let reader = sender.another::<Roles>(&mut writer);
    Ok((sender, receiver, writer, reader))
}

/// Puts a message at the back, or hands it back if the line is full.
pub(crate) fn put<R: Wait>(
    rt: &R,
    sender: &Sender,
    pass: &mut Way,
    delivery: Delivery,
) -> Option<Delivery>
    requires places { ruled_capacity (sends_on sender.now) ≡ LINE_PLACES }
    requires seat { IsSeatAt (sends_on sender.now) pass.old }
    requires may { (view pass.old).puts ≡ true }
    ensures seat { IsSeatAt (sends_on sender.now) pass.new }
    ensures same { view pass.new ≡ log (view pass.old).puts (view pass.old).takes (view pass.new).put (view pass.old).taken }
    ensures put { (view pass.new).put ++ in_hand result ≡ (view pass.old).put ++ delivery ∷ [] }
{
    match sender.try_send_as::<HasPut, R>(rt, pass, delivery) {
        Ok(()) => None,
        Err(back) => Some(back.into_inner()),
    }
}

/// Takes the message at the front. A pass that may both put and take learns from an empty line that all was taken.
pub(crate) fn take<R: Wait>(rt: &R, receiver: &Receiver, pass: &mut Way) -> Option<Delivery>
    requires seat { IsSeatAt (receives_on receiver.now) pass.old }
    requires may { (view pass.old).takes ≡ true }
    ensures seat { IsSeatAt (receives_on receiver.now) pass.new }
    ensures took { view pass.new ≡ log (view pass.old).puts (view pass.old).takes (view pass.old).put ((view pass.old).taken ++ in_hand result) }
    ensures empty { MatchOption result ((view pass.old).puts ≡ true → (view pass.old).put ≡ (view pass.old).taken) (λ _. (view pass.old).puts ≡ true → length (view pass.old).taken < length (view pass.old).put) }
{
    match receiver.try_recv_as::<HasTaken, R>(rt, pass) {
        Ok(delivery) => Some(delivery),
        Err(_) => None,
    }
}

/// Puts the two passes together, in one that puts and takes.
pub(crate) fn rejoin(sender: &Sender, pass: &mut Way, other: Way)
    requires seats { IsSeatAt (sends_on sender.now) pass.old × IsSeatAt (sends_on sender.now) other }
    requires writer { (view pass.old).puts ≡ true }
    requires reader { (view other).takes ≡ true }
    ensures seat { IsSeatAt (sends_on sender.now) pass.new }
    ensures view { view pass.new ≡ log true true (view pass.old).put (view other).taken }
    ensures few { length (view pass.new).put ≤ length (view pass.new).taken + LINE_PLACES }
{
    sender.absorb::<Roles>(pass, other);
    sender.learn_as::<Rest>(pass);
}

/// Takes the messages that the line still holds, behind those left already, for which there is room.
pub(crate) fn drain<R: Wait>(rt: &R, receiver: &Receiver, pass: &mut Way, left: &mut Vec<Delivery>)
    requires seat { IsSeatAt (receives_on receiver.now) pass.old }
    requires both { view pass.old ≡ log true true (view pass.old).put (view pass.old).taken }
    requires room { length (view pass.old).put + vec_len left.old ≤ length (view pass.old).taken + vec_capacity left.old }
    ensures left { (front : List Delivery) → front ++ left.old.items ≡ (view pass.old).taken → front ++ left.new.items ≡ (view pass.old).put }
    ensures len { vec_len left.new + length (view pass.old).taken ≡ vec_len left.old + length (view pass.old).put }
    ensures capacity { vec_capacity left.new ≡ vec_capacity left.old }
{
    while let Some(delivery) = take(rt, receiver, pass) {
        left.push_reserved(delivery);
    }
}
