//! The two sides of a relay: one receives messages and puts them into the line, the other takes them out and submits them.
ghost use Rattle.std.specs.Prelude.{◌≡◌, ◌+◌, ◌^◌, ◌<◌, ◌≤◌, true, Some, None};
ghost use Rattle.crossbeam_channel.specs.Claims.{view, IsSeatAt};
ghost use Rattle.crossbeam_channel.specs.Ends.{sends_on, receives_on, ruled_capacity};
ghost use Rattle.pgn_ids.specs.declared.address.Address.{Address};
ghost use Rattle.segment_rings.specs.Ends.{ClientEnd, InboxEnd};
ghost use Rattle.port_relay.specs.declared.line.TheConstants.{LINE_PLACES};
ghost use Rattle.port_relay.specs.declared.line.Log.{Log};
ghost use Rattle.port_relay.specs.declared.stopping.Ended.TheVariants.{Limit};
ghost use Rattle.port_relay.specs.Working.{HasPulled, HasPushed};

use crate::line::{Receiver, Sender, Way, put, take};
use crate::stopping::{Ended, Stop};
use pgn_ids::Address;
use segment_shared::{Client, Delivery, Gate, Inbox, Refusal, SubmitRefused};
use std::sync::Wait;
use std::sync::atomic::{AtomicBool, Ordering};
use std::thread;

/// The side that receives, for a gate.
const PULLS: u8 = 0;

/// The side that submits.
const PUSHES: u8 = 1;

/// How often the side that receives lets other threads run before it takes the other side for one that has no thread. That of one
/// which has is mostly at work long before.
const YIELDS: u32 = 1_000;

/// What both sides go by: how many messages are to be received at most, the station that they are submitted to, how many turns each
/// side has at most, the gate that it passes in each, and what stops both.
#[derive(Drop)]
pub(crate) struct Terms<'t, G> {
    pub(crate) limit: u64,
    pub(crate) to: Address,
    pub(crate) turns: u64,
    pub(crate) gate: &'t G,
    pub(crate) stop: &'t Stop,
}

/// What the sides let one another know in a round: whether the one that submits has begun, whether the one that receives has ended
/// the round and continues in the next one, and which of them has ended for good.
#[derive(Drop)]
pub(crate) struct Round {
    has_begun: AtomicBool,
    has_paused: AtomicBool,
    has_pulled: AtomicBool,
    has_pushed: AtomicBool,
}

impl Round {
    pub(crate) fn new() -> Round {
        Round {
            has_begun: AtomicBool::new(false),
            has_paused: AtomicBool::new(false),
            has_pulled: AtomicBool::new(false),
            has_pushed: AtomicBool::new(false),
        }
    }

    // Whether the side that submits has begun. One that has a thread has time to.
    fn begins(&self) -> bool {
        for _ in 0..YIELDS {
            if self.has_begun.load(Ordering::SeqCst) {
                return true;
            }
            thread::yield_now();
        }
        false
    }
}

/// How many messages a side received or submitted, and a message that it could not hand on yet.
#[derive(Drop)]
pub(crate) struct Worked {
    pub(crate) count: u64,
    pub(crate) hand: Option<Delivery>,
}

/// How many turns a side has made, and why it has ended, if it has ended for good.
#[derive(Clone, Copy)]
pub(crate) struct Course {
    pub(crate) turns: u64,
    pub(crate) ended: Option<Ended>,
}

impl Course {
    /// Why the side ended, once one of both has.
    pub(crate) fn reason(self) -> Ended
        ensures { result ≡ Limit → self.ended ≡ Some Limit }
    {
        match self.ended {
            Some(ended) => ended,
            None => Ended::OtherEnded,
        }
    }
}

/// A side of a relay: its pass for the line, what it has done, and its course.
#[derive(Drop)]
pub(crate) struct Side {
    pub(crate) pass: Way,
    pub(crate) worked: Worked,
    pub(crate) course: Course,
}

impl Side {
    /// A side that has done nothing yet.
    pub(crate) fn new(pass: Way) -> Side
        ensures pass { result.pass ≡ pass }
        ensures worked { (result.worked.count ≡ 0) × (result.worked.hand ≡ None) }
        ensures course { (result.course.turns ≡ 0) × (result.course.ended ≡ None) }
    {
        Side {
            pass,
            worked: Worked {
                count: 0,
                hand: None,
            },
            course: Course {
                turns: 0,
                ended: None,
            },
        }
    }
}

// Receives a message, if none is in hand, one waits and fewer than the limit were received. Otherwise returns why no more are to be
// received, if so.
fn receive_one(inbox: &mut Inbox, worked: &mut Worked, limit: u64) -> Option<Ended>
    requires within { worked.old.count ≤ limit }
    ensures pulled { (start : InboxEnd) (v : Log) → HasPulled start inbox.old v worked.old → HasPulled start inbox.new v worked.new }
    ensures within { worked.new.count ≤ limit }
    ensures limit { result ≡ Some Limit → worked.new.count ≡ limit }
{
    if worked.hand.is_some() {
        return None;
    }
    if worked.count >= limit {
        return Some(Ended::Limit);
    }
    match inbox.try_receive() {
        Ok(Some(delivery)) => {
            worked.count += 1;
            worked.hand = Some(delivery);
            None
        }
        Ok(None) => None,
        Err(_) => Some(Ended::OutOfMemory),
    }
}

// Puts what is in hand into the line, if there is something and the line has a place.
fn put_one<R: Wait>(rt: &R, line: &Sender, pass: &mut Way, worked: &mut Worked)
    requires places { ruled_capacity (sends_on line.now) ≡ LINE_PLACES }
    requires seat { IsSeatAt (sends_on line.now) pass.old }
    requires may { (view pass.old).puts ≡ true }
    ensures seat { IsSeatAt (sends_on line.now) pass.new }
    ensures pulled { (start : InboxEnd) (now : InboxEnd) → HasPulled start now (view pass.old) worked.old → HasPulled start now (view pass.new) worked.new }
    ensures count { worked.new.count ≡ worked.old.count }
    ensures may { (view pass.new).puts ≡ true }
{
    if let Some(delivery) = worked.hand.take() {
        worked.hand = put(rt, line, pass, delivery);
    }
}

// The turns of the side that receives in one round.
fn pull_turns<R: Wait, G: Gate>(
    rt: &R,
    line: &Sender,
    pass: &mut Way,
    inbox: &mut Inbox,
    worked: &mut Worked,
    made: u64,
    terms: &Terms<'_, G>,
    round: &Round,
) -> Course
    requires places { ruled_capacity (sends_on line.now) ≡ LINE_PLACES }
    requires seat { IsSeatAt (sends_on line.now) pass.old }
    requires may { (view pass.old).puts ≡ true }
    requires within { worked.old.count ≤ terms.now.limit }
    ensures seat { IsSeatAt (sends_on line.now) pass.new }
    ensures may { (view pass.new).puts ≡ true }
    ensures pulled { (start : InboxEnd) → HasPulled start inbox.old (view pass.old) worked.old → HasPulled start inbox.new (view pass.new) worked.new }
    ensures within { worked.new.count ≤ terms.now.limit }
    ensures limit { result.ended ≡ Some Limit → worked.new.count ≡ terms.now.limit }
{
    let mut turns = made;
    for turn in made..terms.turns {
        terms.gate.pass(PULLS, turn + 1);
        turns = turn + 1;
        if terms.stop.is_stopped() {
            return Course {
                turns,
                ended: Some(Ended::Stopped),
            };
        }
        if round.has_pushed.load(Ordering::SeqCst) {
            return Course { turns, ended: None };
        }
        let ended = receive_one(inbox, worked, terms.limit);
        if ended.is_some() {
            return Course { turns, ended };
        }
        let is_idle = worked.hand.is_none();
        put_one(rt, line, pass, worked);
        if (is_idle || worked.hand.is_some()) && !round.begins() {
            return Course { turns, ended: None };
        }
        thread::yield_now();
    }
    Course {
        turns,
        ended: Some(Ended::Turns),
    }
}

/// Receives messages, up to the limit, and puts them into the line; at most one in each turn, which passes the gate first.
///
/// It ends for good at the limit, after its turns, at want of memory and if it is stopped. It ends its round if the other side has
/// ended, or if it can do nothing while the other side has not begun, as when no thread could be made for that.
pub(crate) fn pull<R: Wait, G: Gate>(
    rt: &R,
    line: &Sender,
    side: &mut Side,
    inbox: &mut Inbox,
    terms: &Terms<'_, G>,
    round: &Round,
)
    requires places { ruled_capacity (sends_on line.now) ≡ LINE_PLACES }
    requires seat { IsSeatAt (sends_on line.now) side.old.pass }
    requires may { (view side.old.pass).puts ≡ true }
    requires within { side.old.worked.count ≤ terms.now.limit }
    ensures seat { IsSeatAt (sends_on line.now) side.new.pass }
    ensures may { (view side.new.pass).puts ≡ true }
    ensures pulled { (start : InboxEnd) → HasPulled start inbox.old (view side.old.pass) side.old.worked → HasPulled start inbox.new (view side.new.pass) side.new.worked }
    ensures within { side.new.worked.count ≤ terms.now.limit }
    ensures limit { side.new.course.ended ≡ Some Limit → side.new.worked.count ≡ terms.now.limit }
{
    let made = side.course.turns;
    side.course = pull_turns(
        rt,
        line,
        &mut side.pass,
        inbox,
        &mut side.worked,
        made,
        terms,
        round,
    );
    if side.course.ended.is_some() {
        round.has_pulled.store(true, Ordering::SeqCst);
    } else {
        round.has_paused.store(true, Ordering::SeqCst);
    }
}

// Takes a message out of the line, if there is one.
fn take_one<R: Wait>(rt: &R, line: &Receiver, pass: &mut Way, worked: &mut Worked)
    requires seat { IsSeatAt (receives_on line.now) pass.old }
    requires may { (view pass.old).takes ≡ true }
    requires empty { worked.old.hand ≡ None }
    ensures seat { IsSeatAt (receives_on line.now) pass.new }
    ensures pushed { (to : Address) (start : ClientEnd) (now : ClientEnd) → HasPushed to start now (view pass.old) worked.old → HasPushed to start now (view pass.new) worked.new }
    ensures count { worked.new.count ≡ worked.old.count }
    ensures may { (view pass.new).takes ≡ true }
{
    worked.hand = take(rt, line, pass);
}

// Submits what is in hand, if there is something. Returns why nothing more is to be submitted, if so.
fn submit_one(client: &mut Client, to: Address, worked: &mut Worked) -> Option<Ended>
    requires few { worked.old.count + 1 < 2 ^ 64 }
    ensures pushed { (start : ClientEnd) (v : Log) → HasPushed to start client.old v worked.old → HasPushed to start client.new v worked.new }
    ensures few { worked.new.count ≤ worked.old.count + 1 }
{
    let Some(delivery) = worked.hand.take() else {
        return None;
    };
    let Delivery {
        from,
        to: here,
        pgn,
        bytes,
    } = delivery;
    match client.submit(to, pgn.raw(), bytes) {
        Ok(_) => {
            worked.count += 1;
            None
        }
        Err(SubmitRefused { refusal, bytes }) => {
            worked.hand = Some(Delivery {
                from,
                to: here,
                pgn,
                bytes,
            });
            match refusal {
                None => Some(Ended::OutOfMemory),
                Some(Refusal::RingFull) => None,
                Some(cause) => Some(Ended::Refused(cause)),
            }
        }
    }
}

// The turns of the side that submits in one round.
fn push_turns<R: Wait, G: Gate>(
    rt: &R,
    line: &Receiver,
    pass: &mut Way,
    client: &mut Client,
    worked: &mut Worked,
    made: u64,
    terms: &Terms<'_, G>,
    round: &Round,
) -> Course
    requires seat { IsSeatAt (receives_on line.now) pass.old }
    requires may { (view pass.old).takes ≡ true }
    requires few { worked.old.count ≤ made }
    ensures seat { IsSeatAt (receives_on line.now) pass.new }
    ensures may { (view pass.new).takes ≡ true }
    ensures pushed { (start : ClientEnd) → HasPushed terms.now.to start client.old (view pass.old) worked.old → HasPushed terms.now.to start client.new (view pass.new) worked.new }
    ensures few { worked.new.count ≤ result.turns }
{
    let mut turns = made;
    for turn in made..terms.turns {
        terms.gate.pass(PUSHES, turn + 1);
        turns = turn + 1;
        if terms.stop.is_stopped() {
            return Course {
                turns,
                ended: Some(Ended::Stopped),
            };
        }
        let is_paused = round.has_paused.load(Ordering::SeqCst);
        let is_last = is_paused || round.has_pulled.load(Ordering::SeqCst);
        if worked.hand.is_none() {
            take_one(rt, line, pass, worked);
        }
        if worked.hand.is_none() && is_last {
            return Course { turns, ended: None };
        }
        let ended = submit_one(client, terms.to, worked);
        if ended.is_some() || (worked.hand.is_some() && is_paused) {
            return Course { turns, ended };
        }
        thread::yield_now();
    }
    Course {
        turns,
        ended: Some(Ended::Turns),
    }
}

/// Takes messages out of the line, and submits them to the station; at most one in each turn, which passes the gate first. If the
/// client's ring is full it tries again.
///
/// It ends for good after its turns, at any other refusal, at want of memory and if it is stopped. It ends its round if the other
/// side has ended and the line is empty, or if it can do nothing while the other side waits for the next round.
pub(crate) fn push<R: Wait, G: Gate>(
    rt: &R,
    line: &Receiver,
    side: &mut Side,
    client: &mut Client,
    terms: &Terms<'_, G>,
    round: &Round,
)
    requires seat { IsSeatAt (receives_on line.now) side.old.pass }
    requires may { (view side.old.pass).takes ≡ true }
    requires few { side.old.worked.count ≤ side.old.course.turns }
    ensures seat { IsSeatAt (receives_on line.now) side.new.pass }
    ensures may { (view side.new.pass).takes ≡ true }
    ensures pushed { (start : ClientEnd) → HasPushed terms.now.to start client.old (view side.old.pass) side.old.worked → HasPushed terms.now.to start client.new (view side.new.pass) side.new.worked }
    ensures few { side.new.worked.count ≤ side.new.course.turns }
{
    round.has_begun.store(true, Ordering::SeqCst);
    let made = side.course.turns;
    side.course = push_turns(
        rt,
        line,
        &mut side.pass,
        client,
        &mut side.worked,
        made,
        terms,
        round,
    );
    round.has_pushed.store(true, Ordering::SeqCst);
}
