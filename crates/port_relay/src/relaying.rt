//! One relay.
ghost use Rattle.std.specs.Prelude.{◌≡◌, ◌+◌, ◌≤◌, true, false, List, [], ◌++◌, length, Some, None, IfOk, OnErr, vec_capacity};
ghost use Rattle.crossbeam_channel.specs.Claims.{view, IsSeatAt};
ghost use Rattle.crossbeam_channel.specs.Ends.{sends_on, receives_on, ruled_capacity};
ghost use Rattle.segment_rings.specs.Ends.{ClientEnd, InboxEnd};
ghost use Rattle.segment_rings.specs.declared.words.Delivery.{Delivery};
ghost use Rattle.port_relay.specs.declared.stopping.Ended.TheVariants.{Limit};
ghost use Rattle.port_relay.specs.declared.line.TheConstants.{LINE_PLACES};
ghost use Rattle.port_relay.specs.Line.{log, in_hand};
ghost use Rattle.port_relay.specs.Working.{HasPulled, HasPushed};
ghost use Rattle.port_relay.specs.Relaying.{IsRelayed};

use crate::line::{LINE_PLACES, Receiver, Sender, Way, drain, open, rejoin};
use crate::route::Route;
use crate::stopping::{Ended, Stop};
use crate::working::{Round, Side, Terms, pull, push};
use segment_shared::{Client, Delivery, Gate, Inbox};
use std::alloc::{AllocError, Global};
use std::sync::Wait;
use std::thread::{Threads, join_mut};

/// What a relay did: how many messages it received, how many of them it submitted, the others as they were received, and why the
/// receiving ended, and the submitting.
#[derive(Debug, Drop)]
pub struct Relayed {
    pub pulled: u64,
    pub pushed: u64,
    pub left: Vec<Delivery>,
    pub pulling: Ended,
    pub pushing: Ended,
}

// What each of the workers holds, and between them what the line holds, in the order in which it was received.
fn gather<R: Wait>(
    rt: &R,
    line: &Receiver,
    pass: &mut Way,
    first: Option<Delivery>,
    last: Option<Delivery>,
    room: Vec<Delivery>,
) -> Vec<Delivery>
    requires seat { IsSeatAt (receives_on line.now) pass.old }
    requires both { view pass.old ≡ log true true (view pass.old).put (view pass.old).taken }
    requires few { length (view pass.old).put ≤ length (view pass.old).taken + LINE_PLACES }
    requires empty { room.items ≡ [] }
    requires room { LINE_PLACES + 2 ≤ vec_capacity room }
    ensures { (front : List Delivery) → front ++ in_hand first ≡ (view pass.old).taken → front ++ result.items ≡ (view pass.old).put ++ in_hand last }
{
    let mut left = room;
    if let Some(delivery) = first {
        left.push_reserved(delivery);
    }
    drain(rt, line, pass, &mut left);
    if let Some(delivery) = last {
        left.push_reserved(delivery);
    }
    left
}

// What both sides have done, once they have ended.
fn settle<R: Wait>(
    rt: &R,
    sender: &Sender,
    receiver: &Receiver,
    puller: Side,
    pusher: Side,
    room: Vec<Delivery>,
) -> Relayed
    requires line { receives_on receiver.now ≡ sends_on sender.now }
    requires seats { IsSeatAt (sends_on sender.now) puller.pass × IsSeatAt (sends_on sender.now) pusher.pass }
    requires may { ((view puller.pass).puts ≡ true) × ((view pusher.pass).takes ≡ true) }
    requires empty { room.items ≡ [] }
    requires room { LINE_PLACES + 2 ≤ vec_capacity room }
    ensures left { (front : List Delivery) → front ++ in_hand pusher.worked.hand ≡ (view pusher.pass).taken → front ++ result.left.items ≡ (view puller.pass).put ++ in_hand puller.worked.hand }
    ensures pulled { result.pulled ≡ puller.worked.count }
    ensures pushed { result.pushed ≡ pusher.worked.count }
    ensures limit { result.pulling ≡ Limit → puller.course.ended ≡ Some Limit }
{
    let Side {
        pass,
        worked: received,
        course: pulling,
    } = puller;
    let Side {
        pass: reader,
        worked: submitted,
        course: pushing,
    } = pusher;
    let mut writer = pass;
    rejoin(sender, &mut writer, reader);
    let left = gather(
        rt,
        receiver,
        &mut writer,
        submitted.hand,
        received.hand,
        room,
    );
    Relayed {
        pulled: received.count,
        pushed: submitted.count,
        left,
        pulling: pulling.reason(),
        pushing: pushing.reason(),
    }
}

// One round: both sides at once, or one after the other if no thread can be made for the one that submits.
fn run_round<R: Threads + Wait + Sync, G: Gate + Sync>(
    rt: &R,
    sender: &Sender,
    receiver: &Receiver,
    inbox: &mut Inbox,
    client: &mut Client,
    puller: &mut Side,
    pusher: &mut Side,
    terms: &Terms<'_, G>,
)
    requires line { (receives_on receiver.now ≡ sends_on sender.now) × (ruled_capacity (sends_on sender.now) ≡ LINE_PLACES) }
    requires seats { IsSeatAt (sends_on sender.now) puller.old.pass × IsSeatAt (sends_on sender.now) pusher.old.pass }
    requires may { ((view puller.old.pass).puts ≡ true) × ((view pusher.old.pass).takes ≡ true) }
    requires within { puller.old.worked.count ≤ terms.now.limit }
    requires few { pusher.old.worked.count ≤ pusher.old.course.turns }
    ensures seats { IsSeatAt (sends_on sender.now) puller.new.pass × IsSeatAt (sends_on sender.now) pusher.new.pass }
    ensures may { ((view puller.new.pass).puts ≡ true) × ((view pusher.new.pass).takes ≡ true) }
    ensures within { puller.new.worked.count ≤ terms.now.limit }
    ensures few { pusher.new.worked.count ≤ pusher.new.course.turns }
    ensures pulled { (start : InboxEnd) → HasPulled start inbox.old (view puller.old.pass) puller.old.worked → HasPulled start inbox.new (view puller.new.pass) puller.new.worked }
    ensures pushed { (start : ClientEnd) → HasPushed terms.now.to start client.old (view pusher.old.pass) pusher.old.worked → HasPushed terms.now.to start client.new (view pusher.new.pass) pusher.new.worked }
    ensures limit { puller.new.course.ended ≡ Some Limit → puller.new.worked.count ≡ terms.now.limit }
{
    let round = Round::new();
    join_mut(
        rt,
        &mut || push(rt, receiver, pusher, client, terms, &round),
        &mut || pull(rt, sender, puller, inbox, terms, &round),
    );
}

// Rounds until a side has ended: more than one only if no thread can be made, or if one begins late.
fn run_rounds<R: Threads + Wait + Sync, G: Gate + Sync>(
    rt: &R,
    sender: &Sender,
    receiver: &Receiver,
    inbox: &mut Inbox,
    client: &mut Client,
    puller: &mut Side,
    pusher: &mut Side,
    terms: &Terms<'_, G>,
)
    requires line { (receives_on receiver.now ≡ sends_on sender.now) × (ruled_capacity (sends_on sender.now) ≡ LINE_PLACES) }
    requires seats { IsSeatAt (sends_on sender.now) puller.old.pass × IsSeatAt (sends_on sender.now) pusher.old.pass }
    requires puller { (view puller.old.pass ≡ log true false [] []) × (puller.old.worked.count ≡ 0) × (puller.old.worked.hand ≡ None) × (puller.old.course.ended ≡ None) }
    requires pusher { (view pusher.old.pass ≡ log false true [] []) × (pusher.old.worked.count ≡ 0) × (pusher.old.worked.hand ≡ None) }
    ensures seats { IsSeatAt (sends_on sender.now) puller.new.pass × IsSeatAt (sends_on sender.now) pusher.new.pass }
    ensures may { ((view puller.new.pass).puts ≡ true) × ((view pusher.new.pass).takes ≡ true) }
    ensures pulled { HasPulled inbox.old inbox.new (view puller.new.pass) puller.new.worked }
    ensures pushed { HasPushed terms.now.to client.old client.new (view pusher.new.pass) pusher.new.worked }
    ensures within { puller.new.worked.count ≤ terms.now.limit }
    ensures limit { puller.new.course.ended ≡ Some Limit → puller.new.worked.count ≡ terms.now.limit }
{
    for _ in 0..u64::MAX {
        run_round(rt, sender, receiver, inbox, client, puller, pusher, terms);
        if puller.course.ended.is_some() || pusher.course.ended.is_some() {
            break;
        }
    }
}

/// Receives at most so many messages from an inbox, and has a client of another segment submit them to a station, with their PGN
/// and bytes. Two sides do so on two threads, 0 receiving and 1 submitting, each with at most so many turns; each turn passes the
/// gate first. If no second thread can be made, the sides take turns on one.
///
/// What the inbox received meanwhile is what the client submitted, and then what is left. If the client's ring is full, the
/// submission is tried again. Any other refusal, and want of memory, ends the submitting; want of memory in receiving ends the
/// receiving. The receiving also ends once the submitting has ended, and the submitting once the receiving has ended and all else
/// is submitted; the result says why each of them did. The call fails for want of memory only before the first message is
/// received, and then nothing has changed.
pub fn relay<R: Threads + Wait + Sync, G: Gate + Sync>(
    rt: &R,
    alloc: Global,
    inbox: &mut Inbox,
    client: &mut Client,
    route: Route,
    limit: u64,
    turns: u64,
    gate: &G,
) -> Result<Relayed, AllocError>
    ensures relayed { IfOk result (λ r. IsRelayed route limit inbox.old inbox.new client.old client.new r) }
    ensures err { OnErr result ((inbox.new ≡ inbox.old) × (client.new ≡ client.old)) }
{
    let never = Stop::new();
    relay_until(rt, alloc, inbox, client, route, limit, turns, gate, &never)
}

/// `relay`, until `stop` is set: each side looks at it at each of its turns, behind the gate, and ends if it is set. What was
/// received and isn't submitted is left.
pub fn relay_until<R: Threads + Wait + Sync, G: Gate + Sync>(
    rt: &R,
    alloc: Global,
    inbox: &mut Inbox,
    client: &mut Client,
    route: Route,
    limit: u64,
    turns: u64,
    gate: &G,
    stop: &Stop,
) -> Result<Relayed, AllocError>
    ensures relayed { IfOk result (λ r. IsRelayed route limit inbox.old inbox.new client.old client.new r) }
    ensures err { OnErr result ((inbox.new ≡ inbox.old) × (client.new ≡ client.old)) }
{
    let room = Vec::with_capacity(alloc, LINE_PLACES + 2)?;
    let (sender, receiver, writer, reader) = open(alloc)?;
    let terms = Terms {
        limit,
        to: route.to(),
        turns,
        gate,
        stop,
    };
    let mut puller = Side::new(writer);
    let mut pusher = Side::new(reader);
    run_rounds(
        rt,
        &sender,
        &receiver,
        inbox,
        client,
        &mut puller,
        &mut pusher,
        &terms,
    );
    Ok(settle(rt, &sender, &receiver, puller, pusher, room))
}
