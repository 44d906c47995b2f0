//! Clients and ports that have news, and an inbox with one place.
use super::played::*;
use super::steps::*;
use segment_shared::{Inbox, Live, MOST_PLACES, News, Places};
use std::alloc::Global;
use std::process::Abort;
use tp_wire::Outcome;

// A port of 35, whose inbox has one place.
fn narrow_port(rt: &impl Abort, live: &mut Live) -> Inbox {
    let one = got(rt, Places::new(1).ok_or("no place"));
    got(rt, live.open_port_with(R, feca(rt), 9, one))
}

// Of two messages the second finds no place. The client and the port are named once each.
const NAMED: [Step; 17] = [
    Step::Named(None),
    Step::Submit(R),
    Step::Submit(R),
    Step::GoOn,
    Step::GoOn,
    Step::Named(Some(News::Client(0))),
    Step::Named(Some(News::Port(PORT))),
    Step::Named(None),
    Step::TurnedAway(1),
    Step::Note(1, Outcome::Acknowledged),
    Step::Note(2, Outcome::Aborted(2)),
    Step::Receive(true),
    Step::Submit(R),
    Step::GoOn,
    Step::Named(Some(News::Client(0))),
    Step::Named(Some(News::Port(PORT))),
    Step::Named(None),
];

fn news_of(rt: &impl Abort, alloc: Global, live: &mut Live) {
    let mut inbox = narrow_port(rt, live);
    let mut sender = client(rt, live, A);
    play(rt, alloc, live, &mut inbox, &mut sender, &[(1, &NAMED)]);
    drop(inbox);
    drop(sender);
}

#[test]
fn each_that_has_news_is_named_once(rt: HostRuntime) {
    let mut live = three(&rt, rt.alloc());
    news_of(&rt, rt.alloc(), &mut live);
    drop(live);
}

#[test]
fn an_inbox_has_a_place_and_not_too_many(rt: HostRuntime) {
    holds(&rt, Places::new(0).is_none());
    holds(&rt, Places::new(MOST_PLACES + 1).is_none());
    let most = got(&rt, Places::new(MOST_PLACES).ok_or("too many"));
    same(&rt, most.count(), MOST_PLACES);
    same(&rt, Places::usual().count(), 64);
}
