//! A lane, and how messages are pushed to it.
ghost use Rattle.std.specs.Prelude.{◌≡◌, ◌≤◌, ◌+◌, ◌||◌, ◌==◌, true, length, slice_get, IfOk, IfSome, OnOk, OnErr, IfErr, IsErr};
ghost use Rattle.std.specs.Option.{option_copied};
ghost use Rattle.pgn_ids.specs.Address.{is_one, global_address};
ghost use Rattle.tp_wire.specs.declared.constants.TheConstants.{ETP_MAX_SIZE};
ghost use Rattle.lane_core.specs.Lane.{lane_limit, new_lane, is_full, pushed, longest_to, with_under_way};
ghost use Rattle.lane_core.specs.LaneFields.{CarriesFront, IsCalm};
ghost use Rattle.lane_core.specs.Refused.{IsHandedBack};
ghost use Rattle.lane_core.specs.declared.place.UnderWay.TheVariants.{Nothing};

use crate::message::Pending;
use crate::place::{Place, UnderWay};
use crate::probe::{Standing, Token};
use crate::refused::PushRefused;
use message_events::Bytes;
use pgn_ids::{Address, Pgn};
use std::alloc::Global;
use std::collections::VecDeque;
use std::marker::Model;
use std::mem;

/// How many messages a lane has without an outcome at most.
const LANE_LIMIT: usize = 32;

/// The messages of one station to one destination, one of which is under way at a time. If a lane is dropped, what is
/// under way ends without a frame or an outcome.
pub struct Lane {
    pub(crate) from: Address,
    pub(crate) to: Address,
    pub(crate) sent: u64,
    pub(crate) pending: VecDeque<Pending>,
    pub(crate) place: Place,
    pub(crate) standing: Standing,
    pub(crate) token: Token,
}

impl Model for Lane {
    ghost use Rattle.lane_core.specs.Lane.{Lane};

    ghost Value = { Lane };

    ghost use Rattle.lane_core.specs.LaneFields.{lane_value, IsLaneInside};

    ghost view = { lane_value };

    ghost invariant = { IsLaneInside };
}

impl Drop for Lane {
    fn drop(self) {
        let Lane {
            from: _,
            to: _,
            sent: _,
            pending: _,
            place: _,
            standing: _,
            token: _,
        } = self;
    }
}

impl Lane {
    /// The lane of a node to another one or to all, with nothing sent. It takes no memory.
    pub fn new(alloc: Global, from: Address, to: Address) -> Lane
        requires source { is_one from.0 ≡ true }
        requires destination { (is_one to.0 || to.0 == global_address) ≡ true }
        ensures { result ≡ new_lane from.0 to.0 }
    {
        Lane {
            from,
            to,
            sent: 0,
            pending: VecDeque::new(alloc),
            place: Place::new(UnderWay::Nothing),
            standing: Standing::Settled,
            token: Token::ConnectionManagement,
        }
    }

    /// The address of its station.
    pub fn from(&self) -> Address
        ensures { result.0 ≡ self.now.from }
    {
        self.from
    }

    /// Its destination: a node, or all.
    pub fn to(&self) -> Address
        ensures value { result.0 ≡ self.now.to }
        ensures node { (is_one self.now.to || self.now.to == global_address) ≡ true }
    {
        self.to
    }

    /// The number of the last message that was pushed, 0 if there was none.
    pub fn sent(&self) -> u64
        ensures { result ≡ self.now.sent }
    {
        self.sent
    }

    /// How many messages have no outcome.
    pub fn pending_len(&self) -> usize
        ensures value { result ≡ length self.now.pending }
        ensures few { length self.now.pending ≤ lane_limit }
    {
        self.pending.len()
    }

    /// A message without an outcome, by its place in their order, from 0.
    pub fn pending(&self, i: usize) -> Option<&Pending>
        ensures value { option_copied result ≡ slice_get self.now.pending i }
        ensures few_bytes { IfSome result (λ m. length m.now.bytes ≤ ETP_MAX_SIZE) }
    {
        self.pending.get(i)
    }

    /// How its front message is under way, if it is.
    pub fn under_way(&self) -> &UnderWay
        ensures { result.now ≡ self.now.under_way }
    {
        self.place.content()
    }

    /// Whether a connection may begin.
    pub fn standing(&self) -> Standing
        ensures { result ≡ self.now.standing }
    {
        self.standing
    }

    /// Whether it takes no further message: it has 32 without an outcome, or no further number.
    pub fn is_full(&self) -> bool
        ensures { result ≡ is_full self.now }
    {
        self.pending.len() >= LANE_LIMIT || self.sent == u64::MAX
    }

    /// Takes a message of at least 9 bytes, to all at most 1,785 and to one node at most 117,440,505, and gives its
    /// number, from 1. A refusal hands the bytes back, and changes nothing.
    #[tactic(auto, using(crate::proofs::Pushing::carried_push, crate::proofs::Pushing::front_push))]
    pub fn push(&mut self, pgn: Pgn, bytes: Bytes) -> Result<u64, PushRefused>
        requires least { 9 ≤ length bytes }
        requires most { length bytes ≤ longest_to self.old.to }
        ensures number { IfOk result (λ n. n ≡ self.old.sent + 1) }
        ensures pushed { OnOk result (self.new ≡ pushed self.old pgn bytes) }
        ensures refused { OnErr result (self.new ≡ self.old) }
        ensures back { IfErr result (IsHandedBack (is_full self.old) bytes) }
        ensures full { is_full self.old ≡ true → IsErr result }
    {
        if self.is_full() {
            return Err(PushRefused::LaneFull(bytes));
        }
        let number = self.sent + 1;
        let message = Pending { number, pgn, bytes };
        match self.pending.push_back(message) {
            Ok(()) => {
                self.sent = number;
                Ok(number)
            }
            Err(failed) => {
                let Pending {
                    number: _,
                    pgn: _,
                    bytes,
                } = failed.value;
                Err(PushRefused::OutOfMemory(bytes))
            }
        }
    }

    /// Takes out what is under way.
    pub(crate) fn take_under_way(&mut self) -> UnderWay
        ensures taken { result ≡ self.old.under_way }
        ensures left { self.new ≡ with_under_way self.old Nothing }
        ensures front { CarriesFront self.new.from self.new.to result self.new.pending }
        ensures calm { IsCalm result self.new.standing }
    {
        mem::replace(&mut self.place, Place::new(UnderWay::Nothing)).into_content()
    }

    /// Puts in what is under way now.
    pub(crate) fn put_under_way(&mut self, under_way: UnderWay)
        requires front { CarriesFront self.old.from self.old.to under_way self.old.pending }
        requires calm { IsCalm under_way self.old.standing }
        ensures { self.new ≡ with_under_way self.old under_way }
    {
        self.place = Place::new(under_way);
    }
}
