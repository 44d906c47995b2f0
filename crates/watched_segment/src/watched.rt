//! A segment, with a tick for each address: what is known of its station up to there.
use pgn_ids::Address;
use port_table::PortSet;
use segment_core::{Call, Events, Image, Made, Passing, Refusal, Reply, Segment, Tried};
use station_core::MOST_PUMPED;
use std::alloc::{AllocError, Global};
use std::marker::Model;
use tx_queue::MAX_FRAMES;

/// How many values an address has.
const ADDRESSES: usize = 256;

/// A segment, which remembers when each of its stations has something to do. Contracts see the segment alone.
pub struct Watched {
    segment: Segment,
    // By address: before this tick no timer of its station is due, and no lane of it has a frame to queue.
    calm: Vec<u64>,
}

impl Model for Watched {
    ghost use Rattle.segment_law.specs.Segment.{Segment};
    ghost use Rattle.segment_state.specs.SegmentCode.{segment_code};
    ghost use Rattle.watched_segment.specs.Calm.{AreCalm};

    ghost Value = { Segment };

    ghost coded = { segment_code };

    ghost view = { λ w. w.segment };

    ghost invariant = { λ w. AreCalm w.calm.items w.segment };
}

impl Drop for Watched {
    fn drop(self) {
        let Watched {
            segment: _,
            calm: _,
        } = self;
    }
}

ghost use Rattle.std.specs.Prelude.{◌≡◌, ℕ, slice_set};
ghost use Rattle.segment_law.specs.Segment.{station_at};
ghost use Rattle.watched_segment.specs.Calm.{lacks_places, known_after};

// Notes a tick for an address.
#[inline(always)]
fn note(calm: &mut Vec<u64>, station: Address, tick: u64)
    ensures { calm.new.items ≡ slice_set calm.old.items station.0 tick }
{
    if let Some(known) = calm.get_mut(station.0 as usize) {
        *known = tick;
    }
}

// Whether a station's queue has fewer free places than a Pump wants.
#[inline(always)]
fn lacks_places(segment: &Segment, station: Address) -> bool
    ensures { result ≡ lacks_places (station_at segment.now station).queue }
{
    MAX_FRAMES - segment.queue_len(station) < MOST_PUMPED
}

// Forgets what is known of the station that a call names. A frame that leaves its queue may give a Pump its places, and changes nothing else.
#[inline(always)]
fn forget_by(calm: &mut Vec<u64>, segment: &Segment, call: &Call)
    ensures { calm.new.items ≡ known_after segment.now call.now calm.old.items }
{
    match call {
        Call::Open { station, .. } => note(calm, *station, 0),
        Call::Close { port } => note(calm, port.station, 0),
        Call::Send { from, .. } => note(calm, *from, 0),
        Call::Pump { station, .. } => note(calm, *station, 0),
        Call::Transmit { station } => {
            if lacks_places(segment, *station) {
                note(calm, *station, 0);
            }
        }
        Call::Take { station, .. } => note(calm, *station, 0),
        Call::TakeAgain { station, .. } => note(calm, *station, 0),
        Call::Overrun { station, .. } => note(calm, *station, 0),
        Call::Tick { n: _ } => {}
        Call::Fire { station } => note(calm, *station, 0),
        Call::Cancel { from, .. } => note(calm, *from, 0),
        Call::Inject { frame: _ } => {}
        Call::Pause { port } => note(calm, port.station, 0),
        Call::Resume { port } => note(calm, port.station, 0),
    }
}

impl Watched {
    ghost use Rattle.std.specs.Prelude.{◌≡◌, ℕ, ◌∷◌, ◌++◌, [], true, false, List, length, IfOk, OnErr, OnSome, IfSome, IfNone, IsOk};
    ghost use Rattle.pgn_ids.specs.declared.address.Address.{Address as AddressValue};
    ghost use Rattle.segment_law.specs.Calls.{called, applied};
    ghost use Rattle.segment_law.specs.Readers.{wanted};
    ghost use Rattle.segment_law.specs.Record.{Record, StandsAt};
    ghost use Rattle.segment_law.specs.declared.call.Call.TheVariants.{Open, Send, Take};
    ghost use Rattle.segment_state.specs.Answers.{made_as, refusal_of, reply_with};
    ghost use Rattle.segment_state.specs.Next.{is_active};
    ghost use Rattle.segment_state.specs.Passing.{passing_at, IsPassing};

    /// A segment of whose stations nothing is known yet. It takes memory for a tick for each address.
    pub fn new(alloc: Global, segment: Segment) -> Result<Watched, AllocError>
        ensures { IfOk result (λ w. w ≡ segment) }
    {
        let calm = vec![in alloc; 0u64; ADDRESSES]?;
        Ok(Watched { segment, calm })
    }

    /// The segment.
    #[inline(always)]
    pub fn get(&self) -> &Segment
        ensures { result.now ≡ self.now }
    {
        &self.segment
    }

    /// `Segment::image`.
    pub fn image(&self) -> Result<Image, AllocError>
        ensures { IfOk result (λ image. image ≡ self.now) }
    {
        self.segment.image()
    }

    /// `Segment::refusal`.
    pub fn refusal(&self, call: &Call) -> Option<Refusal>
        ensures { result ≡ refusal_of (called self.now call.now) }
    {
        self.segment.refusal(call)
    }

    /// `Segment::send_refusal`.
    pub fn send_refusal(&self, from: Address, to: Address, len: usize) -> Option<Refusal>
        ensures { (pgn : ℕ) (bytes : List ℕ) → length bytes ≡ len → result ≡ refusal_of (called self.now (Send from to pgn bytes)) }
    {
        self.segment.send_refusal(from, to, len)
    }

    /// `Segment::open_refusal`.
    pub fn open_refusal(&self, station: Address) -> Option<Refusal>
        ensures { (pgn max_len : ℕ) → result ≡ refusal_of (called self.now (Open station pgn max_len)) }
    {
        self.segment.open_refusal(station)
    }

    /// `Segment::wants`.
    pub fn wants(&self, station: Address, again: bool) -> (PortSet, u32)
        ensures { result ≡ wanted self.now station again }
    {
        self.segment.wants(station, again)
    }

    /// Whether a timer of a station is due or one of its lanes has a frame to queue. As a rule this is one comparison.
    #[inline(always)]
    pub fn is_active(&mut self, station: Address) -> bool
        ensures same { self.new ≡ self.old }
        ensures value { result ≡ is_active self.old station }
    {
        let now = self.segment.now();
        if let Some(tick) = self.calm.get(station.0 as usize) {
            if now < *tick {
                return false;
            }
        }
        self.look(station)
    }

    // `is_active`, for a station of which nothing is known. The tick from which on it is active is noted.
    #[inline(never)]
    fn look(&mut self, station: Address) -> bool
        ensures same { self.new ≡ self.old }
        ensures value { result ≡ is_active self.old station }
    {
        let now = self.segment.now();
        let Some(tick) = self.segment.active_from(station) else {
            note(&mut self.calm, station, u64::MAX);
            return false;
        };
        note(&mut self.calm, station, tick);
        tick <= now
    }

    /// `Segment::apply`.
    #[inline(always)]
    pub fn apply(&mut self, call: Call) -> Result<Reply, AllocError>
        ensures ok { IfOk result (λ reply. applied self.old call ≡ (self.new, reply)) }
        ensures err { OnErr result (self.new ≡ self.old) }
        ensures not_refused { OnErr result (IsOk (called self.old call)) }
        ensures stands { (addresses : List AddressValue) (steps : Record) → StandsAt addresses steps self.old → IfOk result (λ reply. StandsAt addresses (steps ++ (call, reply) ∷ []) self.new) }
    {
        forget_by(&mut self.calm, &self.segment, &call);
        self.segment.apply(call)
    }

    /// `Segment::apply_apart`.
    #[inline(always)]
    pub fn apply_apart(&mut self, call: Call, told: &mut Events) -> Result<Made, AllocError>
        requires { told.old ≡ [] }
        ensures ok { IfOk result (λ made. applied self.old call ≡ (self.new, reply_with made told.new)) }
        ensures err { OnErr result (self.new ≡ self.old) }
        ensures not_refused { OnErr result (IsOk (called self.old call)) }
        ensures stands { (addresses : List AddressValue) (steps : Record) → StandsAt addresses steps self.old → IfOk result (λ made. StandsAt addresses (steps ++ (call, reply_with made told.new) ∷ []) self.new) }
    {
        forget_by(&mut self.calm, &self.segment, &call);
        self.segment.apply_apart(call, told)
    }

    /// `Segment::take_unless_whole`.
    #[inline(always)]
    pub fn take_unless_whole(
        &mut self,
        station: Address,
        told: &mut Events,
    ) -> Result<Tried, AllocError>
        requires { told.old ≡ [] }
        ensures ok { IfOk result (λ tried. IfSome (made_as tried) (λ made. applied self.old (Take station true) ≡ (self.new, reply_with made told.new))) }
        ensures none { IfOk result (λ tried. OnSome (made_as tried) ((wanted self.old station false).0 ≡ [])) }
        ensures whole { IfOk result (λ tried. IfNone (made_as tried) (self.new ≡ self.old)) }
        ensures untold { IfOk result (λ tried. IfNone (made_as tried) (told.new ≡ [])) }
        ensures err { OnErr result (self.new ≡ self.old) }
        ensures stands { (addresses : List AddressValue) (steps : Record) → StandsAt addresses steps self.old → IfOk result (λ tried. IfSome (made_as tried) (λ made. StandsAt addresses (steps ++ (Take station true, reply_with made told.new) ∷ []) self.new)) }
    {
        note(&mut self.calm, station, 0);
        self.segment.take_unless_whole(station, told)
    }

    /// `Segment::pass_by`, which changes no station.
    #[inline(always)]
    pub fn pass_by(&mut self, station: Address) -> Passing
        ensures value { result ≡ passing_at self.old station }
        ensures made { IsPassing self.old station self.new result }
    {
        self.segment.pass_by(station)
    }
}
