//! A segment with its stored calls and the far ends of all rings.
ghost use Rattle.std.specs.Prelude.{◌≡◌, ◌≤◌, map, true};
ghost use Rattle.live_segment.specs.LiveView.{is_station_of, clients_at, client_of};

use crate::refused::{Accepted, NotMade};
use live_calls::{
    Found, Image, NewRefused, Ready, Segment, Watched, WorkerCall, find_ready, make, make_found,
    refusal_for, the_headline_holds,
};
use live_ends::{Doors, Seats, tell};
use live_record::{Calls, Owed};
use message_events::Events;
use pgn_ids::{Address, Pgn};
use segment_law::{Call, Counts, Refusal, Reply};
use segment_rings::{Client, Doorway, Inbox, Places, Seat};
use segment_state::Made;
use std::alloc::{AllocError, Global};
use std::marker::Model;
use stored_calls::{Stored, StoredCalls};

/// How many clients a station has at most.
pub const MOST_CLIENTS: usize = 16;

/// How many words precede what is under a lock: two lines of a processor's cache, which may be fetched as one.
const WORDS_BEFORE: usize = 16;

/// A segment, the calls that were made on it, and the far ends of its clients' and ports' rings.
///
/// Contracts see all calls that were made; in memory are those since the last cut.
pub struct Live {
    // The word of the lock lies before these. A thread that tries the lock so doesn't take away from its holder what that works on.
    before: [u64; WORDS_BEFORE],
    pub(crate) alloc: Global,
    pub(crate) addresses: Vec<Address>,
    pub(crate) segment: Watched,
    pub(crate) calls: Calls,
    pub(crate) owed: Vec<Owed>,
    pub(crate) seats: Seats,
    pub(crate) doors: Doors,
    // The segment as it stood at the last cut.
    pub(crate) image: Option<Image>,
    pub(crate) stopped: bool,
}

impl Model for Live {
    ghost use Rattle.live_segment.specs.LiveView.{LiveView, live_view, keep};
    ghost use Rattle.live_segment.specs.Facts.{Holds, IsCut};

    ghost Value = { LiveView };

    ghost view = { λ s. live_view (keep s.stopped s.calls.pieces) s.addresses.items s.calls.items s.seats.items s.doors.items };

    ghost invariant = { λ s. Holds s.addresses.items s.segment s.calls.items s.owed.items s.seats.items s.doors.items × IsCut s.addresses.items s.calls.pieces s.image s.seats.items s.doors.items };
}

impl Drop for Live {
    fn drop(self) {
        let Live {
            before: _,
            alloc: _,
            addresses: _,
            segment: _,
            calls: _,
            owed: _,
            seats: _,
            doors: _,
            image: _,
            stopped: _,
        } = self;
    }
}

impl Live {
    ghost use Rattle.std.specs.Prelude.{◌≡◌, ◌≤◌, ◌<◌, [], Bool, false, IfOk, OnErr, IfErr, Ok, IsFalse};
    ghost use Rattle.segment_state.specs.Answers.{reply_with};
    ghost use Rattle.segment_state.specs.declared.made.Made.TheVariants as made;
    ghost use Rattle.segment_law.specs.Headline.{Headline};
    ghost use Rattle.segment_state.specs.Next.{is_active};
    ghost use Rattle.segment_law.specs.Record.{StandsAt};
    ghost use Rattle.segment_law.specs.declared.reply.Reply.TheVariants.{Refused};
    ghost use Rattle.segment_law.specs.declared.refusal.Refusal.TheVariants.{TraceFull};
    ghost use Rattle.live_record.specs.declared.calls.TheConstants.{MOST_CALLS};
    ghost use Rattle.live_record.specs.Record.{trail};
    ghost use Rattle.live_segment.specs.LiveView.{live_view, keep, stored_calls, since_cut, halted, SameLive, Applied, LacksMemory, Attached, Laws, OpenedFor, OpenedWith, IsOpenCause};
    ghost use Rattle.live_segment.specs.Offers.{AcceptedAs, LacksMemoryFor, IsAtRest};
    ghost use Rattle.live_record.specs.TurnedAway.{count_turned_away};
    ghost use Rattle.live_segment.specs.Refusals.{IsAnsweredBy, making_refusal, attaching_refusal};
    ghost use Rattle.std.specs.Result.{result_err};

    /// A new segment with stations of these addresses, no clients and no ports.
    ///
    /// Refused as `BadAddresses` exactly if there is no address, one twice, one above 253 or more than 32, and else as `OutOfMemory` if
    /// memory is refused.
    pub fn new(alloc: Global, addresses: &[Address]) -> Result<Live, NotMade>
        ensures ok { IfOk result (λ live. live ≡ live_view (keep false []) addresses.now [] [] []) }
        ensures refused { IsAnsweredBy (making_refusal addresses.now) (result_err result) }
    {
        let segment = match Segment::new(alloc, addresses) {
            Ok(segment) => segment,
            Err(NewRefused::BadAddresses) => return Err(NotMade::Refused(Refusal::BadAddresses)),
            Err(NewRefused::OutOfMemory) => return Err(NotMade::OutOfMemory),
        };
        let Ok(addresses) = Vec::from_slice(alloc, addresses) else {
            return Err(NotMade::OutOfMemory);
        };
        let segment = Watched::new(alloc, segment)?;
        let calls = Calls::new(alloc)?;
        let seats = Seats::new(alloc)?;
        Ok(Live {
            before: [0; WORDS_BEFORE],
            alloc,
            addresses,
            segment,
            calls,
            owed: Vec::new(alloc),
            seats,
            doors: Doors::new(alloc),
            image: None,
            stopped: false,
        })
    }

    /// The segment, which is at the record of the stored calls.
    pub fn segment(&self) -> &Segment
        ensures value { result.now ≡ (trail self.now.addresses self.now.calls).state }
        ensures stands { StandsAt self.now.addresses (trail self.now.addresses self.now.calls).steps result.now }
    {
        self.segment.get()
    }

    /// What the segment counted.
    pub fn counts(&self) -> Counts
        ensures { result ≡ (trail self.now.addresses self.now.calls).state.counts }
    {
        self.segment.get().counts()
    }

    /// How many messages were turned away, since the ring of an inbox had no place for them, or its port was closed: so often was a call
    /// that gives made without room.
    pub fn turned_away(&self) -> u64
        ensures { result ≡ count_turned_away self.now.calls }
    {
        self.calls.turned_away()
    }

    /// What went through the rings is what the stored calls say. Each stored Send has a client of the station that it is from, and any
    /// other call has no owner. The headline holds of their record: each port was given the messages of one station to one destination
    /// at most once, in order, byte for byte, and what was acknowledged was given.
    pub fn laws(&self)
        ensures laws { Laws self.now }
        ensures headline { Headline self.now.addresses (trail self.now.addresses self.now.calls).steps }
    {
        // Laws, for the clauses: the calls do nothing.
        the_headline_holds();
        self.calls.laws();
        let _segment = &self.segment;
    }

    /// The addresses of the stations, in the order in which they were given.
    pub fn addresses(&self) -> &[Address]
        ensures { result.now ≡ self.now.addresses }
    {
        self.addresses.as_slice()
    }

    /// Whether an address is that of a station.
    pub fn has_station(&self, address: Address) -> bool
        ensures { result ≡ is_station_of self.now.addresses address }
    {
        is_station(self.addresses.as_slice(), address)
    }

    /// The calls that are stored since the last cut.
    pub fn calls(&self) -> &StoredCalls
        ensures { result.now.items ≡ since_cut self.now }
    {
        self.calls.stored()
    }

    /// Makes a call, and gives and notes its events. `room` is false only if a ring that the call needs has no place that is known to be
    /// free, or is that of a closed port: such a port is given nothing.
    ///
    /// Refused if no more calls can be stored, and then if the segment refuses the call. Want of memory is returned only for a call that
    /// isn't refused. A refused call and want of memory change nothing.
    // Its caller says which call it is, and only what that call does is left then.
    #[inline(always)]
    pub fn apply(&mut self, call: WorkerCall) -> Result<Reply, AllocError>
        ensures full { MOST_CALLS ≤ stored_calls self.old → (result ≡ Ok (Refused TraceFull)) × (self.new ≡ self.old) }
        ensures applied { stored_calls self.old < MOST_CALLS → IfOk result (λ r. (room : Bool) × Applied self.old self.new call r room) }
        ensures err { OnErr result (SameLive self.old self.new) }
        ensures not_refused { OnErr result (LacksMemory self.old call) }
    {
        let mut told = Events::none(self.alloc);
        match self.apply_telling(call, &mut told) {
            Ok(Made::Done) => Ok(Reply::Done(told)),
            Ok(Made::Refused(refusal)) => Ok(Reply::Refused(refusal)),
            Ok(Made::Opened(port)) => Ok(Reply::Opened(port)),
            Ok(Made::Sent(number)) => Ok(Reply::Sent(number)),
            Err(error) => Err(error),
        }
    }

    // `apply`, which puts its events into a place that has none yet.
    #[inline(always)]
    pub(crate) fn apply_telling(
        &mut self,
        call: WorkerCall,
        told: &mut Events,
    ) -> Result<Made, AllocError>
        requires { told.old ≡ [] }
        ensures full { MOST_CALLS ≤ stored_calls self.old → (result ≡ Ok (made.Refused TraceFull)) × (self.new ≡ self.old) }
        ensures applied { stored_calls self.old < MOST_CALLS → IfOk result (λ m. (room : Bool) × Applied self.old self.new call (reply_with m told.new) room) }
        ensures err { OnErr result (SameLive self.old self.new) }
        ensures not_refused { OnErr result (LacksMemory self.old call) }
    {
        if self.calls.is_full() {
            return Ok(Made::Refused(Refusal::TraceFull));
        }
        self.make(call, told)
    }

    // `apply_telling`, if one more call can be stored. Room for all that follows it is found first. Inlined, since a turn names the
    // call that it makes: only what that call does is left then.
    #[inline(always)]
    fn make(&mut self, call: WorkerCall, told: &mut Events) -> Result<Made, AllocError>
        requires few { stored_calls self.old < MOST_CALLS }
        requires silent { told.old ≡ [] }
        ensures applied { IfOk result (λ m. (room : Bool) × Applied self.old self.new call (reply_with m told.new) room) }
        ensures err { OnErr result (SameLive self.old self.new) }
        ensures not_refused { OnErr result (LacksMemory self.old call) }
    {
        let Ok(found) = make_found(
            self.alloc,
            &mut self.segment,
            &mut self.calls,
            &mut self.doors,
            &call,
            told,
        ) else {
            if let Some(refusal) = refusal_for(&self.segment, call) {
                return Ok(Made::Refused(refusal));
            }
            return Err(AllocError);
        };
        let Found {
            room,
            buffers,
            made,
        } = found;
        match made {
            Made::Done => {
                tell(
                    &mut self.doors,
                    &mut self.owed,
                    &mut self.seats,
                    buffers,
                    told,
                );
                self.calls.push_reserved(Stored {
                    by: None,
                    call: call.with_room(room),
                });
                Ok(Made::Done)
            }
            Made::Refused(refusal) => Ok(Made::Refused(refusal)),
            Made::Opened(_) => unreachable!(),
            Made::Sent(_) => unreachable!(),
        }
    }

    /// Accepts the front submission of a client: its message is sent, and the Send is stored with the client's number.
    ///
    /// It returns the first that holds: `Empty` if none is seen or no client has the number; `Owed`; and `Refused` if no more calls can
    /// be stored or else if the segment refuses the Send. Want of memory is returned only if none of them holds. These and want of
    /// memory change nothing.
    pub fn accept(&mut self, client: u64) -> Result<Accepted, AllocError>
        ensures accepted { IfOk result (λ r. AcceptedAs self.old self.new client r) }
        ensures err { OnErr result (SameLive self.old self.new) }
        ensures not_refused { OnErr result (LacksMemoryFor self.old self.new client) }
    {
        if client >= self.seats.len() as u64 {
            return Ok(Accepted::Empty);
        }
        let k = client as usize;
        match find_ready(
            self.alloc,
            &self.segment,
            &mut self.calls,
            &mut self.owed,
            &mut self.seats,
            k,
        )? {
            Ready::Empty => Ok(Accepted::Empty),
            Ready::Owed => Ok(Accepted::Owed),
            Ready::Full => Ok(Accepted::Refused(Refusal::TraceFull)),
            Ready::NotSent(refusal) => Ok(Accepted::Refused(refusal)),
            Ready::Send(call) => match make(&mut self.segment, call)? {
                Reply::Sent(number) => {
                    self.seats.store(&mut self.calls, &mut self.owed, k, number);
                    Ok(Accepted::Sent(number))
                }
                Reply::Refused(refusal) => Ok(Accepted::Refused(refusal)),
                Reply::Opened(_) => unreachable!(),
                Reply::Done(_) => unreachable!(),
            },
        }
    }

    /// Why a station gets no client, except for want of memory.
    pub fn attach_refusal(&self, station: Address) -> Option<Refusal>
        ensures { result ≡ attaching_refusal self.now station }
    {
        if !is_station(self.addresses.as_slice(), station) {
            return Some(Refusal::NoSuchStation);
        }
        if clients_of(self.seats.as_slice(), station) >= MOST_CLIENTS {
            return Some(Refusal::ClientsFull);
        }
        None
    }

    /// A new client of a station, with empty lists.
    ///
    /// Refused as `NoSuchStation` exactly if no station has the address, else as `ClientsFull` if it has 16 clients that aren't gone, and
    /// else as `OutOfMemory` if memory is refused. These change nothing.
    pub fn attach(&mut self, station: Address) -> Result<Client, NotMade>
        ensures attached { IfOk result (λ c. Attached self.old self.new station c) }
        ensures refused { IsAnsweredBy (attaching_refusal self.old station) (result_err result) }
        ensures err { OnErr result (self.new ≡ self.old) }
    {
        if let Some(refusal) = self.attach_refusal(station) {
            return Err(NotMade::Refused(refusal));
        }
        let id = self.seats.len() as u64;
        self.seats.reserve()?;
        let bell = self.seats.bell(self.alloc, station)?;
        let (seat, client) = Seat::new(self.alloc, id, station, bell)?;
        self.seats.push_reserved(seat);
        Ok(client)
    }

    /// Whether a submission of a client of the station may wait: if not, none is seen.
    #[inline(always)]
    pub(crate) fn is_called(&mut self, station: Address) -> bool
        ensures same { self.new ≡ self.old }
        ensures rests { IsFalse result → IsAtRest station self.old }
    {
        self.seats.is_called(station)
    }

    /// Looks at no client of the station until one of them submits, if no submission of its clients is seen. It is to be called only if
    /// each was looked at since `is_called` and none was accepted: a ring that was not looked at again may have more.
    pub(crate) fn hush(&mut self, station: Address)
        ensures { self.new ≡ self.old }
    {
        self.seats.hush(station);
    }

    /// Whether a timer of a station is due or one of its lanes has a frame to queue.
    #[inline(always)]
    pub(crate) fn is_active(&mut self, station: Address) -> bool
        ensures same { self.new ≡ self.old }
        ensures value { result ≡ is_active (trail self.old.addresses self.old.calls).state station }
    {
        self.segment.is_active(station)
    }

    /// Opens a port, and returns its inbox, whose ring has 64 places.
    ///
    /// It is refused as `open_port_with` is.
    pub fn open_port(&mut self, station: Address, pgn: Pgn, max_len: u32) -> Result<Inbox, NotMade>
        ensures opened { IfOk result (λ i. OpenedFor self.old self.new station pgn max_len i) }
        ensures refused { IfErr result (λ e. IsOpenCause self.old station pgn max_len e) }
        ensures err { OnErr result (self.new ≡ self.old) }
    {
        self.open_port_with(station, pgn, max_len, Places::usual())
    }

    /// Opens a port, and returns its inbox, whose ring has so many places.
    ///
    /// Refused if the segment refuses the Open, and then if no more calls can be stored. Want of memory is returned only if neither
    /// holds. These and want of memory change nothing.
    pub fn open_port_with(
        &mut self,
        station: Address,
        pgn: Pgn,
        max_len: u32,
        places: Places,
    ) -> Result<Inbox, NotMade>
        ensures opened { IfOk result (λ i. OpenedWith self.old self.new station pgn max_len places i) }
        ensures refused { IfErr result (λ e. IsOpenCause self.old station pgn max_len e) }
        ensures err { OnErr result (self.new ≡ self.old) }
    {
        match self.segment.open_refusal(station) {
            Some(refusal) => return Err(NotMade::Refused(refusal)),
            None => {}
        }
        if self.calls.is_full() {
            return Err(NotMade::Refused(Refusal::TraceFull));
        }
        let doorway = Doorway::with_places(self.alloc, places)?;
        self.calls.reserve()?;
        self.doors.reserve()?;
        let call = Call::Open {
            station,
            pgn,
            max_len,
        };
        match make(&mut self.segment, call)? {
            Reply::Opened(port) => {
                let (door, inbox) = doorway.open(port);
                self.doors.push_reserved(door);
                self.calls.push_reserved(Stored {
                    by: None,
                    call: Call::Open {
                        station,
                        pgn,
                        max_len,
                    },
                });
                Ok(inbox)
            }
            Reply::Refused(refusal) => Err(NotMade::Refused(refusal)),
            Reply::Sent(_) => unreachable!(),
            Reply::Done(_) => unreachable!(),
        }
    }

    /// The workers are to end.
    pub fn stop(&mut self)
        ensures { self.new ≡ halted self.old }
    {
        self.stopped = true;
    }

    /// Whether the workers are to end.
    pub fn is_stopped(&self) -> bool
        ensures { result ≡ self.now.stopped }
    {
        self.stopped
    }
}

// Whether an address is one of these.
fn is_station(addresses: &[Address], station: Address) -> bool
    ensures { result ≡ is_station_of addresses.now station }
{
    addresses.iter().any(|address| address.0 == station.0)
}

// How many clients a station has that aren't gone.
fn clients_of(seats: &[Seat], station: Address) -> usize
    ensures { result ≡ clients_at station (map client_of seats.now) }
{
    let mut count = 0;
    for seat in seats {
        if seat.station().0 == station.0 && seat.is_active() {
            count += 1;
        }
    }
    count
}
