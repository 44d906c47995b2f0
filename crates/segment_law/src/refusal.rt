//! Why something is refused.
ghost use Rattle.std.specs.Prelude.{◌≡◌};
ghost use Rattle.segment_law.specs.Refusals.{cause_of, refusal_number, refusal_name};

use station_core::Refused;
use thiserror::Error;

/// Why something is refused: one enum of all causes, in the order of their numbers, 1 to 30. Each is an error with a text of its own.
#[derive(Clone, Copy, Debug, PartialEq, Eq, Error)]
pub enum Refusal {
    /// The identifier is above 29 bits.
    #[error("an identifier has 29 bits")]
    IdTooLarge,
    /// More than 8 data bytes.
    #[error("a frame has at most 8 data bytes")]
    DataTooLong,
    /// The PGN is above 18 bits, or PDU1 with a nonzero low byte.
    #[error("a PGN has 18 bits, and in the PDU1 format a low byte of 0")]
    BadPgn,
    /// Not the next packet of a join, or the join is complete.
    #[error("not the next packet of the message")]
    WrongPacket,
    /// The clock would pass the end of `u64`.
    #[error("the clock would pass its last tick")]
    ClockEnd,
    /// The transmit queue has too few free places.
    #[error("too few places of the queue are free")]
    TxFull,
    /// 4,096 frames are kept on the bus, or no place of it is left in `u64`.
    #[error("the bus is full")]
    BusFull,
    /// 32 incoming sessions.
    #[error("32 messages come in already")]
    TableFull,
    /// 32 messages without an outcome, or no number is left.
    #[error("32 messages to the destination have no outcome, or no number is left")]
    LaneFull,
    /// Never answered: a station may have several ports on one PGN.
    #[error("the PGN has a port")]
    PgnTaken,
    /// 16 open ports, or no number is left.
    #[error("16 ports are open, or no number is left")]
    PortsFull,
    /// The port was never opened, or is closed.
    #[error("no open port has this number")]
    NoSuchPort,
    /// No address, a repeated one, one above 253, or more than 32.
    #[error("the addresses are not 1 to 32 distinct ones of 0 to 253")]
    BadAddresses,
    /// Not a station of the segment; as a destination, the null address 254.
    #[error("the address is no station of the segment")]
    NoSuchStation,
    /// Fewer than 9 bytes.
    #[error("a message has 9 bytes or more")]
    TooShort,
    /// More than 1,785 bytes to all, or more than 117,440,505.
    #[error("a message has up to 1785 bytes to all, and up to 117440505 to one node")]
    TooLong,
    /// The destination is the sender.
    #[error("the destination is the station itself")]
    SameStation,
    /// No frame waits, or fewer than are passed over.
    #[error("fewer frames wait for the station")]
    NothingToTake,
    /// No frame was taken yet, or none since frames were missed last.
    #[error("the station has taken no frame since frames were missed last")]
    NothingToRepeat,
    /// No timer of the station is due.
    #[error("no timer is due")]
    NothingDue,
    /// The queue is empty, the lane has nothing to queue, or there is no such message.
    #[error("nothing is to be sent, or no such message is without an outcome")]
    NothingToSend,
    /// The lane waits only for the 50 ticks between the frames of a broadcast message.
    #[error("the next frame of the broadcast message comes too soon")]
    NotYet,
    /// An injected frame has a station's source address.
    #[error("the source address of the frame is a station of the segment")]
    StationAddress,
    /// 64 submissions wait, or no ticket is left.
    #[error("64 submissions wait, or no ticket is left")]
    RingFull,
    /// 1,000,000 calls are stored since the last cut, or a count would pass the end of `u64`.
    #[error("1000000 calls are stored since the last cut, or no count is left")]
    TraceFull,
    /// 16 clients at the station, or no number is left.
    #[error("the station has 16 clients, or no number is left")]
    ClientsFull,
    /// The port is paused already.
    #[error("the port is paused")]
    PortPaused,
    /// The port isn't paused.
    #[error("the port is not paused")]
    PortNotPaused,
    /// The pieces aren't those of this record, all and in order.
    #[error("the pieces are not those of this record, all and in order")]
    PiecesDontJoin,
    /// The lists of a client or inbox don't agree with this segment.
    #[error("the lists of a client or an inbox do not agree with this segment")]
    NotThisSegment,
}

impl Refusal {
    /// The refusal of a call that its station refuses for this cause.
    pub fn of(cause: Refused) -> Refusal
        ensures { result ≡ cause_of cause }
    {
        match cause {
            Refused::NoSuchStation => Refusal::NoSuchStation,
            Refused::SameStation => Refusal::SameStation,
            Refused::TooShort => Refusal::TooShort,
            Refused::TooLong => Refusal::TooLong,
            Refused::LaneFull => Refusal::LaneFull,
            Refused::PortsFull => Refusal::PortsFull,
            Refused::NoSuchPort => Refusal::NoSuchPort,
            Refused::PortPaused => Refusal::PortPaused,
            Refused::PortNotPaused => Refusal::PortNotPaused,
            Refused::NothingToSend => Refusal::NothingToSend,
            Refused::NotYet => Refusal::NotYet,
            Refused::NothingDue => Refusal::NothingDue,
            Refused::TxFull => Refusal::TxFull,
        }
    }

    /// Its number, 1 to 30.
    pub fn number(self) -> u8
        ensures { result ≡ refusal_number self }
    {
        match self {
            Refusal::IdTooLarge => 1,
            Refusal::DataTooLong => 2,
            Refusal::BadPgn => 3,
            Refusal::WrongPacket => 4,
            Refusal::ClockEnd => 5,
            Refusal::TxFull => 6,
            Refusal::BusFull => 7,
            Refusal::TableFull => 8,
            Refusal::LaneFull => 9,
            Refusal::PgnTaken => 10,
            Refusal::PortsFull => 11,
            Refusal::NoSuchPort => 12,
            Refusal::BadAddresses => 13,
            Refusal::NoSuchStation => 14,
            Refusal::TooShort => 15,
            Refusal::TooLong => 16,
            Refusal::SameStation => 17,
            Refusal::NothingToTake => 18,
            Refusal::NothingToRepeat => 19,
            Refusal::NothingDue => 20,
            Refusal::NothingToSend => 21,
            Refusal::NotYet => 22,
            Refusal::StationAddress => 23,
            Refusal::RingFull => 24,
            Refusal::TraceFull => 25,
            Refusal::ClientsFull => 26,
            Refusal::PortPaused => 27,
            Refusal::PortNotPaused => 28,
            Refusal::PiecesDontJoin => 29,
            Refusal::NotThisSegment => 30,
        }
    }

    /// Its name, which is that of its case.
    pub fn name(self) -> &'static str
        ensures { result.now ≡ refusal_name self }
    {
        match self {
            Refusal::IdTooLarge => "IdTooLarge",
            Refusal::DataTooLong => "DataTooLong",
            Refusal::BadPgn => "BadPgn",
            Refusal::WrongPacket => "WrongPacket",
            Refusal::ClockEnd => "ClockEnd",
            Refusal::TxFull => "TxFull",
            Refusal::BusFull => "BusFull",
            Refusal::TableFull => "TableFull",
            Refusal::LaneFull => "LaneFull",
            Refusal::PgnTaken => "PgnTaken",
            Refusal::PortsFull => "PortsFull",
            Refusal::NoSuchPort => "NoSuchPort",
            Refusal::BadAddresses => "BadAddresses",
            Refusal::NoSuchStation => "NoSuchStation",
            Refusal::TooShort => "TooShort",
            Refusal::TooLong => "TooLong",
            Refusal::SameStation => "SameStation",
            Refusal::NothingToTake => "NothingToTake",
            Refusal::NothingToRepeat => "NothingToRepeat",
            Refusal::NothingDue => "NothingDue",
            Refusal::NothingToSend => "NothingToSend",
            Refusal::NotYet => "NotYet",
            Refusal::StationAddress => "StationAddress",
            Refusal::RingFull => "RingFull",
            Refusal::TraceFull => "TraceFull",
            Refusal::ClientsFull => "ClientsFull",
            Refusal::PortPaused => "PortPaused",
            Refusal::PortNotPaused => "PortNotPaused",
            Refusal::PiecesDontJoin => "PiecesDontJoin",
            Refusal::NotThisSegment => "NotThisSegment",
        }
    }
}
