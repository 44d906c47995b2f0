//! Numbers of the standard, by its names (SAE J1939-21; ISO 11783-3).
ghost use Rattle.std.specs.Prelude.{◌≡◌};

/// PGN of the connection management frames of the transport protocol, TP.CM.
pub const TP_CM: u32 = 0xEC00;

/// PGN of the data transfer frames of the transport protocol, TP.DT.
pub const TP_DT: u32 = 0xEB00;

/// PGN of the connection management frames of the extended transport protocol, ETP.CM.
pub const ETP_CM: u32 = 0xC800;

/// PGN of the data transfer frames of the extended transport protocol, ETP.DT.
pub const ETP_DT: u32 = 0xC700;

/// PGN of a Request.
pub const REQUEST: u32 = 0xEA00;

/// PGN of an Acknowledgement.
pub const ACKNOWLEDGEMENT: u32 = 0xE800;

/// Control byte of TP.CM_RTS, the request to send.
pub const TP_RTS: u8 = 16;

/// Control byte of TP.CM_CTS, clear to send.
pub const TP_CTS: u8 = 17;

/// Control byte of TP.CM_EndOfMsgAck, the end of message acknowledgement.
pub const TP_END_OF_MSG_ACK: u8 = 19;

/// Control byte of TP.CM_BAM, the broadcast announce message.
pub const TP_BAM: u8 = 32;

/// Control byte of ETP.CM_RTS.
pub const ETP_RTS: u8 = 20;

/// Control byte of ETP.CM_CTS.
pub const ETP_CTS: u8 = 21;

/// Control byte of ETP.CM_DPO, the data packet offset.
pub const ETP_DPO: u8 = 22;

/// Control byte of ETP.CM_EOMA, the end of message acknowledgement.
pub const ETP_EOMA: u8 = 23;

/// Control byte of a connection abort, in TP.CM and in ETP.CM.
pub const CONN_ABORT: u8 = 255;

/// A reserved byte as it is written.
pub const RESERVED: u8 = 255;

/// Priority of the transport frames.
pub const TRANSPORT_PRIORITY: u8 = 7;

/// Priority of Request and Acknowledgement.
pub const REQUEST_PRIORITY: u8 = 6;

/// The shortest message that is carried in packets, in bytes: a shorter one is a single frame.
pub const MIN_SIZE: u32 = 9;

/// The longest message of the transport protocol, in bytes.
pub const TP_MAX_SIZE: u32 = 1_785;

/// The longest message of the extended transport protocol, in bytes.
pub const ETP_MAX_SIZE: u32 = 117_440_505;

/// How many packets a TP receiver grants at once at most.
pub const TP_MAX_WINDOW: u8 = 16;

/// How many packets an ETP receiver grants at once at most.
pub const ETP_MAX_WINDOW: u8 = 64;

/// The byte with which a sender allows, in its RTS, any number of packets per CTS.
pub const ANY_WINDOW: u8 = 255;

/// A law: the sizes in bytes, and the windows in packets.
pub fn numbers_are_those_of_the_standard()
    ensures min_size { MIN_SIZE ≡ 9 }
    ensures tp_max_size { TP_MAX_SIZE ≡ 1785 }
    ensures etp_max_size { ETP_MAX_SIZE ≡ 117440505 }
    ensures tp_max_window { TP_MAX_WINDOW ≡ 16 }
    ensures etp_max_window { ETP_MAX_WINDOW ≡ 64 }
    ensures any_window { ANY_WINDOW ≡ 255 }
    ensures tp_cm { TP_CM ≡ 0xEC00 }
    ensures tp_dt { TP_DT ≡ 0xEB00 }
{}
