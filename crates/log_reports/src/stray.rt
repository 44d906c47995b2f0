//! Frames of a transport that belong to no message under way.

/// A frame that carries a part of a message, or steers one, if no such message is under way.
#[derive(Clone, Copy)]
pub enum Stray {
    /// A packet.
    Packet,
    /// A CTS or a data packet offset.
    Window,
    /// An end acknowledgement: that of a message which was given follows the report.
    Acknowledgement,
}
