//! Reasons of a connection abort.
ghost use Rattle.std.specs.Prelude.{◌≡◌};
ghost use Rattle.tp_wire.specs.Reason.{reason_byte};

/// The reasons of a connection abort that are sent (SAE J1939-21, connection abort reasons). A received reason is
/// kept as its byte.
#[derive(Clone, Copy, Debug, PartialEq, Eq)]
pub enum AbortReason {
    /// No further session is possible.
    NoFurtherSession,
    /// Resources were needed for another task, or aren't there.
    Resources,
    /// A timeout occurred.
    Timeout,
    /// A CTS was received during a data transfer.
    CtsDuringTransfer,
    /// The retransmit request limit was reached.
    RetransmitLimit,
    /// Every other cause.
    Other,
}

impl AbortReason {
    /// The byte that a frame carries for it.
    pub fn byte(self) -> u8
        ensures { result ≡ reason_byte self }
    {
        match self {
            AbortReason::NoFurtherSession => 1,
            AbortReason::Resources => 2,
            AbortReason::Timeout => 3,
            AbortReason::CtsDuringTransfer => 4,
            AbortReason::RetransmitLimit => 5,
            AbortReason::Other => 250,
        }
    }
}
