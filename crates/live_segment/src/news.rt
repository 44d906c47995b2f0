//! Which clients and ports have news: something went into their ring that wasn't there when they were last named.
ghost use Rattle.std.specs.Prelude.{◌≡◌, MatchOption};
ghost use Rattle.live_segment.specs.News.{IsNamed, NoNews};

use crate::live::Live;
use port_table::PortId;

/// An end of a ring that has news.
#[derive(Clone, Copy, Debug, Drop, PartialEq, Eq)]
pub enum News {
    /// The client of this number has an outcome that wasn't in its ring when it was last named.
    Client(u64),
    /// The port has a message that wasn't in its inbox's ring when it was last named.
    Port(PortId),
}

impl Live {
    /// A client or a port that has news. It has none then until one more outcome or message goes into its ring, so that each is named
    /// once, however much came. None exactly if no client and no port has news.
    ///
    /// Clients come before ports, and of either kind that which has waited longest. It takes no memory, and its cost doesn't depend on how
    /// many there are.
    pub fn news(&mut self) -> Option<News>
        ensures { MatchOption result (NoNews self.old × (self.new ≡ self.old)) (λ n. IsNamed self.old self.new n) }
    {
        if let Some(client) = self.seats.name() {
            return Some(News::Client(client as u64));
        }
        let Some(k) = self.doors.name() else {
            return None;
        };
        Some(News::Port(self.doors.get(k).port()))
    }
}
