//! The two segments of a script and the route between them.
ghost use Rattle.std.specs.Prelude.{◌≡◌, is_some};
ghost use Rattle.script_segments.specs.Plan.{plan_of, first_plan};
ghost use Rattle.script_segments.specs.Gateway.{plans_of, first_plans, with_second, passage_in};

use crate::setup::Setup;
use pgn_ids::Address;
use port_table::PortId;
use std::alloc::Global;
use std::mem;

/// The passage of a relay: from a port of the first segment, by a client of one station of the second, to another station, with
/// so many messages at most.
#[derive(Clone, Copy, Debug, PartialEq, Eq)]
pub struct Passage {
    pub port: PortId,
    pub from: Address,
    pub to: Address,
    pub limit: u64,
}

/// The route of a script: none yet, one that is refused, or one that is to be taken.
#[derive(Clone, Copy, Debug, PartialEq, Eq)]
pub enum Routing {
    NotYet,
    Refused,
    To(Passage),
}

impl Routing {
    /// The passage of the route, if there is one.
    pub fn passage(self) -> Option<Passage>
        ensures { result ≡ passage_in self }
    {
        match self {
            Routing::NotYet => None,
            Routing::Refused => None,
            Routing::To(passage) => Some(passage),
        }
    }
}

/// The first segment, once the second one is set up; the one that is set up now, which has the text of all refused lines; and the
/// route.
#[derive(Drop)]
pub struct Gateway {
    pub before: Option<Setup>,
    pub here: Setup,
    pub routing: Routing,
}

impl Gateway {
    /// Nothing yet.
    pub fn new(alloc: Global) -> Gateway
        ensures { plans_of result ≡ first_plans }
    {
        Gateway {
            before: None,
            here: Setup::new(alloc),
            routing: Routing::NotYet,
        }
    }

    /// The second segment begins, with the text of all refused lines.
    pub(crate) fn begin_second(&mut self, alloc: Global)
        ensures { plans_of self.new ≡ with_second (plans_of self.old) }
    {
        let refused = mem::replace(&mut self.here.refused, Vec::new(alloc));
        let next = setup_after(alloc, refused);
        let first = mem::replace(&mut self.here, next);
        self.before = Some(first);
    }

    /// Whether the second segment has begun.
    pub(crate) fn has_first(&self) -> bool
        ensures { result ≡ is_some (plans_of self.now).before }
    {
        match &self.before {
            Some(_) => true,
            None => false,
        }
    }

    /// Whether the segment that is set up now has its stations.
    pub(crate) fn is_made(&self) -> bool
        ensures { result ≡ is_some (plans_of self.now).now.made }
    {
        match &self.here.live {
            Some(_) => true,
            None => false,
        }
    }
}

// Nothing yet, behind this text of refused lines.
fn setup_after(alloc: Global, refused: Vec<u8>) -> Setup
    ensures { plan_of result ≡ record first_plan { text = refused.items } }
{
    let mut next = Setup::new(alloc);
    next.refused = refused;
    next
}
