//! A list of calls.
ghost use Rattle.std.specs.Prelude.{◌≡◌, ◌≢◌, ◌↔◌, ◌++◌, List, [], length, drop};
ghost use Rattle.pgn_ids.specs.declared.address.Address.{Address};
ghost use Rattle.segment_law.specs.Record.{Record, StandsAt};
ghost use Rattle.segment_law.specs.declared.end.RunEnd.TheVariants as run_end;
ghost use Rattle.segment_core.specs.Runs.{IsRun, FirstIsNotRefused, steps_of};
ghost use Rattle.segment_core.specs.Promise.{KeepsPromise};

use crate::segment::Segment;
use connection_law::the_headline_holds;
use segment_law::{Call, Reply, RunEnd};

/// What a list of calls was answered.
#[derive(Drop)]
pub struct Ran {
    /// The replies to the calls that were applied, in their order.
    pub replies: Vec<Reply>,
    /// Whether these are all.
    pub end: RunEnd,
}

impl Segment {
    /// Makes calls one after another, up to one that isn't refused and finds no memory. The room for all replies is made
    /// first: if there is none, no call is made.
    ///
    /// The calls are spent, those that weren't applied too: to make them again, keep a copy.
    pub fn run(&mut self, calls: Vec<Call>) -> Ran
        ensures ran { IsRun self.old calls.items self.new result.replies.items }
        ensures all { (result.end ≡ run_end.All) ↔ (length result.replies.items ≡ length calls.items) }
        ensures next { result.end ≡ run_end.OutOfMemory → result.replies.items ≢ []
            → FirstIsNotRefused self.new (drop (length result.replies.items) calls.items) }
        ensures stands { (addresses : List Address) (steps : Record) → StandsAt addresses steps self.old
            → StandsAt addresses (steps ++ steps_of calls.items result.replies.items) self.new }
        ensures headline { KeepsPromise self.new }
    {
        // A law, for the last clause: the call does nothing.
        the_headline_holds();
        let mut replies = Vec::new(self.alloc);
        if let Err(_) = replies.reserve(calls.len()) {
            return Ran {
                replies,
                end: RunEnd::OutOfMemory,
            };
        }
        for call in calls {
            match self.apply(call) {
                Ok(reply) => replies.push_reserved(reply),
                Err(_) => {
                    return Ran {
                        replies,
                        end: RunEnd::OutOfMemory,
                    };
                }
            }
        }
        Ran {
            replies,
            end: RunEnd::All,
        }
    }
}
