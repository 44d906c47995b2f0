//! What is known of the clients of one address.
use segment_rings::Bell;
use std::alloc::{AllocError, Global};
use std::marker::Model;

/// Whether a client of the address can have something to accept. There is a bell from its first client on.
#[derive(Drop)]
pub(crate) struct Home {
    bell: Option<Bell>,
    heard: u64,
    quiet: bool,
}

impl Model for Home {
    ghost use Rattle.std.specs.Prelude.{Bool};

    // Whether it is marked as quiet.
    ghost Value = { Bool };

    ghost view = { λ h. h.quiet };
}

impl Home {
    ghost use Rattle.std.specs.Prelude.{◌≡◌, true, false, IsTrue, IsFalse};

    /// The home of no client yet.
    pub(crate) fn new() -> Home
        ensures { result ≡ false }
    {
        Home {
            bell: None,
            heard: 0,
            quiet: false,
        }
    }

    /// The bell of its clients.
    pub(crate) fn bell(&mut self, alloc: Global) -> Result<Bell, AllocError>
        ensures { self.new ≡ self.old }
    {
        if let Some(bell) = &self.bell {
            return bell.share();
        }
        let bell = Bell::new(alloc)?;
        let other = bell.share()?;
        self.bell = Some(bell);
        Ok(other)
    }

    /// Whether a submission may wait: it isn't marked as quiet, or its bell was rung since the last look, and then the mark is gone.
    #[inline(always)]
    pub(crate) fn listen(&mut self) -> bool
        ensures quiet { IsFalse result → self.new ≡ true }
        ensures kept { self.new ≡ true → self.old ≡ true }
    {
        let Some(bell) = &self.bell else {
            return !self.quiet;
        };
        let count = bell.count();
        if count != self.heard {
            self.heard = count;
            self.quiet = false;
        }
        !self.quiet
    }

    /// Marks it as quiet or not.
    pub(crate) fn mark(&mut self, quiet: bool)
        ensures { self.new ≡ quiet }
    {
        self.quiet = quiet;
    }
}
