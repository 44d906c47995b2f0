//! A client that is needed no more is detached, and its place at its station is free again.
ghost use Rattle.std.specs.Prelude.{◌≡◌, None, OnOk, OnErr};
ghost use Rattle.std.specs.Result.{result_err};
ghost use Rattle.live_segment.specs.Detaching.{DetachedFrom, detaching_refusal};

use crate::live::Live;
use thiserror::Error;

/// Why a client isn't detached.
#[derive(Clone, Copy, Debug, PartialEq, Eq, Error)]
pub enum NotDetached {
    /// No client has the number.
    #[error("no client has this number")]
    NoSuchClient,
    /// It was detached, or the segment was finished with it.
    #[error("the client is gone")]
    Gone,
}

impl Live {
    // Why a client isn't detached.
    fn detaching_refusal(&self, client: u64) -> Option<NotDetached>
        ensures { result ≡ detaching_refusal self.now client }
    {
        if client >= self.seats.len() as u64 {
            return Some(NotDetached::NoSuchClient);
        }
        if self.seats.get(client as usize).is_active() {
            return None;
        }
        Some(NotDetached::Gone)
    }

    /// Detaches a client: no more of its submissions are accepted, nothing more is put into its ring of notes, and its station may
    /// have one client more. Its messages under way continue, and their outcomes are in the record alone. Its number is given to no
    /// other client, and what its station keeps of it stays.
    ///
    /// Refused exactly if no client has the number, or it is gone already. A refusal changes nothing.
    pub fn detach(&mut self, client: u64) -> Result<(), NotDetached>
        ensures detached { OnOk result (DetachedFrom self.old self.new client) }
        ensures refused { result_err result ≡ detaching_refusal self.old client }
        ensures err { OnErr result (self.new ≡ self.old) }
    {
        if let Some(cause) = self.detaching_refusal(client) {
            return Err(cause);
        }
        self.retire_client(client);
        Ok(())
    }
}
