//! A count by which clients tell the segment that they submitted.
use std::alloc::{AllocError, Global};
use std::sync::Arc;
use std::sync::atomic::{AtomicU64, Ordering};

/// One of the holders of a count of submissions: each of some clients raises it, and their segment looks at it. Contracts know
/// nothing of it.
///
/// A client puts a submission into its ring before it raises the count. So whoever sees the count raised sees the submission too.
#[derive(Drop)]
pub struct Bell {
    word: Arc<AtomicU64, Global>,
}

impl Bell {
    /// A count of 0.
    pub fn new(alloc: Global) -> Result<Bell, AllocError> {
        let word = Arc::new(alloc, AtomicU64::new(0))?;
        Ok(Bell { word })
    }

    /// One more holder of the same count.
    pub fn share(&self) -> Result<Bell, AllocError> {
        let word = Arc::try_clone(&self.word)?;
        Ok(Bell { word })
    }

    /// Raises the count by one, past its last value to 0. It takes no memory and never waits.
    pub(crate) fn ring(&self) {
        self.word.fetch_add(1, Ordering::SeqCst);
    }

    /// The count as it was at some moment not long ago.
    #[inline(always)]
    pub fn count(&self) -> u64 {
        self.word.load(Ordering::SeqCst)
    }
}
