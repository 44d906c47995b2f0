//! A count that one thread raises and another one looks at.
use std::alloc::{AllocError, Global};
use std::sync::Arc;
use std::sync::atomic::{AtomicU64, Ordering};

/// One of the two holders of a count. Neither call takes memory or waits.
#[derive(Drop)]
pub(crate) struct Mark {
    word: Arc<AtomicU64, Global>,
}

impl Mark {
    /// A count of 0, for the thread that raises it and the one that looks at it.
    pub(crate) fn pair(alloc: Global) -> Result<(Mark, Mark), AllocError> {
        let word = Arc::new(alloc, AtomicU64::new(0))?;
        let other = Arc::try_clone(&word)?;
        Ok((Mark { word }, Mark { word: other }))
    }

    /// The count is this one. Only one of the two holders calls it, with counts that never fall.
    pub(crate) fn raise(&self, count: u64) {
        self.word.store(count, Ordering::Relaxed);
    }

    /// The count as it was at some moment not long ago.
    pub(crate) fn look(&self) -> u64 {
        self.word.load(Ordering::Relaxed)
    }
}
