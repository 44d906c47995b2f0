//! A reader and its reports.
ghost use Rattle.std.specs.Prelude.{◌≡◌, ◌++◌, IfOk, OnOk};
ghost use Rattle.read_progress.specs.Text.{progress_text};

use std::alloc::{AllocError, Global};
use std::io;
use std::io::{Read, Write};
use std::time::{Clock, Duration, Instant};
use text_digits::{put_decimal, put_text};
use text_lines::tell;

/// For how many milliseconds nothing is reported.
const PATIENCE: u64 = 1_000;

/// For how many milliseconds a report stands.
const STEP: u64 = 200;

/// How many bytes a megabyte has.
const MEGABYTE: u64 = 1_000_000;

/// A reader of so many bytes that reports on a writer how many of them it has read, once it has read for more than a second, and then up
/// to five times a second.
///
/// The reports share one line, each text in the place of the one before, and the last one stays there. If the writer fails, the clock
/// can't be read or memory is refused, nothing is reported, and reading continues.
#[derive(Drop)]
pub struct Progress<'a, R, C, W> {
    alloc: Global,
    inner: R,
    clock: &'a C,
    writer: W,
    /// How many bytes there are, and how many of them were read.
    size: u64,
    done: u64,
    /// When it began, and how long it reads until the next report.
    start: Instant,
    due: Duration,
}

/// Puts the report on so many bytes read of all behind what `out` holds.
fn put_progress(out: &mut Vec<u8>, done: u64, size: u64) -> Result<(), AllocError>
    ensures { OnOk result (out.new.items ≡ out.old.items ++ progress_text done size) }
{
    put_text(out, "\rread ")?;
    put_decimal(out, done / MEGABYTE)?;
    put_text(out, " of ")?;
    put_decimal(out, size / MEGABYTE)?;
    put_text(out, " MB")
}

impl<'a, R: Read + Drop, C: Clock, W: Write + Drop> Progress<'a, R, C, W> {
    /// A reader of what `inner` has; nothing was read yet. It fails only if the clock can't be read.
    pub fn new(
        alloc: Global,
        inner: R,
        clock: &'a C,
        writer: W,
        size: u64,
    ) -> io::Result<Progress<'a, R, C, W>>
        ensures inner { IfOk result (λ progress. progress.inner ≡ inner) }
        ensures size { IfOk result (λ progress. progress.size ≡ size) }
        ensures unread { IfOk result (λ progress. progress.done ≡ 0) }
    {
        let start = Instant::now(clock)?;
        Ok(Progress {
            alloc,
            inner,
            clock,
            writer,
            size,
            done: 0,
            start,
            due: Duration::from_millis(PATIENCE),
        })
    }

    // Reports the progress, if that is due.
    fn tell(&mut self)
        ensures { self.new.inner ≡ self.old.inner }
    {
        let Ok(passed) = self.start.elapsed(self.clock) else {
            return;
        };
        if passed < self.due {
            return;
        }
        let Some(due) = passed.checked_add(Duration::from_millis(STEP)) else {
            return;
        };
        self.due = due;
        let mut line = Vec::new(self.alloc);
        let Ok(()) = put_progress(&mut line, self.done, self.size) else {
            return;
        };
        let _told = tell(&mut self.writer, line.as_slice());
    }
}

impl<R: Read + Drop, C: Clock, W: Write + Drop> Read for Progress<'_, R, C, W> {
    ghost remaining = { λ progress. R.remaining progress.inner };

    fn read(&mut self, buf: &mut [u8]) -> io::Result<usize> {
        let n = self.inner.read(buf)?;
        self.done = self.done.saturating_add(n as u64);
        self.tell();
        Ok(n)
    }
}
