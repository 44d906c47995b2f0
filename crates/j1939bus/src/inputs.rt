//! The input: standard input if no file is named, else the files in their order, with `-` for standard input.
ghost use Rattle.std.specs.Io.{ReadsAtMost};

use std::alloc::{AllocError, Global};
use std::fs::OpenFile;
use std::io::{ErrorKind, IsTerminal, Read};
use std::rt::Files;
use std::{fs, io};

/// A file, or standard input.
#[derive(Drop)]
enum Source<F, S> {
    File(F),
    Standard(S),
}

/// Reads several files as if they were one: the bytes of each follow on those of the one before.
#[derive(Drop)]
pub(crate) struct Inputs<F, S> {
    sources: Vec<Source<F, S>>,
    /// Which of them is read now.
    at: usize,
}

impl<F: Read + Drop, S: Read + Drop> Inputs<F, S> {
    /// Nothing to read.
    fn new(alloc: Global) -> Inputs<F, S> {
        Inputs {
            sources: Vec::new(alloc),
            at: 0,
        }
    }

    /// What this has is read behind the others.
    fn add(&mut self, source: Source<F, S>) -> Result<(), AllocError> {
        self.sources.push(source)?;
        Ok(())
    }

    // Reads of the one at hand; 0 if it is at its end, or if there is no other.
    fn read_one(&mut self, buf: &mut [u8]) -> io::Result<usize>
        ensures { ReadsAtMost result buf.new }
    {
        match self.sources.get_mut(self.at) {
            None => Ok(0),
            Some(Source::File(file)) => file.read(buf),
            Some(Source::Standard(standard)) => standard.read(buf),
        }
    }
}

impl<F: Read + Drop, S: Read + Drop> Read for Inputs<F, S> {
    fn read(&mut self, buf: &mut [u8]) -> io::Result<usize> {
        for _ in 0..self.sources.len() {
            let n = self.read_one(buf)?;
            if n > 0 || buf.is_empty() {
                return Ok(n);
            }
            self.at = self.at.saturating_add(1);
        }
        Ok(0)
    }
}

/// Opens a file. A folder can be opened too, but not read.
fn open_file<R: Files>(rt: &R, name: &str) -> io::Result<R::File> {
    let file = fs::open(rt, name)?;
    if file.metadata()?.is_dir() {
        return Err(io::Error::from(ErrorKind::IsADirectory));
    }
    Ok(file)
}

/// Opens what is read. If a file can't be opened, that is reported on standard error, and there is nothing.
pub(crate) fn open_inputs<R: Files + Input + Eprint + AllocGlobal>(
    rt: &R,
    names: &[String],
) -> io::Result<Option<Inputs<R::File, R::Reader>>> {
    let mut inputs = Inputs::new(rt.alloc());
    for name in names {
        if name.as_str() == "-" {
            inputs.add(Source::Standard(rt.reader()))?;
            continue;
        }
        match open_file(rt, name.as_str()) {
            Ok(file) => inputs.add(Source::File(file))?,
            Err(error) => {
                eprintln!(rt; "cannot open '{name}': {error}")?;
                return Ok(None);
            }
        }
    }
    if names.is_empty() {
        inputs.add(Source::Standard(rt.reader()))?;
    }
    Ok(Some(inputs))
}

/// How many bytes a file has; for `-`, the file that standard input is.
fn size_of<R: Files>(rt: &R, name: &str) -> Option<u64> {
    let path = if name == "-" { "/dev/stdin" } else { name };
    let metadata = fs::metadata(rt, path).ok()?;
    if metadata.is_file() {
        Some(metadata.len())
    } else {
        None
    }
}

/// How many bytes there are to read, if all of it is files and standard error a terminal.
pub(crate) fn size_to_tell<R: Files>(rt: &R, errors: &io::Stderr, names: &[String]) -> Option<u64> {
    if !errors.is_terminal() {
        return None;
    }
    if names.is_empty() {
        return size_of(rt, "-");
    }
    let mut size = 0u64;
    for name in names {
        size = size.saturating_add(size_of(rt, name.as_str())?);
    }
    Some(size)
}
