//! Words that `clap` takes, and that are refused when they are read.
use crate::Line;
use clap::error::ErrorKind;
use clap::{Command, Error};
use std::alloc::{AllocError, AllocFailed, Global};

/// Why nothing was read.
#[derive(Drop)]
pub(crate) enum Refused {
    /// A word that its argument doesn't take, as this text says.
    Word(String),
    /// There was no memory.
    Memory,
}

impl From<AllocError> for Refused {
    fn from(_error: AllocError) -> Refused {
        Refused::Memory
    }
}

impl<T: Drop> From<AllocFailed<T>> for Refused {
    fn from(_error: AllocFailed<T>) -> Refused {
        Refused::Memory
    }
}

/// The refusal of a word that an option doesn't take.
pub(crate) fn refuse(alloc: Global, option: &str, word: &str, why: &str) -> Refused {
    match format!(in alloc; "invalid value '{word}' for '{option}': {why}") {
        Ok(text) => Refused::Word(text),
        Err(_) => Refused::Memory,
    }
}

/// What was read, or the error that says why nothing was: for a word, with the usage of the command below the text.
pub(crate) fn or_error<'a>(
    command: &mut Command<'a>,
    read: Result<Line, Refused>,
) -> Result<Line, Error> {
    match read {
        Ok(read) => Ok(read),
        Err(Refused::Word(text)) => {
            Err(command.error(ErrorKind::ValueValidation, text.as_str())?)
        }
        Err(Refused::Memory) => Err(Error::from(AllocError)),
    }
}
