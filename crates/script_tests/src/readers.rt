//! A reader that fails.
use std::io;
use std::io::{Error, ErrorKind, Read};

/// Gives its text, and fails at the text's end.
#[derive(Drop)]
pub(crate) struct Breaking<'a> {
    pub(crate) text: &'a [u8],
}

impl Read for Breaking<'_> {
    fn read(&mut self, buf: &mut [u8]) -> io::Result<usize> {
        if self.text.is_empty() {
            return Err(Error::from(ErrorKind::Other));
        }
        self.text.read(buf)
    }
}
