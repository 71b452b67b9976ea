//! Readers and writers of the tests.
use std::alloc::Global;
use std::io::{self, Read, Write};

/// A reader that returns these bytes, at most `step` per call, then fails once if it is to, and
/// then ends.
#[derive(Drop)]
pub(crate) struct Input<'a> {
    pub(crate) bytes: &'a [u8],
    pub(crate) step: usize,
    pub(crate) fails: bool,
}

impl Read for Input<'_> {
    fn read(&mut self, buf: &mut [u8]) -> io::Result<usize> {
        let count = self.step.min(self.bytes.len()).min(buf.len());
        if count == 0 && self.fails {
            self.fails = false;
            return Err(io::Error::from(io::ErrorKind::TimedOut));
        }
        let (front, rest) = self.bytes.split_at(count);
        buf[..count].copy_from_slice(front);
        self.bytes = rest;
        Ok(count)
    }
}

/// A writer that accepts a limited number of bytes and then fails.
#[derive(Drop)]
pub(crate) struct Output {
    pub(crate) bytes: Vec<u8>,
    pub(crate) room: usize,
}

impl Output {
    pub(crate) fn new(alloc: Global, room: usize) -> Self {
        Output {
            bytes: Vec::new(alloc),
            room,
        }
    }
}

impl Write for Output {
    fn write(&mut self, buf: &[u8]) -> io::Result<usize> {
        let count = self.room.min(buf.len());
        if count == 0 && !buf.is_empty() {
            return Err(io::Error::from(io::ErrorKind::BrokenPipe));
        }
        self.bytes.extend_from_slice(&buf[..count])?;
        self.room -= count;
        Ok(count)
    }

    fn flush(&mut self) -> io::Result<()> {
        Ok(())
    }
}

/// A writer that passes its bytes on when it is flushed, unless that fails.
#[derive(Drop)]
pub(crate) struct Held {
    pub(crate) waiting: Vec<u8>,
    pub(crate) passed: Vec<u8>,
    pub(crate) fails: bool,
}

impl Write for Held {
    fn write(&mut self, buf: &[u8]) -> io::Result<usize> {
        self.waiting.extend_from_slice(buf)?;
        Ok(buf.len())
    }

    fn flush(&mut self) -> io::Result<()> {
        if self.fails {
            return Err(io::Error::from(io::ErrorKind::BrokenPipe));
        }
        self.passed.extend_from_slice(self.waiting.as_slice())?;
        self.waiting.clear();
        Ok(())
    }
}
