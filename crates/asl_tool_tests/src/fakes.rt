//! Readers and writers for tests: they move a few bytes at a time, and fail at a call of one's choice.

use asl_tool::{ByteSink, ByteSource, write_some};
use std::alloc::Global;
use std::io;
use std::io::{ErrorKind, Read, Write};

/// A reader over memory.
#[derive(Drop)]
pub struct Feed<'a> {
    pub bytes: &'a [u8],
    /// The most bytes that a call gives.
    pub most: usize,
    /// The call, from 1, that is interrupted; 0 for none.
    pub fails_at: u32,
    pub calls: u32,
}

impl<'a> Feed<'a> {
    pub fn new(bytes: &'a [u8], most: usize, fails_at: u32) -> Self {
        Feed {
            bytes,
            most,
            fails_at,
            calls: 0,
        }
    }
}

impl Read for Feed<'_> {
    fn read(&mut self, buf: &mut [u8]) -> io::Result<usize> {
        self.calls = self.calls.saturating_add(1);
        if self.calls == self.fails_at {
            return Err(io::Error::from(ErrorKind::Interrupted));
        }
        let count = self.bytes.len().min(buf.len()).min(self.most);
        let (front, back) = self.bytes.split_at(count);
        buf[..count].copy_from_slice(front);
        self.bytes = back;
        Ok(count)
    }
}

impl ByteSource for Feed<'_> {
    fn take_bytes(&mut self, buffer: &mut [u8]) -> io::Result<usize> {
        self.read(buffer)
    }
}

/// A reader that never ends.
#[derive(Drop)]
pub struct Endless;

impl Read for Endless {
    fn read(&mut self, buf: &mut [u8]) -> io::Result<usize> {
        Ok(buf.len())
    }
}

impl ByteSource for Endless {
    fn take_bytes(&mut self, buffer: &mut [u8]) -> io::Result<usize> {
        self.read(buffer)
    }
}

/// A writer into memory.
#[derive(Drop)]
pub struct Sink {
    pub held: Vec<u8>,
    /// The most bytes that a call takes.
    pub most: usize,
    /// The call, from 1, that is interrupted; 0 for none.
    pub fails_at: u32,
    /// The call, from 1, that takes nothing; 0 for none.
    pub full_at: u32,
    pub calls: u32,
}

impl Sink {
    pub fn new(alloc: Global, most: usize, fails_at: u32, full_at: u32) -> Self {
        Sink {
            held: Vec::new(alloc),
            most,
            fails_at,
            full_at,
            calls: 0,
        }
    }
}

impl Write for Sink {
    fn write(&mut self, buf: &[u8]) -> io::Result<usize> {
        self.calls = self.calls.saturating_add(1);
        if self.calls == self.fails_at {
            return Err(io::Error::from(ErrorKind::Interrupted));
        }
        if self.calls == self.full_at {
            return Ok(0);
        }
        let count = buf.len().min(self.most);
        self.held.extend_from_slice(&buf[..count])?;
        Ok(count)
    }

    fn flush(&mut self) -> io::Result<()> {
        Ok(())
    }
}

impl ByteSink for Sink {
    fn put_some(&mut self, bytes: &[u8]) -> io::Result<usize> {
        write_some(self, bytes)
    }
}
