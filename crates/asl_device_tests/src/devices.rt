//! Readers and writers over memory that move a few bytes at a time, and fail at a call of one's choice.
use asl_tool::{ByteSink, ByteSource, write_some};
use std::alloc::Global;
use std::io;
use std::io::{ErrorKind, Read, Write};

/// How a call goes wrong.
#[derive(Clone, Copy, PartialEq, Eq)]
pub enum Trouble {
    /// It is interrupted.
    Interrupted,
    /// It fails.
    Fails,
    /// It moves nothing.
    Nothing,
}

/// The error of a call that goes wrong so; none where it moves nothing.
fn error_of(kind: Trouble) -> Option<ErrorKind> {
    match kind {
        Trouble::Interrupted => Some(ErrorKind::Interrupted),
        Trouble::Fails => Some(ErrorKind::Other),
        Trouble::Nothing => None,
    }
}

/// A reader.
#[derive(Drop)]
pub struct Feed<'a> {
    pub bytes: &'a [u8],
    /// The most bytes that a call gives.
    pub most: usize,
    /// The call, from 1, that goes wrong; 0 for none.
    pub wrong_at: u32,
    pub kind: Trouble,
    pub calls: u32,
}

impl Read for Feed<'_> {
    fn read(&mut self, buf: &mut [u8]) -> io::Result<usize> {
        self.calls = self.calls.saturating_add(1);
        if self.calls == self.wrong_at {
            return match error_of(self.kind) {
                Some(kind) => Err(io::Error::from(kind)),
                None => Ok(0),
            };
        }
        let count = self.bytes.len().min(buf.len()).min(self.most);
        let (front, back) = self.bytes.split_at(count);
        buf[..count].copy_from_slice(front);
        self.bytes = back;
        Ok(count)
    }
}

impl ByteSource for Feed<'_> {
    fn take_bytes(&mut self, buffer: &mut [u8]) -> io::Result<usize> {
        self.read(buffer)
    }
}

/// A reader that never ends.
#[derive(Drop)]
pub struct Endless;

impl Read for Endless {
    fn read(&mut self, buf: &mut [u8]) -> io::Result<usize> {
        Ok(buf.len())
    }
}

impl ByteSource for Endless {
    fn take_bytes(&mut self, buffer: &mut [u8]) -> io::Result<usize> {
        self.read(buffer)
    }
}

/// A writer.
#[derive(Drop)]
pub struct Sink {
    pub held: Vec<u8>,
    /// The most bytes that a call takes.
    pub most: usize,
    /// The call, from 1, that goes wrong; 0 for none.
    pub wrong_at: u32,
    pub kind: Trouble,
    pub calls: u32,
}

impl Sink {
    pub fn new(alloc: Global, most: usize, wrong_at: u32, kind: Trouble) -> Self {
        Sink {
            held: Vec::new(alloc),
            most,
            wrong_at,
            kind,
            calls: 0,
        }
    }
}

impl Write for Sink {
    fn write(&mut self, buf: &[u8]) -> io::Result<usize> {
        self.calls = self.calls.saturating_add(1);
        if self.calls == self.wrong_at {
            return match error_of(self.kind) {
                Some(kind) => Err(io::Error::from(kind)),
                None => Ok(0),
            };
        }
        let count = buf.len().min(self.most);
        self.held.extend_from_slice(&buf[..count])?;
        Ok(count)
    }

    fn flush(&mut self) -> io::Result<()> {
        Ok(())
    }
}

impl ByteSink for Sink {
    fn put_some(&mut self, bytes: &[u8]) -> io::Result<usize> {
        write_some(self, bytes)
    }
}
