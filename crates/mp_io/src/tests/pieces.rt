//! A reader and an output that work in pieces, and fail in mid-stream.

use std::alloc::Global;
use std::cell::{Cell, RefCell};
use std::fmt::Display;
use std::io::{self, ErrorKind, Print, Read};

/// A reader of some bytes, which gives at most `step` of them at a call. The call with the number `fault` fails,
/// counted from 1.
#[derive(Drop)]
pub struct Pieces<'a> {
    rest: &'a [u8],
    step: usize,
    calls: usize,
    fault: usize,
}

impl<'a> Pieces<'a> {
    pub fn make(rest: &'a [u8], step: usize, fault: usize) -> Pieces<'a> {
        Pieces {
            rest,
            step,
            calls: 0,
            fault,
        }
    }
}

impl Read for Pieces<'_> {
    fn read(&mut self, buf: &mut [u8]) -> io::Result<usize> {
        self.calls = self.calls.saturating_add(1);
        if self.calls == self.fault {
            return Err(io::Error::from(ErrorKind::Other));
        }
        let n = self.rest.len().min(self.step).min(buf.len());
        buf[..n].copy_from_slice(&self.rest[..n]);
        self.rest = &self.rest[n..];
        Ok(n)
    }
}

/// An output that takes at most `step` bytes at a call. The call with the number `fault` fails, counted from 1.
#[derive(Drop)]
pub struct Output {
    taken: RefCell<Vec<u8>>,
    calls: Cell<usize>,
    step: usize,
    fault: usize,
}

impl Output {
    pub fn make(alloc: Global, step: usize, fault: usize) -> Output {
        Output {
            taken: RefCell::new(Vec::new(alloc)),
            calls: Cell::new(0),
            step,
            fault,
        }
    }

    /// Whether just these bytes were taken so far.
    pub fn took(&self, bytes: &[u8]) -> bool {
        match self.taken.try_borrow() {
            Ok(taken) => taken.as_slice() == bytes,
            Err(_) => false,
        }
    }
}

impl Print for Output {
    fn print<D: Display + Drop>(&self, _value: D) -> io::Result<()> {
        Err(io::Error::from(ErrorKind::Unsupported))
    }

    fn println<D: Display + Drop>(&self, _value: D) -> io::Result<()> {
        Err(io::Error::from(ErrorKind::Unsupported))
    }

    fn write_all(&self, _bytes: &[u8]) -> io::Result<()> {
        Err(io::Error::from(ErrorKind::Unsupported))
    }

    fn write_some(&self, bytes: &[u8]) -> io::Result<usize> {
        self.calls.set(self.calls.get().saturating_add(1));
        if self.calls.get() == self.fault {
            return Err(io::Error::from(ErrorKind::Other));
        }
        let Ok(mut taken) = self.taken.try_borrow_mut() else {
            return Err(io::Error::from(ErrorKind::Other));
        };
        let n = bytes.len().min(self.step);
        match taken.extend_from_slice(&bytes[..n]) {
            Ok(()) => Ok(n),
            Err(_) => Err(io::Error::from(ErrorKind::OutOfMemory)),
        }
    }
}
