//! A reader or writer of std that moves few bytes a call, slips at one call, and records what it was asked for.

ghost use Rattle.std.specs.Prelude.{◌≤◌, None, IfOk};

use std::alloc::Global;
use std::io::{self, ErrorKind};

/// What a device does at one of its calls, instead of moving bytes.
#[derive(Clone, Copy, Debug, PartialEq, Eq)]
pub enum Slip {
    /// It returns an error of the kind `Other`.
    Fails,
    /// It returns an error of the kind `Interrupted`.
    IsInterrupted,
    /// It moves no byte.
    MovesNothing,
}

/// A reader or writer over `device`, which moves few bytes a call and can slip at one.
#[derive(Drop)]
pub struct Faulty<D> {
    pub device: D,
    /// How many bytes a call moves at most.
    pub most: usize,
    /// What it does at call number `at`.
    pub slip: Slip,
    /// The number of the call that slips, counted from 1; 0 for none.
    pub at: usize,
    /// How many bytes each call asked for.
    pub asked: Vec<usize>,
}

impl<D> Faulty<D> {
    /// Returns a device that moves at most `most` bytes a call, and never slips.
    pub fn moving(alloc: Global, device: D, most: usize) -> Faulty<D> {
        Faulty::slipping(alloc, device, most, Slip::Fails, 0)
    }

    /// Returns a device that moves at most `most` bytes a call, and slips at call number `at`.
    pub fn slipping(alloc: Global, device: D, most: usize, slip: Slip, at: usize) -> Faulty<D> {
        Faulty {
            device,
            most,
            slip,
            at,
            asked: Vec::new(alloc),
        }
    }

    /// Records a call that asks for `len` bytes, and returns how many it may move. Slips if it is call number `at`.
    fn begin_call(&mut self, len: usize) -> io::Result<usize>
        ensures { IfOk result (λ n. n ≤ len) }
    {
        self.asked.push(len)?;
        if self.asked.len() != self.at {
            return Ok(len.min(self.most));
        }
        match self.slip {
            Slip::Fails => Err(io::Error::from(ErrorKind::Other)),
            Slip::IsInterrupted => Err(io::Error::from(ErrorKind::Interrupted)),
            Slip::MovesNothing => Ok(0),
        }
    }
}

impl<R: io::Read> io::Read for Faulty<R> {
    ghost remaining = { λ _. None };

    fn read(&mut self, buf: &mut [u8]) -> io::Result<usize> {
        match self.begin_call(buf.len())? {
            0 => Ok(0),
            count => self.device.read(&mut buf[..count]),
        }
    }
}

impl<W: io::Write> io::Write for Faulty<W> {
    ghost contents = { λ _. None };

    fn write(&mut self, bytes: &[u8]) -> io::Result<usize> {
        match self.begin_call(bytes.len())? {
            0 => Ok(0),
            count => self.device.write(&bytes[..count]),
        }
    }

    fn flush(&mut self) -> io::Result<()> {
        self.device.flush()
    }
}
