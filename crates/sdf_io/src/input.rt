//! A reader of a sound that notes what it reads.

ghost use Rattle.std.specs.Prelude.{None, is_some, if◌then◌else◌};

use crate::open_ended::OpenEnded;
use std::alloc::Global;
use std::io::{self, Read};

/// The most bytes that are kept of the beginning of a sound.
const MAX_FRONT: usize = 16_384;

/// What is known of a sound that was read: its path, its first bytes, and the number of all bytes read. `refused` is
/// the last error of the system.
#[derive(Drop)]
pub struct InputTrace {
    pub name: String,
    pub front: Vec<u8>,
    pub bytes: u64,
    /// Whether the size of the samples in the header does not count.
    pub open_ended: bool,
    /// The bytes of a last frame that is cut off, which are left out.
    pub left_out: usize,
    pub refused: Option<io::Error>,
}

impl InputTrace {
    /// Returns the trace before anything is read.
    pub fn new(alloc: Global) -> InputTrace {
        InputTrace {
            name: String::new(alloc),
            front: Vec::new(alloc),
            bytes: 0,
            open_ended: false,
            left_out: 0,
            refused: None,
        }
    }

    /// Notes `bytes` that were read. The front grows no more once memory was refused for it.
    pub fn note(&mut self, bytes: &[u8]) {
        if self.front.len() as u64 == self.bytes {
            let room = MAX_FRONT.saturating_sub(self.front.len());
            let kept = bytes.len().min(room);
            let _ = self.front.extend_from_slice(&bytes[..kept]);
        }
        self.bytes = self.bytes.saturating_add(bytes.len() as u64);
    }
}

/// A reader that passes on what `from` reads, and notes it in `trace`.
#[derive(Drop)]
struct NotedReader<'a, R> {
    from: &'a mut R,
    trace: &'a mut InputTrace,
}

impl<R: Read> Read for NotedReader<'_, R> {
    ghost remaining = { λ noted. R.remaining noted.from.now };

    fn read(&mut self, buf: &mut [u8]) -> io::Result<usize> {
        match self.from.read(buf) {
            Ok(count) => {
                self.trace.note(&buf[..count]);
                Ok(count)
            }
            Err(error) => {
                self.trace.refused = Some(error);
                Err(error)
            }
        }
    }
}

/// A reader of a sound that notes in its trace what it reads.
#[derive(Drop)]
pub struct Input<'a, R> {
    noted: NotedReader<'a, R>,
    open_ended: Option<OpenEnded>,
}

impl<'a, R: Read> Input<'a, R> {
    /// Returns a reader at the start of a sound. If `open_ended`, the size of the samples in its header does not count,
    /// and a last frame that is cut off is left out.
    pub fn new(from: &'a mut R, trace: &'a mut InputTrace, open_ended: bool) -> Input<'a, R> {
        trace.open_ended = open_ended;
        Input {
            noted: NotedReader { from, trace },
            open_ended: if open_ended {
                Some(OpenEnded::new())
            } else {
                None
            },
        }
    }
}

impl<R: Read> Read for Input<'_, R> {
    ghost remaining = { λ input. if is_some input.open_ended then None else R.remaining input.noted.from.now };

    fn read(&mut self, buf: &mut [u8]) -> io::Result<usize> {
        let Some(open_ended) = &mut self.open_ended else {
            return self.noted.read(buf);
        };
        let read = open_ended.read(&mut self.noted, buf);
        self.noted.trace.left_out = open_ended.unpassed();
        read
    }
}

/// Checks whether `from` has another byte, and takes it.
pub fn has_more<R: Read>(from: &mut R) -> bool {
    let mut byte = [0];
    match from.read(&mut byte) {
        Ok(count) => count > 0,
        Err(_) => false,
    }
}
