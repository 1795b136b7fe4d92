//! A writer that holds the first bytes back until there are enough of them.

ghost use Rattle.std.specs.Prelude.{◌≡◌, [], OnOk};
ghost use Rattle.std.specs.Io.KnownBytes.{append_known, Keeps};

use std::alloc::{AllocError, Global};
use std::io::{self, ErrorKind, Write};

/// The most bytes that are held back. `sox` looks for a header in its first read of a pipe, and needs 256 bytes there.
const MAX_HELD: usize = 256;

/// A writer that holds back the first bytes for `to` until there are `MAX_HELD` of them. So a reader of a pipe gets the
/// header of a sound together with samples.
#[derive(Drop)]
pub(crate) struct HeldStart<'a, W> {
    to: &'a mut W,
    held: Vec<u8>,
    /// Whether what was held was handed on.
    is_over: bool,
}

impl<'a, W: Write> HeldStart<'a, W> {
    /// Returns a writer that holds nothing yet.
    pub(crate) fn new(alloc: Global, to: &'a mut W) -> Result<HeldStart<'a, W>, AllocError> {
        Ok(HeldStart {
            to,
            held: Vec::with_capacity(alloc, MAX_HELD)?,
            is_over: false,
        })
    }

    /// Writes what is held, in one call if `to` takes all of it. Bytes that `to` refuses stay held.
    #[tactic(auto, using(crate::proofs::Taken::unchanged, crate::proofs::Taken::handed_on, crate::proofs::Taken::refused))]
    pub(crate) fn hand_on(&mut self) -> io::Result<()>
        ensures bytes { Keeps (append_known (W.contents self.old.to.now) self.old.held.items)
            (append_known (W.contents self.new.to.now) self.new.held.items) }
        ensures empty { OnOk result (self.new.held.items ≡ []) }
    {
        self.is_over = true;
        while !self.held.is_empty() {
            let count = self.to.write(&self.held)?;
            if count == 0 {
                return Err(io::Error::from(ErrorKind::WriteZero));
            }
            self.held.drain(..count);
        }
        Ok(())
    }
}

impl<W: Write> Write for HeldStart<'_, W> {
    ghost contents = { λ start. append_known (W.contents start.to.now) start.held.items };

    #[tactic(auto, using(crate::proofs::Taken::held_more, crate::proofs::Taken::passed_on, crate::proofs::Taken::refused))]
    fn write(&mut self, bytes: &[u8]) -> io::Result<usize> {
        let room = MAX_HELD.saturating_sub(self.held.len());
        if !self.is_over && room > 0 {
            let count = bytes.len().min(room);
            self.held.extend_from_slice(&bytes[..count])?;
            return Ok(count);
        }
        self.hand_on()?;
        self.to.write(bytes)
    }

    #[tactic(auto, using(crate::proofs::Taken::refused))]
    fn flush(&mut self) -> io::Result<()> {
        self.hand_on()?;
        self.to.flush()
    }
}
