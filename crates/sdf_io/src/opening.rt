//! The header of a sound that does not give the true size of its samples.

ghost use Rattle.std.specs.Prelude.{◌≤◌, IfSome};

use byteorder::{ByteOrder, LittleEndian};
use sdf_wav::MAX_CHANNELS;

/// The bytes before the first chunk: `RIFF`, a size and `WAVE`.
const START: u64 = 12;

/// The bytes before the content of a chunk: its id and its size.
const HEADER: usize = 8;

/// The bytes at the front of the content of the format that have its tag and its channels.
const FORMAT: usize = 4;

/// How far a sound was read, up to the size of its samples. That size is replaced by 0xFFFFFFFF, as if it had never
/// been filled in.
#[derive(Clone, Copy)]
pub(crate) struct Opening {
    /// The number of bytes before the next header of a chunk.
    skipped: u64,
    /// The header of a chunk, as far as it was read.
    header: [u8; HEADER],
    read: usize,
    /// The front of the content of the first format, as far as it was read.
    format: [u8; FORMAT],
    format_read: usize,
    /// Whether the content of a format was reached.
    has_format: bool,
    is_over: bool,
}

impl Opening {
    /// Returns the opening at the start of a sound.
    pub(crate) fn new() -> Opening {
        Opening {
            skipped: START,
            header: [0; HEADER],
            read: 0,
            format: [0; FORMAT],
            format_read: 0,
            has_format: false,
            is_over: false,
        }
    }

    /// Checks whether this is the header of the `data` chunk.
    fn is_data(&self) -> bool {
        &self.header[..4] == b"data".as_slice()
    }

    /// Returns the number of bytes before the end of the next header.
    pub(crate) fn bytes_left(&self) -> usize {
        let left = HEADER.saturating_sub(self.read);
        usize::try_from(self.skipped)
            .unwrap_or(usize::MAX)
            .saturating_add(left)
    }

    /// Returns the bytes of a frame once the samples begin: 2 for each channel. With none or too many channels it is 1,
    /// and readers refuse the header.
    pub(crate) fn frame(&self) -> Option<usize>
        ensures { IfSome result (λ size. 1 ≤ size) }
    {
        if !self.is_over {
            return None;
        }
        match LittleEndian::read_u16(&self.format[2..]) {
            channels @ 1..=MAX_CHANNELS => Some(2 * usize::from(channels)),
            _ => Some(1),
        }
    }

    /// Moves past a whole header: into the samples, or to the next chunk.
    fn pass(&mut self) {
        self.is_over = self.is_data();
        self.has_format = self.has_format || &self.header[..4] == b"fmt ".as_slice();
        let size = u64::from(LittleEndian::read_u32(&self.header[4..]));
        self.skipped = size + size % 2;
        self.read = 0;
    }

    /// Takes the next byte of a header, and sets it to 0xFF if it is part of the size of the samples.
    fn take(&mut self, byte: &mut u8) {
        if let Some(place) = self.header.get_mut(self.read) {
            *place = *byte;
        }
        self.read = self.read.saturating_add(1);
        if self.read > 4 && self.is_data() {
            *byte = 0xFF;
        }
        if self.read >= HEADER {
            self.pass();
        }
    }

    /// Takes the next byte of the content of a chunk, and keeps it if it is at the front of the first format.
    fn skip(&mut self, byte: u8) {
        self.skipped = self.skipped.saturating_sub(1);
        if !self.has_format {
            return;
        }
        if let Some(place) = self.format.get_mut(self.format_read) {
            *place = byte;
            self.format_read = self.format_read.saturating_add(1);
        }
    }

    /// Takes the next `bytes` of a sound, and sets the ones of the size of the samples to 0xFF.
    pub(crate) fn open(&mut self, bytes: &mut [u8]) {
        for byte in bytes {
            if self.is_over {
                return;
            }
            if self.skipped > 0 {
                self.skip(*byte);
            } else {
                self.take(byte);
            }
        }
    }
}
