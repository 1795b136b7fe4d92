//! WAV files of 16-bit PCM, read and written exactly.
//!
//! A sound is a [`Wav`]: a rate, 1 to 8 channels, and samples. [`read_wav`] reads one from any [`Reader`], and returns
//! the first fault of any other input. [`write_wav`] writes the one canonical file of a sound to any [`Writer`].
//!
//! It depends on `byteorder` and `thiserror` alone. Begin with the grammar in `specs/Grammar.antt`, the faults in
//! `specs/Fault.antt` and the canonical file in `specs/Canonical.antt`. Then read `reading`, `writing` and the `laws`.
#![tactic(auto)]

mod chunks;
mod content;
mod content_in;
mod content_out;
mod device;
mod fault;
mod format;
mod from_read;
pub mod laws;
mod moving;
mod parts;
mod reading;
mod to_write;
mod wav;
mod wav_in;
mod wav_out;
mod writing;

pub use content::UNKNOWN_SIZE;
pub use content_in::ContentIn;
pub use content_out::ContentOut;
pub use device::{DeviceFault, Reader, Writer};
pub use fault::{FormatFault, WavFault};
pub use from_read::FromRead;
pub use parts::EXTENSIBLE_TAG;
pub use reading::read_wav;
pub use to_write::ToWrite;
pub use wav::{MAX_CHANNELS, Wav};
pub use wav_in::WavIn;
pub use wav_out::WavOut;
pub use writing::{HEADER_BYTES, MAX_BYTES_A_SECOND, MAX_DATA_BYTES, write_wav};
