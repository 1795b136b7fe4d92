//! Why a call fails.

ghost use Rattle.std.specs.Prelude.{◌≡◌};
ghost use Rattle.sdf_wav.specs.declared.fault.ReadFault.TheVariants as read_faults;
ghost use Rattle.sdf_wav.specs.declared.fault.WavFault.TheVariants as faults;
ghost use Rattle.sdf_wav.specs.Device.{wav_fault};

use crate::device::DeviceFault;
use std::alloc::AllocError;
use thiserror::Error;

/// How an input breaks the format, or why a sound does not fit into it. Each prints as its number and its name.
#[derive(Clone, Copy, Debug, PartialEq, Eq, Error)]
pub enum FormatFault {
    /// The first four bytes are not `RIFF`.
    #[error("34 NotRiff")]
    NotRiff,
    /// Bytes 8 to 11 are not `WAVE`.
    #[error("35 NotWave")]
    NotWave,
    /// There is no `fmt ` chunk before the data, or before the end of an input without data.
    #[error("36 NoFormat")]
    NoFormat,
    /// The `fmt ` chunk has fewer than 16 bytes, or an extensible one fewer than 40.
    #[error("37 ShortFormat")]
    ShortFormat,
    /// The samples are not 16-bit PCM.
    #[error("38 NotPcm16")]
    NotPcm16,
    /// There are no channels, or more than 8.
    #[error("39 Channels")]
    Channels,
    /// The rate is 0.
    #[error("40 RateZero")]
    RateZero,
    /// The block align is not two bytes for each channel.
    #[error("41 BadAlign")]
    BadAlign,
    /// The input ends after a `fmt ` chunk and before any data.
    #[error("42 NoData")]
    NoData,
    /// The input ends within one of its parts.
    #[error("43 Truncated")]
    Truncated,
    /// The samples are not a whole number of frames.
    #[error("44 PartialFrame")]
    PartialFrame,
    /// There are more chunks before the data, or more bytes of data, than are accepted.
    #[error("45 TooLong")]
    TooLong,
    /// The bytes a second do not fit into the 32 bits of the header.
    #[error("46 RateTooLarge")]
    RateTooLarge,
}

/// Why a call of this crate fails: memory, the format, or a device.
#[derive(Clone, Copy, Debug, PartialEq, Eq, Error)]
pub enum WavFault {
    /// An allocation failed.
    #[error("1 OutOfMemory")]
    OutOfMemory,
    /// The input, or the sound, has this fault.
    #[error(transparent)]
    Format(FormatFault),
    /// The reader failed during the call.
    #[error("47 Read")]
    Read,
    /// The writer failed during the call.
    #[error("48 Write")]
    Write,
}

/// Why reading fails.
#[derive(Clone, Copy, Debug, PartialEq, Eq)]
pub(crate) enum ReadFault {
    OutOfMemory,
    Format(FormatFault),
    Device,
}

impl From<FormatFault> for WavFault {
    ghost from_gives = { λ fault e. e ≡ faults.Format fault };

    fn from(fault: FormatFault) -> WavFault {
        WavFault::Format(fault)
    }
}

impl From<ReadFault> for WavFault {
    ghost from_gives = { λ fault e. e ≡ wav_fault fault };

    fn from(fault: ReadFault) -> WavFault {
        match fault {
            ReadFault::OutOfMemory => WavFault::OutOfMemory,
            ReadFault::Format(fault) => WavFault::Format(fault),
            ReadFault::Device => WavFault::Read,
        }
    }
}

impl From<FormatFault> for ReadFault {
    ghost from_gives = { λ fault e. e ≡ read_faults.Format fault };

    fn from(fault: FormatFault) -> ReadFault {
        ReadFault::Format(fault)
    }
}

impl From<DeviceFault> for ReadFault {
    ghost from_gives = { λ _ e. e ≡ read_faults.Device };

    fn from(_fault: DeviceFault) -> ReadFault {
        ReadFault::Device
    }
}

impl From<AllocError> for ReadFault {
    ghost from_gives = { λ _ e. e ≡ read_faults.OutOfMemory };

    fn from(_fault: AllocError) -> ReadFault {
        ReadFault::OutOfMemory
    }
}
