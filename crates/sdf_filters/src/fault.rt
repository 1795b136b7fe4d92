//! The faults of filters, and of conversions between two rates.

ghost use Rattle.std.specs.Prelude.{◌≡◌, Ok};
ghost use Rattle.sdf_filters.specs.Lowpass.{tested};

use std::alloc::{AllocError, AllocFailed};
use thiserror::Error;

/// The reason why a filter, or a conversion between two rates, can't be made. Its text says what to change.
#[derive(Debug, Clone, Copy, PartialEq, Eq, Error)]
pub enum FilterFault {
    /// An allocation was refused.
    #[error("out of memory")]
    OutOfMemory,
    /// The filter's `up` is outside its limits.
    #[error("--up is {up}: it must be 1 to 64")]
    Up { up: u32 },
    /// The filter's `shift` is over its limit.
    #[error("--shift is {shift}: it must be 0 to 15")]
    Shift { shift: u32 },
    /// The attenuation is over 200 dB.
    #[error("--attenuation is {attenuation} dB: it must be 0 to 200")]
    Attenuation { attenuation: u32 },
    /// The passed frequencies do not end below the stopped ones.
    #[error("--pass is {pass} Hz and --stop is {stop} Hz: lower --pass or raise --stop")]
    PassNotBelowStop { pass: u32, stop: u32 },
    /// The stopped frequencies begin above half the rate.
    #[error("--stop is {stop} Hz, above half of --rate, which is {rate} Hz: lower --stop or raise --rate")]
    StopOverHalf { stop: u32, rate: u32 },
    /// Kaiser's formula asks for more taps than a filter may have.
    #[error("{taps} taps, but 1024 is the limit: move --pass and --stop further apart, or lower --attenuation")]
    TooManyTaps { taps: usize },
    /// A tap of this size has more than 16 bits.
    #[error("a tap of size {size} does not fit in 16 bits: lower --shift, or lower --pass and --stop")]
    TapTooLarge { size: u32 },
    /// The stopped frequencies of a high-pass do not end below the passed ones.
    #[error("--stop is {stop} Hz and --pass is {pass} Hz: for a high-pass, lower --stop or raise --pass")]
    StopNotBelowPass { stop: u32, pass: u32 },
    /// The stopped frequencies below a band-pass do not end below the passed ones.
    #[error("--low-stop is {low_stop} Hz and --low-pass is {low_pass} Hz: a band-pass needs both, the first lower")]
    LowStopNotBelowLowPass { low_stop: u32, low_pass: u32 },
    /// The passed frequencies begin above half the rate.
    #[error("--pass is {pass} Hz, above half of --rate, which is {rate} Hz: lower --pass or raise --rate")]
    PassOverHalf { pass: u32, rate: u32 },
    /// The passed frequencies do not begin below their end.
    #[error("--low-pass is {low_pass} Hz and --pass is {pass} Hz: lower --low-pass or raise --pass")]
    NothingPasses { low_pass: u32, pass: u32 },
    /// A high-pass has no phases, but its `up` is not 1.
    #[error("--up is {up}: a high-pass needs --up 1")]
    UpOfHighpass { up: u32 },
    /// A filter of a conversion would work at a rate of more than 32 bits.
    #[error("a filter would run at {rate} Hz, above 4294967295 Hz: use lower rates")]
    RateTooLarge { rate: u64 },
    /// The number of channels is not 1 to 8, the numbers that a WAV file may have.
    #[error("--channels is {channels}: it must be 1 to 8")]
    Channels { channels: u32 },
    /// A rate is 0.
    #[error("a rate is 0: both must be at least 1")]
    NoRate,
    /// The ratio of the rates, in lowest terms, has this factor over 64, which no number from 2 to 64 divides.
    #[error("the ratio of the rates has the factor {factor}, which no number from 2 to 64 divides: use another rate")]
    FactorTooLarge { factor: u32 },
    /// Only `fit` channels of a design with wide taps fit in a graph.
    #[error("{channels} channels need more than 64 actors, and {fit} fit: use fewer channels, or --fast")]
    TooManyActors { channels: u32, fit: u32 },
    /// The filters of a conversion delay the sound by over 2^40 frames.
    #[error("the filters of this conversion delay a sound too long: use other rates, or --fast")]
    TooLate,
}

impl From<AllocError> for FilterFault {
    ghost use Rattle.sdf_filters.specs.declared.fault.FilterFault.TheVariants.{OutOfMemory};

    ghost from_gives = { λ _ e. e ≡ OutOfMemory };

    fn from(_: AllocError) -> FilterFault {
        FilterFault::OutOfMemory
    }
}

impl<T: Drop> From<AllocFailed<T>> for FilterFault {
    ghost use Rattle.sdf_filters.specs.declared.fault.FilterFault.TheVariants.{OutOfMemory};

    ghost from_gives = { λ _ e. e ≡ OutOfMemory };

    fn from(_: AllocFailed<T>) -> FilterFault {
        FilterFault::OutOfMemory
    }
}

/// Returns `fault` unless the test has passed.
pub(crate) fn test(passed: bool, fault: FilterFault) -> Result<(), FilterFault>
    ensures { result ≡ tested passed fault (Ok tt) }
{
    if passed { Ok(()) } else { Err(fault) }
}
