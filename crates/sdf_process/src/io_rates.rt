//! I/O rates: the channels and samples that a net exchanges with WAV files in a period. With them the rate and size of
//! an output follow from its input.

ghost use Rattle.std.specs.Prelude.{◌≡◌, ◌≤◌, ◌<◌, ◌*◌, ◌/◌, ℕ, List, length, nat_lt, MatchResult, Some};
ghost use Rattle.sdf_graph.specs.Periods.{IsLeastPeriod};
ghost use Rattle.sdf_graph.specs.Rates.{rates};
ghost use Rattle.sdf_actor.specs.declared.sides.Lists.TheVariants.{Inputs, Outputs};
ghost use Rattle.sdf_actor.specs.Graphs.{graph_of};
ghost use Rattle.sdf_actor.specs.NetFaults.{WasAccepted};
ghost use Rattle.sdf_actor.specs.Sides.{list_count};
ghost use Rattle.sdf_kit.specs.Kit.{kit_steps};
ghost use Rattle.sdf_process.specs.Output.{io_rates_of, info_of, info_fault, periods_for};
ghost use Rattle.sdf_process.specs.Output.{AreIoRates, IsOutputSize};

use sdf_actor::Net;
use sdf_faults::Fault;
use sdf_kit::Kit;
use sdf_wav::{FormatFault, MAX_BYTES_A_SECOND, MAX_CHANNELS, MAX_DATA_BYTES, Wav};

/// The channels and samples that a net moves in a period.
#[derive(Clone, Copy)]
pub(crate) struct IoRates {
    /// The number of channels that are read, which are the lowest ones.
    pub(crate) inputs: usize,
    /// The number of channels that are made.
    pub(crate) outputs: usize,
    /// Samples taken from each channel that is read.
    pub(crate) taken: usize,
    /// Samples put on each channel that is made.
    pub(crate) made: usize,
}

/// Stream info: what is known of a sound before its samples are read.
#[derive(Clone, Copy)]
pub(crate) struct StreamInfo {
    pub(crate) rate: u32,
    pub(crate) channels: u16,
    pub(crate) frames: usize,
}

impl StreamInfo {
    /// Returns the stream info of `input`.
    pub(crate) fn of_sound(input: &Wav) -> StreamInfo
        ensures { result ≡ info_of input.now }
    {
        StreamInfo {
            rate: input.rate(),
            channels: input.channels(),
            frames: input.frames(),
        }
    }
}

/// Output size: the rate of an output, and its length in periods.
#[derive(Clone, Copy)]
pub(crate) struct OutputSize {
    pub(crate) rate: u32,
    pub(crate) periods: u32,
}

impl IoRates {
    /// Returns what `net`, with at most eight inputs and at most eight outputs, exchanges in a period.
    pub(crate) fn of_net(net: &Net<Kit>) -> IoRates
        requires inputs { list_count Inputs net.now.nodes ≤ MAX_CHANNELS }
        requires outputs { list_count Outputs net.now.nodes ≤ MAX_CHANNELS }
        ensures value { (q : List ℕ) → IsLeastPeriod (rates (graph_of kit_steps net.now)) q →
            result ≡ io_rates_of net.now q }
        ensures limits { AreIoRates result }
        ensures accepted { WasAccepted kit_steps net.now }
    {
        IoRates {
            inputs: net.inputs(),
            outputs: net.outputs(),
            taken: net.samples_in(),
            made: net.samples_out(),
        }
    }

    /// Returns the number of periods that it takes to read `frames` frames.
    fn periods(self, frames: usize) -> usize
        requires { AreIoRates self }
        ensures { result ≡ periods_for self frames }
    {
        frames.div_ceil(self.taken)
    }

    /// Returns whether the output data of `periods` periods would exceed 4,294,967,259 bytes.
    fn is_too_long(self, periods: usize) -> bool
        requires { AreIoRates self }
        ensures { result ≡ nat_lt 4294967259 (2 * (periods * self.made * self.outputs)) }
    {
        periods > MAX_DATA_BYTES as usize / 2 / (self.made * self.outputs)
    }

    /// Returns the rate and the length of the output, or the reason why there can't be one.
    pub(crate) fn output_size(self, info: StreamInfo) -> Result<OutputSize, Fault>
        requires limits { AreIoRates self }
        requires rate { 1 ≤ info.rate }
        ensures { MatchResult result (IsOutputSize self info) (λ e. info_fault self info ≡ Some e) }
    {
        if usize::from(info.channels) < self.inputs {
            return Err(Fault::ChannelsMissing);
        }
        let made = u64::from(info.rate) * self.made as u64;
        let taken = self.taken as u64;
        if !made.is_multiple_of(taken) {
            return Err(Fault::RateNotWhole);
        }
        let rate = made / taken;
        if rate * (2 * self.outputs as u64) > MAX_BYTES_A_SECOND {
            return Err(Fault::Wav(FormatFault::RateTooLarge));
        }
        let periods = self.periods(info.frames);
        if self.is_too_long(periods) {
            return Err(Fault::Wav(FormatFault::TooLong));
        }
        Ok(OutputSize {
            rate: rate as u32,
            periods: periods as u32,
        })
    }
}
