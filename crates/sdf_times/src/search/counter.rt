//! The firings at one end of a channel that those at the other end wait for, in a sweep.

ghost use Rattle.std.specs.Prelude.{◌<◌, length};

use sdf_graph::{Channel, End};

/// The firings at one end of a channel that those at the other have awaited so far, and what they moved. `lead` samples
/// are there before the first, and `back` whole blocks of `whole` samples.
#[derive(Clone, Copy)]
pub(crate) struct Counter {
    lead: u64,
    back: u64,
    whole: u64,
    firings: u32,
    samples: u64,
    wanted: u64,
}

/// Returns the other end of a channel.
pub(crate) fn opposite(end: End) -> End {
    match end {
        End::Source => End::Target,
        End::Target => End::Source,
    }
}

impl Counter {
    /// Returns a counter before a sweep, if `first` samples are there from the beginning and a block moves `whole`.
    pub(crate) fn new(first: u64, whole: u64) -> Counter {
        let lead = first.checked_rem(whole).unwrap_or(0);
        Counter {
            lead,
            back: first.checked_div(whole).unwrap_or(0),
            whole,
            firings: 0,
            samples: lead,
            wanted: whole,
        }
    }

    /// Returns the counter at the begin of the next sweep.
    pub(crate) fn restarted(self) -> Counter {
        Counter {
            lead: self.lead,
            back: self.back,
            whole: self.whole,
            firings: 0,
            samples: self.lead,
            wanted: self.whole,
        }
    }

    /// Returns the counter after firing `number` at the end `waits`, and after the firings at the other end that it
    /// awaits, of which there are at most `most`.
    pub(crate) fn after(self, channel: &Channel, waits: End, number: u32, most: u32) -> Counter
        requires put { 0 < length channel.now.put }
        requires take { 0 < length channel.now.take }
    {
        let wanted = self
            .wanted
            .saturating_add(u64::from(channel.moves(waits, number)));
        let mut firings = self.firings;
        let mut samples = self.samples;
        for next in self.firings..most {
            if samples >= wanted {
                break;
            }
            samples = samples.saturating_add(u64::from(channel.moves(opposite(waits), next)));
            firings = next + 1;
        }
        Counter {
            lead: self.lead,
            back: self.back,
            whole: self.whole,
            firings,
            samples,
            wanted,
        }
    }

    /// Returns the number of the last awaited firing, counted from the block before that in which samples are left.
    pub(crate) fn last(self) -> u32 {
        self.firings.saturating_sub(1)
    }

    /// Returns how many blocks before the last awaited firing is, if the actor fires `count` times in a block.
    pub(crate) fn blocks(self, count: u32) -> u32
        requires { 0 < count }
    {
        let back = self.back.min(1_000_000) as u32 + 1;
        back.saturating_sub(self.last() / count)
    }
}
