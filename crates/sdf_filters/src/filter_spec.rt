//! Filters, specified in plain numbers.

use crate::measure::{Measured, Range, Response};

/// The frequencies that a filter passes and stops, in Hz.
#[derive(Debug, Clone, Copy, PartialEq, Eq)]
pub enum Band {
    /// A low-pass: frequencies up to `pass` pass, frequencies from `stop` on are stopped.
    Low {
        pass: u32,
        stop: u32,
    },
    /// A high-pass: frequencies up to `stop` are stopped, frequencies from `pass` on pass.
    High {
        stop: u32,
        pass: u32,
    },
    /// A band-pass: frequencies from `low_pass` to `pass` pass. Frequencies up to `low_stop` and from `stop` on are
    /// stopped.
    Middle {
        low_stop: u32,
        low_pass: u32,
        pass: u32,
        stop: u32,
    },
}

/// A filter, specified in plain numbers.
#[derive(Debug, Clone, Copy, PartialEq, Eq)]
pub struct FilterSpec {
    /// The rate of the filter in samples a second: the rate of the actor's input times `up`.
    pub rate: u32,
    pub band: Band,
    /// The attenuation of stopped frequencies, in dB.
    pub attenuation: u32,
    /// The actor's keys `up` and `shift`.
    pub up: u32,
    pub shift: u32,
}

fn range(from: u32, to: u32) -> Range {
    Range {
        from: f64::from(from),
        to: f64::from(to),
    }
}

impl FilterSpec {
    /// Measures the ripple and the attenuation of `taps`. The unit is `up` times `2^shift`: the taps of each phase of a
    /// low-pass sum to `2^shift`.
    pub(crate) fn measures(self, taps: &[i32]) -> Measured {
        let unit = f64::from(self.up) * f64::from(self.shift).exp2();
        let response = Response::new(taps, f64::from(self.rate), unit);
        let half = self.rate / 2;
        match self.band {
            Band::Low { pass, stop } => response.measures(range(0, pass), &[range(stop, half)]),
            Band::High { stop, pass } => response.measures(range(pass, half), &[range(0, stop)]),
            Band::Middle {
                low_stop,
                low_pass,
                pass,
                stop,
            } => response.measures(
                range(low_pass, pass),
                &[range(0, low_stop), range(stop, half)],
            ),
        }
    }
}
