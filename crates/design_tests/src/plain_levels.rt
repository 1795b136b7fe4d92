//! Measures of taps, compared with the plainest way to compute them: one frequency after another.

use crate::made::Numbers;
use sdf_filters::{Band, FilterSpec, filter_texts, taps_of};
use std::alloc::Global;
use std::f64::consts::TAU;
use std::num::saturating_f64_to_u64;
use std::test::Fail;
use test_texts::says;

/// The least and the greatest magnitude.
#[derive(Clone, Copy)]
struct Heights {
    least: f64,
    greatest: f64,
}

/// Returns the magnitude of `taps` at an angle in radians a sample.
fn magnitude(taps: &[i32], angle: f64) -> f64 {
    let turn = 2.0 * angle.cos();
    let mut last = 0.0;
    let mut before = 0.0;
    for &tap in taps {
        let next = turn * last - before + f64::from(tap);
        before = last;
        last = next;
    }
    (last * last + before * before - turn * last * before)
        .max(0.0)
        .sqrt()
}

/// Returns a magnitude in dB.
fn decibels(magnitude: f64) -> f64 {
    20.0 * magnitude.max(1e-12).log10()
}

/// Returns the least and the greatest magnitude of a filter's taps between two frequencies, as parts of the unit.
fn magnitudes(wanted: FilterSpec, taps: &[i32], from: u32, to: u32) -> Heights {
    let unit = f64::from(wanted.up) * f64::from(wanted.shift).exp2();
    let from = f64::from(from);
    let to = f64::from(to);
    let mut magnitudes = Heights {
        least: f64::INFINITY,
        greatest: 0.0,
    };
    for step in 0..2049u32 {
        let part = f64::from(step) / 2048.0;
        let frequency = from + (to - from) * part;
        let magnitude = magnitude(taps, TAU * frequency / f64::from(wanted.rate)) / unit;
        magnitudes = Heights {
            least: magnitudes.least.min(magnitude),
            greatest: magnitudes.greatest.max(magnitude),
        };
    }
    magnitudes
}

/// Returns the line with the measures of `taps`.
fn plain_told(alloc: Global, wanted: FilterSpec, taps: &[i32]) -> Result<String, Fail> {
    let half = wanted.rate / 2;
    let (passed, loudest) = match wanted.band {
        Band::Low { pass, stop } => (
            magnitudes(wanted, taps, 0, pass),
            magnitudes(wanted, taps, stop, half).greatest,
        ),
        Band::High { stop, pass } => (
            magnitudes(wanted, taps, pass, half),
            magnitudes(wanted, taps, 0, stop).greatest,
        ),
        Band::Middle {
            low_stop,
            low_pass,
            pass,
            stop,
        } => (
            magnitudes(wanted, taps, low_pass, pass),
            magnitudes(wanted, taps, 0, low_stop)
                .greatest
                .max(magnitudes(wanted, taps, stop, half).greatest),
        ),
    };
    let ripple = decibels(passed.greatest)
        .abs()
        .max(decibels(passed.least).abs());
    let ripple = saturating_f64_to_u64((ripple * 1e4).round());
    let down = saturating_f64_to_u64((-decibels(loudest) * 10.0).round());
    Ok(format!(in alloc;
        "{} tap{}: passband ripple {}.{:04} dB, stopband attenuation {}.{} dB\n",
        taps.len(),
        if taps.len() == 1 { "" } else { "s" },
        ripple / 10_000,
        ripple % 10_000,
        down / 10,
        down % 10
    )?)
}

/// Adds a filter whose printed measures differ from the plain ones. Returns the number of its taps.
fn push_other(alloc: Global, text: &mut String, wanted: FilterSpec) -> Result<usize, Fail> {
    let Ok(taps) = taps_of(alloc, wanted) else {
        return Ok(0);
    };
    let plain = plain_told(alloc, wanted, &taps)?;
    let summary = filter_texts(alloc, wanted)?.summary;
    if plain.as_str() != summary.as_str() {
        writeln!(text, "{wanted:?}: {summary}in place of {plain}")?;
    }
    Ok(taps.len())
}

/// Low-passes at 8000 Hz: `pass`, `stop`, the attenuation and `shift`. The first five have few taps, and the taps of
/// the fifth are not the same from both ends. The ripple of each other filter depends on one frequency. These
/// frequencies are in lanes of their own, from the second lane on.
const LOW_PASSES: &[(u32, u32, u32, u32)] = &[
    (1000, 3000, 0, 14),
    (1000, 3000, 8, 14),
    (1000, 3000, 12, 14),
    (1000, 3000, 20, 14),
    (1000, 3000, 8, 0),
    (3210, 3270, 25, 15),
    (3156, 3236, 30, 15),
    (2940, 3002, 29, 15),
    (3250, 3310, 28, 15),
    (2346, 2612, 27, 15),
    (2522, 2601, 25, 15),
    (2710, 3052, 24, 15),
    (3295, 3383, 24, 15),
    (2946, 3119, 23, 15),
    (2582, 2876, 32, 15),
    (1505, 2024, 36, 15),
    (1779, 2282, 24, 15),
    (2969, 3037, 25, 15),
    (2203, 2402, 26, 15),
    (2568, 2629, 27, 15),
];

/// Returns the number of taps of each low-pass, and those whose printed measures differ from the plain ones.
fn low_passes(alloc: Global) -> Result<String, Fail> {
    let mut text = String::new(alloc);
    for &(pass, stop, attenuation, shift) in LOW_PASSES {
        let wanted = FilterSpec {
            rate: 8000,
            band: Band::Low { pass, stop },
            attenuation,
            up: 1,
            shift,
        };
        let taps = push_other(alloc, &mut text, wanted)?;
        write!(text, "{taps} ")?;
    }
    Ok(text)
}

/// Returns the number of filters that `seed` makes, and the filters whose printed measures differ from the plain ones.
fn made(alloc: Global, seed: u64) -> Result<String, Fail> {
    let mut text = String::new(alloc);
    let mut numbers = Numbers::new(seed);
    let mut filters = 0u32;
    for _ in 0..24 {
        let wanted = numbers.wanted();
        if push_other(alloc, &mut text, wanted)? > 0 {
            filters = filters.saturating_add(1);
        }
    }
    write!(text, "{filters} filters")?;
    Ok(text)
}

/// Tests that no frequency of a lane is left out, that no frequency is outside the band, and that all taps are used.
#[test]
fn levels_as_plainly(rt: HostRuntime) -> Result<(), Fail> {
    says(
        low_passes(rt.alloc()),
        "1 2 3 5 2 160 155 191 188 41 122 28 103 50 47 32 19 141 52 176 ",
    )?;
    says(made(rt.alloc(), 4), "18 filters")
}
