//! The texts that are printed of a filter.

ghost use Rattle.std.specs.Prelude.{◌≡◌, ◌++◌, OnOk, MatchResult, string_bytes};
ghost use Rattle.sdf_filters.specs.FilterSpecs.{IsFault};
ghost use Rattle.sdf_filters.specs.Filters.{band_text, head_text, with_places, with_place, summary_text};
ghost use Rattle.sdf_filters.specs.Filters.{counted_taps, AreFilterTexts};

use crate::coefficients::push_coefficients;
use crate::fault::FilterFault;
use crate::filter::taps_of;
use crate::filter_spec::{Band, FilterSpec};
use crate::measure::Measured;
use std::alloc::{AllocError, Global};

/// The texts that are printed of a filter: the coefficient file, and the line with the measures of its taps.
#[derive(Drop)]
pub struct FilterTexts {
    pub file: String,
    pub summary: String,
    pub taps: u32,
}

/// Adds the kind of a filter and the edges of its bands.
fn push_band(text: &mut String, band: Band) -> Result<(), AllocError>
    ensures { OnOk result (string_bytes text.new ≡ string_bytes text.old ++ band_text band) }
{
    match band {
        Band::Low { pass, stop } => write!(text, "low-pass {pass}..{stop}"),
        Band::High { stop, pass } => write!(text, "high-pass {stop}..{pass}"),
        Band::Middle {
            low_stop,
            low_pass,
            pass,
            stop,
        } => { write!(text, "band-pass {low_stop}..{low_pass}..{pass}..{stop}") }
    }
}

/// Adds the first line of a coefficient file.
#[tactic(auto, unfolding(crate::specs::Filters::head_text))]
fn push_spec(text: &mut String, wanted: FilterSpec) -> Result<(), AllocError>
    ensures { OnOk result (string_bytes text.new ≡ string_bytes text.old ++ head_text wanted) }
{
    let up = wanted.up;
    let shift = wanted.shift;
    write!(text, "# fir up {up} shift {shift}, ")?;
    push_band(text, wanted.band)?;
    let rate = wanted.rate;
    let attenuation = wanted.attenuation;
    writeln!(text, " Hz at {rate} Hz, {attenuation} dB")
}

/// Adds `number` ten-thousandths, with four digits after the point.
fn push_places(text: &mut String, number: u64) -> Result<(), AllocError>
    ensures { OnOk result (string_bytes text.new ≡ string_bytes text.old ++ with_places number) }
{
    let whole = number / 10_000;
    let first = number / 1000 % 10;
    let second = number / 100 % 10;
    let third = number / 10 % 10;
    let fourth = number % 10;
    write!(text, "{whole}.{first}{second}{third}{fourth}")
}

/// Adds `number` tenths, with one digit after the point.
fn push_place(text: &mut String, number: u64) -> Result<(), AllocError>
    ensures { OnOk result (string_bytes text.new ≡ string_bytes text.old ++ with_place number) }
{
    let whole = number / 10;
    let tenths = number % 10;
    write!(text, "{whole}.{tenths}")
}

/// Adds the number of taps, which begins the line, and the name of the first measure.
fn push_count(text: &mut String, count: usize) -> Result<(), AllocError>
    ensures { OnOk result (string_bytes text.new ≡ string_bytes text.old ++ counted_taps count) }
{
    match count {
        1 => text.push_str("1 tap: passband ripple "),
        _ => write!(text, "{count} taps: passband ripple "),
    }
}

/// Adds the line with the measures of `count` taps.
#[tactic(auto, unfolding(crate::specs::Filters::summary_text))]
pub(crate) fn push_summary(
    text: &mut String,
    count: usize,
    measures: Measured,
) -> Result<(), AllocError>
    ensures { OnOk result (string_bytes text.new ≡ string_bytes text.old ++ summary_text count measures) }
{
    push_count(text, count)?;
    push_places(text, measures.ripple)?;
    text.push_str(" dB, stopband attenuation ")?;
    push_place(text, measures.attenuation)?;
    text.push_str(" dB\n")
}

/// Returns the coefficient file of the taps of a filter, and the line with their measures.
#[tactic(auto, using(crate::proofs::TapCounts::few_taps))]
pub fn filter_texts(alloc: Global, wanted: FilterSpec) -> Result<FilterTexts, FilterFault>
    ensures { MatchResult result
        (λ texts. AreFilterTexts wanted (string_bytes texts.file) (string_bytes texts.summary) texts.taps)
        (IsFault wanted) }
{
    let taps = taps_of(alloc, wanted)?;
    let mut file = String::new(alloc);
    push_spec(&mut file, wanted)?;
    push_coefficients(&mut file, &taps)?;
    let mut summary = String::new(alloc);
    push_summary(&mut summary, taps.len(), wanted.measures(&taps))?;
    Ok(FilterTexts {
        file,
        summary,
        taps: taps.len() as u32,
    })
}
