//! The design that converts between two rates, as texts.

ghost use Rattle.std.specs.Prelude.{◌≡◌, ◌+◌, ◌*◌, ◌/◌, ◌<◌, ◌++◌, IfOk, MatchResult, slice_get};
ghost use Rattle.std.specs.Prelude.{string_bytes, codes, length};
ghost use Rattle.sdf_filters.specs.Graphs.{stage_name};
ghost use Rattle.sdf_filters.specs.Converters.{passed, stage_spec, rate_at, IsStageFile, AreStageFiles};
ghost use Rattle.sdf_filters.specs.Converters.{channels_test, IsRateFault, IsStagesFault, IsConverter};
ghost use Rattle.sdf_filters.specs.Converters.{IsConverterFault};
ghost use Rattle.sdf_filters.specs.FilterSpecs.{IsFault};

use crate::delay::delay;
use crate::ends::push_stage_name;
use crate::fault::{FilterFault, test};
use crate::filter_spec::{Band, FilterSpec};
use crate::graph::{STAGE_SHIFT, graph_text};
use crate::split::stages;
use crate::stage::{Stage, StageFile};
use crate::texts::filter_texts;
use sdf_limits::MAX_CHANNEL;
use std::alloc::{AllocError, Global};

/// A design that converts between two rates: its graph file, and the coefficient file of each stage, in order.
#[derive(Drop)]
pub struct ConverterTexts {
    pub graph: String,
    pub files: Vec<StageFile>,
    /// By how many frames the output is late, rounded to the nearest.
    pub delay: u128,
}

/// Tests the number of channels.
pub(crate) fn check_channels(channels: u32) -> Result<(), FilterFault>
    ensures { result ≡ channels_test channels }
{
    test(
        1 <= channels && channels <= MAX_CHANNEL + 1,
        FilterFault::Channels { channels },
    )
}

/// Returns the highest frequency that passes a conversion, in Hz: ten elevenths of half the lower rate.
fn passed(from: u32, to: u32) -> u32
    ensures { result ≡ passed from to }
{
    (u64::from(from.min(to)) * 5 / 11) as u32
}

/// Returns `rate` if it fits in 32 bits.
fn rate_of(rate: u64) -> Result<u32, FilterFault>
    ensures { MatchResult result (λ given. given ≡ rate) (IsRateFault rate) }
{
    match u32::try_from(rate) {
        Ok(rate) => Ok(rate),
        Err(_) => Err(FilterFault::RateTooLarge { rate }),
    }
}

/// Returns the filter of a stage whose input has this `rate`. It stops the images of what passes, and all that would
/// alias onto it.
fn stage_spec(
    rate: u32,
    pass: u32,
    attenuation: u32,
    stage: Stage,
) -> Result<FilterSpec, FilterFault>
    ensures { MatchResult result (λ wanted. wanted ≡ stage_spec rate pass attenuation stage)
        (IsRateFault (rate * stage.up)) }
{
    let at = rate_of(u64::from(rate) * u64::from(stage.up))?;
    let stop = rate.min(at / stage.down).saturating_sub(pass);
    Ok(FilterSpec {
        rate: at,
        band: Band::Low { pass, stop },
        attenuation,
        up: stage.up,
        shift: STAGE_SHIFT,
    })
}

/// Returns the name of a stage's coefficient file.
fn file_name(alloc: Global, number: usize) -> Result<String, AllocError>
    ensures { IfOk result (λ name. string_bytes name ≡ stage_name number ++ codes ".toml") }
{
    let mut name = String::new(alloc);
    push_stage_name(&mut name, number)?;
    name.push_str(".toml")?;
    Ok(name)
}

/// Returns the coefficient file of a stage.
fn stage_file(alloc: Global, number: usize, wanted: FilterSpec) -> Result<StageFile, FilterFault>
    ensures { MatchResult result (IsStageFile wanted number) (IsFault wanted) }
{
    let texts = filter_texts(alloc, wanted)?;
    let name = file_name(alloc, number)?;
    Ok(StageFile {
        name,
        text: texts.file,
        summary: texts.summary,
        rate: wanted.rate,
        taps: texts.taps,
    })
}

/// Returns the coefficient files of `stages`, the first of which takes the rate `from`.
fn stage_files(
    alloc: Global,
    from: u32,
    pass: u32,
    attenuation: u32,
    stages: &[Stage],
) -> Result<Vec<StageFile>, FilterFault>
    ensures { MatchResult result (λ files. AreStageFiles from pass attenuation stages.now files.items)
        (IsStagesFault from pass attenuation stages.now) }
{
    let mut files = Vec::new(alloc);
    let mut rate = from;
    for place in 0..stages.len() {
        let stage = stages[place];
        let wanted = stage_spec(rate, pass, attenuation, stage)?;
        let file = stage_file(alloc, place + 1, wanted)?;
        files.push(file)?;
        rate = wanted.rate / stage.down;
    }
    Ok(files)
}

/// Returns the design that converts between two rates, with filters that are to attenuate images and aliases by
/// `attenuation` dB.
///
/// Its stages are given by `stages`, each with the taps of its filter. Frequencies up to ten elevenths of half the
/// lower rate pass, and nothing aliases onto them. Between these and half the rate, images may be left.
pub fn converter_texts(
    alloc: Global,
    from: u32,
    to: u32,
    channels: u32,
    attenuation: u32,
) -> Result<ConverterTexts, FilterFault>
    ensures { MatchResult result
        (λ texts. IsConverter from to channels attenuation (string_bytes texts.graph) texts.files.items texts.delay)
        (IsConverterFault from to channels attenuation) }
{
    check_channels(channels)?;
    let stages = stages(alloc, from, to, attenuation)?;
    let files = stage_files(alloc, from, passed(from, to), attenuation, &stages)?;
    let graph = graph_text(alloc, from, to, channels, &stages)?;
    let delay = delay(to, &files);
    Ok(ConverterTexts {
        graph,
        files,
        delay,
    })
}
