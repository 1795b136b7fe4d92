//! The design that converts between two rates with wide taps, as texts.

ghost use Rattle.std.specs.Prelude.{◌≡◌, ◌≤◌, ◌<◌, ◌+◌, ◌*◌, ◌/◌, ◌%◌, ◌^◌, ◌⊎◌, pos, length, string_bytes};
ghost use Rattle.std.specs.Prelude.{IfOk, MatchResult};
ghost use Rattle.sdf_limits.specs.declared.TheConstants.{MAX_TAPS};
ghost use Rattle.sdf_filters.specs.declared.wide_converter.TheConstants.{WIDE_SHIFT};
ghost use Rattle.sdf_filters.specs.Lowpass.{IsTapFault, IsCountFault};
ghost use Rattle.sdf_filters.specs.Stages.{IsSplit, IsSplitFault};
ghost use Rattle.sdf_filters.specs.Wide.{AreWholeTaps};
ghost use Rattle.sdf_filters.specs.WideConverters.{IsPartFile, IsWideStage, AreMade, IsWideConverter, IsWideStageFault};
ghost use Rattle.sdf_filters.specs.WideConverters.{IsWideFault};

use crate::coefficients::coefficient_text;
use crate::converter::{ConverterTexts, check_channels};
use crate::ends::{Part, push_part_name};
use crate::fault::FilterFault;
use crate::fitted::Edges;
use crate::lowpass::check_count;
use crate::measure::{Range, Response};
use crate::parts::{Parts, parts_of};
use crate::split::wide_stages;
use crate::stage::{Stage, StageFile, WideStage};
use crate::texts::push_summary;
use crate::whole::whole_taps;
use crate::wide_cost::{Place, WideRule};
use crate::wide_graph::wide_graph_text;
use crate::zeros::{best_more, late_after, more_at};
use sdf_limits::MAX_TAPS;
use std::alloc::{AllocError, Global};
use std::num::saturating_f64_to_u32;

/// The bits of wide taps behind the point: their sum in each phase is 2 to this power.
pub(crate) const WIDE_SHIFT: u32 = 21;

/// The part of half the lower rate that passes, in thousandths, unless another is asked for.
pub const USUAL_PASS: u32 = 907;

/// The attenuation of the sharp stage in dB, unless another is asked for.
pub const USUAL_ATTENUATION: u32 = 110;

/// The dB that what passes may lose in all stages, and the sharp stage's part of it.
const LOSS: f64 = 0.009;

const SHARP_PART: f64 = 0.6;

/// A conversion with wide taps.
#[derive(Debug, Clone, Copy, PartialEq, Eq)]
pub struct WideSpec {
    pub from: u32,
    pub to: u32,
    pub channels: u32,
    /// The attenuation in dB.
    pub attenuation: u32,
    /// The part of half the lower rate that passes, in thousandths.
    pub pass: u32,
}

/// A stage's filter: its edges, and the number of its taps.
#[derive(Clone, Copy)]
struct Filter {
    edges: Edges,
    count: usize,
    ghost odd: { count % 2 ≡ 1 },
    ghost few: { count ≤ MAX_TAPS },
}

/// Returns the rule of the stages of a conversion. Each of `stages` filters loses its part.
fn rule_of(wanted: WideSpec, stages: usize, room: u32) -> WideRule {
    let half = f64::from(wanted.from.min(wanted.to)) / 2.0;
    let sharp_loss = if stages > 1 { LOSS * SHARP_PART } else { LOSS };
    let others = stages.saturating_sub(1).clamp(1, 1000) as u32;
    WideRule {
        half,
        pass: half * f64::from(wanted.pass) / 1000.0,
        attenuation: wanted.attenuation,
        sharp_loss,
        other_loss: (LOSS - sharp_loss) / f64::from(others),
        rises: wanted.from < wanted.to,
        room: f64::from(room),
    }
}

/// Returns the filter of a stage that takes `rate` samples a second and puts `put`.
fn filter_of(
    alloc: Global,
    rule: WideRule,
    rate: f64,
    put: f64,
    stage: Stage,
    at: Place,
) -> Result<Filter, FilterFault>
    ensures { MatchResult result (λ _. Unit {0}) (λ fault. IsCountFault fault ⊎ IsTapFault fault) }
{
    let edges = rule.edges(rate, f64::from(stage.up), put, at);
    let count = edges.count(alloc, stage.up as usize)?;
    Ok(Filter { edges, count })
}

/// Returns the filters of `stages`.
fn filters_of(alloc: Global, wanted: WideSpec, stages: &[Stage]) -> Result<Vec<Filter>, FilterFault>
    ensures { MatchResult result (λ filters. length filters.items ≡ length stages.now)
        (λ fault. IsCountFault fault ⊎ IsTapFault fault) }
{
    let rule = rule_of(wanted, stages.len(), 0);
    let mut filters = Vec::new(alloc);
    let mut rate = f64::from(wanted.from);
    for place in 0..stages.len() {
        let stage = stages[place];
        let put = rate * f64::from(stage.up) / f64::from(stage.down);
        let at = Place {
            is_first: place == 0,
            is_last: place + 1 == stages.len(),
        };
        filters.push(filter_of(alloc, rule, rate, put, stage, at)?)?;
        rate = put;
    }
    Ok(filters)
}

/// The stages of a conversion, their filters, and by how many frames the first stage is late beyond the fewest.
#[derive(Drop)]
struct Split {
    stages: Vec<Stage>,
    filters: Vec<Filter>,
    more: usize,
    ghost all: { length filters.items ≡ length stages.items },
    ghost more_few: { more ≤ 64 },
}

/// Returns the numbers of taps of filters.
fn counts_of(alloc: Global, filters: &[Filter]) -> Result<Vec<usize>, AllocError> {
    let mut counts = Vec::new(alloc);
    for filter in filters {
        counts.push(filter.count)?;
    }
    Ok(counts)
}

/// Returns the cheapest stages that leave `room` taps free.
fn split_with(alloc: Global, wanted: WideSpec, room: u32) -> Result<Split, FilterFault>
    ensures { MatchResult result (λ split. IsSplit wanted.from wanted.to split.stages.items)
        (λ fault. IsSplitFault wanted.from wanted.to fault ⊎ (IsCountFault fault ⊎ IsTapFault fault)) }
{
    let stages = wide_stages(alloc, wanted.from, wanted.to, rule_of(wanted, 2, room))?;
    let filters = filters_of(alloc, wanted, &stages)?;
    let counts = counts_of(alloc, &filters)?;
    let more = best_more(&stages, &counts)?;
    Ok(Split {
        stages,
        filters,
        more,
    })
}

/// Returns the cheapest stages whose filters have room for their taps and zeros.
fn split_of(alloc: Global, wanted: WideSpec) -> Result<Split, FilterFault>
    ensures { MatchResult result (λ split. IsSplit wanted.from wanted.to split.stages.items)
        (λ fault. IsSplitFault wanted.from wanted.to fault ⊎ (IsCountFault fault ⊎ IsTapFault fault)) }
{
    match split_with(alloc, wanted, 0) {
        Err(FilterFault::TooManyTaps { .. }) => split_with(alloc, wanted, 64),
        split => split,
    }
}

/// Returns whether a real tap does not fit in 16 bits behind a point of 15.
fn is_tall(reals: &[f64]) -> bool {
    let most = f64::from(1u32 << WIDE_SHIFT) * 0.999;
    for real in reals {
        if *real > most {
            return true;
        }
    }
    false
}

/// Returns the real taps of a filter, with zeros in front.
fn reals_of(alloc: Global, filter: Filter, zeros: usize, up: u32) -> Result<Vec<f64>, AllocError>
    requires { zeros ≤ MAX_TAPS }
    ensures { IfOk result (λ reals. length reals.items ≡ zeros + filter.count) }
{
    let cut = filter.edges.cut(alloc, filter.count)?;
    let sum = f64::from(1u32 << WIDE_SHIFT) * f64::from(up);
    let taps = filter.edges.reals(alloc, cut, filter.count, sum)?;
    let mut reals = vec![in alloc; 0.0; zeros]?;
    reals.extend_from_slice(&taps)?;
    Ok(reals)
}

/// Returns the coefficient file of a part of a stage.
fn part_file(
    alloc: Global,
    part: Part,
    number: usize,
    taps: &[i32],
    rate: u32,
) -> Result<StageFile, AllocError>
    ensures { IfOk result (IsPartFile part number taps.now) }
{
    let mut name = String::new(alloc);
    push_part_name(&mut name, part, number)?;
    name.push_str(".toml")?;
    let text = coefficient_text(alloc, taps)?;
    Ok(StageFile {
        name,
        text,
        summary: String::new(alloc),
        rate,
        taps: taps.len().min(MAX_TAPS) as u32,
    })
}

/// Returns the line with the measures of the wide taps of a stage.
fn summary_of(alloc: Global, filter: Filter, taps: &[i32], up: u32) -> Result<String, AllocError> {
    let Edges {
        rate,
        pass,
        stop,
        ..
    } = filter.edges;
    let unit = f64::from(1u32 << WIDE_SHIFT) * f64::from(up);
    let response = Response::new(taps, rate, unit);
    let passed = Range {
        from: 0.0,
        to: pass,
    };
    let stopped = Range {
        from: stop,
        to: rate / 2.0,
    };
    let measures = response.measures(passed, &[stopped]);
    let mut summary = String::new(alloc);
    push_summary(&mut summary, filter.count, measures)?;
    Ok(summary)
}

/// A stage, and its two files.
#[derive(Drop)]
struct MadeStage {
    wide: WideStage,
    high: StageFile,
    low: StageFile,
}

/// Returns a stage and its files.
fn make_stage(
    alloc: Global,
    number: usize,
    stage: Stage,
    filter: Filter,
    zeros: u64,
) -> Result<MadeStage, FilterFault>
    ensures made { MatchResult result
        (λ made. IsWideStage number stage made.wide made.high made.low) IsWideStageFault }
    ensures taps { IfOk result (λ made. made.wide.taps ≡ filter.count) }
    ensures zeros { IfOk result (λ made. made.wide.zeros ≡ zeros) }
{
    let up = stage.up as usize;
    let zeros = room_for(zeros, filter.count, up)?;
    let reals = reals_of(alloc, filter, zeros, stage.up)?;
    let taps = whole_taps(alloc, &reals, zeros, up, 1i64 << WIDE_SHIFT)?;
    let bits = if is_tall(&reals) { 7 } else { 6 };
    let Parts { high, low, wait } = parts_of(alloc, &taps, bits, up)?;
    let rate = saturating_f64_to_u32(filter.edges.rate);
    let high = part_file(alloc, Part::High, number, &high, rate)?;
    let mut low = part_file(alloc, Part::Low, number, &low, rate)?;
    low.summary = summary_of(alloc, filter, &taps, stage.up)?;
    let wide = WideStage {
        stage,
        wait,
        bits,
        taps: filter.count,
        zeros,
    };
    Ok(MadeStage { wide, high, low })
}

/// Returns `zeros` if there is room for them in front of `count` taps, and each of `up` phases has a tap.
fn room_for(zeros: u64, count: usize, up: usize) -> Result<usize, FilterFault>
    requires { count ≤ MAX_TAPS }
    ensures is { IfOk result (λ given. given ≡ zeros) }
    ensures room { MatchResult result (λ given. given + count ≤ MAX_TAPS) IsCountFault }
    ensures some { IfOk result (λ given. up ≤ given + count) }
{
    let most = (MAX_TAPS - count) as u64;
    if zeros > most || count < up {
        return Err(FilterFault::TooManyTaps { taps: MAX_TAPS + 1 });
    }
    Ok(zeros as usize)
}

/// The stages of a conversion, their files, and the delay in frames.
#[derive(Drop)]
struct AllMade {
    wides: Vec<WideStage>,
    files: Vec<StageFile>,
    late: u64,
}

/// Returns the stages and their files. The first stage is late by `more` frames beyond the fewest.
fn all_made(
    alloc: Global,
    stages: &[Stage],
    filters: &[Filter],
    more: usize,
) -> Result<AllMade, FilterFault>
    requires all { length filters.now ≡ length stages.now }
    requires more { more ≤ 64 }
    ensures { MatchResult result
        (λ all. AreMade stages.now (length stages.now) all.wides.items all.files.items all.late) IsWideStageFault }
{
    let mut wides = Vec::new(alloc);
    let mut files = Vec::new(alloc);
    let mut late = 0;
    for place in 0..stages.len() {
        let stage = stages[place];
        let filter = filters[place];
        let after = late_after(late, stage, filter.count, more_at(place, more))?;
        let made = make_stage(alloc, place + 1, stage, filter, after.zeros)?;
        wides.push(made.wide)?;
        files.push(made.high)?;
        files.push(made.low)?;
        late = after.frames;
    }
    Ok(AllMade { wides, files, late })
}

/// Tests that the stages of all channels fit in a graph. A channel has 6 actors for each stage and 4 more, but one
/// channel has no use of the fork.
fn check_actors(channels: u32, stages: usize) -> Result<(), FilterFault>
    ensures { MatchResult result (λ _. channels ≤ 65 / (4 + 6 * stages)) IsWideStageFault }
{
    let fit = if stages > 64 {
        0
    } else {
        65 / (4 + 6 * stages as u32)
    };
    if channels > fit {
        return Err(FilterFault::TooManyActors { channels, fit });
    }
    Ok(())
}

/// Returns the design that converts between two rates with wide taps: 22 bits, of which two filters of 16 bits have a
/// part each.
///
/// The stages are given by `wide_cost`. Each has an odd number of taps, with zeros in front of them, so the output is
/// late by whole frames. Frequencies up to `pass` thousandths of half the lower rate pass. What is above half the lower
/// rate is attenuated by `attenuation` dB. No clause says so.
pub fn wide_converter_texts(alloc: Global, wanted: WideSpec) -> Result<ConverterTexts, FilterFault>
    ensures { MatchResult result
        (λ texts. IsWideConverter wanted (string_bytes texts.graph) texts.files.items texts.delay)
        (IsWideFault wanted) }
{
    let WideSpec {
        from,
        to,
        channels,
        ..
    } = wanted;
    check_channels(channels)?;
    let split = split_of(alloc, wanted)?;
    check_actors(channels, split.stages.len())?;
    let made = all_made(alloc, &split.stages, &split.filters, split.more)?;
    let graph = wide_graph_text(alloc, from, to, channels, &made.wides)?;
    Ok(ConverterTexts {
        graph,
        files: made.files,
        delay: u128::from(made.late),
    })
}
